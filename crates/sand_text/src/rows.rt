//! Appending numbers, and rows of them, to a text.

ghost use Rattle.std.specs.Prelude.{◌≡◌, ◌++◌, ◌+◌, ◌*◌, ◌<◌, ◌≤◌, ◌==◌, length, decimal, vec_len, vec_capacity, IsOk, OnOk, if◌then◌else◌};
ghost use Rattle.sand_model.specs.Grid.{sites};
ghost use Rattle.sand_text.specs.Texts.{row_text, sites_text, sum_line};

use itoa::Buffer;
use sand_model::Shape;
use std::alloc::AllocError;

/// Writes a number in decimal, without leading zeros.
pub fn push_number(text: &mut Vec<u8>, number: u64) -> Result<(), AllocError>
    ensures written { OnOk result (text.new.items ≡ text.old.items ++ decimal number) }

    // It succeeds if there is room for a number.
    ensures room { vec_len text.old + 20 ≤ vec_capacity text.old → IsOk result }
    ensures bound { vec_len text.new ≤ vec_len text.old + 20 }
    ensures capacity { vec_capacity text.old ≤ vec_capacity text.new }
{
    let mut buffer = Buffer::new();
    text.extend_from_slice(buffer.format(number).as_bytes())
}

// The byte after number `index` of a row of `count` numbers.
fn separator(index: usize, count: usize) -> u8
    requires { index < count }
    ensures { result ≡ (if index + 1 == count then 10 else 32) }
{
    if index + 1 == count { b'\n' } else { b' ' }
}

/// Writes a line of numbers, separated by spaces.
pub(crate) fn push_row(text: &mut Vec<u8>, numbers: &[u64]) -> Result<(), AllocError>
    ensures written { OnOk result (text.new.items ≡ text.old.items ++ row_text numbers.now) }

    // It succeeds if there is room for all numbers and a byte after each.
    ensures room { vec_len text.old + 21 * length numbers.now ≤ vec_capacity text.old → IsOk result }
    ensures bound { vec_len text.new ≤ vec_len text.old + 21 * length numbers.now }
    ensures capacity { vec_capacity text.old ≤ vec_capacity text.new }
{
    for (index, number) in numbers.iter().enumerate() {
        push_number(text, *number)?;
        text.push(separator(index, numbers.len()))?;
    }
    Ok(())
}

/// Writes a line with the name and the value of a sum.
pub fn push_sum(text: &mut Vec<u8>, name: &str, sum: u64) -> Result<(), AllocError>
    ensures written { OnOk result (text.new.items ≡ text.old.items ++ sum_line name.now sum) }

    // It succeeds if there is room for the line.
    ensures room { vec_len text.old + length name.now + 21 ≤ vec_capacity text.old → IsOk result }
    ensures capacity { vec_capacity text.old ≤ vec_capacity text.new }
{
    text.extend_from_slice(name.as_bytes())?;
    push_number(text, sum)?;
    text.extend_from_slice(b"\n")
}

/// Writes a number for each site, by grid rows.
pub(crate) fn push_sites(
    text: &mut Vec<u8>,
    shape: Shape,
    numbers: &[u64],
) -> Result<(), AllocError>
    requires { length numbers.now ≡ sites shape }
    ensures written { OnOk result (text.new.items ≡ text.old.items ++ sites_text shape numbers.now) }

    // It succeeds if there is room for all numbers and a byte after each.
    ensures room { vec_len text.old + 21 * sites shape ≤ vec_capacity text.old → IsOk result }
    ensures capacity { vec_capacity text.old ≤ vec_capacity text.new }
{
    let mut rest = numbers;
    'rows: for _ in 0..shape.height() {
        let (row, after) = rest.split_at(shape.width());
        push_row(text, row)?;
        rest = after;
    }
    Ok(())
}
