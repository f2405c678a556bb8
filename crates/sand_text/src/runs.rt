//! The lines of a run of the laboratory: of its epochs, and of its journal. The caller writes the line above them, so
//! no list is copied.

ghost use Rattle.std.specs.Prelude.{◌≡◌, ◌++◌, OnOk};
ghost use Rattle.sand_text.specs.Runs.{epoch_line, journal_line, total_line};

use crate::rows::push_row;
use std::alloc::AllocError;

/// The sums of an epoch, or of a whole run.
#[derive(Clone, Copy, Debug, PartialEq, Eq)]
pub struct Sums {
    pub drops: u64,
    pub topplings: u64,
    /// The grains that fell into the sink.
    pub lost: u64,
    /// The grains on the pile at the end.
    pub grains: u64,
}

/// Writes the line of an epoch: its number and its sums.
pub fn push_epoch(text: &mut Vec<u8>, epoch: u64, sums: Sums) -> Result<(), AllocError>
    ensures { OnOk result (text.new.items ≡ text.old.items ++ epoch_line epoch sums) }
{
    let fields = [epoch, sums.drops, sums.topplings, sums.lost, sums.grains];
    push_row(text, &fields)
}

/// Writes the line of a whole run.
pub fn push_total(text: &mut Vec<u8>, total: Sums) -> Result<(), AllocError>
    ensures { OnOk result (text.new.items ≡ text.old.items ++ total_line total) }
{
    let fields = [total.drops, total.topplings, total.lost, total.grains];
    text.extend_from_slice(b"total ")?;
    push_row(text, &fields)
}

/// Writes the line of a drop: its epoch, its number in that epoch, its dropper and its site.
pub fn push_journal_line(
    text: &mut Vec<u8>,
    epoch: u32,
    number: u64,
    dropper: u32,
    site: usize,
) -> Result<(), AllocError>
    ensures { OnOk result (text.new.items ≡ text.old.items ++ journal_line epoch number (dropper, site)) }
{
    let fields = [u64::from(epoch), number, u64::from(dropper), site as u64];
    push_row(text, &fields)
}
