//! The table of the avalanches of drops.

ghost use Rattle.std.specs.Prelude.{◌≡◌, IfOk};
ghost use Rattle.sand_text.specs.Tables.{entry_text, table_head, table_text_of};
ghost use Rattle.sand_text.specs.Texts.{row_text};

use crate::rows::push_row;
use sand_fronts::Avalanche;
use std::alloc::{AllocError, Global};

/// The numbers in the line of a drop: its own, and its avalanche's.
pub(crate) fn fields_of(number: u64, avalanche: Avalanche) -> [u64; 6]
    ensures { row_text result ≡ entry_text (number, avalanche) }
{
    let Avalanche {
        site,
        size,
        area,
        reach,
        lost,
    } = avalanche;
    [
        number,
        site as u64,
        size,
        u64::from(area),
        u64::from(reach),
        lost,
    ]
}

/// The first line of a table, which names its columns.
pub fn table_head() -> &'static [u8]
    ensures { result.now ≡ table_head }
{
    b"number site size area reach lost\n"
}

/// The table of drops: a line that names the columns, and a line for each drop, with its number and its avalanche.
pub fn table_text(alloc: Global, rows: &[(u64, Avalanche)]) -> Result<Vec<u8>, AllocError>
    ensures { IfOk result (λ text. text.items ≡ table_text_of rows.now) }
{
    let mut text = Vec::new(alloc);
    text.extend_from_slice(table_head())?;
    for (number, avalanche) in rows {
        push_row(&mut text, &fields_of(*number, *avalanche))?;
    }
    Ok(text)
}
