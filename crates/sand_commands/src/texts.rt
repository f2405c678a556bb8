//! The parsers and writers of `sand_text`, with the program's faults. Every fault of a text is found before anything is
//! allocated, so out of memory comes last.

ghost use Rattle.sand_model.specs.Sand.{IsStable};
ghost use Rattle.sand_model.specs.Piles.{height_of};
ghost use Rattle.sand_text.specs.Pictures.{pgm_text_of};
ghost use Rattle.sand_text.specs.Reading.{pile_of, drops_of, two_of};
ghost use Rattle.sand_text.specs.Texts.{text_of};
ghost use Rattle.sand_text.specs.Tables.{table_text_of};
ghost use Rattle.sand_commands.specs.Answers.{IsText, ReadsAs};

use crate::faults::DeskFault;
use sand_model::Pile;
use sand_settle::Avalanche;
use std::alloc::Global;

/// Parses a pile.
pub fn read_pile(alloc: Global, text: &[u8]) -> Result<Pile, DeskFault>
    ensures { ReadsAs (λ pile. pile) result (pile_of text.now) }
{
    Ok(sand_text::read_pile(alloc, text)?)
}

/// The text of a pile.
pub fn pile_text(alloc: Global, pile: &Pile) -> Result<Vec<u8>, DeskFault>
    ensures { IsText result (text_of pile.now) }
{
    Ok(sand_text::pile_text(alloc, pile)?)
}

/// The picture of a stable pile, as plain PGM.
pub fn pgm_text(alloc: Global, pile: &Pile) -> Result<Vec<u8>, DeskFault>
    requires { IsStable pile.now.grid (height_of pile.now) }
    ensures { IsText result (pgm_text_of pile.now) }
{
    Ok(sand_text::pgm_text(alloc, pile)?)
}

/// Parses two piles, one after the other.
pub fn read_two(alloc: Global, text: &[u8]) -> Result<(Pile, Pile), DeskFault>
    ensures { ReadsAs (λ piles. piles) result (two_of text.now) }
{
    Ok(sand_text::read_two(alloc, text)?)
}

/// Parses a pile and the sites of the drops after it.
pub fn read_drops(alloc: Global, text: &[u8]) -> Result<(Pile, Vec<usize>), DeskFault>
    ensures { ReadsAs (λ (pile, drops). (pile, drops.items)) result (drops_of text.now) }
{
    Ok(sand_text::read_drops(alloc, text)?)
}

/// The table of drops: a line with the column names, then the number and the avalanche of each drop.
pub fn table_text(alloc: Global, rows: &[(u64, Avalanche)]) -> Result<Vec<u8>, DeskFault>
    ensures { IsText result (table_text_of rows.now) }
{
    Ok(sand_text::table_text(alloc, rows)?)
}
