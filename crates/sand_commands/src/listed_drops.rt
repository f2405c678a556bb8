//! The command `drops` at the sites listed after the pile in the input.

ghost use Rattle.std.specs.Prelude.{◌≡◌, ◌+◌, ◌<◌, [], ◌∷◌, ◌++◌, false, length, vec_len, vec_capacity, if◌then◌else◌, All, None, IfOk, IfErr, OnOk};
ghost use Rattle.sand_model.specs.Grid.{sites};
ghost use Rattle.sand_model.specs.Piles.{PileView};
ghost use Rattle.sand_settle.specs.Drops.{grid_of_driven, IsAfter};
ghost use Rattle.sand_commands.specs.Answers.{IsText};
ghost use Rattle.sand_commands.specs.Commands.{IsDropFault, IsDropsFault, Finds};
ghost use Rattle.sand_commands.specs.DropsCommand.{AreNoted, IsDropsText, drops_in, drops_text_of, is_pile};

use crate::faults::DeskFault;
use crate::texts::{pile_text, read_drops, table_text};
use sand_cli::Part;
use sand_settle::{Avalanche, DrivenPile, Settled};
use sand_text::push_sum;
use std::alloc::{AllocError, Global};

// A list with room for a row per drop, or for none if only the pile is wanted.
fn list_of_rows(
    alloc: Global,
    drops: usize,
    alone: bool,
) -> Result<Vec<(u64, Avalanche)>, AllocError>
    ensures rows { IfOk result (λ rows. rows.items ≡ []) }
    ensures len { IfOk result (λ rows. vec_len rows ≡ 0) }
    ensures room { IfOk result (λ rows. alone ≡ false → vec_capacity rows ≡ drops) }
{
    if alone {
        Ok(Vec::new(alloc))
    } else {
        Vec::with_capacity(alloc, drops)
    }
}

// Records a drop's number and avalanche, unless only the pile is wanted.
fn note(rows: &mut Vec<(u64, Avalanche)>, row: (u64, Avalanche), alone: bool)
    requires { alone ≡ false → vec_len rows.old < vec_capacity rows.old }
    ensures rows { rows.new.items ≡ (if alone then rows.old.items else rows.old.items ++ row ∷ []) }
    ensures len { alone ≡ false → vec_len rows.new ≡ vec_len rows.old + 1 }
    ensures room { vec_capacity rows.new ≡ vec_capacity rows.old }
{
    if !alone {
        rows.push_reserved(row);
    }
}

// Drops a grain at each site in turn and records its row, unless only the pile is wanted.
fn drop_all(
    alloc: Global,
    pile: &mut DrivenPile,
    drops: &[usize],
    alone: bool,
) -> Result<Vec<(u64, Avalanche)>, DeskFault>
    requires { All (λ site. site < sites (grid_of_driven pile.old)) drops.now }
    ensures rows { IfOk result (λ rows. AreNoted alone pile.old drops.now rows.items pile.new) }
    ensures after { OnOk result ((start : PileView) → IsAfter start [] pile.old → IsAfter start drops.now pile.new) }
    ensures fault { IfErr result (IsDropFault (grid_of_driven pile.old) (pile.old.grains + length drops.now)) }
{
    let mut rows = list_of_rows(alloc, drops.len(), alone)?;
    for site in drops {
        let row = pile.drop_at(*site)?;
        note(&mut rows, row, alone);
    }
    Ok(rows)
}

fn drops_text(
    alloc: Global,
    rows: &[(u64, Avalanche)],
    last: &Settled,
) -> Result<Vec<u8>, DeskFault>
    ensures { IsText result (drops_text_of rows.now last.now) }
{
    let mut text = table_text(alloc, rows)?;
    let heights = pile_text(alloc, last.pile())?;
    text.extend_from_slice(heights.as_slice())?;
    push_sum(&mut text, "lost ", last.lost())?;
    push_sum(&mut text, "topplings ", last.topplings())?;
    Ok(text)
}

fn part_text(
    alloc: Global,
    rows: &[(u64, Avalanche)],
    last: &Settled,
    part: Part,
) -> Result<Vec<u8>, DeskFault>
    ensures { IsText result (drops_in part rows.now last.now) }
{
    match part {
        Part::All => drops_text(alloc, rows, last),
        Part::Table => table_text(alloc, rows),
        Part::Pile => pile_text(alloc, last.pile()),
    }
}

fn is_pile(part: Part) -> bool
    ensures { result ≡ is_pile part }
{
    matches!(part, Part::Pile)
}

/// The wanted part of the text of the drops on the settled pile in the input, at the sites listed after it.
pub(crate) fn listed_drops(alloc: Global, input: &[u8], part: Part) -> Result<Vec<u8>, DeskFault>
    ensures text { IfOk result (λ text. IsDropsText None part input.now text.items) }
    ensures fault { IfErr result (Finds (IsDropsFault None input.now)) }
{
    let (start, drops) = read_drops(alloc, input)?;
    let settled = DrivenPile::new(alloc, &start);
    drop(start);
    let mut pile = settled?;
    let noted = drop_all(alloc, &mut pile, drops.as_slice(), is_pile(part));
    let last = pile.finish();
    let rows = noted?;
    part_text(alloc, rows.as_slice(), &last, part)
}
