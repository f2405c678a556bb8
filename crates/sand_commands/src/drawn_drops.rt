//! The command `drops` at the sites of a stream. It writes while it drops.
//!
//! Rows are written in blocks, so memory does not grow with the number of drops. After the first byte only the writer
//! can fail: room for all grains is checked before the first drop, and a drop allocates nothing. If the writer fails,
//! it took the start of a whole text, because the missing drops would have settled too.

ghost use Rattle.std.specs.Prelude.{◌≡◌, ◌+◌, ◌≤◌, [], Some, IfErr, OnOk};
ghost use Rattle.sand_model.specs.Grid.{sites};
ghost use Rattle.sand_model.specs.Piles.{PileView, most_grains_on};
ghost use Rattle.sand_settle.specs.Drops.{grid_of_driven, IsAfter};
ghost use Rattle.sand_text.specs.Blocks.{BreaksIn, GrowsBy};
ghost use Rattle.sand_cli.specs.Asked.{IsDraw};
ghost use Rattle.sand_commands.specs.Commands.{IsDropsFault, IsWritten, WorkEnds};
ghost use Rattle.sand_commands.specs.DropsCommand.{IsDropsText, drawn_sites};
ghost use Rattle.sand_commands.specs.Streaming.{AreAdded, BreaksInRows, end_in, head_in, pile_and_sums, row_in};

use crate::faults::DeskFault;
use crate::texts::read_pile;
use sand_cli::{Draw, Part};
use sand_settle::{Avalanche, DrivenPile, Settled};
use sand_streams::SiteReader;
use sand_text::{Blocks, StreamFault, table_head};
use sand_wish::{Gate, Role};
use std::alloc::Global;
use std::io::Write;

// The bytes before the rows.
fn head_of(part: Part) -> &'static [u8]
    ensures { result.now ≡ head_in part }
{
    match part {
        Part::All | Part::Table => table_head(),
        Part::Pile => b"",
    }
}

// Appends the row of a drop, unless only the pile is wanted.
fn push_row<W: Write>(
    blocks: &mut Blocks,
    writer: &mut W,
    part: Part,
    number: u64,
    avalanche: Avalanche,
) -> Result<(), StreamFault>
    ensures ok { OnOk result (GrowsBy (W.contents writer.old) (W.contents writer.new)
        blocks.old blocks.new (row_in part (number, avalanche))) }
    ensures err { IfErr result (BreaksIn (W.contents writer.old) (W.contents writer.new)
        blocks.old (row_in part (number, avalanche))) }
{
    match part {
        Part::All | Part::Table => blocks.push_entry(writer, number, avalanche),
        Part::Pile => Ok(()),
    }
}

// Drops grains at the sites of a draw, reading each site as its grain drops, and appends a row for each.
fn drop_drawn<G: Gate, W: Write>(
    gate: &G,
    pile: &mut DrivenPile,
    draw: Draw,
    part: Part,
    blocks: &mut Blocks,
    writer: &mut W,
) -> Result<(), DeskFault>
    requires draw { IsDraw draw }
    requires room { pile.old.grains + draw.count ≤ most_grains_on (grid_of_driven pile.old) }
    ensures rows { OnOk result (AreAdded part draw.from pile.old
        (drawn_sites (sites (grid_of_driven pile.old)) draw) pile.new
        (W.contents writer.old) (W.contents writer.new) blocks.old blocks.new) }
    ensures after { OnOk result ((start : PileView) → IsAfter start [] pile.old
        → IsAfter start (drawn_sites (sites (grid_of_driven pile.old)) draw) pile.new) }
    ensures fault { IfErr result (λ e. (start : PileView) → IsAfter start [] pile.old
        → BreaksInRows start part draw.from pile.old (drawn_sites (sites (grid_of_driven pile.old)) draw)
        (W.contents writer.old) (W.contents writer.new) blocks.old e) }
{
    let mut reader = SiteReader::new(pile.shape(), draw.seed, draw.stream);
    reader.go_to(draw.from);
    for read in 0..draw.count {
        gate.turn(Role::Dropper, 0, read);
        let (_, avalanche) = pile.drop_at(reader.next_site())?;
        push_row(blocks, writer, part, draw.from + u64::from(read), avalanche)?;
    }
    Ok(())
}

fn push_pile_and_sums<W: Write>(
    blocks: &mut Blocks,
    writer: &mut W,
    last: &Settled,
) -> Result<(), StreamFault>
    ensures ok { OnOk result (GrowsBy (W.contents writer.old) (W.contents writer.new)
        blocks.old blocks.new (pile_and_sums last.now)) }
    ensures err { IfErr result (BreaksIn (W.contents writer.old) (W.contents writer.new)
        blocks.old (pile_and_sums last.now)) }
{
    blocks.push_pile(writer, last.pile())?;
    blocks.push_sum(writer, "lost ", last.lost())?;
    blocks.push_sum(writer, "topplings ", last.topplings())
}

// Appends what follows the rows.
fn push_end<W: Write>(
    blocks: &mut Blocks,
    writer: &mut W,
    part: Part,
    last: &Settled,
) -> Result<(), StreamFault>
    ensures ok { OnOk result (GrowsBy (W.contents writer.old) (W.contents writer.new)
        blocks.old blocks.new (end_in part last.now)) }
    ensures err { IfErr result (BreaksIn (W.contents writer.old) (W.contents writer.new)
        blocks.old (end_in part last.now)) }
{
    match part {
        Part::All => push_pile_and_sums(blocks, writer, last),
        Part::Table => Ok(()),
        Part::Pile => blocks.push_pile(writer, last.pile()),
    }
}

/// Drops grains on the pile in the input, at the sites of a stream, and meanwhile writes the wanted part of the text.
/// Calls the gate before each drop.
pub(crate) fn drawn_drops<G: Gate, W: Write>(
    alloc: Global,
    gate: &G,
    input: &[u8],
    draw: Draw,
    part: Part,
    writer: &mut W,
) -> Result<(), DeskFault>
    requires { IsDraw draw }
    ensures done { OnOk result (IsWritten (IsDropsText (Some draw) part input.now)
        (W.contents writer.old) (W.contents writer.new)) }
    ensures fault { IfErr result (WorkEnds (IsDropsText (Some draw) part input.now) (IsDropsFault (Some draw) input.now)
        (W.contents writer.old) (W.contents writer.new)) }
{
    let start = read_pile(alloc, input)?;
    let room = start.shape().grain_limit() - start.grains();
    if u64::from(draw.count) > room {
        return Err(DeskFault::Full);
    }
    let mut blocks = Blocks::new(alloc, head_of(part))?;
    let settled = DrivenPile::new(alloc, &start);
    drop(start);
    let mut pile = settled?;
    let dropped = drop_drawn(gate, &mut pile, draw, part, &mut blocks, writer);
    let last = pile.finish();
    dropped?;
    let ended = push_end(&mut blocks, writer, part, &last);
    drop(last);
    ended?;
    blocks.finish(writer)?;
    Ok(())
}
