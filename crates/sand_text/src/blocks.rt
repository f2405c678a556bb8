//! A text that is written in blocks while it is made, so memory does not grow with its length.
//!
//! Finished lines wait in a buffer of fixed size, which has room for a block and one more line. Before a line is added, a
//! buffer of `BLOCK` bytes or more goes to the writer. So only whole lines are sent, and once the buffer is allocated only
//! the writer can fail.

ghost use Rattle.std.specs.Prelude.{◌≡◌, ◌+◌, ◌*◌, ◌<◌, ◌≤◌, [], length, IfOk, IfErr, OnOk};
ghost use Rattle.std.specs.Io.KnownBytes.{Appends};
ghost use Rattle.sand_text.specs.Blocks.{BreaksIn, GrowsBy};
ghost use Rattle.sand_text.specs.Tables.{entry_text};
ghost use Rattle.sand_text.specs.Texts.{row_text, shape_text, sites_text, sum_line, text_of};

use crate::fault::StreamFault;
use crate::flow::write_text;
use crate::piles::push_shape;
use crate::rows::{push_row, push_sum};
use crate::tables::fields_of;
use sand_fronts::Avalanche;
use sand_model::{Pile, Shape};
use std::alloc::{AllocError, Global};
use std::io::Write;
use std::marker::Model;

/// Waiting bytes are written once there are this many.
const BLOCK: usize = 65_536;

/// The most bytes of a line: a row of 8,192 numbers of up to 20 digits, and a byte after each.
const LINE: usize = 172_032;

/// The end of a text, which waits to be written.
#[derive(Drop)]
pub struct Blocks {
    waiting: Vec<u8>,
    sent: usize,
}

impl Model for Blocks {
    ghost use Rattle.std.specs.Prelude.{◌≤◌, vec_capacity};
    ghost use Rattle.sand_text.specs.Blocks.{Waiting};

    ghost Value = { Waiting };

    ghost view = { λ b. record { bytes = b.waiting.items; sent = b.sent } };

    ghost invariant = { λ b. 237568 ≤ vec_capacity b.waiting };
}

impl Blocks {
    /// A text that has only its head so far. Only this call allocates.
    pub fn new(alloc: Global, head: &[u8]) -> Result<Blocks, AllocError>
        ensures { IfOk result (λ b. b ≡ record { bytes = head.now; sent = 0 }) }
    {
        let mut waiting = Vec::with_capacity(alloc, BLOCK + LINE)?;
        waiting.extend_from_slice(head)?;
        Ok(Blocks { waiting, sent: 0 })
    }

    fn send<W: Write>(&mut self, writer: &mut W) -> Result<(), StreamFault>
        ensures ok { OnOk result (GrowsBy (W.contents writer.old) (W.contents writer.new) self.old self.new []) }
        ensures all { OnOk result (self.new.bytes ≡ []) }
        ensures err { IfErr result (BreaksIn (W.contents writer.old) (W.contents writer.new) self.old []) }
    {
        let Some(sent) = self.sent.checked_add(self.waiting.len()) else {
            return Err(StreamFault::Write(self.sent));
        };
        match write_text(writer, self.waiting.as_slice()) {
            Ok(()) => {
                self.waiting.clear();
                self.sent = sent;
                Ok(())
            }
            Err(StreamFault::Write(taken)) => Err(StreamFault::Write(self.sent + taken)),
            Err(_) => unreachable!(),
        }
    }

    // Writes what waits if it fills a block, so that there is room for a line.
    fn make_room<W: Write>(&mut self, writer: &mut W) -> Result<(), StreamFault>
        ensures ok { OnOk result (GrowsBy (W.contents writer.old) (W.contents writer.new) self.old self.new []) }
        ensures room { OnOk result (length self.new.bytes < 65536) }
        ensures err { IfErr result (BreaksIn (W.contents writer.old) (W.contents writer.new) self.old []) }
    {
        if self.waiting.len() < BLOCK {
            return Ok(());
        }
        self.send(writer)
    }

    // Adds a line of numbers.
    fn push_row<W: Write>(&mut self, writer: &mut W, numbers: &[u64]) -> Result<(), StreamFault>
        requires { length numbers.now ≤ 8192 }
        ensures ok { OnOk result (GrowsBy (W.contents writer.old)
            (W.contents writer.new) self.old self.new (row_text numbers.now)) }
        ensures bound { OnOk result (length self.new.bytes < 65536 + 21 * length numbers.now) }
        ensures err { IfErr result
            (BreaksIn (W.contents writer.old) (W.contents writer.new) self.old (row_text numbers.now)) }
    {
        self.make_room(writer)?;
        let Ok(()) = push_row(&mut self.waiting, numbers) else {
            unreachable!()
        };
        Ok(())
    }

    /// Adds the line of a drop: its number, and its avalanche. If the writer fails, returns Write with the number of
    /// bytes of the text that it took.
    pub fn push_entry<W: Write>(
        &mut self,
        writer: &mut W,
        number: u64,
        avalanche: Avalanche,
    ) -> Result<(), StreamFault>
        ensures ok { OnOk result (GrowsBy (W.contents writer.old) (W.contents writer.new)
            self.old self.new (entry_text (number, avalanche))) }
        ensures bound { OnOk result (length self.new.bytes < 70912) }
        ensures err { IfErr result
            (BreaksIn (W.contents writer.old) (W.contents writer.new) self.old (entry_text (number, avalanche))) }
    {
        self.push_row(writer, &fields_of(number, avalanche))
    }

    // Adds the first line of a pile's text.
    fn push_shape<W: Write>(&mut self, writer: &mut W, shape: Shape) -> Result<(), StreamFault>
        ensures ok { OnOk result (GrowsBy (W.contents writer.old)
            (W.contents writer.new) self.old self.new (shape_text shape)) }
        ensures err { IfErr result
            (BreaksIn (W.contents writer.old) (W.contents writer.new) self.old (shape_text shape)) }
    {
        self.make_room(writer)?;
        let Ok(()) = push_shape(&mut self.waiting, shape) else {
            unreachable!()
        };
        Ok(())
    }

    // Adds a line of heights for each grid row.
    fn push_heights<W: Write>(&mut self, writer: &mut W, pile: &Pile) -> Result<(), StreamFault>
        ensures ok { OnOk result (GrowsBy (W.contents writer.old)
            (W.contents writer.new) self.old self.new (sites_text pile.now.grid pile.now.heights)) }
        ensures err { IfErr result (BreaksIn (W.contents writer.old)
            (W.contents writer.new) self.old (sites_text pile.now.grid pile.now.heights)) }
    {
        let shape = pile.shape();
        let mut rest = pile.heights();
        'rows: for _ in 0..shape.height() {
            let (row, after) = rest.split_at(shape.width());
            self.push_row(writer, row)?;
            rest = after;
        }
        Ok(())
    }

    /// Adds the text of a pile.
    pub fn push_pile<W: Write>(&mut self, writer: &mut W, pile: &Pile) -> Result<(), StreamFault>
        ensures ok { OnOk result (GrowsBy (W.contents writer.old)
            (W.contents writer.new) self.old self.new (text_of pile.now)) }
        ensures err { IfErr result
            (BreaksIn (W.contents writer.old) (W.contents writer.new) self.old (text_of pile.now)) }
    {
        self.push_shape(writer, pile.shape())?;
        self.push_heights(writer, pile)
    }

    /// Adds a line with the name and the value of a sum.
    pub fn push_sum<W: Write>(
        &mut self,
        writer: &mut W,
        name: &str,
        sum: u64,
    ) -> Result<(), StreamFault>
        requires { length name.now ≤ 5000 }
        ensures ok { OnOk result (GrowsBy (W.contents writer.old)
            (W.contents writer.new) self.old self.new (sum_line name.now sum)) }
        ensures err { IfErr result
            (BreaksIn (W.contents writer.old) (W.contents writer.new) self.old (sum_line name.now sum)) }
    {
        self.make_room(writer)?;
        let Ok(()) = push_sum(&mut self.waiting, name, sum) else {
            unreachable!()
        };
        Ok(())
    }

    /// Writes what still waits, and flushes the writer.
    pub fn finish<W: Write>(mut self, writer: &mut W) -> Result<(), StreamFault>
        ensures ok { OnOk result (Appends (W.contents writer.old) (W.contents writer.new) self.bytes) }
        ensures err { IfErr result (BreaksIn (W.contents writer.old) (W.contents writer.new) self []) }
    {
        self.send(writer)
    }
}
