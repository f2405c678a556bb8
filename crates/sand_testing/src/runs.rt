//! Runs of the laboratory, and what an album shows of them.

ghost use Rattle.std.specs.Prelude.{◌≡◌, ℕ, ◌<◌, IfOk, length};
ghost use Rattle.sand_lab.specs.Albums.{IsPlace};
ghost use Rattle.sand_lab.specs.Reports.{sheet_at};

use sand_lab::{Album, Gate, LabFault, Note, Plan, Report, Wish, run};
use sand_model::Pile;
use std::alloc::Global;
use std::thread::Threads;

/// One epoch, with one dropper that drops nothing and one worker that sweeps nothing.
pub const QUIET: Wish = Wish {
    seed: 0,
    droppers: 1,
    drops: 0,
    epochs: 1,
    workers: 1,
    sweeps: 0,
    observers: 0,
};

/// A wish of these fields; the others are those of `QUIET`.
#[macro_export]
macro_rules! wish {
    ($($field:ident: $value:expr),*) => {
        sand_lab::Wish { $($field: $value,)* ..$crate::runs::QUIET }
    };
}

/// The report of a run into an album.
pub fn run_into<R: Threads + Sync, G: Gate>(
    rt: &R,
    alloc: Global,
    start: &Pile,
    wish: Wish,
    gate: &G,
    album: &Album,
) -> Result<Report, LabFault>
    ensures epochs { IfOk result (λ p. length p.sheets ≡ wish.epochs) }
    ensures tallies { IfOk result (λ p. (t : ℕ) → t < wish.epochs → length (sheet_at p t).tallies ≡ wish.observers) }
    ensures swept { IfOk result (λ p. (t : ℕ) → t < wish.epochs → length (sheet_at p t).swept ≡ wish.workers) }
    ensures places { IfOk result (λ p. (t : ℕ) → t < wish.epochs → IsPlace album.now t (sheet_at p t).place) }
{
    let plan = Plan::new(wish)?;
    run(rt, alloc, start, &plan, gate, album)
}

/// The epoch of the picture at a place, and the height of its first site.
pub fn seen(album: &Album, k: u32, note: &mut Note) -> Option<(u32, u64)>
    requires { IsPlace album.now k note.old.cell }
    ensures { note.new.cell ≡ note.old.cell }
{
    let picture = album.look(k, note)?;
    let height = picture.closed().pile().heights().first()?;
    Some((picture.epoch(), *height))
}

/// The same, seen with a new note.
pub fn seen_anew(album: &Album, k: u32) -> Option<(u32, u64)> {
    if k >= album.places() {
        return None;
    }
    let mut note = album.note(k);
    let seen = seen(album, k, &mut note);
    drop(note);
    seen
}
