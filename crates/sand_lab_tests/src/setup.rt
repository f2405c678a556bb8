//! Runs with an album of their own.

ghost use Rattle.std.specs.Prelude.{◌≡◌, ℕ, ◌<◌, IfOk, length};
ghost use Rattle.sand_lab.specs.Reports.{sheet_at};

use sand_lab::{Album, Gate, LabFault, Report, Wish};
use sand_model::Pile;
use sand_testing::runs::run_into;
use sand_testing::wish;
use std::alloc::Global;
use std::thread::Threads;

/// Two epochs, in which two droppers drop three grains each.
pub const TWO_EPOCHS: Wish = wish!(droppers: 2, drops: 3, epochs: 2, observers: 2);

/// The report of a run with an album of its own.
pub fn run_gated<R: Threads + Sync, G: Gate>(
    rt: &R,
    alloc: Global,
    start: Pile,
    wish: Wish,
    gate: &G,
) -> Result<Report, LabFault>
    ensures epochs { IfOk result (λ p. length p.sheets ≡ wish.epochs) }
    ensures tallies { IfOk result (λ p. (t : ℕ) → t < wish.epochs → length (sheet_at p t).tallies ≡ wish.observers) }
    ensures swept { IfOk result (λ p. (t : ℕ) → t < wish.epochs → length (sheet_at p t).swept ≡ wish.workers) }
{
    match Album::new(alloc, wish.epochs) {
        Ok(album) => {
            let ran = run_into(rt, alloc, &start, wish, gate, &album);
            drop((start, album));
            ran
        }
        Err(fault) => {
            drop(start);
            Err(fault)
        }
    }
}
