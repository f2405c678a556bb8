//! What one drop topples: wave after wave (Ivashkevich, Ktitarev and Priezzhev 1994), until no site may topple.
//! The time is at most proportional to the topplings, and a drop allocates nothing.
//!
//! - **One wave** (`one_wave`) topples the dropped site, and each other site that this brings to 4, once each. So after
//!   it only the dropped site may have 4.
//! - **Whether it has.** It had 4 and lost them, so it has what its neighbours gave it: 0 to 4. Its planes are 0 if
//!   this is 0 or 4. If no other site has toppled, it is 0. If others have, it is not 0: otherwise the site's one
//!   toppling would have settled the pile, and by least action no other site would have toppled (`proofs/Ends`:
//!   `four_again`).
//! - **It ends**, since each toppling lowers the weight of the pile.
//! - **It is right**: each wave is a legal sequence of topplings and the end is stable, so the growth of the counts is
//!   the least odometer (`settled`).
//! - **Each wave is the least** that topples the dropped site and leaves at most 3 at each other site (`IsOneWave`). So
//!   its size is determined by the heights before it (`waves`).

ghost use Rattle.std.specs.Prelude.{◌≡◌, ℕ, ◌^◌, ◌<◌, slice_set};
ghost use Rattle.sand_model.specs.Sand.{lost, topplings};
ghost use Rattle.sand_tiles.specs.Counts.{counted};
ghost use Rattle.sand_fronts.specs.Waves.{AreOpen, AreAtRest, IsDropSite, heights_before};
ghost use Rattle.sand_fronts.specs.WaveSizes.{HasWaves};
ghost use Rattle.sand_fronts.specs.Marking.{AreMarked};
ghost use Rattle.sand_fronts.specs.Drops.{heights_on};
ghost use Rattle.sand_fronts.specs.Boards.{tiles_of, free_of, counts_of, marks_of, grown, IsBoard, IsSand, AreCounts, HasSettled};

use crate::board::{Board, DropSite};
use crate::counts::{Counts, NOTHING, Total};
use crate::sand::Sand;
use sand_tiles::height_at;

// Writes a number to a list, if the list has the position.
#[inline(always)]
fn note(list: &mut [u64], position: usize, number: u64)
    ensures { list.new ≡ slice_set list.old position number }
{
    if position < list.len() {
        list[position] = number;
    }
}

/// Topples a site that has 4, and all that follows. Counts the topplings of each site and marks the sites. Writes the
/// sizes of the waves to a list, as many as it has room for. Returns the number of topplings and of grains that fell into
/// the sink, and the number of waves.
pub(crate) fn topple_all(
    board: &Board,
    sand: &mut Sand,
    counts: &mut Counts,
    drop: DropSite,
    sizes: &mut [u64],
) -> (Total, usize)
    requires drop { IsDropSite board.now.shape drop }
    requires board { IsBoard board.now }
    requires sand { IsSand board.now.shape sand.old }
    requires counts { AreCounts board.now.shape counts.old }
    requires all_open { AreOpen board.now.shape drop.site (free_of board.now) }
    requires rest { AreAtRest board.now.shape drop.site (tiles_of sand.old) }
    requires bound { (m p : ℕ) → p < 64 → counted (counts_of counts.old m) p < 2 ^ 60 }
    ensures settled { HasSettled board.now.shape (heights_before board.now.shape drop.site (tiles_of sand.old))
        sand.new counts.old counts.new }
    ensures size { result.0.size ≡ topplings board.now.shape (grown board.now.shape counts.old counts.new) }
    ensures lost { result.0.lost ≡ lost board.now.shape (grown board.now.shape counts.old counts.new) }
    ensures waves { HasWaves board.now.shape drop.site (heights_before board.now.shape drop.site (tiles_of sand.old))
        (heights_on board.now.shape (tiles_of sand.new)) result.1 sizes.old sizes.new }
    ensures marked { AreMarked (counts_of counts.old) (counts_of counts.new) (marks_of counts.old) (marks_of counts.new) }
{
    let mut total = NOTHING;
    let mut number = 0usize;
    let mut more = true;
    'waves: while more {
        sand.topple_wave(board, drop);
        let wave = counts.count_wave(sand, board);
        total.size += wave.size;
        total.lost += wave.lost;
        note(sizes, number, wave.size);
        number += 1;
        more = (wave.size > 1) & (height_at(&sand.tiles[drop.tile], drop.place) == 0);
    }
    (total, number)
}
