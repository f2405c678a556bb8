//! The laws of toppling, as contracts of functions that do nothing.
//!
//! **Least action.** Let `w` stabilise the pile. However legal topplings are ordered, no site topples more often than
//! in `w`: once it has toppled as often, and its neighbours at most as often, its height is at most what `w` leaves
//! there, so at most 3. So legal topplings that end at a stable pile are the least odometer, and all orders end at the
//! same pile.
//!
//! **Settling in parts.** Let `u` be at most every `w` that stabilises `s`, and let `v` be the odometer of `s - Lu`.
//! Then `w - u` stabilises `s - Lu`, so `v` is at most `w - u`. So `u + v` is the odometer of `s`.
//!
//! **The weight.** A grain in row `y` weighs `(y + 1) * (height - y)`, which is concave in `y` and 0 just outside the
//! grid, so each toppling lowers the weight by at least 2. So topplings number at most half the weight, and settling
//! ends: topple any site that may topple, while there is one. The pile is then stable, and by least action the
//! topplings are the least. So each pile has a settled pile.
//!
//! **Nothing to take back.** Let toppling each site `u` times turn `s` into `t`, with no height of `t` above 3, and let
//! no set of sites that have all toppled be forbidden in `t`. Then `u` is the least that stabilises `s`. For suppose
//! that `w` stabilises `s` and `u` exceeds it somewhere. The sites where `u - w` is greatest have all toppled. Going
//! back from `u` to `w` undoes as many topplings of each of them as of its neighbours in the set, and more than of its
//! neighbours outside it. Since `w` leaves at most 3 there, the height in `t` is below the number of neighbours in the
//! set. So the set is forbidden, a contradiction. (Friedrich and Levine 2013.)
//!
//! **A drop topples few.** Let `d` be the distance to the nearest open edge, counted from 1, let a grain fall at site
//! `a`, and let `w = min(d, d(a))`. Along rows and along columns `d` is the least of straight lines that are 0 just
//! outside the open edges, and so is `w`. So the four neighbours of a site have at most four times its `w`. Those of `a`
//! have less, since its neighbour towards the nearest edge has `d(a) - 1`. So `w` stabilises each stable pile with one
//! more grain at `a`, and by least action no site topples more often than in `w`.
//!
//! **Natural numbers and integers.** The definitions are over the natural numbers, without subtraction. Over the
//! integers they are the `s - Lu` and the `s - Lu <= 3` of the textbooks.

ghost use Rattle.sand_model.specs.Laws.{LeastAction, WeightFalls, LaplacianSum, LaplacianSumOverIntegers, EachSettles, Abelian, SettlesAfter, SettledOnce, LeastIfTight, ToppledOverIntegers, StabilisesOverIntegers, SettledIsEquivalent, SumIsGrains, GrainsAddUp, DropsAreGrains, SettledBySite, DropsToppleFew, NoneIsFarther, MiddleIsFarthest, EdgeIsNear, TopplingsAreFew, LimitIsHigh, LimitIsLow, LimitHasRoom};

/// Legal topplings never exceed any odometer that stabilises the pile.
pub fn least_action()
    ensures { LeastAction }
{}

/// A toppling lowers the weight by at least 2.
pub fn weight_falls()
    ensures { WeightFalls }
{}

/// The grains before are the grains after and the grains lost.
pub fn laplacian_sum()
    ensures natural { LaplacianSum }
    ensures whole { LaplacianSumOverIntegers }
{}

/// Each pile has a settled pile, with a least odometer.
pub fn each_settles()
    ensures { EachSettles }
{}

/// Settling in two parts is settling at once, and the odometers add.
pub fn abelian()
    ensures { Abelian }
{}

/// If no site has toppled more often than it must, settling the pile from there completes the odometer.
pub fn settles_after()
    ensures { SettlesAfter }
{}

/// A pile has one odometer and one settled pile.
pub fn settled_once()
    ensures { SettledOnce }
{}

/// Topplings are the odometer if they leave at most 3 at each site, and no forbidden set of sites that have all
/// toppled.
pub fn least_if_tight()
    ensures { LeastIfTight }
{}

/// The definitions over the natural numbers agree with those over the integers.
pub fn over_integers()
    ensures toppled { ToppledOverIntegers }
    ensures stabilises { StabilisesOverIntegers }
    ensures equivalent { SettledIsEquivalent }
{}

/// The grains of a list of heights, of two piles together, and of a list of drops.
pub fn grains_add_up()
    ensures heights { SumIsGrains }
    ensures together { GrainsAddUp }
    ensures drops { DropsAreGrains }
{}

/// What a pile settles to depends only on its heights at the sites of the grid.
pub fn settled_by_site()
    ensures { SettledBySite }
{}

/// A drop on a stable pile topples no site more often than its distance to the nearest open edge, nor more often than
/// that of the dropped site.
pub fn drops_topple_few()
    ensures { DropsToppleFew }
{}

/// The distance to the nearest open edge is greatest in the middle, and at most half of one more than the height.
pub fn distances_to_edge()
    ensures none_farther { NoneIsFarther }
    ensures middle { MiddleIsFarthest }
    ensures small { EdgeIsNear }
{}

/// The grain limit of a grid: 2^40 - 1 on up to 256 rows, never more, and never so many that they topple 2^54 times; 18 grains on each
/// site are always within it.
pub fn grain_limits()
    ensures few { TopplingsAreFew }
    ensures high { LimitIsHigh }
    ensures low { LimitIsLow }
    ensures room { LimitHasRoom }
{}
