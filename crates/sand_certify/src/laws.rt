//! Why a certificate is a proof, as the contracts of functions that do nothing.
//!
//! Topplings that leave at most 3 everywhere settle the pile if no set of sites that have all toppled is forbidden in
//! the result (`sand_model::laws::least_if_tight`).
//!
//! **Turns.** Let each site that has toppled have a turn, and let its height be at least the number of its neighbours
//! whose turn is not earlier. Then no set of sites that have all toppled is forbidden: take a site of the set with the
//! earliest turn. The turns of its neighbours in the set are not earlier, so its height is at least their number. (Dhar
//! 1990: no site of a forbidden set ever burns.)
//!
//! **Each odometer has turns.** No topplings of an odometer can be taken back, so no set of sites that have toppled is
//! forbidden in the settled pile. Burn these sites one by one: while some are left, one of them may burn. A site's turn
//! is its place in this order.

ghost use Rattle.sand_certify.specs.Laws.{TightIfBurning, SettledIfShown, EachOdometerIsShown};

/// If each site that has toppled burns at its turn, no set of such sites is forbidden.
pub fn tight_if_burning()
    ensures { TightIfBurning }
{}

/// A certificate shows that the counts are the odometer.
pub fn settled_if_shown()
    ensures { SettledIfShown }
{}

/// Each odometer has turns that show it.
pub fn each_odometer_is_shown()
    ensures { EachOdometerIsShown }
{}
