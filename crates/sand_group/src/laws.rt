//! The laws of recurrent piles and of their group, as contracts of functions that do nothing.
//!
//! **Burning.** In a recurrent pile the unburnt sites are not a forbidden set, so one of them may burn, until all have
//! burnt. Conversely, if all burn in some order, the first site of a set to burn has all its neighbours in the set
//! after it, so the set is not forbidden.
//!
//! **From full piles.** Let m be the pile of all 3, t the settled pile of m + a, and u its odometer. Let a set F be
//! forbidden in t. If all its sites had toppled, u less 1 on F would also stabilise m + a, although u is the least. A
//! site of F that did not topple still has height 3, so all four of its neighbours are in F, and none of them toppled.
//! The same holds for its northern neighbour, and so on without end.
//!
//! **No law assumes that a pile settles.** Each pile does (`sand_model::laws::each_settles`). So a law says that it
//! settles, and what is true of each pile that it settles to (`OnceSettled`).
//!
//! **One in each class.** If two recurrent piles differ by Lz, the sites where z is greatest are forbidden in the
//! second, unless z is at most 0. The same holds for -z. So two equivalent recurrent piles are equal. And a recurrent c
//! is what c + d settles to, for d = 2m - settled(2m): d is equivalent to all 0 and at least m. If Lz is 0, c and c are
//! two piles that differ by Lz, so z is 0: only one firing vector leads from heights to others.
//!
//! **Superstable heights.** A set of sites can be fired at once without debt if and only if it is forbidden in 3 - s.

ghost use Rattle.sand_group.specs.Laws.{SettlesToOnePile, SettlesInParts, BurningDecides, RecurrentBySite, RecurrentFromFull, StaysRecurrent, EachClassHasOne, EquivalentRecurrentsAreEqual, RepresentativesAreEqual, SumIsSettled, EachGridHasSurplus, IdentityIsSettled, InverseIsSettled, IdentityIsNeutral, InverseCancels, EquivalentIsSettled, RepresentsItself, EquivalentsAddUp, EachHasOneMultiple, NoneIsIdentity, OneIsItself, MultiplesAddUp, FiringIsUnique, FiringIsEquivalence, SuperstableDuality, EachClassHasSuperstable, EquivalentSuperstablesAreEqual};

/// Heights settle to one pile, at once or in two parts.
pub fn settles_to_one_pile()
    ensures unique { SettlesToOnePile }
    ensures parts { SettlesInParts }
{}

/// A stable pile is recurrent if and only if all its sites burn in some order.
pub fn burning_decides()
    ensures { BurningDecides }
{}

/// Whether a pile is recurrent depends only on its heights at the sites of the grid.
pub fn recurrent_by_site()
    ensures { RecurrentBySite }
{}

/// The recurrent piles are those that settle from at least 3 grains at each site, and more grains keep them recurrent.
pub fn recurrent_from_full()
    ensures exactly { RecurrentFromFull }
    ensures stays { StaysRecurrent }
{}

/// Each class of equivalent piles has exactly one recurrent pile.
pub fn one_in_each_class()
    ensures some { EachClassHasOne }
    ensures equivalent { EquivalentRecurrentsAreEqual }
    ensures represented { RepresentativesAreEqual }
{}

/// Settling gives the sum, the identity and the inverse.
pub fn settling_is_adding()
    ensures sum { SumIsSettled }
    ensures surplus { EachGridHasSurplus }
    ensures identity { IdentityIsSettled }
    ensures inverse { InverseIsSettled }
{}

/// A pile plus the identity is the pile itself, and a pile plus its inverse is the identity.
pub fn is_group()
    ensures neutral { IdentityIsNeutral }
    ensures inverse { InverseCancels }
{}

/// The recurrent pile that is equivalent to a pile is the settled pile plus the identity, settled. For a recurrent pile
/// it is the pile itself, and for a + b it is the sum of those for a and b.
pub fn equivalents_add_up()
    ensures settled { EquivalentIsSettled }
    ensures itself { RepresentsItself }
    ensures sum { EquivalentsAddUp }
{}

/// Each pile has one n-fold sum: the identity for 0, the pile itself for 1, and for n + m the sum of those for n and m.
pub fn multiples_add_up()
    ensures one { EachHasOneMultiple }
    ensures none { NoneIsIdentity }
    ensures itself { OneIsItself }
    ensures sum { MultiplesAddUp }
{}

/// Heights are equivalent if and only if a firing vector leads from one to the other, and then only one does.
pub fn one_firing_vector()
    ensures unique { FiringIsUnique }
    ensures equivalent { FiringIsEquivalence }
{}

/// Heights s are superstable if and only if 3 - s is recurrent, and each class has exactly one such s.
pub fn one_superstable_in_each_class()
    ensures duality { SuperstableDuality }
    ensures some { EachClassHasSuperstable }
    ensures equivalent { EquivalentSuperstablesAreEqual }
{}
