//! The laws of the shared pile, as contracts of functions that do nothing.

ghost use Rattle.sand_shared.specs.Laws.{AlwaysLawful, FewDraws, FewGrains, HoldsLawful, OneSweep, ReceiptsAdd, ReceiptsBySite, RecordOfReceipts};

use crate::rule::Running;
use crate::view::{Terms, View};
use atomic_table::TableRule;

/// An open pile is lawful after any list of events.
pub fn always_lawful()
    ensures { AlwaysLawful }
{}

/// A shared pile is lawful at every moment: if the rule of its table holds of words and views, there is a lawful open
/// pile that shows exactly these words and views. The table keeps its rule between any two steps.
pub fn lawful_at_every_moment()
    ensures { HoldsLawful ⟦<Running as TableRule<u8, View, Terms>>⟧.holds }
{}

/// No word exceeds the start and the quota together, and the number word never exceeds the quota.
pub fn words_are_small()
    ensures grains { FewGrains }
    ensures draws { FewDraws }
{}

/// Any two sweeps of a whole pass topple each site equally often: what the pass has determines its sweep.
pub fn one_sweep()
    ensures { OneSweep }
{}

/// How many receipts are for a site: consecutive drops have one for each drop on it, and the receipts of two lists add
/// up.
pub fn receipts_by_site()
    ensures consecutive { ReceiptsBySite }
    ensures together { ReceiptsAdd }
{}

/// The record of a closed pile is the settled record of its start plus a grain for each receipt of the pass that closed
/// it, in whatever order the drops came.
pub fn record_of_receipts()
    ensures { RecordOfReceipts }
{}
