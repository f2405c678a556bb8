//! The rule of the table of words, and what each step on it tells.
//!
//! The rule is that events have led from the first state to what the words and the views show. It is a predicate on
//! states: no step leads to words and views to which no events lead. Which events a step is (one, several in a row, or
//! none) is said by the play of the step (`Take`), and so by the contract of each function in `steps`. That the pile is
//! lawful whenever the rule holds is a law (`laws::lawful_at_every_moment`), proved by induction over the events.

use crate::view::{Terms, View};
use atomic_table::{Join, Play, Split, TableRule};
use std::marker::{Brand, PhantomData};

/// For the proof: the pass and the events of one step, chosen at the call.
pub trait Picked {
    ghost use Rattle.std.specs.Prelude.{ℕ, List};
    ghost use Rattle.sand_shared.specs.declared.view.Terms.{Terms as TermsOf};
    ghost use Rattle.sand_shared.specs.Events.{Event};

    ghost terms: { TermsOf };

    ghost pass: { ℕ };

    ghost events: { List Event };
}

impl Picked for Brand {
    ghost use Rattle.std.specs.Prelude.{[]};
    ghost use Rattle.sand_shared.specs.Plays.{no_terms};

    ghost terms = { no_terms };

    ghost pass = { 0 };

    ghost events = { [] };
}

/// The rule: events have led to the current state. The first pass has everything.
pub struct Running;

impl TableRule<u8, View, Terms> for Running {
    ghost use Rattle.sand_shared.specs.Running.{IsRunning};
    ghost use Rattle.sand_shared.specs.Events.{first_pass};

    ghost holds = { IsRunning };

    ghost first = { first_pass };
}

/// A step that is one event, or several of a pass in a row. A load that is no event changes nothing, and tells a pass
/// that what it has fits the rule.
pub struct Take<J> {
    picked: PhantomData<J>,
}

impl<J: Picked> Play<u8, View> for Take<J> {
    ghost use Rattle.sand_shared.specs.Plays.{Takes};

    ghost then = { λ step. Takes J.terms J.pass J.events };
}

/// A pass gives part of what it has to a new one.
pub struct Cut<J> {
    picked: PhantomData<J>,
}

impl<J: Picked> Split<View> for Cut<J> {
    ghost use Rattle.sand_shared.specs.Events.{parent, child};
    ghost use Rattle.sand_shared.specs.Plays.{quota_given, sites_given};

    ghost left = { λ v. parent v (quota_given J.events) (sites_given J.events) };

    ghost right = { λ v. child v (quota_given J.events) (sites_given J.events) };
}

/// A pass takes over all that another one has.
pub struct Gather;

impl Join<View> for Gather {
    ghost use Rattle.sand_shared.specs.Events.{joined};
    ghost use Rattle.sand_shared.specs.OpenPile.{nobody};

    ghost both = { joined };

    ghost spent = { nobody };
}
