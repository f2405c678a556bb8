//! Tests of `sand_shared` and `sand_lab`: worked examples, and what no clause says: that a call succeeds, that threads
//! really meet, and that a run calls its gate before each turn.
#![tactic(auto)]

#[cfg(test)]
mod album;
#[cfg(test)]
mod gates;
#[cfg(test)]
mod holding;
#[cfg(test)]
mod limits;
#[cfg(test)]
mod passes;
#[cfg(test)]
mod runs;
#[cfg(test)]
mod setup;
#[cfg(test)]
mod streams;
#[cfg(test)]
mod turns;
#[cfg(test)]
mod two_threads;
