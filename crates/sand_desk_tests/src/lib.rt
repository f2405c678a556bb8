//! Tests of `sand_text`, `sand_desk` and `sand_advice` that no run of the program shows: readers that fail and writers
//! that stop, what a fault says of itself, pictures, and the readings as calls.
//!
//! `stopping` has the readers and the writer. They are not tests: each proves that it tells its bytes.
#![tactic(auto)]

#[cfg(test)]
mod blocks;
#[cfg(test)]
mod faults;
#[cfg(test)]
mod flow;
#[cfg(test)]
mod gates;
#[cfg(test)]
mod pictures;
#[cfg(test)]
mod readings;
#[cfg(test)]
mod runs;
#[cfg(test)]
mod stopping;
#[cfg(test)]
mod streams;
