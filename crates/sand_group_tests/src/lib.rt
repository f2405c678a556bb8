//! Tests of `sand_group` and the layers below it: values worked out by hand, and guesses, since no contract says that a
//! guess is made or right.
#![tactic(auto)]

#[cfg(test)]
mod guesses;
#[cfg(test)]
mod many_piles;
#[cfg(test)]
mod operations;
#[cfg(test)]
mod piles;
#[cfg(test)]
mod settling;
#[cfg(test)]
mod shapes;
