//! Every call that allocates, with each of its allocations refused in turn; and calls that do not allocate, with all
//! allocations refused.
//!
//! A call runs with its first allocation refused, then its second, and so on until none is refused. Each time it
//! reports out of memory and nothing else, and leaves its arguments unchanged. Repeated on the same arguments, it then
//! returns values worked out by hand.
//!
//! A program cannot refuse its own allocations. `tools/refusals`, which the gate calls, loads a library that does;
//! under plain `rt ci` nothing is refused, and each call is made once. Each trial prints how many allocations were
//! refused.
#![tactic(auto)]

#[cfg(test)]
mod group;
#[cfg(test)]
mod memory;
#[cfg(test)]
mod passes;
#[cfg(test)]
mod piles;
#[cfg(test)]
mod quiet;
#[cfg(test)]
mod records;
#[cfg(test)]
mod runs;
#[cfg(test)]
mod settling;
#[cfg(test)]
mod texts;
#[cfg(test)]
mod trees;
#[cfg(test)]
mod trying;
