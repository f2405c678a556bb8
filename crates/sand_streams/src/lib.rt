//! The numbered streams of drop sites, for everything that drops at random sites: one thread, many threads, or C.
#![tactic(auto)]

mod streams;

pub use streams::{SiteReader, sites_of, stream_of, words_of};
