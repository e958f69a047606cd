//! The enabled elements of a marking, each with its earliest time, and which of them are due at a clock.
//!
//! `Due` keeps them in order in a balanced tree, so that whatever it is asked takes a time that grows with the logarithm of their
//! number. The crate searches for nothing: it keeps what it is given, and knows nothing of markings.
#![tactic(auto)]

mod balance;
mod due;
mod inserting;
mod marked;
mod marking;
mod order;
mod reading;
mod removing;
mod summaries;
mod trees;

pub use due::Due;
pub use order::compare_elements;
