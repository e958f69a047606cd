//! Finite multisets of values: for each value how many times it appears.
//!
//! The crate adds, counts, compares and takes away, and answers exactly what the definition of a multiset says.
//! It knows nothing of time stamps, places or markings, and reads and writes nothing outside the program.
#![tactic(auto)]

mod msets;

pub use msets::MSet;
