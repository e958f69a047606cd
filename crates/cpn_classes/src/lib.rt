//! The classes of joined numbers: the least equivalence that joins some pairs.
//!
//! `Classes` numbers the classes of so many items in the order of their first members. The crate knows nothing of
//! nets or places, and reads and writes nothing outside the program.
#![tactic(auto)]

mod classes;
mod trees;

pub use classes::Classes;
