//! Lists of numbers, one for each number from 0 on.
//!
//! `NumberLists` says which numbers belong to which: which monitors look at a place, say, or which transitions have an arc there. The crate
//! knows nothing of nets, and reads and writes nothing outside the program.
#![tactic(auto)]

mod lists;

pub use lists::NumberLists;
