//! Patterns of binding terms against values: the one extension of a partial binding that makes the pattern the value.
//!
//! The crate knows nothing of transitions, markings or the order of a search.
#![tactic(auto)]

mod matching;
mod partials;

pub use matching::match_pat;
pub use partials::{Partial, PartialPair};
