//! What the inscriptions of the language mean, evaluated on a small stack: what is begun and not done is kept in a list of frames.
//!
//! An answer is the meaning of the inscription, or want of memory. The crate knows nothing of nets or markings.
#![tactic(auto)]

mod amounts;
mod arithmetic;
mod arms;
mod backwards;
mod choices;
mod comparisons;
mod frames;
mod held;
mod kinds;
mod leaves;
mod lists;
mod locals;
mod lone_terms;
mod machine;
mod matching;
mod multisets;
mod operations;
mod reach;
mod reading;
mod refusals;
mod running;
mod spare;
mod term;

pub use multisets::eval_mset;
pub use refusals::Refused;
pub use running::eval;
pub use term::{Term, Terms};
