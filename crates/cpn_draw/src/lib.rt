//! The words that the claims of a run draw: those of a seed, one after another.
//!
//! The crate knows neither nets nor runs, and takes no memory.
#![tactic(auto)]

mod draw;

pub use draw::Draw;
