//! The workers of a run, each of which drives the run's book through a desk of its own.
//!
//! A worker claims, passes a gate, evaluates with no book at hand, and completes, until its desk has no more work. The crate knows a desk by
//! what its calls tell, not how it reaches the book: with others a desk takes turns, which is the layer's above.
#![tactic(auto)]

mod crews;
mod gates;

pub use crews::{crew, work};
pub use gates::{Gate, Open};
