//! Runs: what they start from, the events that may happen in them, what they show when they have ended.
//!
//! `specs/` has the definitions of claims, states and ends, and `proofs/` the laws about them, for any number
//! of seats; the data of the program beside them stands for the plain data of the definitions. The crate
//! computes nothing, makes no run, and knows nothing of how a marking is kept or searched.
#![tactic(auto)]

mod events;
mod runs;
mod sendable;

pub use events::{End, Event, Limits};
pub use runs::{Finished, Outlook, Setup};
