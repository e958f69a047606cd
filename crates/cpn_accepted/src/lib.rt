//! What is accepted of a document: what is declared in it, how its modules are put together, and a net for each module.
//!
//! The crate has the data ([`Accepted`], [`ModuleNet`]), and `specs/` says what holds of it. It accepts nothing itself: it knows
//! neither texts nor rules of typing.
#![tactic(auto)]

mod nets;

pub use nets::{Accepted, ModuleNet};
