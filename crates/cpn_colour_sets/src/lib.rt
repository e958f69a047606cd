//! The declarations of colour sets and of variables: from their trees to what is declared with them, or to the first reason
//! why one is refused.
//!
//! What was declared before a refusal stays as it was then: whoever declares takes back what was added. The crate checks no
//! inscription.
#![tactic(auto)]

mod colour_sets;
mod kinds;
mod limits;
mod naming;

pub use colour_sets::{declare_colour_set, declare_variables};
pub use naming::type_named;
