//! What the inscriptions of a transition mean under a binding: whether its guard holds, and the tokens that an element needs, or the
//! fault of an inscription that has no value.
//!
//! The crate reads nets and bindings. It knows nothing of markings, of what is enabled, or of runs.
#![tactic(auto)]

mod guards;
mod needs;

pub use guards::guard_holds;
pub use needs::needs_of;
