//! The search for the enabled bindings of a net.
//!
//! Stage by stage it finds the values of a transition's variables: from the tokens on the places of its input arcs, from the
//! equations of its guard, and from small colour sets. Each binding that all stages make is kept if the transition is covered
//! with it at some time, once, in order, with the least such time; and from those of all transitions come the enabled
//! elements. It changes no marking. Between two searches only the plans may be kept.
#![tactic(auto)]

mod earliest;
mod extending;
mod once;
mod plan;
mod plans;
mod searching;
mod shared;
mod sorting;
mod steps;
mod trials;
mod turns;
mod with;

pub use plan::{Plan, Stage};
pub use plans::Plans;
pub use searching::{enabled, enabled_of, search, search_counted};
pub use shared::{SharedEquation, SharedTerm};
pub use steps::Steps;
pub use turns::Searched;
pub use with::enabled_with;
