//! The variables of a transition: which stand in its inscriptions, which the patterns of its input arcs bind, what its guard
//! makes them equal to, and which of them is the first that no binding can determine.
//!
//! The crate knows typed inscriptions alone: no text, no declaration and no type.
#![tactic(auto)]

mod bindable;
mod closure;
mod equations;
mod input_terms;
mod small_sets;
mod variables;

pub use bindable::first_unbindable;
pub use equations::{Equation, equations_of, inscription_at};
pub use input_terms::binding_terms;
pub use variables::{push_carried, variables_of};
