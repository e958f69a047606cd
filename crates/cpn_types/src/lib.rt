//! The checks of the inscription language: from the trees of declarations and inscriptions to what is declared and to typed
//! inscriptions, or to the first reason why one is not accepted.
//!
//! What is declared, the declarations of colour sets, the forms of inscriptions and the variables of a transition are crates
//! below; what users of the checks need of these is passed on. The crate reads no text and evaluates nothing.
#![tactic(auto)]

mod arcs;
mod bindable;
mod checks;
mod declaring;
mod expressions;
mod functions;
mod inscription_errors;
mod multisets;
mod site_parts;
mod sites;
mod surroundings;

pub use arcs::{check_arc, check_init};
pub use bindable::check_bindable;
pub use checks::{check_delay, check_guard, check_value};
pub use cpn_bindable::variables_of;
pub use cpn_declared::{DeclaredParts, Decls, Limit, Ty, TypeError, Tys};
pub use cpn_forms::Side;
pub use declaring::declare;
pub use inscription_errors::InscriptionError;
