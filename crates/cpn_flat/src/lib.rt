//! Makes the flat net of a hierarchical one.
//!
//! [`flatten`] goes from what is accepted of a document, its modules each as a net of its own, to the flat net that it means, and
//! its initial marking: each instance of a module has its own places and transitions, and places that are joined are one. It reads
//! no text, and reads and writes nothing outside the program.
#![tactic(auto)]

mod flattening;
mod names;
mod places;
mod refusals;
mod sharing;
mod starting;
mod tokens;
mod transitions;
mod values;
mod written;

pub use flattening::{Loaded, flatten, one_flat_net};
pub use refusals::FlatError;
pub use tokens::add_terms;
