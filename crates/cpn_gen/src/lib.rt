//! The generated nets: for each number a net document, as text.
//!
//! [`make_net`] writes the document of a ring of 1 to 1,000 places, through which tokens move at different speeds. The crate knows no rule of
//! nets, and reads no document.
#![tactic(auto)]

mod nets;
mod objects;
mod parts;

pub use nets::make_net;
