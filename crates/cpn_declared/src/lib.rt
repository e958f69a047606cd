//! What has been declared: types, the meanings of names, and how a declaration adds to them or is taken back; and why a
//! declaration or an inscription is refused.
//!
//! The crate decides nothing of whether a declaration is accepted, but whether its name is new. It reads no text and no tree.
#![tactic(auto)]

mod additions;
mod decls;
mod meanings;
mod parts;
mod refusals;
mod types;

pub use additions::{Counts, number_of};
pub use decls::{Constructor, Decls};
pub use meanings::Meaning;
pub use parts::DeclaredParts;
pub use refusals::{Limit, TypeError};
pub use types::{Ty, Tys, are_same};
