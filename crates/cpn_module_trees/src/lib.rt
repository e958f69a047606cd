//! The trees of a document: what each of its texts is lexed and parsed as.
//!
//! [`document_trees`] goes from the texts of a document, as `cpn_document` reads them, to their trees. A text that has no tree
//! does not end it: why it has none, by the lexis or by the grammar, stands there instead, and which refusal counts is
//! decided above. The crate knows no names, no types and no net, and reads and writes nothing outside the program.
#![tactic(auto)]

mod parsing;
mod trees;

pub use parsing::{Parsing, Unparsed, guard_in, inscription_in};
pub use trees::{DocumentTrees, ModuleTrees, PlaceTrees, TransitionTrees, document_trees};
