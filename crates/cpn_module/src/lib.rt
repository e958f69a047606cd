//! Puts the modules of a document together: which module each substitution transition stands for, which ports have which sockets,
//! which places are fused.
//!
//! [`check_hierarchy`] goes from a document to its [`Hierarchy`], in which everything is named by its number, or to the refusal of
//! the first rule that is broken, with its place in the document. No inscription is looked into and no instance is made. It reads
//! and writes nothing outside the program.
#![tactic(auto)]

mod checking;
mod colours;
mod cycles;
mod fusions;
mod hierarchy;
mod name_lists;
mod names;
mod number_sets;
mod numbered;
mod pairs;
mod pointing;
mod ports;
mod refusals;
mod sockets;
mod unknown;
mod walks;

pub use checking::check_hierarchy;
pub use hierarchy::{
    Assigned, Ends, FusedPlace, FusionSet, Hierarchy, Node, Structure, Substitution,
};
pub use refusals::ModuleError;
