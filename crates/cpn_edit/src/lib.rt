//! Sessions: the runs of the phases of a document, one after another.
//!
//! A [`Session`] begins with what is loaded of a document: its monitors are checked, and then the edits of each phase, in order, each in the
//! net as edited so far. It makes the edits of the next phase ([`Session::next_phase`]), begins its run ([`Session::begin`]), from the
//! initial marking or from where the run before it ended, and takes back what it left ([`Between::end`]). The crate makes no event of a run
//! itself, and reads and writes nothing outside the program.
#![tactic(auto)]

mod sessions;

pub use sessions::{Between, Session};
