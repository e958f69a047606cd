//! Reads net documents: from bytes to the texts that stand at the keys of a document's objects.
//!
//! [`read_document`] says which document the bytes are: its declarations, its modules with their places, transitions, arcs and
//! substitution transitions, its fusion sets, its monitors and its phases, as they are written; or the refusal of the first rule that is broken, with the
//! pointer to it ([`Pointer`]). What the texts say is not looked into: the crate knows no colour set, no inscription and no net, and
//! joins no name to what it names. It reads and writes nothing outside the program.
#![tactic(auto)]

mod arc_counts;
mod arcs;
mod document;
mod edits;
mod form;
mod fusions;
mod json;
mod lists;
mod modules;
mod monitors;
mod names;
mod parts;
mod phases;
mod places;
mod pointers;
mod reading;
mod refusals;
mod subs;
mod texts;
mod transitions;

pub use document::{
    Arc, Assignment, Bound, Document, Edit, Fusion, Member, Module, Monitor, MonitorKind, Phase,
    Place, PortType, Start, Sub, Transition, Way,
};
pub use pointers::{
    ArcPart, AssignmentPart, EditPart, FusionPart, MemberPart, ModulePart, MonitorPart, PhasePart,
    PlacePart, Pointer, SubPart, TransitionPart,
};
pub use reading::read_document;
pub use refusals::{DocError, Limit};
