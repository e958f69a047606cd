//! What is accepted of a document: the net of each module.

use cpn_core::{ArcExpr, Place, Transition};
use cpn_declared::Decls;
use cpn_module::Hierarchy;

/// The net of a module: its transitions know its own places alone.
#[derive(Drop)]
pub struct ModuleNet {
    /// Its places, in order, each of the name that it has in its module.
    pub places: Vec<Place>,
    /// Their initial markings, where one is written.
    pub initials: Vec<Option<ArcExpr>>,
    /// Its transitions, in order, with the arcs at them. Arcs at substitution transitions are none of the net's.
    pub transitions: Vec<Transition>,
}

/// What is accepted of a document.
#[derive(Drop)]
pub struct Accepted {
    /// What is declared.
    pub decls: Decls,
    /// How the modules are put together.
    pub hierarchy: Hierarchy,
    /// The net of each module, in order.
    pub modules: Vec<ModuleNet>,
}
