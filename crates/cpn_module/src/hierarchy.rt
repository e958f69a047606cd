//! Hierarchies: how the modules of a document are put together, with everything by its number.

use cpn_document::{PortType, Way};

/// What an arc joins a place to, by its number in its module.
#[derive(Clone, Copy, Debug, PartialEq, Eq)]
pub enum Node {
    /// A transition.
    Transition(usize),
    /// A substitution transition.
    Substitution(usize),
}

/// The ends of an arc.
#[derive(Clone, Copy, Debug)]
pub struct Ends {
    /// The number of the place in the module.
    pub place: usize,
    /// The transition, or the substitution transition.
    pub node: Node,
    /// Whither the arc leads.
    pub way: Way,
}

/// A port with its socket.
#[derive(Clone, Copy, Debug)]
pub struct Assigned {
    /// The number of the port in the submodule.
    pub port: usize,
    /// The number of the socket in the module of the substitution transition.
    pub socket: usize,
}

/// A substitution transition.
#[derive(Drop)]
pub struct Substitution {
    /// The number of the module that it stands for.
    pub submodule: usize,
    /// The ports that have sockets, in the order in which the document assigns them.
    pub assignments: Vec<Assigned>,
}

/// How a module is made.
#[derive(Drop)]
pub struct Structure {
    /// What port each of its places is, in order, where it is one.
    pub ports: Vec<Option<PortType>>,
    /// How many transitions it has, substitution transitions aside.
    pub transitions: usize,
    /// Its arcs, in order.
    pub arcs: Vec<Ends>,
    /// Its substitution transitions, in order.
    pub substitutions: Vec<Substitution>,
}

/// A place of a module, as a member of a fusion set.
#[derive(Clone, Copy, Debug)]
pub struct FusedPlace {
    /// The number of the module.
    pub of_module: usize,
    /// The number of the place in it.
    pub place: usize,
}

/// A fusion set.
#[derive(Drop)]
pub struct FusionSet {
    /// Its members, in order.
    pub members: Vec<FusedPlace>,
}

/// How the modules of a document are put together.
#[derive(Drop)]
pub struct Hierarchy {
    /// The number of the top module.
    pub top: usize,
    /// The modules, in order.
    pub modules: Vec<Structure>,
    /// The fusion sets, in order.
    pub fusions: Vec<FusionSet>,
}
