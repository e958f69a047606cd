//! Documents as they are written: the texts that stand at the keys of their objects.

/// What port a place is, in a module that stands for a substitution transition.
#[derive(Clone, Copy, Debug, PartialEq, Eq)]
pub enum PortType {
    /// An input port.
    In,
    /// An output port.
    Out,
    /// Both.
    Io,
}

/// A place.
#[derive(Drop)]
pub struct Place {
    /// Its name in its module.
    pub name: String,
    /// The name of its colour set.
    pub colour: String,
    /// The text of its initial marking, where one is written.
    pub initial: Option<String>,
    /// What port it is, where it is one.
    pub port: Option<PortType>,
}

/// A transition.
#[derive(Drop)]
pub struct Transition {
    /// Its name in its module.
    pub name: String,
    /// The text of its guard, where one is written.
    pub guard: Option<String>,
    /// The text of its delay, where one is written.
    pub delay: Option<String>,
}

/// Whither an arc leads.
#[derive(Clone, Copy, Debug, PartialEq, Eq)]
pub enum Way {
    /// To its transition: an input arc.
    ToTransition,
    /// To its place: an output arc.
    ToPlace,
    /// Both ways: an input arc and an output arc with one inscription.
    Both,
}

/// An arc.
#[derive(Drop)]
pub struct Arc {
    /// The name of its place.
    pub place: String,
    /// The name of its transition, or of its substitution transition.
    pub transition: String,
    /// Whither it leads.
    pub way: Way,
    /// The text of its inscription, where one is written.
    pub expr: Option<String>,
}

/// The assignment of a port to a socket.
#[derive(Drop)]
pub struct Assignment {
    /// The name of the port, a place of the submodule.
    pub port: String,
    /// The name of the socket, a place of the module with the substitution transition.
    pub socket: String,
}

/// A substitution transition.
#[derive(Drop)]
pub struct Sub {
    /// Its name in its module.
    pub name: String,
    /// The name of its submodule, the module that stands for it.
    pub submodule: String,
    /// The assignments of ports to sockets, in order.
    pub assign: Vec<Assignment>,
}

/// A module.
#[derive(Drop)]
pub struct Module {
    /// Its name.
    pub name: String,
    /// Its places, in order; no two have one name.
    pub places: Vec<Place>,
    /// Its transitions, in order; no two of them and of the substitution transitions have one name.
    pub transitions: Vec<Transition>,
    /// Its arcs, in order; no transition has more than 64, where one that leads both ways counts two.
    pub arcs: Vec<Arc>,
    /// Its substitution transitions, in order.
    pub subs: Vec<Sub>,
}

/// A member of a fusion set.
#[derive(Drop)]
pub struct Member {
    /// The name of its module.
    pub module: String,
    /// The name of its place there.
    pub place: String,
}

/// A fusion set: places that are one place.
#[derive(Drop)]
pub struct Fusion {
    /// Its name.
    pub name: String,
    /// Its members, in order.
    pub members: Vec<Member>,
}

/// At which side of a number something has to be.
#[derive(Clone, Copy, Debug, PartialEq, Eq)]
pub enum Bound {
    /// The number or more.
    AtLeast,
    /// The number or less.
    AtMost,
}

/// What a monitor measures, or what it stops a run at. Transitions and places are told by their flattened names.
#[derive(Drop)]
pub enum MonitorKind {
    /// How often a transition occurs.
    Count {
        /// The name of the transition.
        transition: String,
    },
    /// How many tokens are on a place.
    Size {
        /// The name of the place.
        place: String,
    },
    /// The value of an inscription at each occurrence of a transition.
    Value {
        /// The name of the transition.
        transition: String,
        /// The text of the inscription.
        expr: String,
    },
    /// A stop at an occurrence of a transition.
    StopCount {
        /// The name of the transition.
        transition: String,
        /// At which of its occurrences, from 1 on.
        n: u64,
    },
    /// A stop at a number of tokens on a place.
    StopSize {
        /// The name of the place.
        place: String,
        /// Whether at least or at most so many.
        op: Bound,
        /// How many tokens.
        n: u64,
    },
}

/// A monitor.
#[derive(Drop)]
pub struct Monitor {
    /// Its name.
    pub name: String,
    /// What it measures.
    pub kind: MonitorKind,
}

/// From where a phase starts.
#[derive(Clone, Copy, Debug, PartialEq, Eq)]
pub enum Start {
    /// From the initial marking.
    Initial,
    /// From where the phase before it ended.
    Here,
}

/// A change of the net for a phase. Transitions and places are told by their flattened names.
#[derive(Drop)]
pub enum Edit {
    /// Another guard of a transition.
    Guard {
        /// The name of the transition.
        transition: String,
        /// The text of the guard.
        text: String,
    },
    /// Another initial marking of a place.
    Initial {
        /// The name of the place.
        place: String,
        /// The text of the marking.
        text: String,
    },
}

/// A phase.
#[derive(Drop)]
pub struct Phase {
    /// From where it starts.
    pub start: Start,
    /// Its edits, in order.
    pub edits: Vec<Edit>,
}

/// A net document.
#[derive(Drop)]
pub struct Document {
    /// The version of its form.
    pub version: u64,
    /// The texts of its declarations, in order.
    pub declarations: Vec<String>,
    /// The name of its top module.
    pub top: String,
    /// Its modules, in order; no two have one name.
    pub modules: Vec<Module>,
    /// Its fusion sets, in order; no two have one name.
    pub fusions: Vec<Fusion>,
    /// Its monitors, in order; no two have one name.
    pub monitors: Vec<Monitor>,
    /// Its phases, in order.
    pub phases: Vec<Phase>,
}
