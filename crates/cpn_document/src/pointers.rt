//! Pointers into a document.

/// A JSON pointer to a part of a document. The items of its lists are numbered from 0.
///
/// Source: own choice; JSON pointers are those of RFC 6901.
#[derive(Clone, Copy, Debug)]
pub enum Pointer {
    /// The whole document.
    Root,
    /// The version.
    Version,
    /// The list of declarations.
    Declarations,
    /// The text of a declaration.
    Declaration(usize),
    /// The name of the top module.
    Top,
    /// The list of modules.
    Modules,
    /// A module, or a part of it.
    Module(usize, ModulePart),
    /// The list of fusion sets.
    Fusions,
    /// A fusion set, or a part of it.
    Fusion(usize, FusionPart),
    /// The list of monitors.
    Monitors,
    /// A monitor, or a part of it.
    Monitor(usize, MonitorPart),
    /// The list of phases.
    Phases,
    /// A phase, or a part of it.
    Phase(usize, PhasePart),
}

/// A part of a module.
#[derive(Clone, Copy, Debug)]
pub enum ModulePart {
    /// The module itself.
    Whole,
    /// Its name.
    Name,
    /// The list of its places.
    Places,
    /// A place, or a part of it.
    Place(usize, PlacePart),
    /// The list of its transitions.
    Transitions,
    /// A transition, or a part of it.
    Transition(usize, TransitionPart),
    /// The list of its arcs.
    Arcs,
    /// An arc, or a part of it.
    Arc(usize, ArcPart),
    /// The list of its substitution transitions.
    Subs,
    /// A substitution transition, or a part of it.
    Sub(usize, SubPart),
}

/// A part of a place.
#[derive(Clone, Copy, Debug)]
pub enum PlacePart {
    /// The place itself.
    Whole,
    /// Its name.
    Name,
    /// The name of its colour set.
    Colour,
    /// The text of its initial marking.
    Initial,
    /// What port it is.
    Port,
}

/// A part of a transition.
#[derive(Clone, Copy, Debug)]
pub enum TransitionPart {
    /// The transition itself.
    Whole,
    /// Its name.
    Name,
    /// The text of its guard.
    Guard,
    /// The text of its delay.
    Delay,
}

/// A part of an arc.
#[derive(Clone, Copy, Debug)]
pub enum ArcPart {
    /// The arc itself.
    Whole,
    /// The name of its place.
    Place,
    /// The name of its transition.
    Transition,
    /// Whither it leads.
    To,
    /// The text of its inscription.
    Expr,
}

/// A part of a substitution transition.
#[derive(Clone, Copy, Debug)]
pub enum SubPart {
    /// The substitution transition itself.
    Whole,
    /// Its name.
    Name,
    /// The name of its submodule.
    Module,
    /// The list of its assignments.
    Assign,
    /// An assignment, or a part of it.
    Assignment(usize, AssignmentPart),
}

/// A part of the assignment of a port to a socket.
#[derive(Clone, Copy, Debug)]
pub enum AssignmentPart {
    /// The assignment itself.
    Whole,
    /// The name of the port.
    Port,
    /// The name of the socket.
    Socket,
}

/// A part of a fusion set.
#[derive(Clone, Copy, Debug)]
pub enum FusionPart {
    /// The fusion set itself.
    Whole,
    /// Its name.
    Name,
    /// The list of its members.
    Members,
    /// A member, or a part of it.
    Member(usize, MemberPart),
}

/// A part of a member of a fusion set.
#[derive(Clone, Copy, Debug)]
pub enum MemberPart {
    /// The member itself.
    Whole,
    /// The name of its module.
    Module,
    /// The name of its place.
    Place,
}

/// A part of a monitor.
#[derive(Clone, Copy, Debug)]
pub enum MonitorPart {
    /// The monitor itself.
    Whole,
    /// Its name.
    Name,
    /// Its kind.
    Kind,
    /// The name of its transition.
    Transition,
    /// The name of its place.
    Place,
    /// The text of its inscription.
    Expr,
    /// Whether at least or at most so many tokens stop a run.
    Op,
    /// How many occurrences or tokens stop a run.
    N,
}

/// A part of a phase.
#[derive(Clone, Copy, Debug)]
pub enum PhasePart {
    /// The phase itself.
    Whole,
    /// From where it starts.
    Start,
    /// The list of its edits.
    Edits,
    /// An edit, or a part of it.
    Edit(usize, EditPart),
}

/// A part of an edit.
#[derive(Clone, Copy, Debug)]
pub enum EditPart {
    /// The edit itself.
    Whole,
    /// Its kind.
    Kind,
    /// The name of its transition.
    Transition,
    /// The name of its place.
    Place,
    /// The text of what it puts there.
    Text,
}
