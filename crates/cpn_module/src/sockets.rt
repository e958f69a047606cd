//! The types of sockets, and that each is that of its port.

ghost use Rattle.std.specs.Prelude.{◌≡◌, ℕ, ◌&&◌, ◌||◌, map, OnOk, IfOk};
ghost use Rattle.std.specs.List.{list_any};
ghost use Rattle.cpn_document.specs.Document.{at_assignment as part_of_assignment};
ghost use Rattle.cpn_document.specs.declared.pointers.AssignmentPart.TheVariants.{Whole};
ghost use Rattle.cpn_readings.specs.Rules.{each_item};
ghost use Rattle.cpn_module.specs.Refusals.{socket_type};
ghost use Rattle.cpn_module.specs.Hierarchy.{port_at as port_of, structure_at};
ghost use Rattle.cpn_module.specs.Views.{ends_view, assigned_view, substitution_view, structure_view, hierarchy_view};
ghost use Rattle.cpn_module.specs.ModuleRules.{rule, is_input as leads_from, is_output as leads_to, joins, type_of as of_type, type_of_socket, are_one_type as one_type, socket_rules};
ghost use Rattle.cpn_module.specs.Pairs.{has_pair};
ghost use Rattle.cpn_module.specs.Answers.{Checks};

use crate::hierarchy::{Ends, Hierarchy, Node, Structure, Substitution};
use crate::pairs::Pairs;
use crate::pointing::at_assignment;
use crate::ports::port_at;
use crate::refusals::ModuleError;
use cpn_document::{AssignmentPart, PortType, Way};
use std::alloc::{AllocError, Global};

/// Whether a way leads from the place.
fn is_input(way: Way) -> bool
    ensures exact { result ≡ leads_from way }
{
    match way {
        Way::ToTransition => true,
        Way::ToPlace => false,
        Way::Both => true,
    }
}

/// Whether a way leads to the place.
fn is_output(way: Way) -> bool
    ensures exact { result ≡ leads_to way }
{
    match way {
        Way::ToTransition => false,
        Way::ToPlace => true,
        Way::Both => true,
    }
}

/// Whether there are two types, and they are one.
fn are_one_type(one: Option<PortType>, other: Option<PortType>) -> bool
    ensures exact { result ≡ one_type one other }
{
    match (one, other) {
        (Some(PortType::In), Some(PortType::In)) => true,
        (Some(PortType::Out), Some(PortType::Out)) => true,
        (Some(PortType::Io), Some(PortType::Io)) => true,
        _ => false,
    }
}

/// Adds the place of an arc with its substitution transition, where it is at one and leads as wanted.
fn add_ends(pairs: &mut Pairs, leads: bool, arc: Ends) -> Result<(), AllocError>
    ensures added { OnOk result ((p i : ℕ) → has_pair p i pairs.new ≡ (has_pair p i pairs.old || (joins p i (ends_view arc) && leads))) }
{
    match arc.node {
        Node::Transition(_) => Ok(()),
        Node::Substitution(number) => {
            if !leads {
                return Ok(());
            }
            pairs.add(arc.place, number)
        }
    }
}

/// The places of a module that are sockets, each with the number of its substitution transition.
#[derive(Drop)]
struct Sockets {
    /// Those that arcs lead from.
    inputs: Pairs,
    /// Those that arcs lead to.
    outputs: Pairs,
}

impl Sockets {
    /// Adds the sockets that these arcs make.
    fn add(&mut self, arcs: &[Ends]) -> Result<(), AllocError>
        ensures inputs { OnOk result ((p i : ℕ) → has_pair p i self.new.inputs
            ≡ (has_pair p i self.old.inputs || list_any (λ arc. joins p i arc && leads_from arc.way) (map ends_view arcs.now))) }
        ensures outputs { OnOk result ((p i : ℕ) → has_pair p i self.new.outputs
            ≡ (has_pair p i self.old.outputs || list_any (λ arc. joins p i arc && leads_to arc.way) (map ends_view arcs.now))) }
    {
        for arc in arcs {
            add_ends(&mut self.inputs, is_input(arc.way), *arc)?;
            add_ends(&mut self.outputs, is_output(arc.way), *arc)?;
        }
        Ok(())
    }

    /// The sockets that these arcs make.
    fn of(alloc: Global, arcs: &[Ends]) -> Result<Sockets, AllocError>
        ensures inputs { IfOk result (λ sockets. (p i : ℕ) → has_pair p i sockets.inputs ≡ list_any (λ arc. joins p i arc && leads_from arc.way) (map ends_view arcs.now)) }
        ensures outputs { IfOk result (λ sockets. (p i : ℕ) → has_pair p i sockets.outputs ≡ list_any (λ arc. joins p i arc && leads_to arc.way) (map ends_view arcs.now)) }
    {
        let mut sockets = Sockets {
            inputs: Pairs::new(alloc),
            outputs: Pairs::new(alloc),
        };
        sockets.add(arcs)?;
        Ok(sockets)
    }

    /// The type of a place as a socket of a substitution transition.
    fn type_of(&self, place: usize, number: usize) -> Option<PortType>
        ensures exact { result ≡ of_type (has_pair place number self.now.inputs) (has_pair place number self.now.outputs) }
    {
        let input = self.inputs.has(place, number);
        let output = self.outputs.has(place, number);
        match (input, output) {
            (true, true) => Some(PortType::Io),
            (true, false) => Some(PortType::In),
            (false, true) => Some(PortType::Out),
            (false, false) => None,
        }
    }
}

/// Each socket of a substitution transition is of the type of its port.
fn check_assignments(
    hierarchy: &Hierarchy,
    sockets: &Sockets,
    in_module: usize,
    in_sub: usize,
    substitution: &Substitution,
) -> Result<(), ModuleError>
    ensures checks { Checks result (each_item (λ k a. rule (one_type (of_type (has_pair a.socket in_sub sockets.now.inputs) (has_pair a.socket in_sub sockets.now.outputs)) (port_of (structure_at (hierarchy_view hierarchy.now) substitution.now.submodule) a.port)) (socket_type (part_of_assignment in_module in_sub k Whole))) 0 (map assigned_view substitution.now.assignments.items)) }
{
    for (number, assignment) in substitution.assignments.iter().enumerate() {
        let socket = sockets.type_of(assignment.socket, in_sub);
        let port = port_at(hierarchy, substitution.submodule, assignment.port);
        if !are_one_type(socket, port) {
            let here = at_assignment(in_module, in_sub, number, AssignmentPart::Whole);
            return Err(ModuleError::SocketType(here));
        }
    }
    Ok(())
}

/// Each socket of the substitution transitions of a module, whose sockets these are, is of the type of its port.
fn check_all_assignments(
    hierarchy: &Hierarchy,
    sockets: &Sockets,
    in_module: usize,
    structure: &Structure,
) -> Result<(), ModuleError>
    requires inputs { (p i : ℕ) → has_pair p i sockets.now.inputs
        ≡ list_any (λ arc. joins p i arc && leads_from arc.way) (structure_view structure.now).arcs }
    requires outputs { (p i : ℕ) → has_pair p i sockets.now.outputs
        ≡ list_any (λ arc. joins p i arc && leads_to arc.way) (structure_view structure.now).arcs }
    ensures checks { Checks result (each_item (λ i sub. each_item (λ k a. rule (one_type (type_of_socket (structure_view structure.now) a.socket i) (port_of (structure_at (hierarchy_view hierarchy.now) sub.submodule) a.port)) (socket_type (part_of_assignment in_module i k Whole))) 0 sub.assignments) 0 (map substitution_view structure.now.substitutions.items)) }
{
    for (number, substitution) in structure.substitutions.iter().enumerate() {
        check_assignments(hierarchy, sockets, in_module, number, substitution)?;
    }
    Ok(())
}

/// Each socket of the substitution transitions of a module is of the type of its port.
fn check_substitutions(
    alloc: Global,
    hierarchy: &Hierarchy,
    in_module: usize,
    structure: &Structure,
) -> Result<(), ModuleError>
    ensures checks { Checks result (each_item (λ i sub. each_item (λ k a. rule (one_type (type_of_socket (structure_view structure.now) a.socket i) (port_of (structure_at (hierarchy_view hierarchy.now) sub.submodule) a.port)) (socket_type (part_of_assignment in_module i k Whole))) 0 sub.assignments) 0 (map substitution_view structure.now.substitutions.items)) }
{
    let sockets = Sockets::of(alloc, &structure.arcs)?;
    check_all_assignments(hierarchy, &sockets, in_module, structure)
}

/// Each socket is of the type of its port.
pub(crate) fn check_sockets(alloc: Global, hierarchy: &Hierarchy) -> Result<(), ModuleError>
    ensures checks { Checks result (socket_rules (hierarchy_view hierarchy.now)) }
{
    for (number, structure) in hierarchy.modules.iter().enumerate() {
        check_substitutions(alloc, hierarchy, number, structure)?;
    }
    Ok(())
}
