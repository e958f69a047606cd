//! The ports of modules, and that each has one socket at most.

ghost use Rattle.std.specs.Prelude.{◌≡◌, map, not, take};
ghost use Rattle.cpn_document.specs.Document.{at_assignment as part_of_assignment};
ghost use Rattle.cpn_document.specs.declared.pointers.AssignmentPart.TheVariants.{Whole};
ghost use Rattle.cpn_readings.specs.Rules.{each_item};
ghost use Rattle.cpn_module.specs.Refusals.{port_twice};
ghost use Rattle.cpn_module.specs.Hierarchy.{port_at, structure_at};
ghost use Rattle.cpn_module.specs.Views.{assigned_view, substitution_view, hierarchy_view};
ghost use Rattle.cpn_module.specs.ModuleRules.{rule, is_assigned, port_rules};
ghost use Rattle.cpn_module.specs.Answers.{Checks};

use crate::hierarchy::{Assigned, Hierarchy, Substitution};
use crate::number_sets::NumberSet;
use crate::pointing::at_assignment;
use crate::refusals::ModuleError;
use cpn_document::{AssignmentPart, PortType};
use std::alloc::Global;

/// What port the place of a number is, in the module of a number.
pub(crate) fn port_at(hierarchy: &Hierarchy, of_module: usize, place: usize) -> Option<PortType>
    ensures exact { result ≡ port_at (structure_at (hierarchy_view hierarchy.now) of_module) place }
{
    let structure = hierarchy.modules.get(of_module)?;
    structure.ports.get(place).copied().flatten()
}

/// No two of the assignments of a substitution transition are of one port.
fn check_assignments(
    alloc: Global,
    in_module: usize,
    in_sub: usize,
    assignments: &[Assigned],
) -> Result<(), ModuleError>
    ensures checks { Checks result (each_item (λ k a. rule (not (is_assigned a.port (take k (map assigned_view assignments.now)))) (port_twice (part_of_assignment in_module in_sub k Whole))) 0 (map assigned_view assignments.now)) }
{
    let mut assigned = NumberSet::new(alloc);
    for (number, assignment) in assignments.iter().enumerate() {
        if !assigned.add(assignment.port)? {
            let here = at_assignment(in_module, in_sub, number, AssignmentPart::Whole);
            return Err(ModuleError::PortTwice(here));
        }
    }
    Ok(())
}

/// Each port has at most one socket, of the assignments of each of the substitution transitions of a module.
fn check_substitutions(
    alloc: Global,
    in_module: usize,
    substitutions: &[Substitution],
) -> Result<(), ModuleError>
    ensures checks { Checks result (each_item (λ i sub. each_item (λ k a. rule (not (is_assigned a.port (take k sub.assignments))) (port_twice (part_of_assignment in_module i k Whole))) 0 sub.assignments) 0 (map substitution_view substitutions.now)) }
{
    for (number, substitution) in substitutions.iter().enumerate() {
        check_assignments(alloc, in_module, number, &substitution.assignments)?;
    }
    Ok(())
}

/// Each port has at most one socket.
pub(crate) fn check_ports(alloc: Global, hierarchy: &Hierarchy) -> Result<(), ModuleError>
    ensures checks { Checks result (port_rules (hierarchy_view hierarchy.now)) }
{
    for (number, structure) in hierarchy.modules.iter().enumerate() {
        check_substitutions(alloc, number, &structure.substitutions)?;
    }
    Ok(())
}
