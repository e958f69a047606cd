//! Ports, joined to their sockets.

ghost use Rattle.std.specs.Prelude.{◌≡◌, ℕ, ◌+◌, ◌^◌, ◌<◌, ◌≤◌, List, ◌++◌, map, length, slice_index_or, All, Option, None, IfOk, OnOk};
ghost use Rattle.cpn_module.specs.Ranges.{HasItsNumbers};
ghost use Rattle.cpn_module.specs.Views.{hierarchy_view};
ghost use Rattle.cpn_fuse.specs.Instances.{instance_at};
ghost use Rattle.cpn_fuse.specs.Compound.{port_pairs_where, port_pairs};
ghost use Rattle.cpn_fuse.specs.Views.{instances_view};
ghost use Rattle.cpn_fuse.specs.Answers.{AreUnfolded};

use crate::unfolding::Unfolded;
use cpn_memory::Memory;
use cpn_module::{Assigned, Hierarchy};
use std::alloc::Global;

/// Joins sockets to their ports, by the numbers of the first places of the two instances.
fn join_assigned(
    sockets: u32,
    ports: u32,
    assignments: &[Assigned],
    pairs: &mut Vec<(u32, u32)>,
) -> Result<(), Memory>
    requires { All (λ a. (sockets + a.socket < 2 ^ 32) × (ports + a.port < 2 ^ 32)) assignments.now }
    ensures { OnOk result (pairs.new.items ≡ pairs.old.items ++ map (λ a. (sockets + a.socket, ports + a.port)) assignments.now) }
{
    for assigned in assignments {
        pairs.push((
            sockets + assigned.socket as u32,
            ports + assigned.port as u32,
        ))?;
    }
    Ok(())
}

/// Joins the ports of an instance to their sockets, where it is a part of another.
fn join_ports(
    hierarchy: &Hierarchy,
    unfolded: &Unfolded,
    instance: usize,
    pairs: &mut Vec<(u32, u32)>,
) -> Result<(), Memory>
    requires numbers { HasItsNumbers (hierarchy_view hierarchy.now) }
    requires unfolded { AreUnfolded (hierarchy_view hierarchy.now) unfolded.now }
    requires instance { instance < length (instances_view unfolded.now.instances.items) }
    ensures { OnOk result (pairs.new.items ≡ pairs.old.items ++ port_pairs_where (hierarchy_view hierarchy.now) (instances_view unfolded.now.instances.items) instance (instance_at (instances_view unfolded.now.instances.items) instance).part_of) }
{
    let Some(part) = unfolded.instances[instance].part_of else {
        return Ok(());
    };
    let outer = unfolded.instances[part.instance].of_module;
    let substitution = &hierarchy.modules[outer].substitutions[part.substitution];
    let sockets = unfolded.first_places[part.instance];
    let ports = unfolded.first_places[instance];
    join_assigned(sockets, ports, &substitution.assignments, pairs)
}

/// Each port's instance with that of its socket.
pub(crate) fn port_pairs(
    alloc: Global,
    hierarchy: &Hierarchy,
    unfolded: &Unfolded,
) -> Result<Vec<(u32, u32)>, Memory>
    requires numbers { HasItsNumbers (hierarchy_view hierarchy.now) }
    requires unfolded { AreUnfolded (hierarchy_view hierarchy.now) unfolded.now }
    ensures { IfOk result (λ pairs. pairs.items ≡ port_pairs (hierarchy_view hierarchy.now) (instances_view unfolded.now.instances.items)) }
{
    let mut pairs = Vec::new(alloc);
    for instance in 0..unfolded.instances.len() {
        join_ports(hierarchy, unfolded, instance, &mut pairs)?;
    }
    Ok(pairs)
}
