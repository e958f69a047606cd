//! The transitions of the flat net.

ghost use Rattle.std.specs.Prelude.{◌≡◌, ◌+◌, ◌++◌, ◌<◌, ◌^◌, map, length, string_bytes, slice_index, IfOk};
ghost use Rattle.std.specs.List.{AllByRecursion};
ghost use Rattle.cpn_core.specs.Nets.{arc_view, arcs_view, transition_view};
ghost use Rattle.cpn_fuse.specs.Answers.{AreFirstPlaces};
ghost use Rattle.cpn_fuse.specs.Views.{instances_view};
ghost use Rattle.cpn_module.specs.Views.{hierarchy_view};
ghost use Rattle.cpn_accepted.specs.Views.{module_net_view};
ghost use Rattle.cpn_flat.specs.Names.{name_at};
ghost use Rattle.cpn_flat.specs.FlatNet.{module_net_among, flat_arc as arc_in, flat_transition as transition_in, all_transitions as transition_instances};
ghost use Rattle.cpn_flat.specs.Items.{AreAtItems, HasItems, HaveItems};
ghost use Rattle.cpn_flat.specs.Placed.{AreOfModules};

use crate::names::{joined, name_of};
use cpn_accepted::ModuleNet;
use cpn_classes::Classes;
use cpn_core::{Memory, PlaceArc, Transition};
use cpn_fuse::Instance;
use cpn_module::Hierarchy;
use std::alloc::Global;

/// An arc of an instance, at the compound place of its place. It shares the inscription of the module's arc.
fn flat_arc(classes: &Classes, first: u32, arc: &PlaceArc) -> Result<PlaceArc, Memory>
    requires item { first + arc.now.place < length classes.now.numbers }
    requires small { length classes.now.numbers < 2 ^ 32 }
    ensures made { IfOk result (λ made. arc_view made ≡ arc_in classes.now first (arc_view arc.now)) }
{
    arc.at_place(classes.number(first + arc.place))
}

/// The arcs of an instance, each at the compound place of its place.
fn flat_arcs(
    alloc: Global,
    classes: &Classes,
    first: u32,
    arcs: &[PlaceArc],
) -> Result<Vec<PlaceArc>, Memory>
    requires items { AreAtItems (length classes.now.numbers) first (arcs_view arcs.now) }
    requires small { length classes.now.numbers < 2 ^ 32 }
    ensures made { IfOk result (λ made. arcs_view made.items ≡ map (arc_in classes.now first) (arcs_view arcs.now)) }
{
    let mut made = Vec::with_capacity(alloc, arcs.len())?;
    for arc in arcs {
        made.push(flat_arc(classes, first, arc)?)?;
    }
    Ok(made)
}

/// A transition of an instance of the name. It shares the inscriptions of the module's transition.
fn flat_transition(
    alloc: Global,
    classes: &Classes,
    whole: &str,
    first: u32,
    transition: &Transition,
) -> Result<Transition, Memory>
    requires items { HasItems (length classes.now.numbers) first (transition_view transition.now) }
    requires small { length classes.now.numbers < 2 ^ 32 }
    ensures made { IfOk result (λ made. transition_view made ≡ transition_in classes.now whole.now first (transition_view transition.now)) }
{
    let name = joined(alloc, whole, transition.name.as_str())?;
    let inputs = flat_arcs(alloc, classes, first, transition.inputs.as_slice())?;
    let outputs = flat_arcs(alloc, classes, first, transition.outputs.as_slice())?;
    transition.with_arcs(name, inputs, outputs)
}

/// Adds the transitions of a module, as those of an instance of the name.
fn push_transitions(
    alloc: Global,
    classes: &Classes,
    transitions: &mut Vec<Transition>,
    whole: &str,
    first: u32,
    module: &ModuleNet,
) -> Result<(), Memory>
    requires items { AllByRecursion (HasItems (length classes.now.numbers) first) (module_net_view module.now).transitions }
    requires small { length classes.now.numbers < 2 ^ 32 }
    ensures pushed { IfOk result (λ _. map transition_view transitions.new.items ≡ map transition_view transitions.old.items ++ map (transition_in classes.now whole.now first) (module_net_view module.now).transitions) }
{
    for transition in &module.transitions {
        transitions.push(flat_transition(alloc, classes, whole, first, transition)?)?;
    }
    Ok(())
}

/// Adds the transitions of an instance of a module.
fn push_instance(
    alloc: Global,
    modules: &[ModuleNet],
    classes: &Classes,
    transitions: &mut Vec<Transition>,
    whole: &str,
    first: u32,
    of_module: usize,
) -> Result<(), Memory>
    requires in_range { of_module < length modules.now }
    requires items { AllByRecursion (HasItems (length classes.now.numbers) first) (module_net_among (map module_net_view modules.now) of_module).transitions }
    requires small { length classes.now.numbers < 2 ^ 32 }
    ensures pushed { IfOk result (λ _. map transition_view transitions.new.items ≡ map transition_view transitions.old.items ++ map (transition_in classes.now whole.now first) (module_net_among (map module_net_view modules.now) of_module).transitions) }
{
    let module = &modules[of_module];
    push_transitions(alloc, classes, transitions, whole, first, module)
}

/// The transitions of all instances, in order. The first place of each instance is given by its number.
#[tactic(auto, unfolding(crate::specs::FlatNet::each_instance))]
pub(crate) fn all_transitions(
    alloc: Global,
    hierarchy: &Hierarchy,
    modules: &[ModuleNet],
    instances: &[Instance],
    firsts: &[u32],
    names: &[String],
    classes: &Classes,
) -> Result<Vec<Transition>, Memory>
    requires items { HaveItems (hierarchy_view hierarchy.now) (map module_net_view modules.now) (instances_view instances.now) (length classes.now.numbers) }
    requires named { length names.now ≡ length instances.now }
    requires in_modules { AreOfModules (length modules.now) (instances_view instances.now) }
    requires firsts { AreFirstPlaces (hierarchy_view hierarchy.now) (instances_view instances.now) firsts.now }
    requires small { length classes.now.numbers < 2 ^ 32 }
    ensures transitions { IfOk result (λ made. map transition_view made.items ≡ transition_instances (hierarchy_view hierarchy.now) (map module_net_view modules.now) (instances_view instances.now) (map string_bytes names.now) classes.now) }
{
    let mut transitions = Vec::new(alloc);
    for (number, instance) in instances.iter().enumerate() {
        push_instance(
            alloc,
            modules,
            classes,
            &mut transitions,
            name_of(names, number),
            firsts[number],
            instance.of_module,
        )?;
    }
    Ok(transitions)
}
