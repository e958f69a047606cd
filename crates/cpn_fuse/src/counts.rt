//! How many places and transitions the instances of modules have.

ghost use Rattle.std.specs.Prelude.{◌≡◌, ℕ, ◌<◌, ◌≤◌, List, length, slice_index, All, IfOk, IfErr, IfSome};
ghost use Rattle.cpn_module.specs.Views.{hierarchy_view};
ghost use Rattle.cpn_fuse.specs.Instances.{AreInstances};
ghost use Rattle.cpn_fuse.specs.PlaceInstances.{place_count, transition_count, first_place};
ghost use Rattle.cpn_fuse.specs.Unfolded.{most_instances, most_places, most_transitions, AreInModules, IsRefusedFor};
ghost use Rattle.cpn_fuse.specs.Views.{instances_view};
ghost use Rattle.cpn_fuse.specs.Answers.{refusal_of, AreFirstPlaces};

use crate::instances::Instance;
use crate::refusals::UnfoldError;
use cpn_module::Hierarchy;
use std::alloc::Global;

/// The most instances of places.
const MOST_PLACES: usize = 16_384;

/// The most instances of transitions.
const MOST_TRANSITIONS: usize = 16_384;

/// How many instances of places there are.
pub(crate) fn count_places(
    hierarchy: &Hierarchy,
    instances: &[Instance],
) -> Result<u32, UnfoldError>
    requires in_modules { AreInModules (hierarchy_view hierarchy.now) (instances_view instances.now) }
    requires instances { AreInstances (hierarchy_view hierarchy.now) (instances_view instances.now) }
    requires few { length instances.now ≤ most_instances }
    ensures count { IfOk result (λ count. count ≡ place_count (hierarchy_view hierarchy.now) (instances_view instances.now)) }
    ensures few { IfOk result (λ count. count ≤ most_places) }
    ensures refused { IfErr result (λ e. IfSome (refusal_of e) (λ refusal. IsRefusedFor (hierarchy_view hierarchy.now) refusal)) }
{
    let mut count = 0;
    for instance in instances {
        let places = hierarchy.modules[instance.of_module].ports.len();
        if places > MOST_PLACES - count {
            return Err(UnfoldError::Places);
        }
        count += places;
    }
    Ok(count as u32)
}

/// How many instances of transitions there are.
pub(crate) fn count_transitions(
    hierarchy: &Hierarchy,
    instances: &[Instance],
) -> Result<u32, UnfoldError>
    requires in_modules { AreInModules (hierarchy_view hierarchy.now) (instances_view instances.now) }
    requires instances { AreInstances (hierarchy_view hierarchy.now) (instances_view instances.now) }
    requires few { length instances.now ≤ most_instances }
    requires few_places { place_count (hierarchy_view hierarchy.now) (instances_view instances.now) ≤ most_places }
    ensures count { IfOk result (λ count. count ≡ transition_count (hierarchy_view hierarchy.now) (instances_view instances.now)) }
    ensures few { IfOk result (λ count. count ≤ most_transitions) }
    ensures refused { IfErr result (λ e. IfSome (refusal_of e) (λ refusal. IsRefusedFor (hierarchy_view hierarchy.now) refusal)) }
{
    let mut count = 0;
    for instance in instances {
        let transitions = hierarchy.modules[instance.of_module].transitions;
        if transitions > MOST_TRANSITIONS - count {
            return Err(UnfoldError::Transitions);
        }
        count += transitions;
    }
    Ok(count as u32)
}

/// The number of the first place of each instance.
pub(crate) fn first_places(
    alloc: Global,
    hierarchy: &Hierarchy,
    instances: &[Instance],
) -> Result<Vec<u32>, UnfoldError>
    requires in_modules { AreInModules (hierarchy_view hierarchy.now) (instances_view instances.now) }
    requires few { place_count (hierarchy_view hierarchy.now) (instances_view instances.now) ≤ most_places }
    ensures firsts { IfOk result (λ firsts. AreFirstPlaces (hierarchy_view hierarchy.now) (instances_view instances.now) firsts.items) }
    ensures memory { IfErr result (λ e. IfSome (refusal_of e) (λ _. ⊥)) }
{
    let mut firsts = Vec::with_capacity(alloc, instances.len())?;
    let mut first = 0;
    for instance in instances {
        firsts.push(first as u32)?;
        first += hierarchy.modules[instance.of_module].ports.len();
    }
    Ok(firsts)
}
