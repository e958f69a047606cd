//! Fusion sets, joined at one instance of each module.

ghost use Rattle.std.specs.Prelude.{◌≡◌, ℕ, ◌+◌, ◌^◌, ◌<◌, ◌≤◌, List, [], ◌++◌, map, length, slice_index_or, All, Option, None, Bool, IfOk, OnOk};
ghost use Rattle.cpn_module.specs.Ranges.{HasItsNumbers};
ghost use Rattle.cpn_module.specs.Views.{hierarchy_view};
ghost use Rattle.cpn_fuse.specs.Unfolded.{AreInModules};
ghost use Rattle.cpn_fuse.specs.FewerPairs.{ArePicked, picked_places, all_picked, with_first, set_pairs, AreMarked};
ghost use Rattle.cpn_fuse.specs.Views.{instances_view};
ghost use Rattle.cpn_fuse.specs.Answers.{AreUnfolded};

use crate::unfolding::Unfolded;
use cpn_memory::Memory;
use cpn_module::Hierarchy;
use std::alloc::Global;

/// One instance of each module that has any: the last.
pub(crate) fn pick_instances(
    alloc: Global,
    hierarchy: &Hierarchy,
    unfolded: &Unfolded,
) -> Result<Vec<Option<usize>>, Memory>
    requires in_modules { AreInModules (hierarchy_view hierarchy.now) (instances_view unfolded.now.instances.items) }
    ensures each { IfOk result (λ picked. length picked.items ≡ length (hierarchy_view hierarchy.now).modules) }
    ensures picked { IfOk result (λ picked. ArePicked (instances_view unfolded.now.instances.items) picked.items) }
{
    let mut picked = vec![in alloc; None; hierarchy.modules.len()]?;
    for (number, instance) in unfolded.instances.iter().enumerate() {
        picked[instance.of_module] = Some(number);
    }
    Ok(picked)
}

/// The places of the members of a fusion set in picked instances.
fn picked_places(
    alloc: Global,
    hierarchy: &Hierarchy,
    unfolded: &Unfolded,
    picked: &[Option<usize>],
    set: usize,
) -> Result<Vec<u32>, Memory>
    requires numbers { HasItsNumbers (hierarchy_view hierarchy.now) }
    requires unfolded { AreUnfolded (hierarchy_view hierarchy.now) unfolded.now }
    requires each { length picked.now ≡ length (hierarchy_view hierarchy.now).modules }
    requires picked { ArePicked (instances_view unfolded.now.instances.items) picked.now }
    requires set { set < length (hierarchy_view hierarchy.now).fusions }
    ensures { IfOk result (λ places. places.items ≡ picked_places (hierarchy_view hierarchy.now) (instances_view unfolded.now.instances.items) picked.now (slice_index_or (hierarchy_view hierarchy.now).fusions set [])) }
{
    let mut places = Vec::new(alloc);
    let members = hierarchy.fusions[set].members.as_slice();
    for member in members {
        if let Some(instance) = picked[member.of_module] {
            places.push(unfolded.first_places[instance] + member.place as u32)?;
        }
    }
    Ok(places)
}

/// Marks places.
fn mark(marks: &mut [bool], places: &[u32])
    requires { All (λ place. place < length marks.old) places.now }
    ensures { (marked : List ℕ) → AreMarked marks.old marked → AreMarked marks.new (marked ++ places.now) }
{
    for place in places {
        marks[*place as usize] = true;
    }
}

/// Joins the first of places to each of them.
fn join_to_first(places: &[u32], pairs: &mut Vec<(u32, u32)>) -> Result<(), Memory>
    ensures { OnOk result (pairs.new.items ≡ pairs.old.items ++ with_first places.now) }
{
    let Some(first) = places.first().copied() else {
        return Ok(());
    };
    for place in places {
        pairs.push((first, *place))?;
    }
    Ok(())
}

/// Joins the members of each fusion set at picked instances. Their places there are marked.
pub(crate) fn join_sets(
    alloc: Global,
    hierarchy: &Hierarchy,
    unfolded: &Unfolded,
    picked: &[Option<usize>],
    pairs: &mut Vec<(u32, u32)>,
) -> Result<Vec<bool>, Memory>
    requires numbers { HasItsNumbers (hierarchy_view hierarchy.now) }
    requires unfolded { AreUnfolded (hierarchy_view hierarchy.now) unfolded.now }
    requires each { length picked.now ≡ length (hierarchy_view hierarchy.now).modules }
    requires picked { ArePicked (instances_view unfolded.now.instances.items) picked.now }
    ensures each { IfOk result (λ marks. length marks.items ≡ unfolded.now.places) }
    ensures marked { IfOk result (λ marks. AreMarked marks.items (all_picked (hierarchy_view hierarchy.now) (instances_view unfolded.now.instances.items) picked.now (hierarchy_view hierarchy.now).fusions)) }
    ensures joined { OnOk result (pairs.new.items ≡ pairs.old.items ++ set_pairs (hierarchy_view hierarchy.now) (instances_view unfolded.now.instances.items) picked.now (hierarchy_view hierarchy.now).fusions) }
{
    let mut marks = vec![in alloc; false; unfolded.places as usize]?;
    for set in 0..hierarchy.fusions.len() {
        let places = picked_places(alloc, hierarchy, unfolded, picked, set)?;
        join_to_first(&places, pairs)?;
        mark(&mut marks, &places);
    }
    Ok(marks)
}
