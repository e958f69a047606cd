//! Places of fusion sets, joined over all instances of their modules.

ghost use Rattle.std.specs.Prelude.{◌≡◌, ℕ, ◌+◌, ◌^◌, ◌<◌, ◌≤◌, List, ◌++◌, map, length, slice_index_or, All, Option, None, Bool, IfOk, OnOk};
ghost use Rattle.cpn_module.specs.Ranges.{HasItsNumbers};
ghost use Rattle.cpn_module.specs.Views.{hierarchy_view};
ghost use Rattle.cpn_fuse.specs.Instances.{instance_at};
ghost use Rattle.cpn_fuse.specs.FewerPairs.{ArePicked, marked_pairs, copies_of, copies};
ghost use Rattle.cpn_fuse.specs.Views.{instances_view};
ghost use Rattle.cpn_fuse.specs.Answers.{AreUnfolded};

use crate::unfolding::Unfolded;
use cpn_memory::Memory;
use cpn_module::Hierarchy;

/// Joins the marked ones of so many places from one on, each to the one that stands as far from another.
fn join_marked(
    marks: &[bool],
    one: u32,
    other: u32,
    count: u32,
    pairs: &mut Vec<(u32, u32)>,
) -> Result<(), Memory>
    requires marks { one + count ≤ length marks.now }
    requires one { one + count < 2 ^ 32 }
    requires other { other + count < 2 ^ 32 }
    ensures { OnOk result (pairs.new.items ≡ pairs.old.items ++ marked_pairs marks.now one other count) }
{
    for place in 0..count {
        if marks[(one + place) as usize] {
            pairs.push((one + place, other + place))?;
        }
    }
    Ok(())
}

/// Joins the marked places of the picked instance of a module to those of another instance of it.
fn join_copies_of(
    hierarchy: &Hierarchy,
    unfolded: &Unfolded,
    picked: &[Option<usize>],
    marks: &[bool],
    instance: usize,
    pairs: &mut Vec<(u32, u32)>,
) -> Result<(), Memory>
    requires numbers { HasItsNumbers (hierarchy_view hierarchy.now) }
    requires unfolded { AreUnfolded (hierarchy_view hierarchy.now) unfolded.now }
    requires each { length picked.now ≡ length (hierarchy_view hierarchy.now).modules }
    requires picked { ArePicked (instances_view unfolded.now.instances.items) picked.now }
    requires marks { length marks.now ≡ unfolded.now.places }
    requires instance { instance < length (instances_view unfolded.now.instances.items) }
    ensures { OnOk result (pairs.new.items ≡ pairs.old.items ++ copies_of (hierarchy_view hierarchy.now) (instances_view unfolded.now.instances.items) marks.now instance (slice_index_or picked.now (instance_at (instances_view unfolded.now.instances.items) instance).of_module None)) }
{
    let of_module = unfolded.instances[instance].of_module;
    let Some(one) = picked[of_module] else {
        return Ok(());
    };
    let places = hierarchy.modules[of_module].ports.len();
    join_marked(
        marks,
        unfolded.first_places[one],
        unfolded.first_places[instance],
        places as u32,
        pairs,
    )
}

/// Joins the marked places of picked instances to those of all instances of their modules.
pub(crate) fn join_copies(
    hierarchy: &Hierarchy,
    unfolded: &Unfolded,
    picked: &[Option<usize>],
    marks: &[bool],
    pairs: &mut Vec<(u32, u32)>,
) -> Result<(), Memory>
    requires numbers { HasItsNumbers (hierarchy_view hierarchy.now) }
    requires unfolded { AreUnfolded (hierarchy_view hierarchy.now) unfolded.now }
    requires each { length picked.now ≡ length (hierarchy_view hierarchy.now).modules }
    requires picked { ArePicked (instances_view unfolded.now.instances.items) picked.now }
    requires marks { length marks.now ≡ unfolded.now.places }
    ensures { OnOk result (pairs.new.items ≡ pairs.old.items ++ copies (hierarchy_view hierarchy.now) (instances_view unfolded.now.instances.items) picked.now marks.now (length (instances_view unfolded.now.instances.items))) }
{
    for instance in 0..unfolded.instances.len() {
        join_copies_of(hierarchy, unfolded, picked, marks, instance, pairs)?;
    }
    Ok(())
}
