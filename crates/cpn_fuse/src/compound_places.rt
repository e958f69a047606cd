//! Compound places.

ghost use Rattle.std.specs.Prelude.{◌≡◌, IfOk};
ghost use Rattle.cpn_classes.specs.Numbering.{Numbering};
ghost use Rattle.cpn_module.specs.Ranges.{HasItsNumbers};
ghost use Rattle.cpn_module.specs.Views.{hierarchy_view};
ghost use Rattle.cpn_fuse.specs.Compound.{AreCompound};
ghost use Rattle.cpn_fuse.specs.Views.{instances_view};
ghost use Rattle.cpn_fuse.specs.Answers.{AreUnfolded};

use crate::copies::join_copies;
use crate::fusions::{join_sets, pick_instances};
use crate::sockets::port_pairs;
use crate::unfolding::Unfolded;
use cpn_classes::Classes;
use cpn_memory::Memory;
use cpn_module::Hierarchy;
use std::alloc::Global;

/// The compound places of a hierarchy that is unfolded, as classes of its instances of places.
///
/// # Errors
///
/// Want of memory.
pub fn compound(
    alloc: Global,
    hierarchy: &Hierarchy,
    unfolded: &Unfolded,
) -> Result<Classes, Memory>
    requires numbers { HasItsNumbers (hierarchy_view hierarchy.now) }
    requires unfolded { AreUnfolded (hierarchy_view hierarchy.now) unfolded.now }
    ensures compound { IfOk result (λ classes. AreCompound (hierarchy_view hierarchy.now) (instances_view unfolded.now.instances.items) classes) }
    // There are no others.
    ensures only { IfOk result (λ classes. (others : Numbering) → AreCompound (hierarchy_view hierarchy.now) (instances_view unfolded.now.instances.items) others → others ≡ classes) }
{
    let mut pairs = port_pairs(alloc, hierarchy, unfolded)?;
    let picked = pick_instances(alloc, hierarchy, unfolded)?;
    let marks = join_sets(alloc, hierarchy, unfolded, &picked, &mut pairs)?;
    join_copies(hierarchy, unfolded, &picked, &marks, &mut pairs)?;
    Classes::of(alloc, unfolded.places, &pairs)
}
