//! What a hierarchy unfolds to.

ghost use Rattle.std.specs.Prelude.{◌≡◌, ℕ, ◌<◌, List, length, IfOk, IfErr, IfSome};
ghost use Rattle.cpn_module.specs.Hierarchy.{PlainHierarchy};
ghost use Rattle.cpn_module.specs.Ranges.{HasItsNumbers};
ghost use Rattle.cpn_module.specs.Views.{hierarchy_view};
ghost use Rattle.cpn_fuse.specs.Instances.{PlainInstance, AreInstances, AreMoreThan};
ghost use Rattle.cpn_fuse.specs.Unfolded.{UnfoldingRefusal, IsRefusedFor, IsUnfolded};
ghost use Rattle.cpn_fuse.specs.Answers.{refusal_of, AreUnfolded};

use crate::counts::{count_places, count_transitions, first_places};
use crate::instances::Instance;
use crate::preorder::instances_of;
use crate::refusals::UnfoldError;
use cpn_module::Hierarchy;
use std::alloc::Global;

/// What a hierarchy unfolds to.
#[derive(Drop)]
pub struct Unfolded {
    /// The instances of modules, each before its parts.
    pub instances: Vec<Instance>,
    /// The number of the first place of each instance; the others follow it as its module lists them.
    pub first_places: Vec<u32>,
    /// How many instances of places there are.
    pub places: u32,
    /// How many instances of transitions there are.
    pub transitions: u32,
}

// What a hierarchy unfolds to, or why it is refused.
fn unfolding_of(alloc: Global, hierarchy: &Hierarchy) -> Result<Unfolded, UnfoldError>
    requires numbers { HasItsNumbers (hierarchy_view hierarchy.now) }
    ensures unfolded { IfOk result (λ unfolded. AreUnfolded (hierarchy_view hierarchy.now) unfolded) }
    ensures refused { IfErr result (λ e. IfSome (refusal_of e) (λ refusal. IsRefusedFor (hierarchy_view hierarchy.now) refusal)) }
{
    let instances = instances_of(alloc, hierarchy)?;
    let places = count_places(hierarchy, &instances)?;
    let transitions = count_transitions(hierarchy, &instances)?;
    let first_places = first_places(alloc, hierarchy, &instances)?;
    Ok(Unfolded {
        instances,
        first_places,
        places,
        transitions,
    })
}

/// Unfolds a hierarchy into the instances of its modules.
///
/// # Errors
///
/// There are more than 4,096 instances of modules ([`UnfoldError::Instances`]); else more than 16,384 of places
/// ([`UnfoldError::Places`]); else more than 16,384 of transitions ([`UnfoldError::Transitions`]). Or [`UnfoldError::Memory`]:
/// memory ran out.
pub fn unfold(alloc: Global, hierarchy: &Hierarchy) -> Result<Unfolded, UnfoldError>
    requires numbers { HasItsNumbers (hierarchy_view hierarchy.now) }
    // What is answered is what the hierarchy unfolds to,
    ensures unfolded { IfOk result (λ unfolded. AreUnfolded (hierarchy_view hierarchy.now) unfolded) }
    // or that of which there is too much.
    ensures refused { IfErr result (λ e. IfSome (refusal_of e) (λ refusal. IsRefusedFor (hierarchy_view hierarchy.now) refusal)) }
    // A hierarchy has one list of instances,
    ensures one { (first second : List PlainInstance) → AreInstances (hierarchy_view hierarchy.now) first → AreInstances (hierarchy_view hierarchy.now) second → first ≡ second }
    // is refused for one reason,
    ensures one_refusal { (first second : UnfoldingRefusal) → IsRefusedFor (hierarchy_view hierarchy.now) first → IsRefusedFor (hierarchy_view hierarchy.now) second → first ≡ second }
    // and is not both unfolded and refused.
    ensures not_both { (instances : List PlainInstance) (refusal : UnfoldingRefusal) → IsUnfolded (hierarchy_view hierarchy.now) instances → IsRefusedFor (hierarchy_view hierarchy.now) refusal → ⊥ }
{
    unfolding_of(alloc, hierarchy)
}

/// The law that a hierarchy unfolds to one thing. A call does nothing: it is there for what it ensures.
pub fn one_unfolding()
    // A hierarchy has one list of instances,
    ensures one { (h : PlainHierarchy) (first second : List PlainInstance) → AreInstances h first → AreInstances h second → first ≡ second }
    // is refused for one reason,
    ensures one_refusal { (h : PlainHierarchy) (first second : UnfoldingRefusal) → IsRefusedFor h first → IsRefusedFor h second → first ≡ second }
    // and is not both unfolded and refused.
    ensures not_both { (h : PlainHierarchy) (instances : List PlainInstance) (refusal : UnfoldingRefusal) → IsUnfolded h instances → IsRefusedFor h refusal → ⊥ }
{}
