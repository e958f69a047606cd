//! The instances of a hierarchy, each before its parts.

ghost use Rattle.std.specs.Prelude.{◌≡◌, ℕ, ◌+◌, ◌<◌, ◌≤◌, List, [], ◌∷◌, ◌++◌, length, All, IfOk, IfErr, IfSome, OnOk, MatchOption};
ghost use Rattle.cpn_module.specs.Ranges.{HasItsNumbers};
ghost use Rattle.cpn_module.specs.Views.{hierarchy_view};
ghost use Rattle.cpn_fuse.specs.Instances.{AreInstances};
ghost use Rattle.cpn_fuse.specs.Unfolded.{most_instances, IsRefusedFor};
ghost use Rattle.cpn_fuse.specs.Views.{instance_view, instances_view};
ghost use Rattle.cpn_fuse.specs.Waiting.{waiting_instances, parts_from_on, AreWaiting, HaveCome};
ghost use Rattle.cpn_fuse.specs.Answers.{refusal_of};

use crate::instances::{Instance, PartOf};
use crate::refusals::UnfoldError;
use cpn_module::Hierarchy;
use std::alloc::Global;

/// The most instances of modules.
const MOST_INSTANCES: usize = 4_096;

/// Parts of an instance that wait: those for the substitution transitions from one on.
#[derive(Clone, Copy, Debug)]
pub(crate) struct Waiting {
    /// The first of them.
    part: PartOf,
    /// The number of the instance's module.
    of_module: usize,
}

/// Lets parts of an instance wait before all others, where there are any.
fn wait(
    hierarchy: &Hierarchy,
    waiting: &mut Vec<Waiting>,
    parts: Waiting,
) -> Result<(), UnfoldError>
    requires of_module { parts.of_module < length (hierarchy_view hierarchy.now).modules }
    requires waiting { AreWaiting (hierarchy_view hierarchy.now) waiting.old.items }
    ensures waiting { AreWaiting (hierarchy_view hierarchy.now) waiting.new.items }
    ensures before { OnOk result (waiting_instances (hierarchy_view hierarchy.now) waiting.new.items ≡ parts_from_on (hierarchy_view hierarchy.now) parts ++ waiting_instances (hierarchy_view hierarchy.now) waiting.old.items) }
    ensures memory { IfErr result (λ e. IfSome (refusal_of e) (λ _. ⊥)) }
{
    if parts.part.substitution < hierarchy.modules[parts.of_module].substitutions.len() {
        waiting.push(parts)?;
    }
    Ok(())
}

/// The first instance that waits, which then waits no longer.
fn next(hierarchy: &Hierarchy, waiting: &mut Vec<Waiting>) -> Result<Option<Instance>, UnfoldError>
    requires numbers { HasItsNumbers (hierarchy_view hierarchy.now) }
    requires waiting { AreWaiting (hierarchy_view hierarchy.now) waiting.old.items }
    ensures waiting { AreWaiting (hierarchy_view hierarchy.now) waiting.new.items }
    ensures first { IfOk result (λ next. MatchOption next (waiting_instances (hierarchy_view hierarchy.now) waiting.old.items ≡ []) (λ instance. waiting_instances (hierarchy_view hierarchy.now) waiting.old.items ≡ instance_view instance ∷ waiting_instances (hierarchy_view hierarchy.now) waiting.new.items)) }
    ensures in_range { IfOk result (λ next. IfSome next (λ instance. instance.of_module < length (hierarchy_view hierarchy.now).modules)) }
    ensures memory { IfErr result (λ e. IfSome (refusal_of e) (λ _. ⊥)) }
{
    let Some(parts) = waiting.pop() else {
        return Ok(None);
    };
    let PartOf {
        instance,
        substitution,
    } = parts.part;
    let substitutions = &hierarchy.modules[parts.of_module].substitutions;
    let submodule = substitutions[substitution].submodule;
    let next = PartOf {
        instance,
        substitution: substitution + 1,
    };
    wait(
        hierarchy,
        waiting,
        Waiting {
            part: next,
            of_module: parts.of_module,
        },
    )?;
    Ok(Some(Instance {
        of_module: submodule,
        part_of: Some(parts.part),
    }))
}

/// The instance comes next, and its parts wait before all others.
fn come(
    hierarchy: &Hierarchy,
    instances: &mut Vec<Instance>,
    waiting: &mut Vec<Waiting>,
    instance: Instance,
) -> Result<(), UnfoldError>
    requires of_module { instance.of_module < length (hierarchy_view hierarchy.now).modules }
    requires waiting { AreWaiting (hierarchy_view hierarchy.now) waiting.old.items }
    requires first { HaveCome (hierarchy_view hierarchy.now) (instances_view instances.old.items) (instance_view instance ∷ waiting_instances (hierarchy_view hierarchy.now) waiting.old.items) }
    ensures waiting { AreWaiting (hierarchy_view hierarchy.now) waiting.new.items }
    ensures came { OnOk result (HaveCome (hierarchy_view hierarchy.now) (instances_view instances.new.items) (waiting_instances (hierarchy_view hierarchy.now) waiting.new.items)) }
    ensures one { OnOk result (length instances.new.items ≡ length instances.old.items + 1) }
    ensures memory { IfErr result (λ e. IfSome (refusal_of e) (λ _. ⊥)) }
{
    let part = PartOf {
        instance: instances.len(),
        substitution: 0,
    };
    let of_module = instance.of_module;
    instances.push(instance)?;
    wait(hierarchy, waiting, Waiting { part, of_module })
}

/// The instances of a hierarchy, where they are not too many.
pub(crate) fn instances_of(
    alloc: Global,
    hierarchy: &Hierarchy,
) -> Result<Vec<Instance>, UnfoldError>
    requires numbers { HasItsNumbers (hierarchy_view hierarchy.now) }
    ensures instances { IfOk result (λ instances. AreInstances (hierarchy_view hierarchy.now) (instances_view instances.items)) }
    ensures few { IfOk result (λ instances. length instances.items ≤ most_instances) }
    ensures refused { IfErr result (λ e. IfSome (refusal_of e) (λ refusal. IsRefusedFor (hierarchy_view hierarchy.now) refusal)) }
{
    let mut instances = Vec::new(alloc);
    let mut waiting = Vec::new(alloc);
    let top = Instance {
        of_module: hierarchy.top,
        part_of: None,
    };
    come(hierarchy, &mut instances, &mut waiting, top)?;
    while let Some(instance) = next(hierarchy, &mut waiting)? {
        if instances.len() == MOST_INSTANCES {
            return Err(UnfoldError::Instances);
        }
        come(hierarchy, &mut instances, &mut waiting, instance)?;
    }
    Ok(instances)
}
