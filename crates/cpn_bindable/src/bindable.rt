//! The first variable of a transition that is not bindable.

ghost use Rattle.std.specs.Prelude.{◌≡◌, ◌<◌, ◌++◌, length, map, IfOk, IfSome};
ghost use Rattle.std.specs.List.{AllByRecursion};
ghost use Rattle.cpn_definitions.specs.Net.{PlainNet};
ghost use Rattle.cpn_core.specs.Nets.{arcs_view, variable_view, transition_view};
ghost use Rattle.cpn_typing.specs.BindableRule.{FirstIs};
ghost use Rattle.cpn_bindable.specs.Equations.{equations_view};
ghost use Rattle.cpn_bindable.specs.Known.{carried_variables, sources_of, AddsSmall};
ghost use Rattle.cpn_bindable.specs.Transitions.{CarriesItsTerms};

use crate::closure::{all_found, first_unknown};
use crate::equations::{Equation, equations_of};
use crate::small_sets::{learn_small, learn_small_sources};
use crate::variables::push_carried;
use cpn_core::{Memory, Transition, Variable};
use std::alloc::Global;

/// What is known before the guard is looked at: the variables of the binding terms, and those of small colour sets among the
/// variables of the transition and those that the equations read.
fn known_at_first(
    alloc: Global,
    variables: &[Variable],
    transition: &Transition,
    equations: &[Equation],
) -> Result<Vec<u32>, Memory>
    ensures first { IfOk result (λ known. AddsSmall (map variable_view variables.now) (transition.now.vars.items ++ sources_of (equations_view equations.now)) (carried_variables (arcs_view transition.now.inputs.items)) known.items) }
{
    let mut known = Vec::new(alloc);
    push_carried(&transition.inputs, &mut known)?;
    learn_small(alloc, variables, &transition.vars, &mut known)?;
    learn_small_sources(alloc, variables, equations, &mut known)?;
    Ok(known)
}

/// The first variable of a transition, in declaration order, that is not bindable: no binding term has it, its colour set is
/// not small, and no equation of the guard determines it. None where each is bindable. A number that is none of a variable counts as one of the
/// unit colour set, which is small, so what is answered is the number of a variable.
///
/// # Errors
///
/// [`Memory`]: memory ran out.
pub fn first_unbindable(
    alloc: Global,
    variables: &[Variable],
    transition: &Transition,
) -> Result<Option<u32>, Memory>
    requires terms { AllByRecursion CarriesItsTerms (transition_view transition.now).inputs }
    ensures exact { (n : PlainNet) → n.variables ≡ map variable_view variables.now → IfOk result (λ found. FirstIs n (transition_view transition.now) (transition_view transition.now).vars found) }
    ensures there { IfOk result (λ found. IfSome found (λ number. number < length variables.now)) }
{
    let equations = equations_of(alloc, &transition.guard)?;
    let known = known_at_first(alloc, variables, transition, &equations)?;
    let found = all_found(equations, known)?;
    Ok(first_unknown(&found, &transition.vars))
}
