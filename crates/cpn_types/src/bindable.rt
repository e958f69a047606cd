//! Whether each variable of a transition is bindable.

ghost use Rattle.std.specs.Prelude.{◌≡◌, ◌<◌, length, map, slice_index_or, string_bytes, IfOk};
ghost use Rattle.std.specs.List.{AllByRecursion};
ghost use Rattle.cpn_definitions.specs.Net.{PlainNet, nothing};
ghost use Rattle.cpn_core.specs.Nets.{variable_view, transition_view};
ghost use Rattle.cpn_typing.specs.BindableRule.{IsBindableAnswer};
ghost use Rattle.cpn_declared.specs.Answers.{AnswersBy};
ghost use Rattle.cpn_declared.specs.DeclsViews.{decls_view};
ghost use Rattle.cpn_bindable.specs.Transitions.{CarriesItsTerms};

use cpn_bindable::first_unbindable;
use cpn_core::{Memory, Transition, Variable};
use cpn_declared::{Decls, Limit, TypeError};
use std::alloc::Global;

/// The most variables of a transition.
const MOST_VARIABLES: usize = 32;

/// A copy of the name of the variable of a number.
fn name_of(alloc: Global, variables: &[Variable], number: u32) -> Result<String, Memory>
    requires there { number < length variables.now }
    ensures exact { IfOk result (λ name. string_bytes name ≡ (slice_index_or (map variable_view variables.now) number nothing).name) }
{
    let name = String::from_str(alloc, variables[number as usize].name.as_str())?;
    Ok(name)
}

/// Whether the variables of a transition are few enough, and each is bindable.
///
/// # Errors
///
/// - [`TypeError::TooMany`]: there are more than 32.
/// - [`TypeError::NotBindable`]: the first in declaration order that is not bindable, by its name.
/// - [`TypeError::Memory`]: memory ran out.
pub fn check_bindable(
    alloc: Global,
    decls: &Decls,
    transition: &Transition,
) -> Result<(), TypeError>
    requires terms { AllByRecursion CarriesItsTerms (transition_view transition.now).inputs }
    ensures exact { (n : PlainNet) → n.variables ≡ (decls_view decls.now).variables → AnswersBy (IsBindableAnswer n (transition_view transition.now)) (λ _. tt) result }
{
    if transition.vars.len() > MOST_VARIABLES {
        return Err(TypeError::TooMany(Limit::Variables));
    }
    let variables = decls.variables();
    match first_unbindable(alloc, variables, transition)? {
        None => Ok(()),
        Some(number) => Err(TypeError::NotBindable(name_of(alloc, variables, number)?)),
    }
}
