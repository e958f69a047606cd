//! Which of the variables of a transition are known because their colour sets are small.

ghost use Rattle.std.specs.Prelude.{◌≡◌, ◌∷◌, ◌++◌, [], true, false, slice_index_or, map, IfOk};
ghost use Rattle.cpn_definitions.specs.Bindable.{IsSmall};
ghost use Rattle.cpn_definitions.specs.Net.{nothing};
ghost use Rattle.cpn_core.specs.Nets.{variable_view};
ghost use Rattle.cpn_bindable.specs.Equations.{equations_view};
ghost use Rattle.cpn_bindable.specs.Known.{sources_of, AddsSmall};

use crate::closure::is_known;
use crate::equations::Equation;
use cpn_core::{Memory, Variable};
use std::alloc::Global;

/// Whether the colour set of the variable of a number is small. What is no variable counts as one of the unit colour set.
fn is_small(alloc: Global, variables: &[Variable], number: u32) -> Result<bool, Memory>
    ensures small { IfOk result (λ small. small ≡ true → IsSmall (slice_index_or (map variable_view variables.now) number nothing).colour) }
    ensures large { IfOk result (λ small. small ≡ false → IsSmall (slice_index_or (map variable_view variables.now) number nothing).colour → ⊥) }
{
    let index = number as usize;
    if index >= variables.len() {
        return Ok(true);
    }
    match variables[index].colour.small(alloc)? {
        None => Ok(false),
        Some(_) => Ok(true),
    }
}

/// Makes the variable known, if its colour set is small.
fn learn_if_small(
    alloc: Global,
    variables: &[Variable],
    number: u32,
    known: &mut Vec<u32>,
) -> Result<(), Memory>
    ensures small { IfOk result (λ _. AddsSmall (map variable_view variables.now) (number ∷ []) known.old.items known.new.items) }
{
    if is_known(known, number) {
        return Ok(());
    }
    if is_small(alloc, variables, number)? {
        known.push(number)?;
        return Ok(());
    }
    Ok(())
}

/// Makes those of the variables known whose colour sets are small.
pub(crate) fn learn_small(
    alloc: Global,
    variables: &[Variable],
    numbers: &[u32],
    known: &mut Vec<u32>,
) -> Result<(), Memory>
    ensures small { IfOk result (λ _. AddsSmall (map variable_view variables.now) numbers.now known.old.items known.new.items) }
{
    for number in numbers {
        learn_if_small(alloc, variables, *number, known)?;
    }
    Ok(())
}

/// The same for the sources of equations.
pub(crate) fn learn_small_sources(
    alloc: Global,
    variables: &[Variable],
    equations: &[Equation],
    known: &mut Vec<u32>,
) -> Result<(), Memory>
    ensures small { IfOk result (λ _. AddsSmall (map variable_view variables.now) (sources_of (equations_view equations.now)) known.old.items known.new.items) }
{
    for equation in equations {
        learn_small(alloc, variables, &equation.sources, known)?;
    }
    Ok(())
}
