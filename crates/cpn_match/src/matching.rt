//! A pattern of a binding term against a value.

ghost use Rattle.std.specs.Prelude.{◌≡◌, if◌then◌else◌, [], Some, None, map, IfOk, IfErr};
ghost use Rattle.std.specs.Bool.{OnTrue, OnFalse};
ghost use Rattle.cpn_definitions.specs.Value.{list};
ghost use Rattle.cpn_definitions.specs.Inscription.{tuple_pattern, list_pattern, bare_pattern, applied_pattern};
ghost use Rattle.cpn_core.specs.Views.{value_view, values_view};
ghost use Rattle.cpn_core.specs.Inscriptions.{pattern_view, patterns_view};
ghost use Rattle.cpn_stages.specs.Partial.{PlainPartial, Extends};
ghost use Rattle.cpn_stages.specs.Instances.{Matches, MatchesNot};
ghost use Rattle.cpn_stages.specs.Fitting.{fitted, fitted_each};
ghost use Rattle.cpn_match.specs.Answers.{BecomesIf, Becomes};

use crate::partials::Partial;
use cpn_core::{Memory, Pat, Pats, Value, Values};
use std::alloc::Global;

/// Copies of the values, in order.
fn copies(alloc: Global, values: &[Value]) -> Result<Values, Memory>
    ensures same { IfOk result (λ copies. map value_view copies.items ≡ map value_view values.now) }
{
    let mut copies = Vec::with_capacity(alloc, values.len())?;
    for value in values {
        copies.push(value.copy()?)?;
    }
    Ok(copies)
}

/// Makes the pattern the value, as far as it can.
#[cycle(fitting)]
#[tactic(auto, using(cpn_stages::proofs::Partials::extends_itself))]
fn fit(pattern: &Pat, value: &Value, partial: &mut Partial) -> Result<bool, Memory>
    ensures fitted { Becomes result partial.new (fitted (pattern_view pattern.now) (value_view value.now) partial.old) }
    ensures extends { Extends partial.old partial.new }
{
    match pattern {
        Pat::Any => Ok(true),
        Pat::Var(variable) => partial.hold(*variable, value),
        Pat::Lit(wanted) => Ok(*wanted == *value),
        Pat::Tuple(patterns) => fit_tuple(patterns, value, partial),
        Pat::List(patterns) => fit_items(patterns, value, partial),
        Pat::Cons(_, _) => match value {
            Value::List(items) => fit_list(pattern, items, partial),
            Value::Unit => Ok(false),
            Value::Bool(_) => Ok(false),
            Value::Int(_) => Ok(false),
            Value::Enum(_) => Ok(false),
            Value::Text(_) => Ok(false),
            Value::Tuple(_) => Ok(false),
            Value::Con(_, argument) => match argument {
                None => Ok(false),
                Some(_) => Ok(false),
            },
        },
        Pat::Con(position, argument) => match argument {
            None => Ok(is_bare(*position, value)),
            Some(inner) => fit_argument(*position, inner, value, partial),
        },
    }
}

/// The same of a tuple, component by component.
#[cycle(fitting)]
#[tactic(auto, using(cpn_stages::proofs::Partials::extends_itself))]
fn fit_tuple(patterns: &Pats, value: &Value, partial: &mut Partial) -> Result<bool, Memory>
    ensures fitted { Becomes result partial.new (fitted (tuple_pattern (patterns_view patterns.now.items)) (value_view value.now) partial.old) }
    ensures extends { Extends partial.old partial.new }
{
    match value {
        Value::Tuple(items) => fit_all(patterns, items, partial),
        Value::Unit => Ok(false),
        Value::Bool(_) => Ok(false),
        Value::Int(_) => Ok(false),
        Value::Enum(_) => Ok(false),
        Value::Text(_) => Ok(false),
        Value::Con(_, argument) => match argument {
            None => Ok(false),
            Some(_) => Ok(false),
        },
        Value::List(_) => Ok(false),
    }
}

/// The same of a list, item by item.
#[cycle(fitting)]
#[tactic(auto, using(cpn_stages::proofs::Partials::extends_itself))]
fn fit_items(patterns: &Pats, value: &Value, partial: &mut Partial) -> Result<bool, Memory>
    ensures fitted { Becomes result partial.new (fitted (list_pattern (patterns_view patterns.now.items)) (value_view value.now) partial.old) }
    ensures extends { Extends partial.old partial.new }
{
    match value {
        Value::List(items) => fit_all(patterns, items, partial),
        Value::Unit => Ok(false),
        Value::Bool(_) => Ok(false),
        Value::Int(_) => Ok(false),
        Value::Enum(_) => Ok(false),
        Value::Text(_) => Ok(false),
        Value::Tuple(_) => Ok(false),
        Value::Con(_, argument) => match argument {
            None => Ok(false),
            Some(_) => Ok(false),
        },
    }
}

/// Whether the value is the constructor of that position, without an argument.
fn is_bare(position: u32, value: &Value) -> bool
    ensures bare { (b : PlainPartial) → fitted (bare_pattern position) (value_view value.now) b ≡ (if result then Some b else None) }
{
    match value {
        Value::Con(found, argument) => match argument {
            None => position == *found,
            Some(_) => false,
        },
        Value::Unit => false,
        Value::Bool(_) => false,
        Value::Int(_) => false,
        Value::Enum(_) => false,
        Value::Text(_) => false,
        Value::Tuple(_) => false,
        Value::List(_) => false,
    }
}

/// The same of the constructor of that position and its argument.
#[cycle(fitting)]
#[tactic(auto, using(cpn_core::proofs::ValueLevels::view_con_some, cpn_stages::proofs::Partials::extends_itself))]
fn fit_argument(
    position: u32,
    pattern: &Pat,
    value: &Value,
    partial: &mut Partial,
) -> Result<bool, Memory>
    ensures fitted { Becomes result partial.new (fitted (applied_pattern position (pattern_view pattern.now)) (value_view value.now) partial.old) }
    ensures extends { Extends partial.old partial.new }
{
    match value {
        Value::Con(here, argument) => match argument {
            None => Ok(false),
            Some(inner) => {
                if position == *here {
                    fit(pattern, inner, partial)
                } else {
                    Ok(false)
                }
            }
        },
        Value::Unit => Ok(false),
        Value::Bool(_) => Ok(false),
        Value::Int(_) => Ok(false),
        Value::Enum(_) => Ok(false),
        Value::Text(_) => Ok(false),
        Value::Tuple(_) => Ok(false),
        Value::List(_) => Ok(false),
    }
}

/// The patterns and the items, one for one.
#[tactic(auto, using(crate::proofs::Rows::row_end, cpn_stages::proofs::Partials::extends_itself, cpn_stages::proofs::Partials::extends_further))]
#[cycle(fitting)]
fn fit_all(patterns: &Pats, items: &[Value], partial: &mut Partial) -> Result<bool, Memory>
    ensures fitted { Becomes result partial.new (fitted_each (patterns_view patterns.now.items) (values_view items.now) partial.old) }
    ensures extends { Extends partial.old partial.new }
{
    for i in 0..patterns.len().min(items.len()) {
        if !fit(&patterns[i], &items[i], partial)? {
            return Ok(false);
        }
    }
    Ok(patterns.len() == items.len())
}

/// The same of the list of these items.
#[cycle(fitting)]
#[tactic(auto, using(cpn_stages::proofs::Partials::extends_itself, cpn_stages::proofs::Partials::extends_further))]
fn fit_list(pattern: &Pat, items: &[Value], partial: &mut Partial) -> Result<bool, Memory>
    ensures fitted { Becomes result partial.new (fitted (pattern_view pattern.now) (list (values_view items.now)) partial.old) }
    ensures extends { Extends partial.old partial.new }
{
    match pattern {
        Pat::Any => Ok(true),
        Pat::Var(variable) => {
            let list = copies(partial.allocator(), items)?;
            Ok(partial.hold_own(*variable, Value::List(list)))
        }
        Pat::Lit(wanted) => {
            let list = copies(partial.allocator(), items)?;
            Ok(*wanted == Value::List(list))
        }
        Pat::Tuple(_) => Ok(false),
        Pat::List(patterns) => fit_all(patterns, items, partial),
        Pat::Con(_, argument) => match argument {
            None => Ok(false),
            Some(_) => Ok(false),
        },
        Pat::Cons(first, rest) => match items {
            [] => Ok(false),
            [item, items @ ..] => {
                if !fit(first, item, partial)? {
                    return Ok(false);
                }
                let all = fit_list(rest, items, partial)?;
                Ok(all)
            }
        },
    }
}

/// Makes the pattern the value under the partial binding, where it can be made it: answers whether one extension of the partial
/// binding makes it the value, which then is the partial binding; else the partial binding is as it was.
///
/// The extension binds no variable that the pattern does not have, and a variable that stands twice in the pattern has one
/// value. A variable that is none of the partial binding's has no value. Which values the colour set of a variable admits is
/// for the caller to see. `Memory` comes where memory is wanted, and leaves the partial binding as it was.
/// Source: the binding of variables to token colours, Jensen and Kristensen, chapter 4.
#[tactic(auto, using(cpn_stages::proofs::FittedMatches::not_fitted))]
pub fn match_pat(pattern: &Pat, value: &Value, partial: &mut Partial) -> Result<bool, Memory>
    ensures matched { IfOk result (λ is. OnTrue is (Matches partial.old (pattern_view pattern.now) (value_view value.now) partial.new)) }
    ensures not_matched { IfOk result (λ is. OnFalse is (MatchesNot partial.old (pattern_view pattern.now) (value_view value.now))) }
    ensures unchanged { IfOk result (λ is. OnFalse is (partial.new ≡ partial.old)) }
    ensures kept { IfErr result (λ _. partial.new ≡ partial.old) }
{
    let known = partial.known()?;
    match fit(pattern, value, partial) {
        Ok(true) => Ok(true),
        Ok(false) => {
            partial.forget(&known);
            Ok(false)
        }
        Err(wanted) => {
            partial.forget(&known);
            Err(wanted)
        }
    }
}
