//! Whether a value fits a pattern, and what the pattern binds.

ghost use Rattle.std.specs.Prelude.{◌≡◌, if◌then◌else◌, [], Some, None, map, IfOk};
ghost use Rattle.cpn_definitions.specs.Value.{list};
ghost use Rattle.cpn_definitions.specs.Inscription.{tuple_pattern, list_pattern, bare_pattern, applied_pattern};
ghost use Rattle.cpn_definitions.specs.Matching.{matched, matched_each};
ghost use Rattle.cpn_core.specs.Views.{value_view, values_view};
ghost use Rattle.cpn_core.specs.Inscriptions.{pattern_view, patterns_view};
ghost use Rattle.cpn_eval.specs.Answers.{Matches};

use cpn_core::{Memory, Pat, Pats, Value, Values};

/// Copies of the values, in order.
fn copies(values: &[Value], found: &Values) -> Result<Values, Memory>
    ensures same { IfOk result (λ copies. map value_view copies.items ≡ map value_view values.now) }
{
    let mut copies = Vec::with_capacity(*found.allocator(), values.len())?;
    for value in values {
        copies.push(value.copy()?)?;
    }
    Ok(copies)
}

/// Whether the value fits; what is bound comes behind what was found.
#[cycle(matching)]
pub fn matches(pattern: &Pat, value: &Value, found: &mut Values) -> Result<bool, Memory>
    ensures bound { Matches result (map value_view found.old.items) (map value_view found.new.items) (matched (pattern_view pattern.now) (value_view value.now)) }
{
    match pattern {
        Pat::Any => Ok(true),
        Pat::Var(_) => {
            found.push(value.copy()?)?;
            Ok(true)
        }
        Pat::Lit(wanted) => Ok(*wanted == *value),
        Pat::Tuple(patterns) => tuple_matches(patterns, value, found),
        Pat::List(patterns) => items_match(patterns, value, found),
        Pat::Cons(_, _) => match value {
            Value::List(items) => list_matches(pattern, items, found),
            Value::Unit => Ok(false),
            Value::Bool(_) => Ok(false),
            Value::Int(_) => Ok(false),
            Value::Enum(_) => Ok(false),
            Value::Text(_) => Ok(false),
            Value::Tuple(_) => Ok(false),
            Value::Con(_, argument) => match argument {
                None => Ok(false),
                Some(_) => Ok(false),
            },
        },
        Pat::Con(position, argument) => match argument {
            None => Ok(is_bare(*position, value)),
            Some(inner) => argument_matches(*position, inner, value, found),
        },
    }
}

/// Whether the value is a tuple whose components fit.
#[cycle(matching)]
fn tuple_matches(patterns: &Pats, value: &Value, found: &mut Values) -> Result<bool, Memory>
    ensures bound { Matches result (map value_view found.old.items) (map value_view found.new.items) (matched (tuple_pattern (patterns_view patterns.now.items)) (value_view value.now)) }
{
    match value {
        Value::Tuple(items) => all_match(patterns, items, found),
        Value::Unit => Ok(false),
        Value::Bool(_) => Ok(false),
        Value::Int(_) => Ok(false),
        Value::Enum(_) => Ok(false),
        Value::Text(_) => Ok(false),
        Value::Con(_, argument) => match argument {
            None => Ok(false),
            Some(_) => Ok(false),
        },
        Value::List(_) => Ok(false),
    }
}

/// Whether the value is a list whose items fit.
#[cycle(matching)]
fn items_match(patterns: &Pats, value: &Value, found: &mut Values) -> Result<bool, Memory>
    ensures bound { Matches result (map value_view found.old.items) (map value_view found.new.items) (matched (list_pattern (patterns_view patterns.now.items)) (value_view value.now)) }
{
    match value {
        Value::List(items) => all_match(patterns, items, found),
        Value::Unit => Ok(false),
        Value::Bool(_) => Ok(false),
        Value::Int(_) => Ok(false),
        Value::Enum(_) => Ok(false),
        Value::Text(_) => Ok(false),
        Value::Tuple(_) => Ok(false),
        Value::Con(_, argument) => match argument {
            None => Ok(false),
            Some(_) => Ok(false),
        },
    }
}

/// Whether the value is the constructor of that position, without an argument.
fn is_bare(position: u32, value: &Value) -> bool
    ensures bare { (if result then Some [] else None) ≡ matched (bare_pattern position) (value_view value.now) }
{
    match value {
        Value::Con(found, argument) => match argument {
            None => position == *found,
            Some(_) => false,
        },
        Value::Unit => false,
        Value::Bool(_) => false,
        Value::Int(_) => false,
        Value::Enum(_) => false,
        Value::Text(_) => false,
        Value::Tuple(_) => false,
        Value::List(_) => false,
    }
}

/// Whether the value is the constructor of that position, with an argument that fits.
#[cycle(matching)]
#[tactic(auto, using(cpn_core::proofs::ValueLevels::view_con_some))]
fn argument_matches(
    position: u32,
    pattern: &Pat,
    value: &Value,
    found: &mut Values,
) -> Result<bool, Memory>
    ensures bound { Matches result (map value_view found.old.items) (map value_view found.new.items) (matched (applied_pattern position (pattern_view pattern.now)) (value_view value.now)) }
{
    match value {
        Value::Con(here, argument) => match argument {
            None => Ok(false),
            Some(inner) => {
                if position == *here {
                    matches(pattern, inner, found)
                } else {
                    Ok(false)
                }
            }
        },
        Value::Unit => Ok(false),
        Value::Bool(_) => Ok(false),
        Value::Int(_) => Ok(false),
        Value::Enum(_) => Ok(false),
        Value::Text(_) => Ok(false),
        Value::Tuple(_) => Ok(false),
        Value::List(_) => Ok(false),
    }
}

/// Whether the items fit the patterns, one for one.
#[tactic(auto, using(crate::proofs::Fronts::front_end))]
#[cycle(matching)]
fn all_match(patterns: &Pats, items: &[Value], found: &mut Values) -> Result<bool, Memory>
    ensures bound { Matches result (map value_view found.old.items) (map value_view found.new.items) (matched_each (patterns_view patterns.now.items) (values_view items.now)) }
{
    for i in 0..patterns.len().min(items.len()) {
        if !matches(&patterns[i], &items[i], found)? {
            return Ok(false);
        }
    }
    Ok(patterns.len() == items.len())
}

/// Whether the list of these items fits.
#[cycle(matching)]
fn list_matches(pattern: &Pat, items: &[Value], found: &mut Values) -> Result<bool, Memory>
    ensures bound { Matches result (map value_view found.old.items) (map value_view found.new.items) (matched (pattern_view pattern.now) (list (values_view items.now))) }
{
    match pattern {
        Pat::Any => Ok(true),
        Pat::Var(_) => {
            let list = copies(items, found)?;
            found.push(Value::List(list))?;
            Ok(true)
        }
        Pat::Lit(wanted) => {
            let list = copies(items, found)?;
            Ok(*wanted == Value::List(list))
        }
        Pat::Tuple(_) => Ok(false),
        Pat::List(patterns) => all_match(patterns, items, found),
        Pat::Con(_, argument) => match argument {
            None => Ok(false),
            Some(_) => Ok(false),
        },
        Pat::Cons(first, rest) => match items {
            [] => Ok(false),
            [item, items @ ..] => {
                if !matches(first, item, found)? {
                    return Ok(false);
                }
                let all = list_matches(rest, items, found)?;
                Ok(all)
            }
        },
    }
}
