//! What kind of value an operand is.

ghost use Rattle.std.specs.Prelude.{map};
ghost use Rattle.cpn_definitions.specs.Operations.{integer_in, truth_in, string_in, items_in, components_in, sized};
ghost use Rattle.cpn_core.specs.Views.{value_view};
ghost use Rattle.cpn_eval.specs.Answers.{Tells};

use crate::refusals::NoValue;
use cpn_core::{EvalFault, Text, Value, Values};

/// The most nodes that a value may have.
pub const MOST_NODES: u64 = 65_536;

/// The integer that the value is.
pub fn integer_in(value: &Value) -> Result<i64, NoValue>
    ensures integer { Tells (λ z. z) result (integer_in (value_view value.now)) }
{
    match value {
        Value::Int(number) => Ok(*number),
        Value::Unit
        | Value::Bool(_)
        | Value::Enum(_)
        | Value::Text(_)
        | Value::Tuple(_)
        | Value::Con(_, None)
        | Value::Con(_, Some(_))
        | Value::List(_) => Err(NoValue::Untyped),
    }
}

/// The truth value that the value is.
pub fn truth_in(value: &Value) -> Result<bool, NoValue>
    ensures truth { Tells (λ b. b) result (truth_in (value_view value.now)) }
{
    match value {
        Value::Bool(truth) => Ok(*truth),
        Value::Unit
        | Value::Int(_)
        | Value::Enum(_)
        | Value::Text(_)
        | Value::Tuple(_)
        | Value::Con(_, None)
        | Value::Con(_, Some(_))
        | Value::List(_) => Err(NoValue::Untyped),
    }
}

/// The string that the value is.
pub fn string_in(value: Value) -> Result<Text, NoValue>
    ensures string { Tells (λ bytes. bytes) result (string_in (value_view value)) }
{
    match value {
        Value::Text(text) => Ok(text),
        Value::Unit
        | Value::Bool(_)
        | Value::Int(_)
        | Value::Enum(_)
        | Value::Tuple(_)
        | Value::Con(_, None)
        | Value::Con(_, Some(_))
        | Value::List(_) => Err(NoValue::Untyped),
    }
}

/// The items of the list that the value is.
#[tactic(auto, using(crate::proofs::ValueLists::items_in_list))]
pub fn items_in(value: Value) -> Result<Values, NoValue>
    ensures items { Tells (λ vs. map value_view vs.items) result (items_in (value_view value)) }
{
    match value {
        Value::List(items) => Ok(items),
        Value::Unit
        | Value::Bool(_)
        | Value::Int(_)
        | Value::Enum(_)
        | Value::Text(_)
        | Value::Tuple(_)
        | Value::Con(_, None)
        | Value::Con(_, Some(_)) => Err(NoValue::Untyped),
    }
}

/// The components of the tuple that the value is.
#[tactic(auto, using(crate::proofs::ValueLists::components_in_tuple))]
pub fn components_in(value: Value) -> Result<Values, NoValue>
    ensures components { Tells (λ vs. map value_view vs.items) result (components_in (value_view value)) }
{
    match value {
        Value::Tuple(items) => Ok(items),
        Value::Unit
        | Value::Bool(_)
        | Value::Int(_)
        | Value::Enum(_)
        | Value::Text(_)
        | Value::Con(_, None)
        | Value::Con(_, Some(_))
        | Value::List(_) => Err(NoValue::Untyped),
    }
}

/// The string that the value is, where it stands.
pub fn string_of(value: &Value) -> Result<&Text, NoValue>
    ensures string { Tells (λ bytes. bytes.now) result (string_in (value_view value.now)) }
{
    match value {
        Value::Text(found) => Ok(found),
        Value::Unit
        | Value::Bool(_)
        | Value::Int(_)
        | Value::Enum(_)
        | Value::Tuple(_)
        | Value::Con(_, None)
        | Value::Con(_, Some(_))
        | Value::List(_) => Err(NoValue::Untyped),
    }
}

/// The items of the list that the value is, where they stand.
#[tactic(auto, using(crate::proofs::ValueLists::items_in_list))]
pub fn items_of(value: &Value) -> Result<&[Value], NoValue>
    ensures items { Tells (λ vs. map value_view vs.now) result (items_in (value_view value.now)) }
{
    match value {
        Value::List(found) => Ok(found),
        Value::Unit
        | Value::Bool(_)
        | Value::Int(_)
        | Value::Enum(_)
        | Value::Text(_)
        | Value::Tuple(_)
        | Value::Con(_, None)
        | Value::Con(_, Some(_)) => Err(NoValue::Untyped),
    }
}

/// The components of the tuple that the value is, where they stand.
#[tactic(auto, using(crate::proofs::ValueLists::components_in_tuple))]
pub fn components_of(value: &Value) -> Result<&[Value], NoValue>
    ensures components { Tells (λ vs. map value_view vs.now) result (components_in (value_view value.now)) }
{
    match value {
        Value::Tuple(found) => Ok(found),
        Value::Unit
        | Value::Bool(_)
        | Value::Int(_)
        | Value::Enum(_)
        | Value::Text(_)
        | Value::Con(_, None)
        | Value::Con(_, Some(_))
        | Value::List(_) => Err(NoValue::Untyped),
    }
}

/// The value, if it is not too large.
pub fn sized(value: Value) -> Result<Value, NoValue>
    ensures sized { Tells value_view result (sized (value_view value)) }
{
    if value.nodes() <= MOST_NODES {
        Ok(value)
    } else {
        Err(NoValue::Fault(EvalFault::TooLarge))
    }
}
