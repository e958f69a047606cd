//! Operations on strings, lists and tuples.

ghost use Rattle.std.specs.Prelude.{◌≡◌, map};
ghost use Rattle.std.specs.List.{list_any};
ghost use Rattle.cpn_definitions.specs.Order.{same_value};
ghost use Rattle.cpn_definitions.specs.Operations.{concatenated, appended, member_of};
ghost use Rattle.cpn_core.specs.Views.{value_view};
ghost use Rattle.cpn_eval.specs.Answers.{Tells};
ghost use Rattle.cpn_eval.specs.Operands.{head_of, tail_of, length_of, reversed, component_of, size_of};

use crate::kinds::{components_in, components_of, items_in, items_of, sized, string_in, string_of};
use crate::refusals::NoValue;
use cpn_core::{EvalFault, Value};

/// Two strings as one.
pub fn concatenated(left: Value, right: Value) -> Result<Value, NoValue>
    ensures string { Tells value_view result (concatenated (value_view left) (value_view right)) }
{
    let mut bytes = string_in(left)?;
    let more = string_in(right)?;
    bytes.push(more.bytes())?;
    sized(Value::Text(bytes))
}

/// Two lists as one.
#[tactic(auto, using(crate::proofs::ValueLists::view_list))]
pub fn appended(left: Value, right: Value) -> Result<Value, NoValue>
    ensures list { Tells value_view result (appended (value_view left) (value_view right)) }
{
    let mut items = items_in(left)?;
    let mut more = items_in(right)?;
    items.append(&mut more)?;
    sized(Value::List(items))
}

/// The first item of the list.
pub fn head_of(list: Value) -> Result<Value, NoValue>
    ensures item { Tells value_view result (head_of (value_view list)) }
{
    let mut items = items_in(list)?;
    if items.is_empty() {
        return Err(NoValue::Fault(EvalFault::EmptyList));
    }
    Ok(items.swap_remove(0))
}

/// The list without its first item.
#[tactic(auto, using(crate::proofs::ValueLists::view_list))]
pub fn tail_of(list: Value) -> Result<Value, NoValue>
    ensures list { Tells value_view result (tail_of (value_view list)) }
{
    let mut items = items_in(list)?;
    if items.is_empty() {
        return Err(NoValue::Fault(EvalFault::EmptyList));
    }
    items.remove(0);
    Ok(Value::List(items))
}

/// A copy of the first item of the list.
pub fn first_of(list: &Value) -> Result<Value, NoValue>
    ensures item { Tells value_view result (head_of (value_view list.now)) }
{
    match items_of(list)? {
        [] => Err(NoValue::Fault(EvalFault::EmptyList)),
        [item, ..] => Ok(item.copy()?),
    }
}

/// How many items the list has.
pub fn length_of(list: &Value) -> Result<Value, NoValue>
    ensures number { Tells value_view result (length_of (value_view list.now)) }
{
    let items = items_of(list)?;
    Ok(Value::Int(items.len() as i64))
}

/// The list backwards.
#[tactic(auto, using(crate::proofs::ValueLists::view_list))]
pub fn reversed(list: Value) -> Result<Value, NoValue>
    ensures list { Tells value_view result (reversed (value_view list)) }
{
    let mut items = items_in(list)?;
    items.reverse();
    Ok(Value::List(items))
}

/// Whether one of the items is the value.
fn has(items: &[Value], wanted: &Value) -> bool
    ensures has { result ≡ list_any (same_value (value_view wanted.now)) (map value_view items.now) }
{
    for item in items {
        if *wanted == *item {
            return true;
        }
    }
    false
}

/// Whether the list has the item.
pub fn member_of(list: &Value, item: &Value) -> Result<Value, NoValue>
    ensures truth { Tells value_view result (member_of (value_view list.now) (value_view item.now)) }
{
    let items = items_of(list)?;
    Ok(Value::Bool(has(items, item)))
}

/// How many bytes the string has.
pub fn size_of(string: &Value) -> Result<Value, NoValue>
    ensures number { Tells value_view result (size_of (value_view string.now)) }
{
    let text = string_of(string)?;
    Ok(Value::Int(text.bytes().len() as i64))
}

/// A copy of the component of the tuple at the position, from 1.
#[tactic(auto, using(crate::proofs::ValueLists::no_component))]
pub fn part_of(position: u32, tuple: &Value) -> Result<Value, NoValue>
    ensures component { Tells value_view result (component_of position (value_view tuple.now)) }
{
    let components = components_of(tuple)?;
    if position == 0 || components.len() < position as usize {
        return Err(NoValue::Untyped);
    }
    Ok(components[position as usize - 1].copy()?)
}

/// The component of the tuple at the position, from 1.
pub fn component_of(position: u32, tuple: Value) -> Result<Value, NoValue>
    ensures component { Tells value_view result (component_of position (value_view tuple)) }
{
    let mut components = components_in(tuple)?;
    if position == 0 || components.len() < position as usize {
        return Err(NoValue::Untyped);
    }
    Ok(components.swap_remove(position as usize - 1))
}
