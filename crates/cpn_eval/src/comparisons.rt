//! How two operands compare.

ghost use Rattle.std.specs.Prelude.{Bool};
ghost use Rattle.std.specs.declared.cmp.Ordering.{Ordering};
ghost use Rattle.cpn_definitions.specs.Value.{boolean, int, text};
ghost use Rattle.cpn_definitions.specs.Operations.{compared};
ghost use Rattle.cpn_core.specs.Views.{value_view};
ghost use Rattle.cpn_eval.specs.Answers.{Tells};

use crate::refusals::NoValue;
use cpn_core::{Text, Value};
use std::cmp::Ordering;

/// How two integers or two strings compare.
pub fn order_of(left: &Value, right: &Value) -> Result<Ordering, NoValue>
    ensures order { (test : Ordering → Bool) → Tells (λ o. boolean (test o)) result (compared test (value_view left.now) (value_view right.now)) }
{
    match left {
        Value::Int(number) => order_of_integers(number, right),
        Value::Text(text) => order_of_strings(text, right),
        Value::Unit => Err(NoValue::Untyped),
        Value::Bool(_) => Err(NoValue::Untyped),
        Value::Enum(_) => Err(NoValue::Untyped),
        Value::Tuple(_) => Err(NoValue::Untyped),
        Value::Con(_, argument) => match argument {
            None => Err(NoValue::Untyped),
            Some(_) => Err(NoValue::Untyped),
        },
        Value::List(_) => Err(NoValue::Untyped),
    }
}

fn order_of_integers(left: &i64, right: &Value) -> Result<Ordering, NoValue>
    ensures order { (test : Ordering → Bool) → Tells (λ o. boolean (test o)) result (compared test (int left.now) (value_view right.now)) }
{
    match right {
        Value::Int(number) => Ok(left.cmp(number)),
        Value::Unit => Err(NoValue::Untyped),
        Value::Bool(_) => Err(NoValue::Untyped),
        Value::Enum(_) => Err(NoValue::Untyped),
        Value::Text(_) => Err(NoValue::Untyped),
        Value::Tuple(_) => Err(NoValue::Untyped),
        Value::Con(_, argument) => match argument {
            None => Err(NoValue::Untyped),
            Some(_) => Err(NoValue::Untyped),
        },
        Value::List(_) => Err(NoValue::Untyped),
    }
}

fn order_of_strings(left: &Text, right: &Value) -> Result<Ordering, NoValue>
    ensures order { (test : Ordering → Bool) → Tells (λ o. boolean (test o)) result (compared test (text left.now) (value_view right.now)) }
{
    match right {
        Value::Text(string) => Ok(left.bytes().cmp(string.bytes())),
        Value::Unit => Err(NoValue::Untyped),
        Value::Bool(_) => Err(NoValue::Untyped),
        Value::Int(_) => Err(NoValue::Untyped),
        Value::Enum(_) => Err(NoValue::Untyped),
        Value::Tuple(_) => Err(NoValue::Untyped),
        Value::Con(_, argument) => match argument {
            None => Err(NoValue::Untyped),
            Some(_) => Err(NoValue::Untyped),
        },
        Value::List(_) => Err(NoValue::Untyped),
    }
}
