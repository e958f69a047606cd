//! Arithmetic on integers of 64 bits.

ghost use Rattle.std.specs.Prelude.{◌≡◌, ◌<ℤ◌, ◌≤ℤ◌, ◌+ℤ◌, ◌-ℤ◌, ◌*ℤ◌, pos, neg_ℤ};
ghost use Rattle.std.specs.Int.{int_rem_euclid};
ghost use Rattle.cpn_definitions.specs.Operations.{within, floor_div, floor_mod, divided};
ghost use Rattle.cpn_core.specs.Views.{value_view};
ghost use Rattle.cpn_eval.specs.Answers.{Tells};

use crate::refusals::NoValue;
use cpn_core::{EvalFault, Value};

/// The integer, if it is one of 64 bits.
fn within(number: i128) -> Result<Value, NoValue>
    ensures within { Tells value_view result (within number) }
{
    match i64::try_from(number) {
        Ok(number) => Ok(Value::Int(number)),
        Err(_) => Err(NoValue::Fault(EvalFault::Overflow)),
    }
}

/// The sum of two integers.
pub fn sum(left: i64, right: i64) -> Result<Value, NoValue>
    ensures sum { Tells value_view result (within (left +ℤ right)) }
{
    match left.checked_add(right) {
        None => Err(NoValue::Fault(EvalFault::Overflow)),
        Some(number) => Ok(Value::Int(number)),
    }
}

/// The difference of two integers.
pub fn difference(left: i64, right: i64) -> Result<Value, NoValue>
    ensures difference { Tells value_view result (within (left -ℤ right)) }
{
    match left.checked_sub(right) {
        None => Err(NoValue::Fault(EvalFault::Overflow)),
        Some(number) => Ok(Value::Int(number)),
    }
}

/// The product of two integers.
pub fn product(left: i64, right: i64) -> Result<Value, NoValue>
    ensures product { Tells value_view result (within (left *ℤ right)) }
{
    match left.checked_mul(right) {
        None => Err(NoValue::Fault(EvalFault::Overflow)),
        Some(number) => Ok(Value::Int(number)),
    }
}

/// The integer with the other sign.
pub fn negation(number: i64) -> Result<Value, NoValue>
    ensures negation { Tells value_view result (within (neg_ℤ number)) }
{
    match number.checked_neg() {
        None => Err(NoValue::Fault(EvalFault::Overflow)),
        Some(negated) => Ok(Value::Int(negated)),
    }
}

/// The quotient of two integers, rounded towards minus infinity.
///
/// Source: `div` of the Standard ML Basis Library.
pub fn quotient(left: i64, right: i64) -> Result<Value, NoValue>
    ensures quotient { Tells value_view result (divided floor_div left right) }
{
    if right == 0 {
        return Err(NoValue::Fault(EvalFault::DivideByZero));
    }
    if right > 0 {
        within((left as i128).div_euclid(right as i128))
    } else {
        within((-(left as i128)).div_euclid(-(right as i128)))
    }
}

/// What is left of that quotient; it has the divisor's sign.
///
/// Source: `mod` of the Standard ML Basis Library.
pub fn remainder(left: i64, right: i64) -> Result<Value, NoValue>
    ensures remainder { Tells value_view result (divided floor_mod left right) }
{
    if right == 0 {
        return Err(NoValue::Fault(EvalFault::DivideByZero));
    }
    if right > 0 {
        within((left as i128).rem_euclid(right as i128))
    } else {
        within(-rest_by_negative(left, right))
    }
}

/// What a negative divisor leaves, with the other sign.
fn rest_by_negative(left: i64, right: i64) -> i128
    requires negative { right <ℤ pos 0 }
    ensures rest { result ≡ int_rem_euclid (neg_ℤ left) (neg_ℤ right) }
    ensures not_negative { pos 0 ≤ℤ result }
{
    (-(left as i128)).rem_euclid(-(right as i128))
}
