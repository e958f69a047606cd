//! The values of locals and variables.

ghost use Rattle.std.specs.Prelude.{◌≡◌, Some, map, option_map, slice_get, IfSome};
ghost use Rattle.cpn_definitions.specs.Outcome.{given};
ghost use Rattle.cpn_definitions.specs.Meaning.{bound_value};
ghost use Rattle.cpn_core.specs.Views.{value_view};
ghost use Rattle.cpn_eval.specs.Answers.{Tells};
ghost use Rattle.cpn_eval.specs.Held.{backwards_view, held_view};

use crate::held::{Backwards, Held};
use crate::refusals::NoValue;
use cpn_core::{Binding, Value};

/// A copy of the local of that number.
pub fn copied(locals: &[Held], number: u32) -> Result<Held, NoValue>
    ensures local { Tells held_view result (given (slice_get (map held_view locals.now) number)) }
{
    match locals.get(number as usize) {
        None => Err(NoValue::Untyped),
        Some(value) => Ok(value.copy()?),
    }
}

/// The local of that number, where it stands, unless it is a list that is kept backwards.
pub fn standing(locals: &[Held], number: u32) -> Option<&Value>
    ensures local { IfSome result (λ value. slice_get (map held_view locals.now) number ≡ Some (value_view value.now)) }
{
    match locals.get(number as usize) {
        None => None,
        Some(local) => match local {
            Held::Plain(value) => Some(value),
            Held::Backwards(_) => None,
        },
    }
}

/// The local of that number, where it stands, if it is a list that is kept backwards.
pub fn standing_backwards(locals: &[Held], number: u32) -> Option<&Backwards>
    ensures local { IfSome result (λ list. slice_get (map held_view locals.now) number ≡ Some (backwards_view list.now)) }
{
    match locals.get(number as usize) {
        None => None,
        Some(local) => match local {
            Held::Plain(_) => None,
            Held::Backwards(list) => Some(list),
        },
    }
}

/// The value of the variable, where it stands.
pub fn bound(binding: &Binding, number: u32) -> Option<&Value>
    ensures bound { option_map (λ value. value_view value.now) result ≡ bound_value number binding.now }
{
    for pair in binding.pairs() {
        if pair.variable == number {
            return Some(&pair.value);
        }
    }
    None
}

/// A copy of the value of the variable.
pub fn variable(binding: &Binding, number: u32) -> Result<Value, NoValue>
    ensures variable { Tells value_view result (given (bound_value number binding.now)) }
{
    match bound(binding, number) {
        None => Err(NoValue::Untyped),
        Some(value) => Ok(value.copy()?),
    }
}
