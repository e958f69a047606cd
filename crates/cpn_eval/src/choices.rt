//! The arm of a `case` that is taken.

ghost use Rattle.std.specs.Prelude.{map};
ghost use Rattle.cpn_definitions.specs.Inscription.{arms_from};
ghost use Rattle.cpn_core.specs.Views.{value_view};
ghost use Rattle.cpn_core.specs.Inscriptions.{arm_view};
ghost use Rattle.cpn_eval.specs.Choices.{Chooses};

use crate::matching::matches;
use crate::refusals::NoValue;
use cpn_core::{Arm, EvalFault, Expr, Value, Values};
use std::alloc::Global;

/// An arm that a value fits.
#[derive(Drop)]
pub struct Choice<'w> {
    /// What the arm gives.
    pub body: &'w Expr,
    /// What its pattern binds, from left to right.
    pub bound: Values,
}

/// The first arm that the value fits.
pub fn choice_of<'w>(alloc: Global, arms: &'w [Arm], value: &Value) -> Result<Choice<'w>, NoValue>
    ensures arm { Chooses (arms_from (map arm_view arms.now)) (value_view value.now) result }
{
    for arm in arms {
        let mut bound = Vec::new(alloc);
        if matches(&arm.pat, value, &mut bound)? {
            return Ok(Choice {
                body: &arm.result,
                bound,
            });
        }
    }
    Err(NoValue::Fault(EvalFault::NoCase))
}
