//! The arm of a `case` over tokens that is taken.

ghost use Rattle.std.specs.Prelude.{◌<◌, length, IfOk};
ghost use Rattle.cpn_core.specs.Views.{value_view};
ghost use Rattle.cpn_eval.specs.Arms.{Takes};

use crate::matching::matches;
use crate::refusals::NoValue;
use cpn_core::{EvalFault, MArm, Value, Values};
use std::alloc::Global;

/// An arm that a value fits.
#[derive(Drop)]
pub struct Fit {
    /// The position of the arm.
    pub position: usize,
    /// What its pattern binds, from left to right.
    pub bound: Values,
}

/// The first arm that the value fits.
pub fn arm_for(alloc: Global, arms: &[MArm], value: &Value) -> Result<Fit, NoValue>
    ensures position { IfOk result (λ fit. fit.position < length arms.now) }
    ensures arm { Takes arms.now (value_view value.now) result }
{
    for position in 0..arms.len() {
        let mut bound = Vec::new(alloc);
        if matches(&arms[position].pat, value, &mut bound)? {
            return Ok(Fit { position, bound });
        }
    }
    Err(NoValue::Fault(EvalFault::NoCase))
}
