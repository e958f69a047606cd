//! The evaluation of an inscription, turn by turn.

ghost use Rattle.std.specs.Prelude.{◌≡◌, ◌≤◌, [], IfOk};
ghost use Rattle.cpn_definitions.specs.Outcome.{HasMeaning};
ghost use Rattle.cpn_definitions.specs.Meaning.{meaning};
ghost use Rattle.cpn_definitions.specs.Times.{last_time};
ghost use Rattle.cpn_core.specs.Views.{value_view};
ghost use Rattle.cpn_core.specs.Inscriptions.{expr_view, funs_view};
ghost use Rattle.cpn_eval.specs.Answers.{Answers, Tells};
ghost use Rattle.cpn_eval.specs.Frames.{locals_of, meant_at};

use crate::frames::{Machine, Now, Turn, World};
use crate::refusals::{NoValue, Refused};
use cpn_core::{Binding, Expr, Funs, Value};
use std::alloc::Global;

/// The value of the inscription under the binding at the time, a value of its own; `Refused::Fault` where its meaning
/// is a fault. It needs little stack, however deep the inscription and the functions that it calls are.
///
/// Source: our own profile of CPN ML.
pub fn eval(
    alloc: Global,
    funs: &Funs,
    expr: &Expr,
    binding: &Binding,
    time: u64,
) -> Result<Value, Refused>
    requires time { time ≤ last_time }
    requires meaning { HasMeaning (meaning (funs_view funs.now) (expr_view expr.now) binding.now time) }
    ensures value { Answers value_view result (meaning (funs_view funs.now) (expr_view expr.now) binding.now time) }
{
    let world = World {
        funs,
        binding,
        time,
    };
    let mut machine = Machine {
        alloc,
        visible: funs.functions.len(),
        locals: Vec::new(alloc),
        frames: Vec::new(alloc),
    };
    match machine.value_of(&world, expr) {
        Ok(value) => Ok(value),
        Err(NoValue::Fault(fault)) => Err(Refused::Fault(fault)),
        Err(NoValue::Memory) => Err(Refused::Memory),
        Err(NoValue::Untyped) => unreachable!(),
    }
}

impl<'w> Machine<'w> {
    /// The value of the inscription among the locals; they stay as they are. No evaluation ends that takes `u64::MAX`
    /// turns; it would be answered with want of memory.
    #[tactic(auto, using(crate::proofs::Turns::value_before, crate::proofs::Turns::visible_before, crate::proofs::Turns::locals_before, crate::proofs::Turns::stopped_before))]
    pub fn value_of(&mut self, world: &World<'w>, expr: &'w Expr) -> Result<Value, NoValue>
        requires time { world.now.time ≤ last_time }
        requires idle { self.old.frames.items ≡ [] }
        ensures value { Tells value_view result (meant_at world.now self.old.visible (locals_of self.old) (expr_view expr.now)) }
        ensures idle { IfOk result (λ _. self.new.frames.items ≡ []) }
        ensures visible { IfOk result (λ _. self.new.visible ≡ self.old.visible) }
        ensures locals { IfOk result (λ _. locals_of self.new ≡ locals_of self.old) }
    {
        let mut now = Now::Open(expr);
        for _turn in 0..u64::MAX {
            match self.turn(world, now)? {
                Turn::On(next) => now = next,
                Turn::End(value) => return Ok(value.into_value()),
            }
        }
        Err(NoValue::Memory)
    }
}
