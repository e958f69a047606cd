//! What the operations give for the values of their operands.

ghost use Rattle.std.specs.Prelude.{◌∷◌, []};
ghost use Rattle.cpn_definitions.specs.Operations.{operated};
ghost use Rattle.cpn_core.specs.Views.{value_view};
ghost use Rattle.cpn_core.specs.Inscriptions.{op_view};
ghost use Rattle.cpn_eval.specs.Answers.{Tells};
ghost use Rattle.cpn_eval.specs.Held.{held_view, all_held};

use crate::backwards::consed;
use crate::held::Held;
use crate::lists::{appended, component_of, concatenated, head_of, reversed, tail_of};
use crate::reading::{read_one, read_two};
use crate::refusals::NoValue;
use cpn_core::{Op, Value};

/// What the operation gives for the operands, or its fault.
///
/// Source: our own profile of CPN ML.
#[tactic(auto, using(crate::proofs::Operands::one_popped, crate::proofs::Operands::two_popped, crate::proofs::Operands::none_given, crate::proofs::Operands::more_given))]
pub fn operate(op: Op, operands: Vec<Held>) -> Result<Held, NoValue>
    ensures value { Tells held_view result (operated (op_view op) (all_held operands)) }
{
    let mut operands = operands;
    match operands.pop() {
        None => Err(NoValue::Untyped),
        Some(last) => match operands.pop() {
            None => Ok(Held::Plain(on_one(op, last.into_value())?)),
            Some(first) => {
                if operands.is_empty() {
                    on_both(op, first.into_value(), last)
                } else {
                    Err(NoValue::Untyped)
                }
            }
        },
    }
}

/// What the operation gives for one operand.
fn on_one(op: Op, operand: Value) -> Result<Value, NoValue>
    ensures value { Tells value_view result (operated (op_view op) (value_view operand ∷ [])) }
{
    match op {
        Op::Head => head_of(operand),
        Op::Tail => tail_of(operand),
        Op::Rev => reversed(operand),
        Op::Nth(position) => component_of(position, operand),
        _ => read_one(op, &operand),
    }
}

/// What the operation gives for two operands, of which the second is held.
fn on_both(op: Op, left: Value, right: Held) -> Result<Held, NoValue>
    ensures value { Tells held_view result (operated (op_view op) (value_view left ∷ held_view right ∷ [])) }
{
    match op {
        Op::Cons => consed(left, right),
        _ => Ok(Held::Plain(on_two(op, left, right.into_value())?)),
    }
}

/// What the operation gives for two operands.
fn on_two(op: Op, left: Value, right: Value) -> Result<Value, NoValue>
    ensures value { Tells value_view result (operated (op_view op) (value_view left ∷ value_view right ∷ [])) }
{
    match op {
        Op::Cat => concatenated(left, right),
        Op::Append => appended(left, right),
        _ => read_two(op, &left, &right),
    }
}
