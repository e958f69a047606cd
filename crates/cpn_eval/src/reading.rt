//! What the operations give for operands that stay as they are.

ghost use Rattle.std.specs.Prelude.{◌∷◌, []};
ghost use Rattle.cpn_definitions.specs.Operations.{concatenated, consed, appended, operated};
ghost use Rattle.cpn_core.specs.Views.{value_view};
ghost use Rattle.cpn_core.specs.Inscriptions.{op_view};
ghost use Rattle.cpn_eval.specs.Answers.{Tells};

use crate::arithmetic::{difference, negation, product, quotient, remainder, sum};
use crate::backwards::consed;
use crate::comparisons::order_of;
use crate::held::Held;
use crate::kinds::{integer_in, truth_in};
use crate::lists::{
    appended, concatenated, first_of, length_of, member_of, part_of, reversed, size_of, tail_of,
};
use crate::refusals::NoValue;
use cpn_core::{Op, Value};

/// What the operation gives for one operand.
pub fn read_one(op: Op, operand: &Value) -> Result<Value, NoValue>
    ensures value { Tells value_view result (operated (op_view op) (value_view operand.now ∷ [])) }
{
    match op {
        Op::Neg => {
            let number = integer_in(operand)?;
            negation(number)
        }
        Op::Not => {
            let truth = truth_in(operand)?;
            Ok(Value::Bool(!truth))
        }
        Op::Head => first_of(operand),
        Op::Tail => tail_of(operand.copy()?),
        Op::Length => length_of(operand),
        Op::Rev => reversed(operand.copy()?),
        Op::Size => size_of(operand),
        Op::Nth(position) => part_of(position, operand),
        Op::Add
        | Op::Sub
        | Op::Mul
        | Op::Div
        | Op::Mod
        | Op::Cat
        | Op::Eq
        | Op::Ne
        | Op::Lt
        | Op::Le
        | Op::Gt
        | Op::Ge
        | Op::Cons
        | Op::Append
        | Op::Mem => Err(NoValue::Untyped),
    }
}

/// Whether the operation makes its value of two operands, which are better moved into it.
pub fn makes(op: Op) -> bool {
    match op {
        Op::Cat | Op::Cons | Op::Append => true,
        _ => false,
    }
}

/// What the operation gives for two operands.
pub fn read_two(op: Op, left: &Value, right: &Value) -> Result<Value, NoValue>
    ensures value { Tells value_view result (operated (op_view op) (value_view left.now ∷ value_view right.now ∷ [])) }
{
    match op {
        Op::Add => sum(integer_in(left)?, integer_in(right)?),
        Op::Sub => difference(integer_in(left)?, integer_in(right)?),
        Op::Mul => product(integer_in(left)?, integer_in(right)?),
        Op::Div => quotient(integer_in(left)?, integer_in(right)?),
        Op::Mod => remainder(integer_in(left)?, integer_in(right)?),
        Op::Eq => Ok(Value::Bool(*left == *right)),
        Op::Ne => Ok(Value::Bool(*left != *right)),
        Op::Lt => Ok(Value::Bool(order_of(left, right)?.is_lt())),
        Op::Le => Ok(Value::Bool(order_of(left, right)?.is_le())),
        Op::Gt => Ok(Value::Bool(order_of(left, right)?.is_gt())),
        Op::Ge => Ok(Value::Bool(order_of(left, right)?.is_ge())),
        Op::Mem => member_of(left, right),
        Op::Cat => concatenated_copies(left, right),
        Op::Cons => consed_copies(left, right),
        Op::Append => appended_copies(left, right),
        Op::Neg | Op::Not | Op::Head | Op::Tail | Op::Length | Op::Rev | Op::Size | Op::Nth(_) =>
            Err(NoValue::Untyped),
    }
}

/// Copies of two strings as one.
fn concatenated_copies(left: &Value, right: &Value) -> Result<Value, NoValue>
    ensures string { Tells value_view result (concatenated (value_view left.now) (value_view right.now)) }
{
    let left = left.copy()?;
    concatenated(left, right.copy()?)
}

/// A copy of the list with a copy of the item before it.
fn consed_copies(item: &Value, list: &Value) -> Result<Value, NoValue>
    ensures list { Tells value_view result (consed (value_view item.now) (value_view list.now)) }
{
    let item = item.copy()?;
    let list = consed(item, Held::Plain(list.copy()?))?;
    Ok(list.into_value())
}

/// Copies of two lists as one.
fn appended_copies(left: &Value, right: &Value) -> Result<Value, NoValue>
    ensures list { Tells value_view result (appended (value_view left.now) (value_view right.now)) }
{
    let left = left.copy()?;
    appended(left, right.copy()?)
}
