//! Literals, variables and locals, whose values are read where they stand.

ghost use Rattle.std.specs.Prelude.{◌≡◌, ℕ, List, [], ◌∷◌, ◌++◌, map, IfSome};
ghost use Rattle.cpn_definitions.specs.Inscription.{operation, apply};
ghost use Rattle.cpn_definitions.specs.Outcome.{gives};
ghost use Rattle.cpn_definitions.specs.Operations.{operated};
ghost use Rattle.cpn_definitions.specs.Value.{PlainValue, boolean};
ghost use Rattle.cpn_core.specs.Views.{value_view};
ghost use Rattle.cpn_core.specs.Inscriptions.{op_view, expr_view, exprs_view};
ghost use Rattle.cpn_eval.specs.Answers.{MayTell, Tells};
ghost use Rattle.cpn_eval.specs.Frames.{head_view, locals_of, meant_at, rest_of, local_beside};
ghost use Rattle.cpn_eval.specs.Held.{backwards_view, held_view};
ghost use Rattle.cpn_eval.specs.Leaves.{one_given, two_given, second_given, local_given};

use crate::frames::{Head, Machine, World};
use crate::held::{Backwards, Held};
use crate::locals::{bound, copied, standing, standing_backwards};
use crate::reading::{makes, read_one, read_two};
use crate::refusals::NoValue;
use crate::spare::is_spare;
use cpn_core::{Expr, Op, Value};

/// The value of a literal or a variable, which stands there as long as the evaluation goes on.
pub fn lasting<'w>(world: &World<'w>, expr: &'w Expr) -> Option<&'w Value>
    ensures value { IfSome result (λ value. (n : ℕ) (locals : List PlainValue) → meant_at world.now n locals (expr_view expr.now) ≡ gives (value_view value.now)) }
{
    match expr {
        Expr::Lit(value) => Some(value),
        Expr::Var(number) => bound(world.binding, *number),
        _ => None,
    }
}

/// Two operands, of which the first stands there as long as the evaluation goes on.
#[derive(Clone, Copy)]
pub struct Operands<'w> {
    /// The value of the first.
    pub left: &'w Value,
    /// The second.
    pub right: &'w Expr,
}

/// Two operands, of which the first is a local.
#[derive(Clone, Copy)]
pub struct LocalOperands<'w> {
    /// The number of the local.
    pub left: u32,
    /// The second.
    pub right: &'w Expr,
}

/// An operation, and its second operand, which stands there.
#[derive(Clone, Copy)]
pub struct Second<'v> {
    /// The operation.
    pub op: Op,
    /// The value of its second operand.
    pub right: &'v Value,
}

/// Operands that are read with the first where it stands; nothing for others, and where they are to be moved.
pub fn beside<'w>(world: &World<'w>, op: Op, parts: &'w [Expr]) -> Option<Operands<'w>>
    ensures value { IfSome result (λ beside. (n : ℕ) (locals : List PlainValue) → meant_at world.now n locals (apply (operation (op_view op)) (exprs_view parts.now)) ≡ second_given world.now n locals (value_view beside.left.now) (expr_view beside.right.now) (operated (op_view op))) }
{
    match parts {
        [first, right] => match lasting(world, first) {
            Some(left) => {
                if makes(op) {
                    None
                } else {
                    Some(Operands { left, right })
                }
            }
            None => None,
        },
        _ => None,
    }
}

impl<'w> Machine<'w> {
    /// The value of a literal, a variable or a local, where it stands; nothing for another inscription.
    pub fn leaf<'v>(&'v self, world: &World<'w>, expr: &'w Expr) -> Option<&'v Value>
        ensures value { IfSome result (λ value. meant_at world.now self.now.visible (locals_of self.now) (expr_view expr.now) ≡ gives (value_view value.now)) }
    {
        match expr {
            Expr::Lit(value) => Some(value),
            Expr::Var(number) => bound(world.binding, *number),
            Expr::Local(number) => standing(&self.locals, *number),
            _ => None,
        }
    }

    /// The truth value that a literal, a variable or a local is.
    pub fn truth(&self, world: &World<'w>, expr: &'w Expr) -> Option<bool>
        ensures truth { IfSome result (λ truth. meant_at world.now self.now.visible (locals_of self.now) (expr_view expr.now) ≡ gives (boolean truth)) }
    {
        match self.leaf(world, expr) {
            Some(Value::Bool(truth)) => Some(*truth),
            _ => None,
        }
    }

    /// The list that a local is, where it stands, if it is kept backwards.
    fn backwards_leaf<'v>(&'v self, world: &World<'w>, expr: &'w Expr) -> Option<&'v Backwards>
        ensures list { IfSome result (λ list. meant_at world.now self.now.visible (locals_of self.now) (expr_view expr.now) ≡ gives (backwards_view list.now)) }
    {
        match expr {
            Expr::Local(number) => standing_backwards(&self.locals, *number),
            _ => None,
        }
    }

    /// What an operation gives for operands that all stand somewhere; nothing where they are to be evaluated or moved.
    pub fn read(
        &self,
        world: &World<'w>,
        op: Op,
        parts: &'w [Expr],
    ) -> Result<Option<Value>, NoValue>
        ensures value { MayTell value_view result (meant_at world.now self.now.visible (locals_of self.now) (apply (operation (op_view op)) (exprs_view parts.now))) }
    {
        match parts {
            [operand] => self.read_operand(world, op, operand),
            [left, right] => self.read_operands(world, op, left, right),
            _ => Ok(None),
        }
    }

    /// What an operation gives for its one operand. A local that nothing needs any more is to be moved.
    fn read_operand(
        &self,
        world: &World<'w>,
        op: Op,
        operand: &'w Expr,
    ) -> Result<Option<Value>, NoValue>
        ensures value { MayTell value_view result (one_given world.now self.now (expr_view operand.now) (operated (op_view op))) }
    {
        if self.is_last_use(operand) {
            return Ok(None);
        }
        match self.leaf(world, operand) {
            Some(value) => Ok(Some(read_one(op, value)?)),
            None => match self.backwards_leaf(world, operand) {
                Some(list) => list.read(op),
                None => Ok(None),
            },
        }
    }

    /// Whether the inscription is a local that nothing that waits needs any more.
    fn is_last_use(&self, expr: &Expr) -> bool {
        match expr {
            Expr::Local(number) => is_spare(&self.frames, *number as usize),
            _ => false,
        }
    }

    /// What an operation gives for its two operands. What it makes of them is made of values that are moved.
    fn read_operands(
        &self,
        world: &World<'w>,
        op: Op,
        left: &'w Expr,
        right: &'w Expr,
    ) -> Result<Option<Value>, NoValue>
        ensures value { MayTell value_view result (two_given world.now self.now (expr_view left.now) (expr_view right.now) (operated (op_view op))) }
    {
        if makes(op) {
            return Ok(None);
        }
        match self.leaf(world, left) {
            None => Ok(None),
            Some(first) => match self.leaf(world, right) {
                None => Ok(None),
                Some(second) => Ok(Some(read_two(op, first, second)?)),
            },
        }
    }

    /// Operands of which the first is a local that is read where it stands; nothing for others, and where they are to be moved.
    pub fn beside_local(
        &self,
        world: &World<'w>,
        op: Op,
        parts: &'w [Expr],
    ) -> Option<LocalOperands<'w>>
        ensures value { IfSome result (λ both. meant_at world.now self.now.visible (locals_of self.now) (apply (operation (op_view op)) (exprs_view parts.now)) ≡ local_given world.now self.now (op_view op) both.left (expr_view both.right.now)) }
    {
        if makes(op) {
            return None;
        }
        match parts {
            [first, right] => match first {
                Expr::Local(number) => match standing(&self.locals, *number) {
                    Some(_) => Some(LocalOperands {
                        left: *number,
                        right,
                    }),
                    None => None,
                },
                _ => None,
            },
            _ => None,
        }
    }

    /// What an operation gives for a local and the value of its second operand.
    pub fn read_beside(&self, op: Op, number: u32, right: &Value) -> Result<Value, NoValue>
        ensures value { Tells value_view result (local_beside (op_view op) number (locals_of self.now) (value_view right.now)) }
    {
        match standing(&self.locals, number) {
            Some(left) => read_two(op, left, right),
            None => {
                let left = copied(&self.locals, number)?.into_value();
                read_two(op, &left, right)
            }
        }
    }

    /// The second operand, where it stands, if nothing else is left; nothing where it is to be evaluated or moved.
    pub fn second<'v>(
        &'v self,
        world: &World<'w>,
        head: Head,
        done: &[Held],
        rest: &'w [Expr],
    ) -> Option<Second<'v>>
        ensures value { IfSome result (λ second. (v : PlainValue) → rest_of world.now self.now.visible (locals_of self.now) (head_view head) (map held_view done.now ++ v ∷ []) (exprs_view rest.now) ≡ operated (op_view second.op) (v ∷ value_view second.right.now ∷ [])) }
    {
        if !done.is_empty() {
            return None;
        }
        match head {
            Head::Op(op) => match rest {
                [right] => {
                    if makes(op) {
                        return None;
                    }
                    match self.leaf(world, right) {
                        Some(right) => Some(Second { op, right }),
                        None => None,
                    }
                }
                _ => None,
            },
            _ => None,
        }
    }
}
