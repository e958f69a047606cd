//! The turns of an evaluation.

ghost use Rattle.std.specs.Prelude.{slice_get, ◌≤◌, [], ◌∷◌, ◌++◌, map};
ghost use Rattle.cpn_definitions.specs.Inscription.{arms_from, no_exprs, operation, apply};
ghost use Rattle.cpn_definitions.specs.Outcome.{given, gives};
ghost use Rattle.cpn_definitions.specs.Meaning.{bound_value, done_with};
ghost use Rattle.cpn_definitions.specs.Times.{last_time};
ghost use Rattle.cpn_core.specs.Views.{value_view};
ghost use Rattle.cpn_eval.specs.Held.{held_view, all_held};
ghost use Rattle.cpn_core.specs.Inscriptions.{op_view, expr_view, exprs_view, arm_view};
ghost use Rattle.cpn_eval.specs.Frames.{parts, beside, argument, also, otherwise, branches, body_of, forget, arms, start, steps, back, rest_of, after_outcome, after_frame, after_waiting, locals_of, calls_in, meant_at, ahead, Goes, Turned, head_view, frame_view};

use crate::backwards::{hold_all, values_of};
use crate::choices::{Choice, choice_of};
use crate::frames::{Frame, Head, Machine, Now, Turn, World};
use crate::held::Held;
use crate::kinds::{items_in, sized};
use crate::leaves::beside;
use crate::locals::{copied, variable};
use crate::operations::operate;
use crate::reading::read_two;
use crate::refusals::NoValue;
use crate::spare::{is_spare, taken};
use cpn_core::{Arm, Expr, Op, Value};
use std::collections::VecDeque;
use std::mem;

impl<'w> Machine<'w> {
    /// Does what is at hand.
    pub fn turn(&mut self, world: &World<'w>, now: Now<'w>) -> Result<Turn<'w>, NoValue>
        requires { world.now.time ≤ last_time }
        ensures { Turned world.now self.new result (ahead world.now self.old now.entry) }
    {
        match now {
            Now::Open(expr) => Ok(Turn::On(self.open(world, expr)?)),
            Now::Given(value) => match self.frames.pop() {
                None => Ok(Turn::End(value)),
                Some(frame) => match self.go_on(world, frame, value) {
                    Ok(next) => Ok(Turn::On(next)),
                    Err(reason) => Err(reason),
                },
            },
        }
    }

    /// Begins an inscription.
    fn open(&mut self, world: &World<'w>, expr: &'w Expr) -> Result<Now<'w>, NoValue>
        requires { world.now.time ≤ last_time }
        ensures { Goes world.now self.new result (after_outcome world.now self.old (meant_at world.now self.old.visible (locals_of self.old) (expr_view expr.now))) }
    {
        match expr {
            Expr::Lit(value) => self.literal(world, value),
            Expr::Var(number) => self.variable(world, *number),
            Expr::Local(number) => self.local(world, *number),
            Expr::Time => Ok(Now::Given(Held::Plain(Value::Int(world.time as i64)))),
            Expr::Op(op, parts) => self.operation(world, *op, parts),
            Expr::Tuple(parts) => self.all_parts(world, Head::Tuple, parts),
            Expr::List(parts) => self.all_parts(world, Head::List, parts),
            Expr::Call(function, parts) => self.all_parts(world, Head::Call(*function), parts),
            Expr::Con(position, argument) => match argument {
                None => Ok(Now::Given(Held::Plain(Value::Con(*position, None)))),
                Some(inner) => self.wait(world, Frame::Argument(*position), inner),
            },
            Expr::And(first, second) => self.test(world, Frame::Also(second), first),
            Expr::Or(first, second) => self.test(world, Frame::Otherwise(second), first),
            Expr::If(condition, yes, no) => self.test(world, Frame::Branches(yes, no), condition),
            Expr::Case(subject, arms) => self.select(world, subject, arms),
            Expr::Let(bound, body) => self.wait(world, Frame::Body(body), bound),
            Expr::Fold { list, start, body } => self.wait(world, Frame::Start(start, body), list),
        }
    }

    /// Begins an operation. One whose operands are read where they stand is done with it.
    fn operation(
        &mut self,
        world: &World<'w>,
        op: Op,
        parts: &'w [Expr],
    ) -> Result<Now<'w>, NoValue>
        ensures { Goes world.now self.new result (after_outcome world.now self.old (meant_at world.now self.old.visible (locals_of self.old) (apply (operation (op_view op)) (exprs_view parts.now)))) }
    {
        match self.read(world, op, parts)? {
            Some(value) => Ok(Now::Given(Held::Plain(value))),
            None => self.operands(world, op, parts),
        }
    }

    /// Begins the operands of an operation. A first one that stands somewhere is left there.
    fn operands(&mut self, world: &World<'w>, op: Op, parts: &'w [Expr]) -> Result<Now<'w>, NoValue>
        ensures { Goes world.now self.new result (after_outcome world.now self.old (meant_at world.now self.old.visible (locals_of self.old) (apply (operation (op_view op)) (exprs_view parts.now)))) }
    {
        match beside(world, op, parts) {
            Some(both) => self.wait(world, Frame::Beside(op, both.left), both.right),
            None => match self.beside_local(world, op, parts) {
                Some(both) => self.wait(world, Frame::BesideLocal(op, both.left), both.right),
                None => self.all_parts(world, Head::Op(op), parts),
            },
        }
    }

    /// Begins a condition that a frame tests. One that stands somewhere is tested there.
    fn test(
        &mut self,
        world: &World<'w>,
        frame: Frame<'w>,
        condition: &'w Expr,
    ) -> Result<Now<'w>, NoValue>
        ensures { Goes world.now self.new result (after_waiting world.now self.old (frame_view frame.entry) (meant_at world.now self.old.visible (locals_of self.old) (expr_view condition.now))) }
    {
        match self.truth(world, condition) {
            None => self.wait(world, frame, condition),
            Some(truth) => self.go_on(world, frame, Held::Plain(Value::Bool(truth))),
        }
    }

    /// Begins a `case`. A subject that stands somewhere is matched there.
    fn select(
        &mut self,
        world: &World<'w>,
        subject: &'w Expr,
        cases: &'w [Arm],
    ) -> Result<Now<'w>, NoValue>
        ensures { Goes world.now self.new result (after_waiting world.now self.old (arms (arms_from (map arm_view cases.now))) (meant_at world.now self.old.visible (locals_of self.old) (expr_view subject.now))) }
    {
        match self.leaf(world, subject) {
            None => self.wait(world, Frame::Arms(cases), subject),
            Some(value) => {
                let choice = choice_of(self.alloc, cases, value)?;
                self.take(world, choice)
            }
        }
    }

    /// A copy of a literal.
    fn literal(&mut self, world: &World<'w>, value: &Value) -> Result<Now<'w>, NoValue>
        ensures { Goes world.now self.new result (after_outcome world.now self.old (gives (value_view value.now))) }
    {
        Ok(Now::Given(Held::Plain(value.copy()?)))
    }

    /// A copy of the value of the variable of that number.
    fn variable(&mut self, world: &World<'w>, number: u32) -> Result<Now<'w>, NoValue>
        ensures { Goes world.now self.new result (after_outcome world.now self.old (given (bound_value number world.now.binding.now))) }
    {
        Ok(Now::Given(Held::Plain(variable(world.binding, number)?)))
    }

    /// The local of that number: itself where nothing that waits needs it any more, and elsewhere a copy of it.
    fn local(&mut self, world: &World<'w>, number: u32) -> Result<Now<'w>, NoValue>
        ensures { Goes world.now self.new result (after_outcome world.now self.old (given (slice_get (locals_of self.old) number))) }
    {
        if is_spare(&self.frames, number as usize) {
            let value = taken(&mut self.locals, number as usize)?;
            Ok(Now::Given(value))
        } else {
            let value = copied(&self.locals, number)?;
            Ok(Now::Given(value))
        }
    }

    /// Begins an inscription whose value a frame waits for.
    fn wait(
        &mut self,
        world: &World<'w>,
        frame: Frame<'w>,
        expr: &'w Expr,
    ) -> Result<Now<'w>, NoValue>
        ensures { Goes world.now self.new result (after_waiting world.now self.old (frame_view frame.entry) (meant_at world.now self.old.visible (locals_of self.old) (expr_view expr.now))) }
    {
        self.frames.push(frame)?;
        Ok(Now::Open(expr))
    }

    /// Begins the first of all the parts, or does what their head does with none.
    fn all_parts(
        &mut self,
        world: &World<'w>,
        head: Head,
        parts: &'w [Expr],
    ) -> Result<Now<'w>, NoValue>
        ensures { Goes world.now self.new result (after_outcome world.now self.old (meant_at world.now self.old.visible (locals_of self.old) (apply (head_view head) (exprs_view parts.now)))) }
    {
        self.parts(world, head, Vec::new(self.alloc), parts)
    }

    /// Begins the first of the parts that are left, or does what their head does.
    fn parts(
        &mut self,
        world: &World<'w>,
        head: Head,
        done: Vec<Held>,
        rest: &'w [Expr],
    ) -> Result<Now<'w>, NoValue>
        ensures { Goes world.now self.new result (after_outcome world.now self.old (rest_of world.now self.old.visible (locals_of self.old) (head_view head) (all_held done) (exprs_view rest.now))) }
    {
        match rest {
            [] => self.finish(world, head, done),
            [next, rest @ ..] => self.wait(world, Frame::Parts(head, done, rest), next),
        }
    }

    /// Goes on behind the value of a part. A second operand that stands somewhere is read there.
    fn behind(
        &mut self,
        world: &World<'w>,
        head: Head,
        done: Vec<Held>,
        rest: &'w [Expr],
        value: Held,
    ) -> Result<Now<'w>, NoValue>
        ensures { Goes world.now self.new result (after_frame world.now self.old (parts (head_view head) (all_held done) (exprs_view rest.now)) (held_view value)) }
    {
        match self.second(world, head, done.as_slice(), rest) {
            Some(both) => {
                let left = value.into_value();
                Ok(Now::Given(Held::Plain(read_two(both.op, &left, both.right)?)))
            }
            None => {
                let mut done = done;
                done.push(value)?;
                self.parts(world, head, done, rest)
            }
        }
    }

    /// Does what the head does with the values of all its parts.
    fn finish(&mut self, world: &World<'w>, head: Head, done: Vec<Held>) -> Result<Now<'w>, NoValue>
        ensures { Goes world.now self.new result (after_outcome world.now self.old (done_with (head_view head) (calls_in world.now self.old.visible) (all_held done))) }
    {
        match head {
            Head::Op(op) => Ok(Now::Given(operate(op, done)?)),
            Head::Tuple => Ok(Now::Given(Held::Plain(sized(Value::Tuple(values_of(done)?))?))),
            Head::List => Ok(Now::Given(Held::Plain(sized(Value::List(values_of(done)?))?))),
            Head::Call(function) => self.enter(world, function as usize, done),
        }
    }

    /// Begins the body of a function.
    fn enter(
        &mut self,
        world: &World<'w>,
        function: usize,
        arguments: Vec<Held>,
    ) -> Result<Now<'w>, NoValue>
        ensures { Goes world.now self.new result (after_outcome world.now self.old (calls_in world.now self.old.visible function (all_held arguments))) }
    {
        if function >= self.visible {
            return Err(NoValue::Untyped);
        }
        match world.funs.functions.get(function) {
            None => Err(NoValue::Untyped),
            Some(called) => {
                if arguments.len() != called.parameters as usize {
                    return Err(NoValue::Untyped);
                }
                let locals = mem::replace(&mut self.locals, arguments);
                self.frames.push(Frame::Caller(self.visible, locals))?;
                self.visible = function;
                let body: &Expr = &called.body;
                Ok(Now::Open(body))
            }
        }
    }

    /// Does what a frame does with the value that it waits for.
    fn go_on(
        &mut self,
        world: &World<'w>,
        frame: Frame<'w>,
        value: Held,
    ) -> Result<Now<'w>, NoValue>
        ensures { Goes world.now self.new result (after_frame world.now self.old (frame_view frame.entry) (held_view value)) }
    {
        match frame {
            Frame::Parts(head, done, rest) => self.behind(world, head, done, rest, value),
            Frame::Beside(op, left) => self.with_left(world, op, left, value),
            Frame::BesideLocal(op, number) => self.with_local(world, op, number, value),
            Frame::Argument(position) => self.construct(world, position, value),
            Frame::Also(second) => self.also(world, second, value),
            Frame::Otherwise(second) => self.otherwise(world, second, value),
            Frame::Branches(yes, no) => self.branch(world, yes, no, value),
            Frame::Body(body) => self.go_into(world, body, value),
            Frame::Forget(count) => self.forget(world, count, value),
            Frame::Arms(arms) => self.choose(world, arms, value),
            Frame::Start(start, body) => self.begin_fold(world, start, body, value),
            Frame::Items(items, body) => self.step(world, items, body, value),
            Frame::Caller(visible, locals) => self.leave(world, visible, locals, value),
        }
    }

    /// Does an operation whose first operand stands somewhere.
    fn with_left(
        &mut self,
        world: &World<'w>,
        op: Op,
        left: &'w Value,
        value: Held,
    ) -> Result<Now<'w>, NoValue>
        ensures { Goes world.now self.new result (after_frame world.now self.old (parts (operation (op_view op)) (value_view left.now ∷ []) no_exprs) (held_view value)) }
    {
        let right = value.into_value();
        Ok(Now::Given(Held::Plain(read_two(op, left, &right)?)))
    }

    /// Does an operation whose first operand is a local.
    fn with_local(
        &mut self,
        world: &World<'w>,
        op: Op,
        number: u32,
        value: Held,
    ) -> Result<Now<'w>, NoValue>
        ensures { Goes world.now self.new result (after_frame world.now self.old (beside (op_view op) number) (held_view value)) }
    {
        let right = value.into_value();
        Ok(Now::Given(Held::Plain(self.read_beside(op, number, &right)?)))
    }

    /// Applies a constructor.
    fn construct(
        &mut self,
        world: &World<'w>,
        position: u32,
        value: Held,
    ) -> Result<Now<'w>, NoValue>
        ensures { Goes world.now self.new result (after_frame world.now self.old (argument position) (held_view value)) }
    {
        let argument = Box::new(self.alloc, value.into_value())?;
        Ok(Now::Given(Held::Plain(sized(Value::Con(position, Some(argument)))?)))
    }

    /// Goes on behind the first part of `andalso`.
    fn also(&mut self, world: &World<'w>, second: &'w Expr, value: Held) -> Result<Now<'w>, NoValue>
        ensures { Goes world.now self.new result (after_frame world.now self.old (also (expr_view second.now)) (held_view value)) }
    {
        if value.into_truth()? {
            Ok(Now::Open(second))
        } else {
            Ok(Now::Given(Held::Plain(Value::Bool(false))))
        }
    }

    /// Goes on behind the first part of `orelse`.
    fn otherwise(
        &mut self,
        world: &World<'w>,
        second: &'w Expr,
        value: Held,
    ) -> Result<Now<'w>, NoValue>
        ensures { Goes world.now self.new result (after_frame world.now self.old (otherwise (expr_view second.now)) (held_view value)) }
    {
        if value.into_truth()? {
            Ok(Now::Given(Held::Plain(Value::Bool(true))))
        } else {
            Ok(Now::Open(second))
        }
    }

    /// Begins a branch of `if`.
    fn branch(
        &mut self,
        world: &World<'w>,
        yes: &'w Expr,
        no: &'w Expr,
        value: Held,
    ) -> Result<Now<'w>, NoValue>
        ensures { Goes world.now self.new result (after_frame world.now self.old (branches (expr_view yes.now) (expr_view no.now)) (held_view value)) }
    {
        if value.into_truth()? {
            Ok(Now::Open(yes))
        } else {
            Ok(Now::Open(no))
        }
    }

    /// Forgets the locals behind so many.
    fn forget(&mut self, world: &World<'w>, count: usize, value: Held) -> Result<Now<'w>, NoValue>
        ensures { Goes world.now self.new result (after_frame world.now self.old (forget count) (held_view value)) }
    {
        self.locals.truncate(count);
        Ok(Now::Given(value))
    }

    /// Begins the start of a fold over the items of the value.
    fn begin_fold(
        &mut self,
        world: &World<'w>,
        first: &'w Expr,
        body: &'w Expr,
        value: Held,
    ) -> Result<Now<'w>, NoValue>
        ensures { Goes world.now self.new result (after_frame world.now self.old (start (expr_view first.now) (expr_view body.now)) (held_view value)) }
    {
        let items = VecDeque::from(items_in(value.into_value())?);
        self.wait(world, Frame::Items(items, body), first)
    }

    /// Goes back to the caller of a function.
    fn leave(
        &mut self,
        world: &World<'w>,
        visible: usize,
        locals: Vec<Held>,
        value: Held,
    ) -> Result<Now<'w>, NoValue>
        ensures { Goes world.now self.new result (after_frame world.now self.old (back visible (all_held locals)) (held_view value)) }
    {
        self.visible = visible;
        self.locals = locals;
        Ok(Now::Given(value))
    }

    /// Begins a body that has the value as its next local.
    fn go_into(
        &mut self,
        world: &World<'w>,
        body: &'w Expr,
        value: Held,
    ) -> Result<Now<'w>, NoValue>
        ensures { Goes world.now self.new result (after_frame world.now self.old (body_of (expr_view body.now)) (held_view value)) }
    {
        let count = self.locals.len();
        self.locals.push(value)?;
        self.frames.push(Frame::Forget(count))?;
        Ok(Now::Open(body))
    }

    /// Begins the first arm that matches.
    fn choose(
        &mut self,
        world: &World<'w>,
        cases: &'w [Arm],
        value: Held,
    ) -> Result<Now<'w>, NoValue>
        ensures { Goes world.now self.new result (after_frame world.now self.old (arms (arms_from (map arm_view cases.now))) (held_view value)) }
    {
        let choice = choice_of(self.alloc, cases, &value.into_value())?;
        self.take(world, choice)
    }

    /// Begins an arm that has what its pattern binds as its next locals.
    fn take(&mut self, world: &World<'w>, choice: Choice<'w>) -> Result<Now<'w>, NoValue>
        ensures { Goes world.now self.new result (after_outcome world.now self.old (meant_at world.now self.old.visible (locals_of self.old ++ map value_view choice.entry.bound.items) (expr_view choice.entry.body.now))) }
    {
        self.frames.push(Frame::Forget(self.locals.len()))?;
        hold_all(&mut self.locals, choice.bound)?;
        Ok(Now::Open(choice.body))
    }

    /// Begins the body of a fold for the next item, or ends the fold.
    fn step(
        &mut self,
        world: &World<'w>,
        items: VecDeque<Value>,
        body: &'w Expr,
        value: Held,
    ) -> Result<Now<'w>, NoValue>
        ensures { Goes world.now self.new result (after_frame world.now self.old (steps (map value_view items.items) (expr_view body.now)) (held_view value)) }
    {
        let mut items = items;
        match items.pop_front() {
            None => Ok(Now::Given(value)),
            Some(item) => {
                let count = self.locals.len();
                self.locals.push(Held::Plain(item))?;
                self.locals.push(value)?;
                self.frames.push(Frame::Items(items, body))?;
                self.frames.push(Frame::Forget(count))?;
                Ok(Now::Open(body))
            }
        }
    }
}
