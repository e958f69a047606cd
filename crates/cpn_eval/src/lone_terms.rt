//! Terms of their own: a value with its coefficient, and a delay behind it.

ghost use Rattle.std.specs.Prelude.{◌≡◌, ◌≤◌, [], IfOk, IsTrue};
ghost use Rattle.cpn_definitions.specs.Inscription.{times, later, stamped};
ghost use Rattle.cpn_definitions.specs.Times.{last_time};
ghost use Rattle.cpn_definitions.specs.Terms.{term_of, lone_term, is_lone, then_delayed};
ghost use Rattle.cpn_core.specs.Colours.{colour_view};
ghost use Rattle.cpn_core.specs.Inscriptions.{expr_view, multiset_view};
ghost use Rattle.cpn_eval.specs.Answers.{Tells};
ghost use Rattle.cpn_eval.specs.Frames.{Kept, locals_of, setting_in};
ghost use Rattle.cpn_eval.specs.Terms.{items_view, stamped_terms, delayed_at, holds_at, terms_at};

use crate::amounts::{all_delayed, coefficient_of, counted, written_delay};
use crate::frames::{Machine, World};
use crate::kinds::truth_in;
use crate::refusals::NoValue;
use crate::term::{Term, Terms};
use cpn_core::{Colour, EvalFault, Expr, MExpr, Value};
use std::alloc::Global;

/// Where the inscription of an arc is evaluated.
#[derive(Clone, Copy)]
pub struct Arc<'w> {
    /// The functions, the binding and the time.
    pub world: World<'w>,
    /// The colour set of the place.
    pub colour: &'w Colour,
}

/// Whether the inscription is a lone term.
pub fn is_lone(expr: &MExpr) -> bool
    ensures lone { result ≡ is_lone (multiset_view expr.now) }
{
    match expr {
        MExpr::One(_) | MExpr::Times(_, _) => true,
        MExpr::Empty
        | MExpr::Sum(_)
        | MExpr::Later(_, _)
        | MExpr::At(_, _)
        | MExpr::If(_, _, _)
        | MExpr::Case(_, _)
        | MExpr::Let(_, _) => false,
    }
}

impl<'w> Arc<'w> {
    /// So many tokens of the inscription's value, if the colour set has it.
    fn term_of(
        &self,
        machine: &mut Machine<'w>,
        expr: &'w Expr,
        count: u64,
    ) -> Result<Terms, NoValue>
        requires time { self.now.world.time ≤ last_time }
        requires idle { machine.old.frames.items ≡ [] }
        ensures terms { Tells items_view result (term_of (expr_view expr.now) (colour_view self.now.colour.now) (setting_in self.now.world machine.old.visible) (locals_of machine.old) count) }
        ensures kept { IfOk result (λ _. Kept machine.old machine.new) }
    {
        let value = machine.value_of(&self.world, expr)?;
        if !self.colour.admits(&value) {
            return Err(NoValue::Fault(EvalFault::NotInColour));
        }
        let mut terms = Vec::new(machine.alloc);
        terms.push(Term {
            value,
            count,
            delay: 0,
        })?;
        Ok(terms)
    }

    /// The tokens of a coefficient and a value.
    fn times(
        &self,
        machine: &mut Machine<'w>,
        coefficient: &'w Expr,
        expr: &'w Expr,
    ) -> Result<Terms, NoValue>
        requires time { self.now.world.time ≤ last_time }
        requires idle { machine.old.frames.items ≡ [] }
        ensures terms { Tells items_view result (lone_term (times (expr_view coefficient.now) (expr_view expr.now)) (colour_view self.now.colour.now) (setting_in self.now.world machine.old.visible) (locals_of machine.old)) }
        ensures kept { IfOk result (λ _. Kept machine.old machine.new) }
    {
        let value = machine.value_of(&self.world, coefficient)?;
        let count = coefficient_of(&value)?;
        self.term_of(machine, expr, count)
    }

    /// The tokens of a lone term.
    pub fn lone_term(&self, machine: &mut Machine<'w>, expr: &'w MExpr) -> Result<Terms, NoValue>
        requires time { self.now.world.time ≤ last_time }
        requires idle { machine.old.frames.items ≡ [] }
        ensures terms { Tells items_view result (lone_term (multiset_view expr.now) (colour_view self.now.colour.now) (setting_in self.now.world machine.old.visible) (locals_of machine.old)) }
        ensures kept { IfOk result (λ _. Kept machine.old machine.new) }
    {
        match expr {
            MExpr::One(value) => self.term_of(machine, value, 1),
            MExpr::Times(coefficient, value) => self.times(machine, coefficient, value),
            MExpr::Empty
            | MExpr::Sum(_)
            | MExpr::Later(_, _)
            | MExpr::At(_, _)
            | MExpr::If(_, _, _)
            | MExpr::Case(_, _)
            | MExpr::Let(_, _) => Err(NoValue::Untyped),
        }
    }

    /// Terms with the delay that is written behind them, evaluated once.
    pub fn then_delayed(
        &self,
        machine: &mut Machine<'w>,
        delay: &'w Expr,
        terms: Terms,
    ) -> Result<Terms, NoValue>
        requires time { self.now.world.time ≤ last_time }
        requires idle { machine.old.frames.items ≡ [] }
        ensures terms { Tells items_view result (then_delayed (expr_view delay.now) (setting_in self.now.world machine.old.visible) (locals_of machine.old) (items_view terms)) }
        ensures kept { IfOk result (λ _. Kept machine.old machine.new) }
    {
        let value = machine.value_of(&self.world, delay)?;
        let number = written_delay(&value)?;
        let delayed = all_delayed(machine.alloc, terms, number)?;
        Ok(delayed)
    }

    /// Whether the condition holds.
    pub fn holds(&self, machine: &mut Machine<'w>, condition: &'w Expr) -> Result<bool, NoValue>
        requires time { self.now.world.time ≤ last_time }
        requires idle { machine.old.frames.items ≡ [] }
        ensures truth { Tells (λ b. b) result (holds_at self.now machine.old (expr_view condition.now)) }
        ensures kept { IfOk result (λ _. Kept machine.old machine.new) }
    {
        match machine.truth(&self.world, condition) {
            Some(truth) => Ok(truth),
            None => {
                let value = machine.value_of(&self.world, condition)?;
                truth_in(&value)
            }
        }
    }

    /// The tokens of a lone term, behind so many tokens.
    pub fn lone_behind(
        &self,
        machine: &mut Machine<'w>,
        expr: &'w MExpr,
        before: u64,
    ) -> Result<Terms, NoValue>
        requires time { self.now.world.time ≤ last_time }
        requires idle { machine.old.frames.items ≡ [] }
        requires lone { IsTrue (is_lone (multiset_view expr.now)) }
        ensures terms { Tells items_view result (terms_at self.now machine.old (multiset_view expr.now) before) }
        ensures kept { IfOk result (λ _. Kept machine.old machine.new) }
    {
        let terms = self.lone_term(machine, expr)?;
        counted(before, terms)
    }

    /// The tokens of a lone term with a delay, behind so many tokens.
    pub fn lone_later(
        &self,
        machine: &mut Machine<'w>,
        expr: &'w MExpr,
        delay: &'w Expr,
        before: u64,
    ) -> Result<Terms, NoValue>
        requires time { self.now.world.time ≤ last_time }
        requires idle { machine.old.frames.items ≡ [] }
        requires lone { IsTrue (is_lone (multiset_view expr.now)) }
        ensures terms { Tells items_view result (terms_at self.now machine.old (later (multiset_view expr.now) (expr_view delay.now)) before) }
        ensures kept { IfOk result (λ _. Kept machine.old machine.new) }
    {
        let term = self.lone_term(machine, expr)?;
        self.delayed_behind(machine, delay, term, before)
    }

    /// Terms with the delay that is written behind them, behind so many tokens.
    fn delayed_behind(
        &self,
        machine: &mut Machine<'w>,
        delay: &'w Expr,
        terms: Terms,
        before: u64,
    ) -> Result<Terms, NoValue>
        requires time { self.now.world.time ≤ last_time }
        requires idle { machine.old.frames.items ≡ [] }
        ensures terms { Tells items_view result (delayed_at self.now machine.old (expr_view delay.now) (items_view terms) before) }
        ensures kept { IfOk result (λ _. Kept machine.old machine.new) }
    {
        let delayed = self.then_delayed(machine, delay, terms)?;
        counted(before, delayed)
    }

    /// The tokens of a lone term with a time stamp, behind so many tokens.
    pub fn lone_stamped(
        &self,
        machine: &mut Machine<'w>,
        expr: &'w MExpr,
        stamp: i64,
        before: u64,
    ) -> Result<Terms, NoValue>
        requires time { self.now.world.time ≤ last_time }
        requires idle { machine.old.frames.items ≡ [] }
        requires lone { IsTrue (is_lone (multiset_view expr.now)) }
        ensures terms { Tells items_view result (terms_at self.now machine.old (stamped (multiset_view expr.now) stamp) before) }
        ensures kept { IfOk result (λ _. Kept machine.old machine.new) }
    {
        let term = self.lone_term(machine, expr)?;
        let terms = then_stamped(machine.alloc, stamp, term)?;
        counted(before, terms)
    }
}

/// Terms with the time stamp that is written behind them.
pub fn then_stamped(alloc: Global, stamp: i64, terms: Terms) -> Result<Terms, NoValue>
    ensures terms { Tells items_view result (stamped_terms stamp (items_view terms)) }
{
    let delay = written_delay(&Value::Int(stamp))?;
    all_delayed(alloc, terms, delay)
}
