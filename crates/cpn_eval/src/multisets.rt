//! The terms of the inscription of an arc or an initial marking.

ghost use Rattle.std.specs.Prelude.{◌≡◌, ◌≤◌, [], map, IfOk};
ghost use Rattle.cpn_definitions.specs.Outcome.{HasMeaning};
ghost use Rattle.cpn_definitions.specs.Inscription.{inscriptions_from, arc_arms_from, later, stamped, selected, bound};
ghost use Rattle.cpn_definitions.specs.Terms.{terms_of, most_tokens};
ghost use Rattle.cpn_definitions.specs.Times.{last_time};
ghost use Rattle.cpn_core.specs.Views.{value_view};
ghost use Rattle.cpn_core.specs.Colours.{colour_view};
ghost use Rattle.cpn_core.specs.Inscriptions.{expr_view, funs_view, multiset_view, arc_arm_view};
ghost use Rattle.cpn_eval.specs.Answers.{Answers, Tells};
ghost use Rattle.cpn_eval.specs.Frames.{Kept};
ghost use Rattle.cpn_eval.specs.Terms.{items_view, terms_at, terms_with, sum_at};

use crate::amounts::tokens_in;
use crate::arms::{Fit, arm_for};
use crate::backwards::hold_all;
use crate::frames::{Machine, World};
use crate::lone_terms::{Arc, is_lone, then_stamped};
use crate::refusals::{NoValue, Refused};
use crate::term::Terms;
use cpn_core::{ArcExpr, Binding, Expr, Funs, MArm, MExpr, MExprs, Values};
use std::alloc::Global;

/// The terms of the inscription under the binding at the time, in order; `Refused::Fault` where its meaning is a fault.
///
/// Source: our own profile of CPN ML.
pub fn eval_mset(
    alloc: Global,
    funs: &Funs,
    arc: &ArcExpr,
    binding: &Binding,
    time: u64,
) -> Result<Terms, Refused>
    requires time { time ≤ last_time }
    requires meaning { HasMeaning (terms_of (funs_view funs.now) (multiset_view arc.now.expr) (colour_view arc.now.colour) binding.now time) }
    ensures terms { Answers items_view result (terms_of (funs_view funs.now) (multiset_view arc.now.expr) (colour_view arc.now.colour) binding.now time) }
{
    let world = World {
        funs,
        binding,
        time,
    };
    let mut machine = Machine {
        alloc,
        visible: funs.functions.len(),
        locals: Vec::new(alloc),
        frames: Vec::new(alloc),
    };
    let place = Arc {
        world,
        colour: &arc.colour,
    };
    match terms_behind(&arc.expr, &place, &mut machine, 0) {
        Ok(terms) => Ok(terms),
        Err(NoValue::Fault(fault)) => Err(Refused::Fault(fault)),
        Err(NoValue::Memory) => Err(Refused::Memory),
        Err(NoValue::Untyped) => unreachable!(),
    }
}

/// The terms of the inscription, behind so many tokens.
#[cycle(terms)]
pub fn terms_behind<'w>(
    expr: &'w MExpr,
    arc: &Arc<'w>,
    machine: &mut Machine<'w>,
    before: u64,
) -> Result<Terms, NoValue>
    requires time { arc.now.world.time ≤ last_time }
    requires idle { machine.old.frames.items ≡ [] }
    requires few { before ≤ most_tokens }
    ensures terms { Tells items_view result (terms_at arc.now machine.old (multiset_view expr.now) before) }
    ensures kept { IfOk result (λ _. Kept machine.old machine.new) }
{
    match expr {
        MExpr::Empty => Ok(Vec::new(machine.alloc)),
        MExpr::One(_) | MExpr::Times(_, _) => arc.lone_behind(machine, expr, before),
        MExpr::Sum(parts) => of_each(parts, arc, machine, before),
        MExpr::Later(inner, delay) => of_later(inner, delay, arc, machine, before),
        MExpr::At(inner, stamp) => of_stamped(inner, stamp, arc, machine, before),
        MExpr::If(condition, yes, no) => {
            if arc.holds(machine, condition)? {
                terms_behind(yes, arc, machine, before)
            } else {
                terms_behind(no, arc, machine, before)
            }
        }
        MExpr::Case(subject, arms) => of_arms(arms, subject, arc, machine, before),
        MExpr::Let(value, body) => of_body(body, value, arc, machine, before),
    }
}

/// The terms of the parts of a sum, behind so many tokens.
#[cycle(terms)]
fn of_each<'w>(
    parts: &'w MExprs,
    arc: &Arc<'w>,
    machine: &mut Machine<'w>,
    before: u64,
) -> Result<Terms, NoValue>
    requires time { arc.now.world.time ≤ last_time }
    requires idle { machine.old.frames.items ≡ [] }
    requires few { before ≤ most_tokens }
    ensures terms { Tells items_view result (sum_at arc.now machine.old (inscriptions_from (map multiset_view parts.now.items)) before) }
    ensures kept { IfOk result (λ _. Kept machine.old machine.new) }
{
    let mut terms = Vec::new(machine.alloc);
    let mut tokens = before;
    for part in parts {
        let mut more = terms_behind(part, arc, machine, tokens)?;
        tokens += tokens_in(&more);
        terms.append(&mut more)?;
    }
    Ok(terms)
}

/// The terms of an inscription with a delay, behind so many tokens.
#[cycle(terms)]
fn of_later<'w>(
    inner: &'w MExpr,
    delay: &'w Expr,
    arc: &Arc<'w>,
    machine: &mut Machine<'w>,
    before: u64,
) -> Result<Terms, NoValue>
    requires time { arc.now.world.time ≤ last_time }
    requires idle { machine.old.frames.items ≡ [] }
    requires few { before ≤ most_tokens }
    ensures terms { Tells items_view result (terms_at arc.now machine.old (later (multiset_view inner.now) (expr_view delay.now)) before) }
    ensures kept { IfOk result (λ _. Kept machine.old machine.new) }
{
    if is_lone(inner) {
        return arc.lone_later(machine, inner, delay, before);
    }
    let terms = terms_behind(inner, arc, machine, before)?;
    arc.then_delayed(machine, delay, terms)
}

/// The terms of an inscription with a time stamp, behind so many tokens.
#[cycle(terms)]
fn of_stamped<'w>(
    inner: &'w MExpr,
    stamp: &i64,
    arc: &Arc<'w>,
    machine: &mut Machine<'w>,
    before: u64,
) -> Result<Terms, NoValue>
    requires time { arc.now.world.time ≤ last_time }
    requires idle { machine.old.frames.items ≡ [] }
    requires few { before ≤ most_tokens }
    ensures terms { Tells items_view result (terms_at arc.now machine.old (stamped (multiset_view inner.now) stamp.now) before) }
    ensures kept { IfOk result (λ _. Kept machine.old machine.new) }
{
    if is_lone(inner) {
        return arc.lone_stamped(machine, inner, *stamp, before);
    }
    let terms = terms_behind(inner, arc, machine, before)?;
    then_stamped(machine.alloc, *stamp, terms)
}

/// The terms of the first arm that fits the subject's value.
#[cycle(terms)]
fn of_arms<'w>(
    arms: &'w Vec<MArm>,
    subject: &'w Expr,
    arc: &Arc<'w>,
    machine: &mut Machine<'w>,
    before: u64,
) -> Result<Terms, NoValue>
    requires time { arc.now.world.time ≤ last_time }
    requires idle { machine.old.frames.items ≡ [] }
    requires few { before ≤ most_tokens }
    ensures terms { Tells items_view result (terms_at arc.now machine.old (selected (expr_view subject.now) (arc_arms_from (map arc_arm_view arms.now.items))) before) }
    ensures kept { IfOk result (λ _. Kept machine.old machine.new) }
{
    match machine.leaf(&arc.world, subject) {
        Some(value) => {
            let Fit { position, bound } = arm_for(machine.alloc, arms, value)?;
            of_result(&arms[position].result, bound, arc, machine, before)
        }
        None => {
            let value = machine.value_of(&arc.world, subject)?;
            let Fit { position, bound } = arm_for(machine.alloc, arms, &value)?;
            of_result(&arms[position].result, bound, arc, machine, before)
        }
    }
}

/// The terms of a `let`.
#[cycle(terms)]
fn of_body<'w>(
    body: &'w MExpr,
    value: &'w Expr,
    arc: &Arc<'w>,
    machine: &mut Machine<'w>,
    before: u64,
) -> Result<Terms, NoValue>
    requires time { arc.now.world.time ≤ last_time }
    requires idle { machine.old.frames.items ≡ [] }
    requires few { before ≤ most_tokens }
    ensures terms { Tells items_view result (terms_at arc.now machine.old (bound (expr_view value.now) (multiset_view body.now)) before) }
    ensures kept { IfOk result (λ _. Kept machine.old machine.new) }
{
    let mut found = Vec::new(machine.alloc);
    found.push(machine.value_of(&arc.world, value)?)?;
    of_result(body, found, arc, machine, before)
}

/// The terms of an inscription that has more locals.
#[cycle(terms)]
fn of_result<'w>(
    inner: &'w MExpr,
    found: Values,
    arc: &Arc<'w>,
    machine: &mut Machine<'w>,
    before: u64,
) -> Result<Terms, NoValue>
    requires time { arc.now.world.time ≤ last_time }
    requires idle { machine.old.frames.items ≡ [] }
    requires few { before ≤ most_tokens }
    ensures terms { Tells items_view result (terms_with arc.now machine.old (map value_view found.items) (multiset_view inner.now) before) }
    ensures kept { IfOk result (λ _. Kept machine.old machine.new) }
{
    let count = machine.locals.len();
    hold_all(&mut machine.locals, found)?;
    let terms = terms_behind(inner, arc, machine, before)?;
    machine.locals.truncate(count);
    Ok(terms)
}
