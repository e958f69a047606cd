//! The tokens that the element of a job makes.

ghost use Rattle.std.specs.Prelude.{◌≡◌, ◌+◌, ◌≤◌, ◌^◌, [], replicate, OnOk, IfOk, if◌then◌else◌};
ghost use Rattle.cpn_definitions.specs.Net.{PlainNet};
ghost use Rattle.cpn_definitions.specs.Lists.{with_items};
ghost use Rattle.cpn_definitions.specs.Outcome.{HasMeaning};
ghost use Rattle.cpn_definitions.specs.Terms.{delay_of};
ghost use Rattle.cpn_definitions.specs.Occurrence.{made_cmp, outputs_of, transition_delay};
ghost use Rattle.cpn_definitions.specs.Times.{last_time};
ghost use Rattle.cpn_core.specs.Elements.{element_view};
ghost use Rattle.cpn_core.specs.Inscriptions.{funs_view};
ghost use Rattle.cpn_core.specs.Nets.{delay_view};
ghost use Rattle.cpn_core.specs.Views.{value_view};
ghost use Rattle.cpn_eval.specs.Answers.{Answers};
ghost use Rattle.cpn_eval.specs.Terms.{term_view};
ghost use Rattle.cpn_jobs.specs.Gathered.{and_made, DelayAnswers, made_of};
ghost use Rattle.cpn_jobs.specs.Views.{work_arc_view, work_arcs_view, work_view};
ghost use Rattle.cpn_jobs.specs.Work.{made_by_all, made_by_arc, outputs_by, work_of};

use crate::work::{Job, Work, WorkArc};
use cpn_core::{Binding, EvalFault, Expr, Funs, Made, Memory, Outputs, Value};
use cpn_eval::{Refused, Term, eval, eval_mset};
use std::alloc::Global;
use std::sync::Arc;

impl Job {
    /// The tokens that the element makes when it occurs at the time, summed over the output arcs; `Refused::Fault` with the
    /// fault of the transition's delay, or else the first of an output inscription, in document order. Where the job's work is that of the
    /// element's transition in a net, they are the element's outputs in that net.
    ///
    /// Source: Jensen and Kristensen, chapter 11; the order of the tokens is our own choice.
    pub fn outputs(&self, alloc: Global) -> Result<Outputs, Refused>
        requires time { self.now.time ≤ last_time }
        requires meaning { HasMeaning (outputs_by (work_view self.now.work.value) self.now.element.value.binding self.now.time) }
        ensures outputs { Answers (λ outputs. outputs) result (outputs_by (work_view self.now.work.value) self.now.element.value.binding self.now.time) }
        ensures in_net { (n : PlainNet) → work_view self.now.work.value ≡ work_of n self.now.element.value.transition → Answers (λ outputs. outputs) result (outputs_of n (element_view self.now.element.value) self.now.time) }
    {
        outputs_by(alloc, &self.work, &self.element.binding, self.time)
    }
}

#[tactic(auto, unfolding(crate::specs::Work::outputs_by))]
fn outputs_by(alloc: Global, work: &Work, binding: &Binding, time: u64) -> Result<Outputs, Refused>
    requires time { time ≤ last_time }
    requires meaning { HasMeaning (outputs_by (work_view work.now) binding.now time) }
    ensures outputs { Answers (λ outputs. outputs) result (outputs_by (work_view work.now) binding.now time) }
{
    let delay = transition_delay(alloc, &work.funs, &work.delay, binding, time)?;
    outputs_among(alloc, &work.funs, &work.outputs, binding, time, delay)
}

// The delay of a transition under the binding at the time; a missing one is 0.
fn transition_delay(
    alloc: Global,
    funs: &Funs,
    delay: &Option<Arc<Expr>>,
    binding: &Binding,
    time: u64,
) -> Result<u64, Refused>
    requires time { time ≤ last_time }
    requires meaning { HasMeaning (transition_delay (funs_view funs.now) (delay_view delay.now) binding.now time) }
    ensures delay { Answers (λ delay. delay) result (transition_delay (funs_view funs.now) (delay_view delay.now) binding.now time) }
    ensures bound { IfOk result (λ delay. delay ≤ last_time) }
{
    match delay {
        None => Ok(0),
        Some(expr) => {
            let value = eval(alloc, funs, expr, binding, time)?;
            match delay_of(&value) {
                Ok(delay) => Ok(delay),
                Err(fault) => Err(Refused::Fault(fault)),
            }
        }
    }
}

// The delay that the value is: a whole number from 0 to 2^62.
fn delay_of(value: &Value) -> Result<u64, EvalFault>
    requires meaning { HasMeaning (delay_of (value_view value.now)) }
    ensures delay { DelayAnswers result (delay_of (value_view value.now)) }
    ensures bound { IfOk result (λ delay. delay ≤ last_time) }
{
    let Value::Int(number) = value else {
        unreachable!()
    };
    if *number < 0 || *number > 1 << 62 {
        return Err(EvalFault::BadDelay);
    }
    Ok(*number as u64)
}

fn outputs_among(
    alloc: Global,
    funs: &Funs,
    arcs: &[WorkArc],
    binding: &Binding,
    time: u64,
    delay: u64,
) -> Result<Outputs, Refused>
    requires time { time ≤ last_time }
    requires delay { delay ≤ last_time }
    requires meaning { HasMeaning (and_made [] (made_by_all (made_by_arc (funs_view funs.now) binding.now time delay) (work_arcs_view arcs.now))) }
    ensures outputs { Answers (λ outputs. outputs) result (and_made [] (made_by_all (made_by_arc (funs_view funs.now) binding.now time delay) (work_arcs_view arcs.now))) }
{
    let mut outputs = Outputs::new(alloc);
    for arc in arcs {
        add_outputs(alloc, &mut outputs, funs, arc, binding, time, delay)?;
    }
    Ok(outputs)
}

// Adds the tokens that the arc makes.
fn add_outputs(
    alloc: Global,
    outputs: &mut Outputs,
    funs: &Funs,
    arc: &WorkArc,
    binding: &Binding,
    time: u64,
    delay: u64,
) -> Result<(), Refused>
    requires time { time ≤ last_time }
    requires delay { delay ≤ last_time }
    requires meaning { HasMeaning (made_by_arc (funs_view funs.now) binding.now time delay (work_arc_view arc.now)) }
    ensures added { Answers (λ _. outputs.new) result (and_made outputs.old (made_by_arc (funs_view funs.now) binding.now time delay (work_arc_view arc.now))) }
{
    let terms = eval_mset(alloc, funs, &arc.inscription, binding, time)?;
    for term in terms {
        let stamp = stamp_on(arc, time + delay, term.delay);
        add_made(outputs, arc.place, term, stamp)?;
    }
    Ok(())
}

// The stamp of a token that the arc makes, so much later than a time; 0 on an untimed place.
fn stamp_on(arc: &WorkArc, time: u64, delay: u64) -> u64
    requires time { time ≤ 2 ^ 63 }
    requires delay { delay ≤ last_time }
    ensures stamp { result ≡ (if arc.now.timed then time + delay else 0) }
{
    if arc.timed { time + delay } else { 0 }
}

// Adds as many tokens with the stamp as the term's count says.
fn add_made(outputs: &mut Outputs, place: u32, term: Term, stamp: u64) -> Result<(), Memory>
    ensures added { OnOk result (outputs.new ≡ with_items made_cmp (replicate term.count (made_of place stamp (term_view term))) outputs.old) }
{
    let Term {
        value,
        count,
        delay: _,
    } = term;
    for _token in 1..count {
        let copy = value.copy()?;
        outputs.add(Made {
            place,
            value: copy,
            stamp,
        })?;
    }
    if count > 0 {
        outputs.add(Made {
            place,
            value,
            stamp,
        })?;
    }
    Ok(())
}
