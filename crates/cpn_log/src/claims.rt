//! What the log keeps of a claim.

ghost use Rattle.std.specs.Prelude.{◌≡◌, ◌≤◌, length, false, IfErr, IfOk, OnErr, OnOk};
ghost use Rattle.cpn_definitions.specs.Times.{last_time};
ghost use Rattle.cpn_core.specs.NeedsViews.{needed_view};
ghost use Rattle.cpn_tmset.specs.Limits.{HaveRoomFor};
ghost use Rattle.cpn_runs.specs.HoleRun.{added, after_claim, done_with, is_done};
ghost use Rattle.cpn_log.specs.Logs.{standing_of};
ghost use Rattle.cpn_log.specs.States.{state_view};
ghost use Rattle.cpn_runs.specs.Filling.{claim_after, past_claim, past_pick, pick_after};
ghost use Rattle.cpn_log.specs.ClaimViews.{claim_view, head_for, head_view, pick_with, picked_with, taken_view, with_stamp};

use crate::settled::Exchange;
use crate::states::ClaimState;
use crate::tokens::add_copies;
use cpn_core::{Element, EvalFault, Made, Memory, Needed, Needs, Outputs};
use cpn_jobs::Job;
use cpn_tmset::{Marking, carry_past};
use std::sync::Arc;

/// What a claim says: who made it, and its element with its time. Of a committed claim the log keeps no more.
#[derive(Drop)]
pub(crate) struct Head {
    pub(crate) seat: u32,
    pub(crate) time: u64,
    pub(crate) element: Arc<Element>,
}

impl Head {
    /// What a claim of a seat on a job says.
    pub(crate) fn of(seat: u32, job: &Job) -> Result<Head, Memory>
        ensures says { IfOk result (λ head. head_view head ≡ head_for seat job.now) }
    {
        Ok(Head {
            seat,
            time: job.time,
            element: job.element.clone()?,
        })
    }
}

/// What became of a claim.
#[derive(Drop)]
pub(crate) enum Course {
    Open,
    Done(Outputs),
    Failed(EvalFault),
}

/// A claim: what it says, its job, its needs with the stamp of the token that each took, and what became of it.
#[derive(Drop)]
pub(crate) struct Claim {
    pub(crate) head: Head,
    pub(crate) job: Arc<Job>,
    pub(crate) needs: Needs,
    pub(crate) stamps: Vec<u64>,
    pub(crate) course: Course,
}

impl Claim {
    /// How the claim stands.
    pub(crate) fn state(&self) -> ClaimState
        ensures { state_view result ≡ standing_of (claim_view self.now).status }
    {
        match &self.course {
            Course::Open => ClaimState::Open,
            Course::Done(_) => ClaimState::Done,
            Course::Failed(fault) => ClaimState::Failed(*fault),
        }
    }

    /// Takes the needs out of the marking and puts in what the claim adds. After `Memory` some of that may stand there.
    pub(crate) fn happen(&self, marking: &mut Marking) -> Result<(), Memory>
        requires in_time { self.now.head.time ≤ last_time }
        requires room { HaveRoomFor (length (added (claim_view self.now).status)) marking.old }
        ensures after { OnOk result (marking.new ≡ after_claim (claim_view self.now) marking.old) }
    {
        marking.subtract(&self.needs, self.head.time);
        match &self.course {
            Course::Open => Ok(()),
            Course::Done(outputs) => add_copies(marking, outputs),
            Course::Failed(_) => Ok(()),
        }
    }

    /// Carries the stamp of a token that was made past what the claim took: each pick of the token's value on its place that prefers the
    /// stamp takes it in exchange, and its own is carried on. The stamp that is left over.
    pub(crate) fn carry(&mut self, made: &Made, stamp: u64) -> u64
        requires in_time { self.old.head.time ≤ last_time }
        ensures left { result ≡ (past_claim (with_stamp stamp made.now) (taken_view self.old)).stamp }
        ensures taken { taken_view self.new ≡ claim_after (with_stamp stamp made.now) (taken_view self.old) }
        ensures same { claim_view self.new ≡ claim_view self.old }
        ensures job { self.new.job ≡ self.old.job }
    {
        carry_past_needs(&self.needs, &mut self.stamps, self.head.time, made, stamp)
    }

    /// What the claim says, with what it takes and adds, where it is done with its outputs; where it is not, the claim itself.
    pub(crate) fn let_go(self) -> Result<(Head, Exchange), Claim>
        ensures head { IfOk result (λ parts. parts.0 ≡ self.head) }
        ensures needs { IfOk result (λ parts. parts.1.needs ≡ self.needs) }
        ensures time { IfOk result (λ parts. parts.1.time ≡ self.head.time) }
        ensures outputs { IfOk result (λ parts. (claim_view self).status ≡ done_with parts.1.outputs) }
        ensures waits { OnErr result (is_done (claim_view self).status ≡ false) }
        ensures same { IfErr result (λ claim. claim ≡ self) }
    {
        let Claim {
            head,
            job,
            needs,
            stamps,
            course,
        } = self;
        match course {
            Course::Done(outputs) => {
                let exchange = Exchange {
                    needs,
                    time: head.time,
                    outputs,
                };
                Ok((head, exchange))
            }
            course => Err(Claim {
                head,
                job,
                needs,
                stamps,
                course,
            }),
        }
    }
}

// Carries the stamp of a token that was made past the stamps that needs took, one after another: the one that is left over.
fn carry_past_needs(needs: &Needs, stamps: &mut Vec<u64>, time: u64, made: &Made, stamp: u64) -> u64
    requires in_time { time ≤ last_time }
    ensures left { result ≡ (past_claim (with_stamp stamp made.now) (picked_with time needs.now stamps.old.items)).stamp }
    ensures taken { picked_with time needs.now stamps.new.items ≡ claim_after (with_stamp stamp made.now) (picked_with time needs.now stamps.old.items) }
{
    let tokens = needs.tokens();
    let mut carried = stamp;
    for (index, need) in tokens.iter().enumerate() {
        if let Some(taken) = stamps.get_mut(index) {
            carried = carry_past_need(need, taken, time, made, carried);
        }
    }
    carried
}

// Carries the stamp of a token that was made past the stamp that a need took: the one that is carried on.
fn carry_past_need(need: &Needed, taken: &mut u64, time: u64, made: &Made, stamp: u64) -> u64
    requires in_time { time ≤ last_time }
    ensures left { result ≡ (past_pick (with_stamp stamp made.now) (pick_with time (needed_view need.now) taken.old)).stamp }
    ensures taken { taken.new ≡ (pick_after (with_stamp stamp made.now) (pick_with time (needed_view need.now) taken.old)).stamp }
{
    if need.place == made.place && need.value == made.value {
        carry_past(taken, time + need.offset, stamp)
    } else {
        stamp
    }
}
