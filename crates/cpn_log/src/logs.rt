//! The log of a run.

ghost use Rattle.std.specs.Prelude.{◌+◌, ◌≤◌, length, vec_capacity};

use crate::claims::{Claim, Course, Head};
use crate::filling::put_ahead;
use crate::gathered::{changes_among, changes_of_needs, changes_of_outputs};
use crate::markings::Markings;
use crate::replay::replayed;
use crate::states::ClaimState;
use crate::touched::touched_in_order;
use cpn_core::{EvalFault, Memory, Needs, Outputs};
use cpn_jobs::Job;
use cpn_tmset::{Changes, Marking};
use std::alloc::Global;
use std::collections::VecDeque;
use std::sync::Arc;

/// The claims of a run in claim order, the marking that they leave, and the committed part of them with the marking that it
/// leaves. Of a committed claim it keeps what it says alone, and it has room to keep that of each claim behind.
///
/// Source: own choice. A clause sees it as the plain log of the definitions (`log_view`), which is kept (`IsKept`) from its start
/// on, but not after a call that answered `Memory`: then the committed part and its marking stand, and nothing else is known;
/// after `occur` not even these.
#[derive(Drop)]
pub struct Log {
    alloc: Global,
    markings: Markings,
    heads: Vec<Head>,
    claims: VecDeque<Claim>,
    ghost room: { length heads.items + length claims.items ≤ vec_capacity heads },
}

impl Log {
    ghost use Rattle.std.specs.Prelude.{◌≡◌, ◌+◌, ◌-◌, ◌≤◌, ◌<◌, ◌^◌, ℕ, true, [], ◌∷◌, ◌++◌, ◌↔◌, if◌then◌else◌, length, take, drop, Some, IfOk, OnOk, OnErr, IsOk, IsTrue, slice_get};
    ghost use Rattle.std.specs.List.{AllByRecursion};
    ghost use Rattle.cpn_definitions.specs.Bounds.{most_made};
    ghost use Rattle.cpn_definitions.specs.Marking.{tokens_at, AreSorted};
    ghost use Rattle.cpn_definitions.specs.Occurrence.{are_covered, subtract, threshold};
    ghost use Rattle.cpn_definitions.specs.Times.{last_time};
    ghost use Rattle.cpn_core.specs.Elements.{element_view};
    ghost use Rattle.cpn_core.specs.Faults.{fault_view};
    ghost use Rattle.cpn_tmset.specs.Changed.{AreChanges};
    ghost use Rattle.cpn_tmset.specs.ChangedViews.{changes_view};
    ghost use Rattle.cpn_tmset.specs.Limits.{HaveRoomFor};
    ghost use Rattle.cpn_runs.specs.Bounds.{most_steps};
    ghost use Rattle.cpn_runs.specs.HoleRun.{done_with, faulted_with, picks_of};
    ghost use Rattle.cpn_runs.specs.Filling.{filled_run};
    ghost use Rattle.cpn_log.specs.Logs.{begin_done, claims_made, made_and_done, next_committed, opened, run_behind, seats, standings, stands_done, stands_failed, stands_open, started, with_occurred, with_status};
    ghost use Rattle.cpn_log.specs.FilledLogs.{IsFilledAt};
    ghost use Rattle.cpn_log.specs.Kept.{IsInRange, IsKept};
    ghost use Rattle.cpn_log.specs.States.{state_view};
    ghost use Rattle.cpn_log.specs.ClaimViews.{status_view};
    ghost use Rattle.cpn_log.specs.LogViews.{job_in, jobs_in, log_view};

    /// The log of no claim, from a marking.
    pub fn start(alloc: Global, marking: Marking) -> Result<Log, Memory>
        requires sorted { (p : ℕ) → AreSorted (tokens_at marking p) }
        requires few { (p : ℕ) → length (tokens_at marking p) ≤ 2 ^ 47 }
        ensures started { IfOk result (λ log. log_view log ≡ started marking) }
        ensures jobs { IfOk result (λ log. jobs_in log ≡ []) }
        ensures kept { IfOk result (λ log. IsKept (log_view log)) }
    {
        Ok(Log {
            alloc,
            markings: Markings::new(marking),
            heads: Vec::new(alloc),
            claims: VecDeque::new(alloc),
        })
    }

    /// Appends the open claim of a seat on a job, which takes its needs out of the unclaimed marking, and tells which stamps
    /// change there by that. After `Memory` the committed part and its marking stand, and nothing else is known.
    pub fn push(&mut self, seat: u32, job: Arc<Job>, needs: Needs) -> Result<Changes, Memory>
        requires kept { IsKept (log_view self.old) }
        requires room { claims_made (log_view self.old) < most_steps }
        requires in_time { job.value.time ≤ last_time }
        requires covered { are_covered (threshold job.value.time) (log_view self.old).unclaimed needs ≡ true }
        ensures pushed { OnOk result ((log_view self.new).claims ≡ (log_view self.old).claims ++ opened seat (element_view job.value.element.value) job.value.time needs ∷ []) }
        ensures taken { OnOk result ((log_view self.new).unclaimed ≡ subtract (threshold job.value.time) needs (log_view self.old).unclaimed) }
        ensures picks { OnOk result ((log_view self.new).picks ≡ (log_view self.old).picks ++ picks_of job.value.time needs (log_view self.old).unclaimed ∷ []) }
        ensures stands { OnOk result (slice_get (standings (log_view self.new)) (claims_made (log_view self.old)) ≡ Some stands_open) }
        ensures jobs { OnOk result (jobs_in self.new ≡ jobs_in self.old ++ job.value ∷ []) }
        ensures committed { (log_view self.new).committed ≡ (log_view self.old).committed }
        ensures settled { (log_view self.new).settled ≡ (log_view self.old).settled }
        ensures kept { OnOk result (IsKept (log_view self.new)) }
        ensures changes { IfOk result (λ changes. AreChanges (log_view self.old).unclaimed (log_view self.new).unclaimed (changes_view changes)) }
    {
        let changes = changes_of_needs(self.alloc, &needs)?;
        let head = Head::of(seat, &job)?;
        self.heads.reserve(self.claims.len() + 1)?;
        let stamps = self.markings.take(self.alloc, &needs, head.time)?;
        self.claims.push_back(Claim {
            head,
            job,
            needs,
            stamps,
            course: Course::Open,
        })?;
        Ok(changes)
    }

    /// Where all claims are committed, one claim more, of a seat on a job: it takes its needs, is done with its outputs and is
    /// committed. The log is then as after `push`, `fill` and `commit_one`. It tells which stamps change by that:
    /// not those of a value that is put back with the stamps that it had. Only one marking is kept meanwhile, so after `Memory` nothing is
    /// known of the log.
    pub fn occur(
        &mut self,
        seat: u32,
        job: Arc<Job>,
        needs: &Needs,
        outputs: Outputs,
    ) -> Result<Changes, Memory>
        requires kept { IsKept (log_view self.old) }
        requires all_committed { (log_view self.old).claims ≡ [] }
        requires room { claims_made (log_view self.old) < most_steps }
        requires in_time { job.value.time ≤ last_time }
        requires covered { are_covered (threshold job.value.time) (log_view self.old).unclaimed needs.now ≡ true }
        requires in_range { AllByRecursion (λ made. made.place < length (log_view self.old).unclaimed) outputs }
        requires few { length outputs ≤ most_made }
        ensures occurred { OnOk result (log_view self.new ≡ with_occurred (log_view self.old) (made_and_done seat (element_view job.value.element.value) job.value.time needs.now outputs)) }
        ensures jobs { jobs_in self.new ≡ jobs_in self.old }
        ensures kept { OnOk result (IsKept (log_view self.new)) }
        ensures changes { IfOk result (λ changes. AreChanges (log_view self.old).unclaimed (log_view self.new).unclaimed (changes_view changes)) }
    {
        let head = Head::of(seat, &job)?;
        let changes = self
            .markings
            .exchange(self.alloc, needs, head.time, outputs)?;
        self.heads.push(head)?;
        Ok(changes)
    }

    /// Completes an open claim with its outputs, which it adds at its own place in the claim order: each of them is carried past what
    /// the later claims took, so they have what they would have taken if it had been there, and one token more for each output is left in
    /// the unclaimed marking, of its value and on its place. It tells which stamps of the unclaimed marking change by that: those of each
    /// output's value on its place. No claim is made anew for it. After `Memory` the committed part and its marking stand, and nothing else
    /// is known.
    pub fn fill(&mut self, number: u64, outputs: Outputs) -> Result<Changes, Memory>
        requires kept { IsKept (log_view self.old) }
        requires open { slice_get (standings (log_view self.old)) number ≡ Some stands_open }
        requires in_range { AllByRecursion (λ made. made.place < length (log_view self.old).unclaimed) outputs }
        requires few { length outputs ≤ most_made }
        ensures filled { OnOk result ((log_view self.new).claims ≡ with_status (done_with outputs) (number - length (log_view self.old).committed) (log_view self.old).claims) }
        ensures stands { OnOk result (slice_get (standings (log_view self.new)) number ≡ Some stands_done) }
        ensures jobs { jobs_in self.new ≡ jobs_in self.old }
        ensures committed { (log_view self.new).committed ≡ (log_view self.old).committed }
        ensures settled { (log_view self.new).settled ≡ (log_view self.old).settled }
        ensures filled_run { OnOk result (IsFilledAt (number - length (log_view self.old).committed) outputs (log_view self.old) (log_view self.new)) }
        ensures kept { OnOk result (IsKept (log_view self.new)) }
        ensures changes { IfOk result (λ changes. AreChanges (log_view self.old).unclaimed (log_view self.new).unclaimed (changes_view changes)) }
    {
        let changes = changes_of_outputs(self.alloc, &outputs)?;
        let position = self.position(number);
        self.put_behind(position, &outputs)?;
        self.complete(position, Course::Done(outputs));
        Ok(changes)
    }

    /// Completes an open claim with a fault of its outputs: it adds nothing, so the unclaimed marking stays. It takes no memory.
    pub fn fail(&mut self, number: u64, fault: EvalFault)
        requires kept { IsKept (log_view self.old) }
        requires open { slice_get (standings (log_view self.old)) number ≡ Some stands_open }
        ensures failed { (log_view self.new).claims ≡ with_status (faulted_with (fault_view fault)) (number - length (log_view self.old).committed) (log_view self.old).claims }
        ensures stands { slice_get (standings (log_view self.new)) number ≡ Some (stands_failed (fault_view fault)) }
        ensures jobs { jobs_in self.new ≡ jobs_in self.old }
        ensures committed { (log_view self.new).committed ≡ (log_view self.old).committed }
        ensures settled { (log_view self.new).settled ≡ (log_view self.old).settled }
        ensures picks { (log_view self.new).picks ≡ (log_view self.old).picks }
        ensures unclaimed { (log_view self.new).unclaimed ≡ (log_view self.old).unclaimed }
        ensures kept { IsKept (log_view self.new) }
    {
        let position = self.position(number);
        self.complete(position, Course::Failed(fault));
    }

    /// Removes the claims from a number on, none of which is committed: their tokens go back. It tells which stamps of the
    /// unclaimed marking change by that. After `Memory` the committed part and its marking stand, and nothing else is known.
    pub fn cut(&mut self, number: u64) -> Result<Changes, Memory>
        requires kept { IsKept (log_view self.old) }
        requires open { length (log_view self.old).committed ≤ number }
        requires within { number ≤ claims_made (log_view self.old) }
        ensures cut { OnOk result ((log_view self.new).claims ≡ take (number - length (log_view self.old).committed) (log_view self.old).claims) }
        ensures jobs { OnOk result (jobs_in self.new ≡ take (number - length (log_view self.old).committed) (jobs_in self.old)) }
        ensures committed { (log_view self.new).committed ≡ (log_view self.old).committed }
        ensures settled { (log_view self.new).settled ≡ (log_view self.old).settled }
        ensures kept { OnOk result (IsKept (log_view self.new)) }
        ensures changes { IfOk result (λ changes. AreChanges (log_view self.old).unclaimed (log_view self.new).unclaimed (changes_view changes)) }
    {
        let position = self.position(number);
        let claims: &[Claim] = self.claims.make_contiguous();
        let touched = touched_in_order(self.alloc, &claims[position..])?;
        let left = replayed(self.markings.settled(), &claims[..position])?;
        let changes = changes_among(self.alloc, touched.as_slice(), self.unclaimed(), &left)?;
        self.claims.truncate(position);
        self.markings.replace(left);
        Ok(changes)
    }

    /// The next claim joins the committed part, and its exchange the settled marking; `false` exactly where there is none that is
    /// done with its outputs. The commit of a claim with none behind it takes no memory. After `Memory` the committed part and its
    /// marking stand, and nothing else is known.
    pub fn commit_one(&mut self) -> Result<bool, Memory>
        requires kept { IsKept (log_view self.old) }
        ensures done { IfOk result (λ done. done ≡ begin_done (log_view self.old).claims) }
        ensures stands { IfOk result (λ done. IsTrue done ↔ (slice_get (standings (log_view self.old)) (length (log_view self.old).committed) ≡ Some stands_done)) }
        ensures next { OnOk result (log_view self.new ≡ next_committed (log_view self.old)) }
        ensures jobs { OnOk result (jobs_in self.new ≡ (if begin_done (log_view self.old).claims then drop 1 (jobs_in self.old) else jobs_in self.old)) }
        ensures committed { OnErr result ((log_view self.new).committed ≡ (log_view self.old).committed) }
        ensures settled { OnErr result ((log_view self.new).settled ≡ (log_view self.old).settled) }
        ensures kept { OnOk result (IsKept (log_view self.new)) }
        ensures last { length (log_view self.old).claims ≤ 1 → IsOk result }
    {
        let Some(claim) = self.claims.pop_front() else {
            return Ok(false);
        };
        match claim.let_go() {
            Ok((head, exchange)) => {
                self.markings.settle(exchange, self.claims.is_empty())?;
                self.heads.push_reserved(head);
                Ok(true)
            }
            Err(claim) => {
                self.claims.push_front_reserved(claim);
                Ok(false)
            }
        }
    }

    /// The marking that the claims leave.
    pub fn unclaimed(&self) -> &Marking
        ensures { result.now ≡ (log_view self.now).unclaimed }
    {
        self.markings.unclaimed()
    }

    /// The marking that the committed claims leave.
    pub fn settled(&self) -> &Marking
        ensures { result.now ≡ (log_view self.now).settled }
    {
        self.markings.settled()
    }

    /// How many claims are committed.
    pub fn committed(&self) -> u64
        ensures { result ≡ length (log_view self.now).committed }
    {
        self.heads.len() as u64
    }

    /// How many claims there are.
    pub fn len(&self) -> u64
        ensures { result ≡ claims_made (log_view self.now) }
    {
        (self.heads.len() + self.claims.len()) as u64
    }

    /// The seat that made the claim of a number.
    pub fn seat(&self, number: u64) -> u32
        requires within { number < claims_made (log_view self.now) }
        ensures { slice_get (seats (log_view self.now)) number ≡ Some result }
    {
        if number < self.committed() {
            return self.heads[number as usize].seat;
        }
        self.claims[self.position(number)].head.seat
    }

    /// The job of the claim of a number, which is not committed.
    pub fn job(&self, number: u64) -> &Arc<Job>
        requires behind { length (log_view self.now).committed ≤ number }
        requires within { number < claims_made (log_view self.now) }
        ensures { job_in self.now number ≡ Some result.now.value }
    {
        &self.claims[self.position(number)].job
    }

    /// How the claim of a number stands.
    pub fn state(&self, number: u64) -> ClaimState
        requires within { number < claims_made (log_view self.now) }
        ensures { slice_get (standings (log_view self.now)) number ≡ Some (state_view result) }
    {
        if number < self.committed() {
            return ClaimState::Done;
        }
        self.claims[self.position(number)].state()
    }

    /// The marking that the claims leave, where the log itself is no longer wanted. It takes no memory.
    pub fn into_unclaimed(self) -> Marking
        ensures { result ≡ (log_view self).unclaimed }
    {
        self.markings.into_unclaimed()
    }

    // The position of the claim of a number among those behind the committed part.
    fn position(&self, number: u64) -> usize
        requires behind { length (log_view self.now).committed ≤ number }
        ensures { result ≡ number - length (log_view self.now).committed }
    {
        number as usize - self.heads.len()
    }

    // Puts outputs in behind the claim at a position among those behind the committed part, ahead of the later ones.
    fn put_behind(&mut self, position: usize, outputs: &Outputs) -> Result<(), Memory>
        requires within { position < length (log_view self.old).claims }
        requires in_range { AllByRecursion IsInRange (log_view self.old).claims }
        requires room { HaveRoomFor (length outputs.now) (log_view self.old).unclaimed }
        ensures run { OnOk result (run_behind (log_view self.new) ≡ filled_run position outputs.now (run_behind (log_view self.old))) }
        ensures claims { (log_view self.new).claims ≡ (log_view self.old).claims }
        ensures jobs { jobs_in self.new ≡ jobs_in self.old }
        ensures committed { (log_view self.new).committed ≡ (log_view self.old).committed }
        ensures settled { (log_view self.new).settled ≡ (log_view self.old).settled }
    {
        let claims = self.claims.make_contiguous();
        put_ahead(&mut claims[position + 1..], &mut self.markings, outputs)?;
        Ok(())
    }

    // Sets what became of the claim at a position among those behind the committed part.
    fn complete(&mut self, position: usize, course: Course)
        requires within { position < length (log_view self.old).claims }
        ensures completed { (log_view self.new).claims ≡ with_status (status_view course) position (log_view self.old).claims }
        ensures jobs { jobs_in self.new ≡ jobs_in self.old }
        ensures committed { (log_view self.new).committed ≡ (log_view self.old).committed }
        ensures settled { (log_view self.new).settled ≡ (log_view self.old).settled }
        ensures picks { (log_view self.new).picks ≡ (log_view self.old).picks }
        ensures unclaimed { (log_view self.new).unclaimed ≡ (log_view self.old).unclaimed }
    {
        let claim = &mut self.claims[position];
        claim.course = course;
    }
}
