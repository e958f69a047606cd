//! Where a run stands.

ghost use Rattle.std.specs.Prelude.{◌≡◌, ℕ, replicate, ◌<◌, ◌≤◌, [], Some, None, true, false, IfOk, MatchOption, length, map, slice_get, vec_len, vec_capacity};
ghost use Rattle.std.specs.List.{count_by};
ghost use Rattle.std.specs.Option.{is_some, option_map};
ghost use Rattle.cpn_jobs.specs.Views.{job_view};
ghost use Rattle.cpn_log.specs.Logs.{claims_made, standings, stands_open};
ghost use Rattle.cpn_log.specs.LogViews.{log_view, job_in};
ghost use Rattle.cpn_runs.specs.FinishedViews.{setup_view};
ghost use Rattle.cpn_runs.specs.Playable.{IsPlayable};
ghost use Rattle.cpn_book.specs.Standings.{IsAt};

use cpn_core::{Memory, Occurrence};
use cpn_draw::Draw;
use cpn_jobs::Job;
use cpn_log::{ClaimState, Log};
use cpn_monitor::Measuring;
use cpn_runs::{End, Event, Setup};
use std::alloc::Global;
use std::sync::Arc;

/// A cut: the number from which on claims were removed, and the cause.
#[derive(Drop)]
pub(crate) struct Cut {
    pub(crate) number: u64,
    pub(crate) cause: End,
}

/// Where a run stands after its journal.
#[derive(Drop)]
pub(crate) struct Standing {
    /// The clock.
    pub(crate) clock: u64,
    /// The claims, with the markings that they leave.
    pub(crate) log: Log,
    /// The events so far.
    pub(crate) journal: Vec<Event>,
    /// The occurrences of the committed claims.
    pub(crate) occurrences: Vec<Occurrence>,
    /// What the monitors have measured of these.
    pub(crate) measuring: Measuring,
    /// The words of the claims that are to come.
    pub(crate) draw: Draw,
    /// Of each seat the number of its open claim, where it has one.
    pub(crate) held: Vec<Option<u64>>,
    /// The cut that stands, if one does.
    pub(crate) cut: Option<Cut>,
}

/// Where a run stands at its start. The journal has room for an event.
pub(crate) fn at_start(alloc: Global, setup: &Setup) -> Result<Standing, Memory>
    requires playable { IsPlayable (setup_view setup.now) }
    ensures starts { IfOk result (λ s. IsAt (setup_view setup.now) s) }
    ensures journal { IfOk result (λ s. s.journal.items ≡ []) }
    ensures clock { IfOk result (λ s. s.clock ≡ setup.now.clock) }
    ensures marking { IfOk result (λ s. (log_view s.log).unclaimed ≡ setup.now.start) }
    ensures room { IfOk result (λ s. vec_len s.journal < vec_capacity s.journal) }
{
    let journal = Vec::with_capacity(alloc, 1)?;
    let held = none_held(alloc, setup.limits.seats)?;
    let measuring = setup
        .monitors
        .start(alloc, &setup.net, &setup.start, setup.clock)?;
    let log = Log::start(alloc, setup.start.copy()?)?;
    Ok(Standing {
        clock: setup.clock,
        log,
        journal,
        occurrences: Vec::new(alloc),
        measuring,
        draw: Draw::new(setup.seed),
        held,
        cut: None,
    })
}

/// That no seat holds a claim.
fn none_held(alloc: Global, seats: u32) -> Result<Vec<Option<u64>>, Memory>
    ensures none { IfOk result (λ held. held.items ≡ replicate seats None) }
{
    Ok(vec![in alloc; None; seats as usize]?)
}

impl Standing {
    /// How many claims are open.
    pub(crate) fn open(&self) -> u64
        ensures count { result ≡ count_by is_some self.now.held.items }
    {
        let mut count = 0u64;
        for number in &self.held {
            if number.is_some() {
                count += 1;
            }
        }
        count
    }

    /// The number of the cut that stands at or below a number, if one does.
    pub(crate) fn cut_below(&self, number: u64) -> Option<u64>
        ensures below { MatchOption result ((cut : Cut) → self.now.cut ≡ Some cut → number < cut.number) (λ k. (cut : Cut) × (self.now.cut ≡ Some cut) × (k ≡ cut.number) × (k ≤ number)) }
    {
        let cut = self.cut.as_ref()?;
        if cut.number <= number {
            Some(cut.number)
        } else {
            None
        }
    }

    /// The number of the claim that a seat holds; `None` where it holds none, and where there is no such seat.
    pub(crate) fn held_by(&self, seat: u32) -> Option<u64>
        ensures held { MatchOption result ((number : ℕ) → slice_get self.now.held.items seat ≡ Some (Some number) → ⊥) (λ number. slice_get self.now.held.items seat ≡ Some (Some number)) }
    {
        *self.held.get(seat as usize)?
    }

    /// Whether a seat holds the claim of a number and job.
    pub(crate) fn is_held(&self, seat: u32, number: u64, job: &Job) -> bool
        requires behind { (s k : ℕ) → slice_get self.now.held.items s ≡ Some (Some k) → length (log_view self.now.log).committed ≤ k }
        requires within { (s k : ℕ) → slice_get self.now.held.items s ≡ Some (Some k) → k < claims_made (log_view self.now.log) }
        ensures held { result ≡ true → slice_get self.now.held.items seat ≡ Some (Some number) }
        ensures job { result ≡ true → option_map job_view (job_in self.now.log number) ≡ Some (job_view job.now) }
        ensures not_held { result ≡ false → slice_get self.now.held.items seat ≡ Some (Some number) → option_map job_view (job_in self.now.log number) ≡ Some (job_view job.now) → ⊥ }
    {
        match self.held_by(seat) {
            Some(held) => held == number && **self.log.job(held) == *job,
            None => false,
        }
    }

    /// The job of the open claim of a number, if there is one.
    pub(crate) fn open_job(&self, number: u64) -> Option<&Arc<Job>>
        ensures job { MatchOption result (slice_get (standings (log_view self.now.log)) number ≡ Some stands_open → ⊥) (λ job. (slice_get (standings (log_view self.now.log)) number ≡ Some stands_open) × (job_in self.now.log number ≡ Some job.now.value)) }
    {
        if self.log.len() <= number {
            return None;
        }
        let ClaimState::Open = self.log.state(number) else {
            return None;
        };
        Some(self.log.job(number))
    }

    /// One owner more of the job of the open claim of a number, if there is one.
    pub(crate) fn share_open_job(&self, number: u64) -> Result<Option<Arc<Job>>, Memory>
        ensures job { IfOk result (λ kept. MatchOption kept (slice_get (standings (log_view self.now.log)) number ≡ Some stands_open → ⊥) (λ job. (slice_get (standings (log_view self.now.log)) number ≡ Some stands_open) × (job_in self.now.log number ≡ Some job.value))) }
    {
        match self.open_job(number) {
            Some(job) => Ok(Some(job.clone()?)),
            None => Ok(None),
        }
    }
}
