//! A run that one seat takes to its end.

ghost use Rattle.std.specs.Prelude.{◌≡◌, ◌≢◌, ℕ, ◌+◌, ◌<◌, ◌≤◌, ◌++◌, Some, None, false, List, [], length, map, slice_get, IfOk, OnOk, vec_len, vec_capacity};
ghost use Rattle.std.specs.List.{count_by};
ghost use Rattle.std.specs.Option.{is_some};
ghost use Rattle.cpn_definitions.specs.Enabled.{ready};
ghost use Rattle.cpn_log.specs.Logs.{claims_made};
ghost use Rattle.cpn_log.specs.LogViews.{log_view};
ghost use Rattle.cpn_monitor.specs.Kept.{MayClose};
ghost use Rattle.cpn_monitor.specs.Views.{measuring_view};
ghost use Rattle.cpn_runs.specs.GivingBack.{IsCutForMemory};
ghost use Rattle.cpn_runs.specs.Playable.{IsPlayable};
ghost use Rattle.cpn_runs.specs.Run.{IsRun};
ghost use Rattle.cpn_runs.specs.State.{PlainEvent, wants_memory};
ghost use Rattle.cpn_runs.specs.Views.{end_view};
ghost use Rattle.cpn_runs.specs.FinishedViews.{setup_view, finished_view};
ghost use Rattle.cpn_book.specs.Bounds.{EndsInBounds};
ghost use Rattle.cpn_book.specs.Books.{setup_in, journal_in, index_in, is_spent_in, shown, InState, IsBook, IsRunning};
ghost use Rattle.cpn_book.specs.Standings.{IsAt, StillCommitted, events_in};
ghost use Rattle.cpn_book.specs.GoingAlone.{AreCompletions, AreRounds, GivesNoneBack, GoesOnAloneTo};
ghost use Rattle.cpn_book.specs.Telling.{TellsOn};
ghost use Rattle.cpn_tmset.specs.ChangedViews.{changes_view};
ghost use Rattle.cpn_book.specs.Steps.{Follows, IsMovedFrom, MayGoOn};

use crate::books::Book;
use crate::claiming::{DrawnClaim, draw_claim};
use crate::completing::complete_claim;
use crate::occurring::play_drawn;
use crate::standings::Standing;
use crate::tickets::Ticket;
use cpn_core::Memory;
use cpn_runs::{End, Finished, Setup};
use cpn_tmset::Changes;
use std::alloc::Global;

impl Book {
    /// The run from where it stands to its end: the open claims are completed in order of number; then seat 0 completes each claim
    /// before it makes the next, and the clock moves where nothing is ready: until the limit of claims is reached, nothing is enabled
    /// at any time, nothing is enabled up to the last time that the run may reach, the outputs of an element have a fault, or a monitor
    /// stops the run. Where a cut stands no further claim is made, and the run ends by the cause of the last cut.
    ///
    /// # Errors
    ///
    /// `Memory` where the book is spent, and where memory is wanted; the book is then gone.
    pub fn run_alone(self) -> Result<Finished, Memory>
        requires kept { IsBook self }
        ensures unspent { OnOk result (is_spent_in self ≡ false) }
        ensures setup { IfOk result (λ f. setup_view f.setup ≡ setup_in self) }
        // The journal leads to a state that ends by the cause, the occurrences are a legal occurrence sequence,
        // a fault is that of an element that is covered at the end, and the rest is what that state has.
        ensures run { IfOk result (λ f. IsRun (setup_in self) (finished_view f)) }
        // It goes on from the book's journal: by the completions of the open claims, in order of number, and then by rounds of seat 0.
        // None of these gives a claim back.
        ensures goes_on { IfOk result (λ f. GoesOnAloneTo (setup_in self) (journal_in self) (finished_view f).journal) }
        // So it ends for want of memory only where a cut for that stood before.
        ensures ends_for_memory { IfOk result (λ f. (finished_view f).cause ≡ wants_memory → InState self (λ state. IsCutForMemory state.cut)) }
        // The clock does not pass the last time that the run may reach; each place has tokens of its colour set, fewer than 2^48, and at
        // most as many more than the start as the occurrences make.
        ensures bounds { IfOk result (λ f. EndsInBounds (setup_in self) (finished_view f)) }
    {
        let mut book = self;
        let cause = book.play_to_end()?;
        Ok(book.ended(cause))
    }

    // Completes the open claims, then plays rounds to the end: the cause for which the run ends.
    fn play_to_end(&mut self) -> Result<End, Memory>
        requires kept { IsBook self.old }
        ensures unspent { OnOk result (is_spent_in self.old ≡ false) }
        ensures setup { OnOk result (setup_in self.new ≡ setup_in self.old) }
        ensures end { IfOk result (λ cause. IsRun (setup_in self.new) (shown self.new (end_view cause))) }
        ensures goes_on { OnOk result (GoesOnAloneTo (setup_in self.old) (journal_in self.old) (journal_in self.new)) }
        ensures closes { OnOk result (MayClose (measuring_view self.new.standing.measuring) self.new.standing.clock) }
    {
        if self.spent {
            return Err(Memory);
        }
        self.complete_open()?;
        for _number in self.standing.log.len()..self.setup.limits.steps {
            if let Some(cause) = self.take_end() {
                return Ok(cause);
            }
            self.play_round()?;
        }
        match self.take_end() {
            Some(cause) => Ok(cause),
            None => unreachable!(),
        }
    }

    // Completes the open claims, in order of number.
    fn complete_open(&mut self) -> Result<(), Memory>
        requires kept { IsBook self.old }
        requires running { IsRunning self.old }
        ensures running { OnOk result (IsRunning self.new) }
        ensures none_open { OnOk result (count_by is_some self.new.standing.held.items ≡ 0) }
        ensures follows { OnOk result (Follows self.old self.new) }
        ensures completions { OnOk result ((more : List PlainEvent) × (journal_in self.new ≡ journal_in self.old ++ more) × ((limit : ℕ) × AreCompletions 0 limit more) × GivesNoneBack (setup_in self.old) (journal_in self.old) more) }
    {
        if self.standing.open() == 0 {
            return Ok(());
        }
        let mut told = Changes::new(self.alloc);
        complete_all(self.alloc, &self.setup, &mut self.standing, &mut told)?;
        self.follow(&told)
    }

    // The next claim and its completion, of seat 0, where no claim is open and the run has no end.
    fn play_round(&mut self) -> Result<(), Memory>
        requires kept { IsBook self.old }
        requires running { IsRunning self.old }
        requires none_open { count_by is_some self.old.standing.held.items ≡ 0 }
        requires goes_on { MayGoOn self.old }
        ensures running { OnOk result (IsRunning self.new) }
        ensures none_open { OnOk result (count_by is_some self.new.standing.held.items ≡ 0) }
        ensures made { OnOk result (self.new.standing.cut ≡ None → claims_made (log_view self.new.standing.log) ≡ claims_made (log_view self.old.standing.log) + 1) }
        ensures follows { OnOk result (Follows self.old self.new) }
        ensures rounds { OnOk result ((more : List PlainEvent) × (journal_in self.new ≡ journal_in self.old ++ more) × AreRounds more × GivesNoneBack (setup_in self.old) (journal_in self.old) more) }
    {
        self.reach_next_time();
        let DrawnClaim { ticket, position } = draw_claim(
            self.alloc,
            &self.setup,
            &self.works,
            &self.index,
            &mut self.standing,
        )?;
        let Ok(done) = ticket.evaluate() else {
            return Err(Memory);
        };
        let mut told = Changes::new(self.alloc);
        play_drawn(
            self.alloc,
            &self.setup,
            &mut self.standing,
            done,
            &self.index.ready(position).needs,
            &mut told,
        )?;
        self.follow(&told)
    }

    // Moves the clock to the next time, unless something is ready.
    fn reach_next_time(&mut self)
        requires kept { IsBook self.old }
        requires running { IsRunning self.old }
        requires none_open { count_by is_some self.old.standing.held.items ≡ 0 }
        requires goes_on { MayGoOn self.old }
        ensures running { IsRunning self.new }
        ensures ready { 0 < length (ready self.new.standing.clock (index_in self.new)) }
        ensures events { (more : List PlainEvent) × (journal_in self.new ≡ journal_in self.old ++ more) × AreRounds more × GivesNoneBack (setup_in self.old) (journal_in self.old) more }
        ensures same { IsMovedFrom self.old self.new }
    {
        if self.ready() > 0 {
            return;
        }
        if let Some(time) = self.index.next_time() {
            self.move_to(time);
        }
    }
}

/// Completes the open claims, in order of number, and adds what is added and put back to what is told.
fn complete_all(
    alloc: Global,
    setup: &Setup,
    standing: &mut Standing,
    told: &mut Changes,
) -> Result<(), Memory>
    requires playable { IsPlayable (setup_view setup.now) }
    requires at { IsAt (setup_view setup.now) standing.old }
    ensures at { OnOk result (IsAt (setup_view setup.now) standing.new) }
    ensures clock { standing.new.clock ≡ standing.old.clock }
    ensures none_open { OnOk result (count_by is_some standing.new.held.items ≡ 0) }
    ensures room { OnOk result (vec_len standing.new.journal < vec_capacity standing.new.journal) }
    ensures completions { OnOk result ((more : List PlainEvent) × (events_in standing.new ≡ events_in standing.old ++ more) × ((limit : ℕ) × AreCompletions 0 limit more) × GivesNoneBack (setup_view setup.now) (events_in standing.old) more) }
    ensures told { OnOk result (TellsOn (changes_view told.old) (changes_view told.new) (log_view standing.old.log).unclaimed (log_view standing.new.log).unclaimed) }
    ensures committed { StillCommitted (setup_view setup.now) standing.old standing.new }
{
    standing.journal.reserve(1)?;
    for number in 0..standing.log.len() {
        complete_number(alloc, setup, standing, number, told)?;
    }
    Ok(())
}

/// Completes the claim of a number, if it is open, and adds what is added and put back to what is told.
fn complete_number(
    alloc: Global,
    setup: &Setup,
    standing: &mut Standing,
    number: u64,
    told: &mut Changes,
) -> Result<(), Memory>
    requires playable { IsPlayable (setup_view setup.now) }
    requires at { IsAt (setup_view setup.now) standing.old }
    requires room { vec_len standing.old.journal < vec_capacity standing.old.journal }
    ensures at { OnOk result (IsAt (setup_view setup.now) standing.new) }
    ensures clock { standing.new.clock ≡ standing.old.clock }
    ensures few { OnOk result (claims_made (log_view standing.new.log) ≤ claims_made (log_view standing.old.log)) }
    ensures frees { OnOk result ((s k : ℕ) → slice_get standing.new.held.items s ≡ Some (Some k) → (slice_get standing.old.held.items s ≡ Some (Some k)) × (k ≢ number)) }
    ensures room { OnOk result (vec_len standing.new.journal < vec_capacity standing.new.journal) }
    ensures completions { OnOk result ((more : List PlainEvent) × (events_in standing.new ≡ events_in standing.old ++ more) × AreCompletions number (number + 1) more × GivesNoneBack (setup_view setup.now) (events_in standing.old) more) }
    ensures told { OnOk result (TellsOn (changes_view told.old) (changes_view told.new) (log_view standing.old.log).unclaimed (log_view standing.new.log).unclaimed) }
    ensures committed { StillCommitted (setup_view setup.now) standing.old standing.new }
{
    let Some(job) = standing.open_job(number) else {
        return Ok(());
    };
    let job = job.clone()?;
    let seat = standing.log.seat(number);
    let Ok(done) = Ticket::new(alloc, number, job).evaluate() else {
        return Err(Memory);
    };
    complete_claim(alloc, setup, standing, seat, done, told)
}
