//! Books: runs under way, by the claims, completions and moves of the clock that their seats ask for, and by the claims that they give back.

ghost use Rattle.std.specs.Prelude.{◌≡◌, ◌≢◌, ◌<◌, ◌≤◌, ◌++◌, Some, None, true, false, List, [], ◌∷◌, length, map, take, slice_get, IfOk, OnOk, OnErr, vec_len, vec_capacity};
ghost use Rattle.std.specs.List.{count_by};
ghost use Rattle.std.specs.Option.{is_some, option_map};
ghost use Rattle.cpn_definitions.specs.Enabled.{next_time, ready};
ghost use Rattle.cpn_jobs.specs.Views.{job_view, work_view};
ghost use Rattle.cpn_log.specs.Logs.{claims_made};
ghost use Rattle.cpn_log.specs.LogViews.{log_view, job_in};
ghost use Rattle.cpn_runs.specs.FinishedViews.{setup_view};
ghost use Rattle.cpn_runs.specs.Playable.{IsPlayable};
ghost use Rattle.cpn_definitions.specs.Legal.{PlainOccurrence};
ghost use Rattle.cpn_runs.specs.State.{claim_made, clock_moved};
ghost use Rattle.cpn_book.specs.Answers.{AnswersClaim, claim_events, MayClaimNext, AnswersEvaluation, IsNotCut, AnswersAdvance, move_events, AnswersFinish};
ghost use Rattle.cpn_book.specs.Books.{setup_in, journal_in, index_in, committed_in, is_spent_in, entered_in, InState, IsBook, IsRunning};
ghost use Rattle.cpn_book.specs.Committing.{AddsCompletion};
ghost use Rattle.cpn_book.specs.Standings.{IsAt};
ghost use Rattle.cpn_book.specs.Steps.{Follows, IsMovedFrom, IsSpentFrom, Moves};
ghost use Rattle.cpn_book.specs.Works.{AreWorks};
ghost use Rattle.cpn_book.specs.Tickets.{number_of, job_of, evaluated_number, evaluated_job};
ghost use Rattle.cpn_book.specs.declared.standings.Cut.{Cut};
ghost use Rattle.cpn_index.specs.Index.{clock_in, IsIndexOf, MayFollow};
ghost use Rattle.cpn_tmset.specs.ChangedViews.{changes_view};

use crate::answers::{Advanced, Claimed, Completed, Finish};
use crate::claiming::open_claim;
use crate::completing::complete_claim;
use crate::following::follow_told;
use crate::outlooks::outlook;
use crate::standings::{Standing, at_start};
use crate::tickets::{Evaluated, Ticket};
use cpn_core::Memory;
use cpn_index::Index;
use cpn_jobs::{Work, works_of};
use cpn_runs::{Event, Outlook, Setup};
use cpn_tmset::Changes;
use std::alloc::Global;
use std::sync::Arc;

/// A run under way, of 1 to 64 seats.
///
/// A seat claims a ready element, and may hold one open claim: it is open until its evaluation completes it, the seat gives it back, or a
/// cut removes it. Several seats may hold claims at the same time and complete them in any order. A call that wants memory makes the book
/// spent: its journal is the one from before that call, what was committed stands, and each later call that may take memory wants memory
/// too.
///
/// Source: own choice. Each call is made on a book that `start` gave and that other calls changed (`IsBook`); a clause speaks of the
/// state that the book's journal leads to (`InState`), which is that of the definitions.
#[derive(Drop)]
pub struct Book {
    pub(crate) alloc: Global,
    pub(crate) setup: Setup,
    pub(crate) works: Vec<Arc<Work>>,
    pub(crate) standing: Standing,
    pub(crate) opening: Outlook,
    pub(crate) index: Index,
    pub(crate) spent: bool,
    pub(crate) entered: u32,
}

/// The works of a net, and the index and the standing at the start of a run.
fn parts_at_start(alloc: Global, setup: &Setup) -> Result<(Vec<Arc<Work>>, Index, Standing), Memory>
    requires playable { IsPlayable (setup_view setup.now) }
    ensures works { IfOk result (λ parts. AreWorks (setup_view setup.now).net (map (λ work. work_view work.value) parts.0.items)) }
    ensures index { IfOk result (λ parts. IsIndexOf (setup_view setup.now).net setup.now.start parts.1) }
    ensures at_clock { IfOk result (λ parts. clock_in parts.1 ≡ setup.now.clock) }
    ensures starts { IfOk result (λ parts. IsAt (setup_view setup.now) parts.2) }
    ensures journal { IfOk result (λ parts. parts.2.journal.items ≡ []) }
    ensures clock { IfOk result (λ parts. parts.2.clock ≡ setup.now.clock) }
    ensures marking { IfOk result (λ parts. (log_view parts.2.log).unclaimed ≡ setup.now.start) }
    ensures room { IfOk result (λ parts. vec_len parts.2.journal < vec_capacity parts.2.journal) }
{
    let works = works_of(alloc, &setup.net)?;
    let index = Index::build(alloc, &setup.net, &setup.start, setup.clock)?;
    let standing = at_start(alloc, setup)?;
    Ok((works, index, standing))
}

impl Book {
    /// A book at the start of its run, with no event.
    ///
    /// # Errors
    ///
    /// `Memory` where memory is wanted.
    pub fn start(alloc: Global, setup: Setup) -> Result<Book, Memory>
        requires playable { IsPlayable (setup_view setup) }
        ensures kept { IfOk result (λ book. IsBook book) }
        ensures setup { IfOk result (λ book. setup_in book ≡ setup_view setup) }
        ensures journal { IfOk result (λ book. journal_in book ≡ []) }
        ensures unspent { IfOk result (λ book. is_spent_in book ≡ false) }
        ensures entered { IfOk result (λ book. entered_in book ≡ 0) }
    {
        let (works, index, standing) = parts_at_start(alloc, &setup)?;
        let opening = outlook(&index);
        Ok(Book {
            alloc,
            setup,
            works,
            standing,
            opening,
            index,
            spent: false,
            entered: 0,
        })
    }

    /// The next claim, of a seat below the number of seats: on the element that the seed's next word draws from the ready ones.
    ///
    /// # Errors
    ///
    /// `Memory` where the book is spent; else only where a ticket is due, and the book is then spent.
    pub fn claim(&mut self, seat: u32) -> Result<Claimed, Memory>
        requires kept { IsBook self.old }
        requires known { seat < (setup_in self.old).limits.seats }
        ensures kept { IsBook self.new }
        ensures setup { setup_in self.new ≡ setup_in self.old }
        ensures entered { entered_in self.new ≡ entered_in self.old }
        ensures answer { IfOk result (λ answer. InState self.old (λ state. AnswersClaim (setup_in self.old) state seat answer)) }
        ensures events { IfOk result (λ answer. journal_in self.new ≡ journal_in self.old ++ claim_events seat answer) }
        ensures unspent { OnOk result (is_spent_in self.old ≡ false) }
        ensures unspent_still { OnOk result (is_spent_in self.new ≡ false) }
        ensures unchanged { IfOk result (λ answer. claim_events seat answer ≡ [] → self.new ≡ self.old) }
        ensures due { OnErr result (is_spent_in self.old ≡ false → InState self.old (λ state. MayClaimNext (setup_in self.old) state seat)) }
        ensures spent { OnErr result (is_spent_in self.new ≡ true) }
        ensures spent_same { is_spent_in self.old ≡ true → self.new ≡ self.old }
        ensures index_gone { OnErr result (is_spent_in self.old ≡ false → index_in self.new ≡ []) }
        ensures events_stay { OnErr result (journal_in self.new ≡ journal_in self.old) }
        ensures committed { committed_in self.new ≡ committed_in self.old }
    {
        if self.spent {
            return Err(Memory);
        }
        if self.standing.cut.is_some() {
            return Ok(Claimed::Over);
        }
        if self.standing.log.len() == self.setup.limits.steps {
            return Ok(Claimed::StepLimit);
        }
        if let Some(number) = self.standing.held_by(seat) {
            return Ok(Claimed::Busy { number });
        }
        if self.ready() == 0 {
            let held = self.standing.open();
            return Ok(Claimed::Nothing { held });
        }
        let events = self.standing.journal.len();
        match self.claim_ready(seat) {
            Ok(ticket) => Ok(Claimed::Ticket(ticket)),
            Err(Memory) => {
                self.spend(events);
                Err(Memory)
            }
        }
    }

    /// Completes the claim that a seat holds, by its evaluation.
    ///
    /// # Errors
    ///
    /// `Memory` where the book is spent; else only where no cut stands at or below the claim's number, and the book is then spent.
    pub fn complete(&mut self, seat: u32, done: Evaluated) -> Result<Completed, Memory>
        requires kept { IsBook self.old }
        ensures kept { IsBook self.new }
        ensures setup { setup_in self.new ≡ setup_in self.old }
        ensures entered { entered_in self.new ≡ entered_in self.old }
        ensures answer { IfOk result (λ answer. AnswersEvaluation self.old self.new seat done answer) }
        ensures unspent { OnOk result (is_spent_in self.old ≡ false) }
        ensures unspent_still { OnOk result (is_spent_in self.new ≡ false) }
        ensures unchanged { IfOk result (λ answer. answer ≢ Completed.Done → self.new ≡ self.old) }
        ensures not_void { OnErr result (is_spent_in self.old ≡ false → InState self.old (λ state. IsNotCut state (evaluated_number done))) }
        ensures spent { OnErr result (is_spent_in self.new ≡ true) }
        ensures spent_same { is_spent_in self.old ≡ true → self.new ≡ self.old }
        ensures index_gone { OnErr result (is_spent_in self.old ≡ false → index_in self.new ≡ []) }
        ensures events_stay { OnErr result (journal_in self.new ≡ journal_in self.old) }
        ensures committed { (more : List PlainOccurrence) × (committed_in self.new ≡ committed_in self.old ++ more) }
    {
        if self.spent {
            return Err(Memory);
        }
        if let Some(number) = self.standing.cut_below(done.number) {
            return Ok(Completed::Void { number });
        }
        let events = self.standing.journal.len();
        match self.complete_uncut(seat, done) {
            Ok(answer) => Ok(answer),
            Err(Memory) => {
                self.spend(events);
                Err(Memory)
            }
        }
    }

    /// Moves the clock, where nothing is ready and no claim is open, to the least time at which an element is enabled. It takes no
    /// memory.
    pub fn advance(&mut self) -> Advanced
        requires kept { IsBook self.old }
        ensures kept { IsBook self.new }
        ensures setup { setup_in self.new ≡ setup_in self.old }
        ensures entered { entered_in self.new ≡ entered_in self.old }
        ensures answer { is_spent_in self.old ≡ false → InState self.old (λ state. AnswersAdvance (setup_in self.old) state result) }
        ensures events { journal_in self.new ≡ journal_in self.old ++ move_events result }
        ensures unchanged { move_events result ≡ [] → self.new ≡ self.old }
        ensures spent { is_spent_in self.old ≡ true → result ≡ Advanced.Spent }
        ensures spent_still { is_spent_in self.new ≡ is_spent_in self.old }
    {
        if self.spent {
            return Advanced::Spent;
        }
        if self.standing.cut.is_some() {
            return Advanced::Over;
        }
        if self.standing.log.len() == self.setup.limits.steps {
            return Advanced::StepLimit;
        }
        if self.ready() > 0 {
            return Advanced::Ready;
        }
        let open = self.standing.open();
        if open > 0 {
            return Advanced::Open(open);
        }
        self.move_clock()
    }

    /// What the run shows, where it has ended. It takes no memory.
    pub fn finish(self) -> Finish
        requires kept { IsBook self }
        ensures answer { AnswersFinish self result }
    {
        if self.spent {
            return Finish::Spent;
        }
        if self.standing.open() > 0 {
            return Finish::Running(self);
        }
        let mut book = self;
        match book.take_end() {
            Some(cause) => Finish::Ended(book.ended(cause)),
            None => Finish::Running(book),
        }
    }

    // The claim of a seat that holds none, where something is ready.
    fn claim_ready(&mut self, seat: u32) -> Result<Ticket, Memory>
        requires kept { IsBook self.old }
        requires running { IsRunning self.old }
        requires known { seat < (setup_in self.old).limits.seats }
        requires uncut { self.old.standing.cut ≡ None }
        requires below { claims_made (log_view self.old.standing.log) < self.old.setup.limits.steps }
        requires free { slice_get self.old.standing.held.items seat ≡ Some None }
        requires some { 0 < length (ready self.old.standing.clock (index_in self.old)) }
        ensures running { OnOk result (IsRunning self.new) }
        ensures events { IfOk result (λ ticket. journal_in self.new ≡ journal_in self.old ++ claim_made seat (number_of ticket) ∷ []) }
        ensures number { IfOk result (λ ticket. number_of ticket ≡ claims_made (log_view self.old.standing.log)) }
        ensures job { IfOk result (λ ticket. option_map job_view (job_in self.new.standing.log (number_of ticket)) ≡ Some (job_of ticket)) }
        ensures follows { Follows self.old self.new }
        ensures committed { committed_in self.new ≡ committed_in self.old }
    {
        let mut told = Changes::new(self.alloc);
        let ticket = open_claim(
            self.alloc,
            &self.setup,
            &self.works,
            &self.index,
            &mut self.standing,
            seat,
            &mut told,
        )?;
        self.follow(&told)?;
        Ok(ticket)
    }

    // The answer to an evaluation, where no cut stands at or below its number.
    fn complete_uncut(&mut self, seat: u32, done: Evaluated) -> Result<Completed, Memory>
        requires kept { IsBook self.old }
        requires running { IsRunning self.old }
        requires uncut { (cut : Cut) → self.old.standing.cut ≡ Some cut → evaluated_number done < cut.number }
        ensures answer { IfOk result (λ answer. AnswersEvaluation self.old self.new seat done answer) }
        ensures unchanged { IfOk result (λ answer. answer ≢ Completed.Done → self.new ≡ self.old) }
        ensures running { OnOk result (IsRunning self.new) }
        ensures follows { Follows self.old self.new }
    {
        if self.standing.is_held(seat, done.number, &done.job) {
            return self.complete_held(seat, done);
        }
        let kept = self.standing.share_open_job(done.number)?;
        Ok(Completed::Stranger {
            kept,
            brought: done,
        })
    }

    // The completion of the claim that a seat holds.
    fn complete_held(&mut self, seat: u32, done: Evaluated) -> Result<Completed, Memory>
        requires kept { IsBook self.old }
        requires running { IsRunning self.old }
        requires held { slice_get self.old.standing.held.items seat ≡ Some (Some (evaluated_number done)) }
        requires job { option_map job_view (job_in self.old.standing.log (evaluated_number done)) ≡ Some (evaluated_job done) }
        ensures done { IfOk result (λ answer. answer ≡ Completed.Done) }
        ensures running { OnOk result (IsRunning self.new) }
        ensures events { OnOk result (AddsCompletion (setup_in self.old) seat (evaluated_number done) self.old.standing self.new.standing) }
        ensures follows { Follows self.old self.new }
    {
        let mut told = Changes::new(self.alloc);
        complete_claim(
            self.alloc,
            &self.setup,
            &mut self.standing,
            seat,
            done,
            &mut told,
        )?;
        self.follow(&told)?;
        Ok(Completed::Done)
    }

    // The move of the clock, where nothing is ready and no claim is open.
    fn move_clock(&mut self) -> Advanced
        requires kept { IsBook self.old }
        requires running { IsRunning self.old }
        requires none_ready { length (ready self.old.standing.clock (index_in self.old)) ≡ 0 }
        requires none_open { count_by is_some self.old.standing.held.items ≡ 0 }
        requires uncut { self.old.standing.cut ≡ None }
        requires below { claims_made (log_view self.old.standing.log) < self.old.setup.limits.steps }
        ensures moves { Moves self.old self.new result }
    {
        let Some(time) = self.index.next_time() else {
            return Advanced::Dead;
        };
        if self.setup.limits.until < time {
            return Advanced::Until(time);
        }
        self.move_to(time);
        Advanced::Moved(time)
    }

    /// Moves the clock to the next time, where nothing is ready and no claim is open.
    pub(crate) fn move_to(&mut self, time: u64)
        requires kept { IsBook self.old }
        requires running { IsRunning self.old }
        requires none_ready { length (ready self.old.standing.clock (index_in self.old)) ≡ 0 }
        requires none_open { count_by is_some self.old.standing.held.items ≡ 0 }
        requires uncut { self.old.standing.cut ≡ None }
        requires below { claims_made (log_view self.old.standing.log) < self.old.setup.limits.steps }
        requires next { next_time (index_in self.old) ≡ Some time }
        requires in_time { time ≤ self.old.setup.limits.until }
        ensures running { IsRunning self.new }
        ensures events { journal_in self.new ≡ journal_in self.old ++ clock_moved time ∷ [] }
        ensures ready { 0 < length (ready self.new.standing.clock (index_in self.new)) }
        ensures same { IsMovedFrom self.old self.new }
    {
        self.standing.journal.push_reserved(Event::Move { time });
        self.standing.clock = time;
        self.index.advance_to(time);
    }

    /// How many elements are ready.
    pub(crate) fn ready(&self) -> u64
        requires clock { clock_in self.now.index ≡ self.now.standing.clock }
        ensures { result ≡ length (ready self.now.standing.clock (index_in self.now)) }
    {
        self.index.ready_len()
    }

    /// The index follows the unclaimed marking: what changed there since is told.
    pub(crate) fn follow(&mut self, told: &Changes) -> Result<(), Memory>
        requires playable { IsPlayable (setup_in self.old) }
        requires at { IsAt (setup_in self.old) self.old.standing }
        requires follows { MayFollow (setup_in self.old).net (log_view self.old.standing.log).unclaimed (changes_view told.now) self.old.index }
        requires clock { clock_in self.old.index ≡ self.old.standing.clock }
        requires room { vec_len self.old.standing.journal < vec_capacity self.old.standing.journal }
        ensures running { OnOk result (IsRunning self.new) }
        ensures standing { self.new.standing ≡ self.old.standing }
        ensures same { self.new ≡ record self.old { index = self.new.index } }
    {
        follow_told(
            &mut self.index,
            &self.setup.net,
            self.standing.log.unclaimed(),
            told,
        )
    }

    /// The book is spent: its journal is the one of so many events that it was, and its index keeps nothing.
    pub(crate) fn spend(&mut self, events: usize)
        ensures spent { is_spent_in self.new ≡ true }
        ensures index_gone { index_in self.new ≡ [] }
        ensures events { self.new.standing.journal.items ≡ take events self.old.standing.journal.items }
        ensures same { IsSpentFrom self.old self.new }
    {
        self.standing.journal.truncate(events);
        self.index.clear();
        self.spent = true;
    }
}
