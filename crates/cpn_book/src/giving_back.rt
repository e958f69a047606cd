//! How a seat gives back the claim that it holds, where memory for its outputs is wanted.

ghost use Rattle.std.specs.Prelude.{◌≡◌, ◌≢◌, ℕ, ◌<◌, Some, true, false, [], ◌∷◌, ◌++◌, slice_get, IfOk, OnOk, OnErr};
ghost use Rattle.cpn_runs.specs.State.{cut_made};
ghost use Rattle.cpn_book.specs.Answers.{AnswersTicket, IsNotCut};
ghost use Rattle.cpn_book.specs.Books.{setup_in, journal_in, index_in, committed_in, is_spent_in, entered_in, InState, IsBook, IsRunning};
ghost use Rattle.cpn_book.specs.Steps.{Follows};
ghost use Rattle.cpn_book.specs.Tickets.{number_of};
ghost use Rattle.cpn_book.specs.declared.standings.Cut.{Cut};

use crate::answers::GivenBack;
use crate::books::Book;
use crate::cutting::cut_for_memory;
use crate::tickets::Ticket;
use cpn_core::Memory;
use cpn_tmset::Changes;

impl Book {
    /// Gives back the claim that a seat holds, for want of memory: the claim and all after it are removed. Claims before it may still be
    /// open, and are then completed or given back. The run makes no further claim, and ends by the cause of its last cut.
    ///
    /// # Errors
    ///
    /// `Memory` where the book is spent; else only where no cut stands at or below the claim's number, and the book is then spent.
    pub fn give_back(&mut self, seat: u32, ticket: Ticket) -> Result<GivenBack, Memory>
        requires kept { IsBook self.old }
        ensures kept { IsBook self.new }
        ensures setup { setup_in self.new ≡ setup_in self.old }
        ensures entered { entered_in self.new ≡ entered_in self.old }
        ensures answer { IfOk result (λ answer. AnswersTicket self.old self.new seat ticket answer) }
        ensures unspent { OnOk result (is_spent_in self.old ≡ false) }
        ensures unspent_still { OnOk result (is_spent_in self.new ≡ false) }
        ensures unchanged { IfOk result (λ answer. answer ≢ GivenBack.Cut → self.new ≡ self.old) }
        ensures not_void { OnErr result (is_spent_in self.old ≡ false → InState self.old (λ state. IsNotCut state (number_of ticket))) }
        ensures spent { OnErr result (is_spent_in self.new ≡ true) }
        ensures spent_same { is_spent_in self.old ≡ true → self.new ≡ self.old }
        ensures index_gone { OnErr result (is_spent_in self.old ≡ false → index_in self.new ≡ []) }
        ensures events_stay { OnErr result (journal_in self.new ≡ journal_in self.old) }
        ensures committed { committed_in self.new ≡ committed_in self.old }
    {
        if self.spent {
            return Err(Memory);
        }
        if let Some(number) = self.standing.cut_below(ticket.number()) {
            return Ok(GivenBack::Void { number });
        }
        let events = self.standing.journal.len();
        match self.give_back_uncut(seat, ticket) {
            Ok(answer) => Ok(answer),
            Err(Memory) => {
                self.spend(events);
                Err(Memory)
            }
        }
    }

    // The answer to a ticket, where no cut stands at or below its number.
    fn give_back_uncut(&mut self, seat: u32, ticket: Ticket) -> Result<GivenBack, Memory>
        requires kept { IsBook self.old }
        requires running { IsRunning self.old }
        requires uncut { (cut : Cut) → self.old.standing.cut ≡ Some cut → number_of ticket < cut.number }
        ensures answer { IfOk result (λ answer. AnswersTicket self.old self.new seat ticket answer) }
        ensures unchanged { IfOk result (λ answer. answer ≢ GivenBack.Cut → self.new ≡ self.old) }
        ensures running { OnOk result (IsRunning self.new) }
        ensures follows { Follows self.old self.new }
        ensures committed { committed_in self.new ≡ committed_in self.old }
    {
        let number = ticket.number();
        if self.standing.is_held(seat, number, ticket.job()) {
            self.give_back_held(number)?;
            return Ok(GivenBack::Cut);
        }
        let kept = self.standing.share_open_job(number)?;
        Ok(GivenBack::Stranger {
            kept,
            brought: ticket,
        })
    }

    // The cut at the number of a claim that a seat holds.
    fn give_back_held(&mut self, number: u64) -> Result<(), Memory>
        requires kept { IsBook self.old }
        requires running { IsRunning self.old }
        requires held { (seat : ℕ) × (slice_get self.old.standing.held.items seat ≡ Some (Some number)) }
        ensures running { OnOk result (IsRunning self.new) }
        ensures events { OnOk result (journal_in self.new ≡ journal_in self.old ++ cut_made number ∷ []) }
        ensures follows { Follows self.old self.new }
        ensures committed { committed_in self.new ≡ committed_in self.old }
    {
        let mut told = Changes::new(self.alloc);
        cut_for_memory(&mut self.standing, number, &mut told)?;
        self.follow(&told)
    }
}
