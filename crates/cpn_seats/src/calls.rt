//! What a seat does in a turn of its own, by its token and the number that it acts under.

ghost use Rattle.std.specs.Prelude.{◌≡◌, ◌<◌, ◌≤◌, ◌∷◌, [], None, Some, IfOk, IfErr, OnErr};
ghost use Rattle.cpn_book.specs.Books.{IsBook};
ghost use Rattle.cpn_book.specs.Tickets.{number_of, job_of, evaluated_number, evaluated_job};
ghost use Rattle.cpn_book.specs.declared.books.Book.{Book};
ghost use Rattle.cpn_book.specs.Seen.{Seen, IfSeen, SeesCall, ClaimsAt, CompletesAt, GivesBackAt, AdvancesAt, WantsMemoryAt};
ghost use Rattle.cpn_seats.specs.HeldClaims.{IsHeld, IsNoStranger, IsNoStrangersTicket};
ghost use Rattle.cpn_seats.specs.SeenViews.{seen_by};
ghost use Rattle.cpn_seats.specs.Splits.{IsTokenSplitOff};
ghost use Rattle.cpn_seats.specs.Turns.{IsAtRest};

use crate::notes::{News, Notes};
use crate::seats::SeatDesk;
use crate::steps::LastNumber;
use crate::views::Token;
use cpn_book::{Advanced, Book, Claimed, Completed, Evaluated, GivenBack, Ticket};
use cpn_core::Memory;
use std::sync::Wait;

// How many events the journal of a book has, 0 where the book is spent.
pub(crate) fn len_of(book: &Book) -> usize {
    if book.is_spent() {
        return 0;
    }
    book.journal().len()
}

// Whether a cut stands in a book, or it is spent.
fn is_over(book: &Book) -> bool
    requires kept { IsBook book.now }
{
    book.is_spent() || book.is_cut()
}

// Whether the answer to a claim says that there is no more work for a seat that holds no claim.
fn is_end(claimed: &Claimed) -> bool {
    match claimed {
        Claimed::Ticket(_) | Claimed::Nothing { held: _ } => false,
        Claimed::Busy { number: _ } | Claimed::StepLimit | Claimed::Over => true,
    }
}

// The same of a claim that may want memory.
fn ends_claims(answer: &Result<Claimed, Memory>) -> bool {
    match answer {
        Ok(claimed) => is_end(claimed),
        Err(_) => true,
    }
}

// The same of a move of the clock.
fn ends_moves(answer: &Advanced) -> bool {
    !matches!(
        answer,
        Advanced::Moved(_) | Advanced::Ready | Advanced::Open(_)
    )
}

// Whether more is ready in a book than one seat can claim.
fn has_surplus(book: &Book) -> bool
    requires kept { IsBook book.now }
{
    !book.is_spent() && 1 < book.ready_len()
}

impl SeatDesk {
    // Takes what lies in the slot that the seat holds.
    pub(crate) fn take(&self, token: &mut Token) -> Book
        requires own { token.old.table_id ≡ self.now.table.shared.table_id }
        requires held { (x : Book) × (token.old.me.1 ≡ (0, Some x) ∷ []) }
        ensures own { token.new.table_id ≡ token.old.table_id }
        ensures taken { token.old.me.1 ≡ (0, Some result) ∷ [] }
        ensures empty { token.new.me ≡ (token.old.me.0, (0, None) ∷ []) }
    {
        match self.table.shared.exchange(token, 0, None) {
            Some(book) => book,
            None => unreachable!(),
        }
    }

    // Puts it back.
    pub(crate) fn put(&self, token: &mut Token, book: Book)
        requires own { token.old.table_id ≡ self.now.table.shared.table_id }
        requires empty { token.old.me.1 ≡ (0, None) ∷ [] }
        ensures own { token.new.table_id ≡ token.old.table_id }
        ensures full { token.new.me ≡ (token.old.me.0, (0, Some book) ∷ []) }
    {
        match self.table.shared.exchange(token, 0, Some(book)) {
            None => {}
            Some(_book) => unreachable!(),
        }
    }

    // The book's claim.
    pub(crate) fn claim_as<R: Wait>(
        &self,
        rt: &R,
        token: &mut Token,
        number: u32,
        notes: &mut Notes,
    ) -> Result<Claimed, Memory>
        requires own { token.old.table_id ≡ self.now.table.shared.table_id }
        requires at_rest { IsAtRest token.old.me number }
        ensures own { token.new.table_id ≡ token.old.table_id }
        ensures at_rest { IsAtRest token.new.me number }
        ensures numbers { token.new.me.0.numbers ≡ token.old.me.0.numbers }
        ensures more_given { token.old.me.0.given ≤ token.new.me.0.given }
        ensures answer { IfOk result (λ answer. IfSeen (seen_by token.old.me.0) (seen_by token.new.me.0) (ClaimsAt token.old.me.0.numbers number answer)) }
        ensures none { OnErr result (IfSeen (seen_by token.old.me.0) (seen_by token.new.me.0) (WantsMemoryAt token.old.me.0.numbers)) }
    {
        let turn = self.take_turn(rt, token);
        let mut book = self.take(token);
        let answer = book.claim(number);
        notes.claimed(turn, &answer);
        notes.journal_len = len_of(&book);
        self.put(token, book);
        self.serve(token, number);
        let news = News {
            grown: false,
            surplus: false,
            ended: ends_claims(&answer),
        };
        self.leave(rt, token, notes, news);
        answer
    }

    // The book's completion. It tells those that rest.
    pub(crate) fn complete_as<R: Wait>(
        &self,
        rt: &R,
        token: &mut Token,
        number: u32,
        notes: &mut Notes,
        done: Evaluated,
    ) -> Result<Completed, Memory>
        requires own { token.old.table_id ≡ self.now.table.shared.table_id }
        requires at_rest { IsAtRest token.old.me number }
        ensures own { token.new.table_id ≡ token.old.table_id }
        ensures at_rest { IsAtRest token.new.me number }
        ensures numbers { token.new.me.0.numbers ≡ token.old.me.0.numbers }
        ensures more_given { token.old.me.0.given ≤ token.new.me.0.given }
        ensures answer { IfOk result (λ answer. IfSeen (seen_by token.old.me.0) (seen_by token.new.me.0) (CompletesAt token.old.me.0.numbers number done answer)) }
        ensures none { OnErr result (IfSeen (seen_by token.old.me.0) (seen_by token.new.me.0) (WantsMemoryAt token.old.me.0.numbers)) }
        ensures held { IfOk result (λ answer. (seen : Seen) → seen_by token.old.me.0 ≡ Some seen → IsHeld seen number (evaluated_number done) (evaluated_job done) → IsNoStranger answer) }
    {
        let turn = self.take_turn(rt, token);
        notes.evaluated(turn);
        let mut book = self.take(token);
        let answer = book.complete(number, done);
        let news = News {
            grown: true,
            surplus: has_surplus(&book),
            ended: false,
        };
        notes.journal_len = len_of(&book);
        self.put(token, book);
        self.serve(token, number);
        self.leave(rt, token, notes, news);
        answer
    }

    // A claim is given back to the book. It tells those that rest.
    pub(crate) fn give_back_as<R: Wait>(
        &self,
        rt: &R,
        token: &mut Token,
        number: u32,
        notes: &mut Notes,
        ticket: Ticket,
    ) -> Result<GivenBack, Memory>
        requires own { token.old.table_id ≡ self.now.table.shared.table_id }
        requires at_rest { IsAtRest token.old.me number }
        ensures own { token.new.table_id ≡ token.old.table_id }
        ensures at_rest { IsAtRest token.new.me number }
        ensures numbers { token.new.me.0.numbers ≡ token.old.me.0.numbers }
        ensures more_given { token.old.me.0.given ≤ token.new.me.0.given }
        ensures answer { IfOk result (λ answer. IfSeen (seen_by token.old.me.0) (seen_by token.new.me.0) (GivesBackAt token.old.me.0.numbers number ticket answer)) }
        ensures none { OnErr result (IfSeen (seen_by token.old.me.0) (seen_by token.new.me.0) (WantsMemoryAt token.old.me.0.numbers)) }
        ensures held { IfOk result (λ answer. (seen : Seen) → seen_by token.old.me.0 ≡ Some seen → IsHeld seen number (number_of ticket) (job_of ticket) → IsNoStrangersTicket answer) }
    {
        let turn = self.take_turn(rt, token);
        notes.evaluated(turn);
        let mut book = self.take(token);
        let answer = book.give_back(number, ticket);
        let news = News {
            grown: true,
            surplus: has_surplus(&book),
            ended: false,
        };
        notes.journal_len = len_of(&book);
        self.put(token, book);
        self.serve(token, number);
        self.leave(rt, token, notes, news);
        answer
    }

    // The book's move of the clock. It tells those that rest.
    pub(crate) fn advance_as<R: Wait>(
        &self,
        rt: &R,
        token: &mut Token,
        number: u32,
        notes: &mut Notes,
    ) -> Advanced
        requires own { token.old.table_id ≡ self.now.table.shared.table_id }
        requires at_rest { IsAtRest token.old.me number }
        ensures own { token.new.table_id ≡ token.old.table_id }
        ensures at_rest { IsAtRest token.new.me number }
        ensures numbers { token.new.me.0.numbers ≡ token.old.me.0.numbers }
        ensures more_given { token.old.me.0.given ≤ token.new.me.0.given }
        ensures answer { IfSeen (seen_by token.old.me.0) (seen_by token.new.me.0) (AdvancesAt token.old.me.0.numbers result) }
    {
        let _turn = self.take_turn(rt, token);
        let mut book = self.take(token);
        let answer = book.advance();
        let news = News {
            grown: true,
            surplus: has_surplus(&book),
            ended: ends_moves(&answer),
        };
        notes.journal_len = len_of(&book);
        self.put(token, book);
        self.serve(token, number);
        self.leave(rt, token, notes, news);
        answer
    }

    // Sees what others did: whether a cut stands or the book is spent.
    pub(crate) fn look_as<R: Wait>(
        &self,
        rt: &R,
        token: &mut Token,
        number: u32,
        notes: &mut Notes,
    ) -> bool
        requires own { token.old.table_id ≡ self.now.table.shared.table_id }
        requires at_rest { IsAtRest token.old.me number }
        ensures own { token.new.table_id ≡ token.old.table_id }
        ensures at_rest { IsAtRest token.new.me number }
        ensures numbers { token.new.me.0.numbers ≡ token.old.me.0.numbers }
        ensures more_given { token.old.me.0.given ≤ token.new.me.0.given }
        ensures looks { IfSeen (seen_by token.old.me.0) (seen_by token.new.me.0) (SeesCall token.old.me.0.numbers []) }
    {
        let _turn = self.take_turn(rt, token);
        let book = self.take(token);
        let over = is_over(&book);
        notes.journal_len = len_of(&book);
        self.put(token, book);
        self.serve(token, number);
        over
    }

    // A new token with a number of its own, which has seen what this one sees; else how many numbers were given, where these are all.
    pub(crate) fn split_as<R: Wait>(
        &self,
        rt: &R,
        token: &mut Token,
        number: u32,
        notes: &mut Notes,
    ) -> Result<(Token, u32), u32>
        requires own { token.old.table_id ≡ self.now.table.shared.table_id }
        requires at_rest { IsAtRest token.old.me number }
        ensures own { token.new.table_id ≡ token.old.table_id }
        ensures at_rest { IsAtRest token.new.me number }
        ensures numbers { token.new.me.0.numbers ≡ token.old.me.0.numbers }
        ensures more_given { token.old.me.0.given ≤ token.new.me.0.given }
        ensures looks { IfSeen (seen_by token.old.me.0) (seen_by token.new.me.0) (SeesCall token.old.me.0.numbers []) }
        ensures split { IfOk result (λ new. IsTokenSplitOff token.old.table_id token.new.me new.0 new.1) }
        ensures given { IfErr result (λ given. token.new.me.0.given ≡ given) }
        ensures full { IfErr result (λ given. (seen : Seen) → seen_by token.new.me.0 ≡ Some seen → given ≡ seen.setup.limits.seats) }
    {
        let _turn = self.take_turn(rt, token);
        let mut book = self.take(token);
        notes.journal_len = len_of(&book);
        let Some(new) = book.enter() else {
            let given = book.entered();
            self.put(token, book);
            self.serve(token, number);
            return Err(given);
        };
        self.put(token, book);
        self.serve_more(token, number);
        let other = self.table.shared.split_seat::<LastNumber>(token);
        Ok((other, new))
    }
}
