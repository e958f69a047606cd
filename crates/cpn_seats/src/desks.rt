//! The calls of a seat at its desk, each at a turn of its own.

ghost use Rattle.std.specs.Prelude.{◌≡◌, ◌+◌, ◌<◌, ◌∷◌, [], Some, IfOk, IfErr, OnErr};
ghost use Rattle.cpn_book.specs.Books.{setup_in, entered_in, IsBook};
ghost use Rattle.cpn_book.specs.Steps.{IsEnteredFrom};
ghost use Rattle.cpn_book.specs.Tickets.{number_of, job_of, evaluated_number, evaluated_job};
ghost use Rattle.cpn_book.specs.Seen.{Seen, seen_in, IfSeen, Later, SeesCall, ClaimsAt, CompletesAt, GivesBackAt, AdvancesAt, WantsMemoryAt};
ghost use Rattle.cpn_seats.specs.HeldClaims.{KeepsHeld, HoldsIfTicket, IsHeld, IsNoStranger, IsNoStrangersTicket};
ghost use Rattle.cpn_seats.specs.Joins.{IsJoined};
ghost use Rattle.cpn_seats.specs.Seats.{IsSeatOf, IsSameSeat, table_of, number_of_seat, numbers_of, seen_of, given_of};
ghost use Rattle.cpn_seats.specs.Splits.{AnswersSplit};
ghost use Rattle.cpn_seats.specs.Turns.{numbers_below, Opens};

use crate::calls::len_of;
use crate::notes::Notes;
use crate::seats::{Seat, SeatDesk};
use crate::views::Slot;
use atomic_table::{Refused, Table};
use cpn_book::{Advanced, Book, Claimed, Completed, Evaluated, GivenBack, Ticket};
use cpn_core::Memory;
use std::alloc::Global;
use std::snapshot::Snapshot;
use std::sync::Wait;

/// What a seat gets that is split.
///
/// Source: own choice.
#[derive(Drop)]
pub enum Split {
    /// The new seat.
    Seat(Seat),
    /// All seat numbers were given, which are so many.
    Full(u32),
    /// Memory is wanted. A split takes none today, so that this never comes.
    Memory,
}

// The greater of two lengths.
fn longer(first: usize, second: usize) -> usize {
    if first < second { second } else { first }
}

// The book of a slot that no table took.
fn book_of(mut slots: Vec<Slot>) -> Book
    requires { (book : Book) × (slots.items ≡ Some book ∷ []) }
    ensures { slots.items ≡ Some result ∷ [] }
{
    match slots.pop() {
        Some(Some(book)) => book,
        _ => unreachable!(),
    }
}

impl SeatDesk {
    /// Shares a book that has a seat number left, and in which no claim and no completion is by a number that is left. The first seat enters:
    /// it acts under the book's next number, has all that were given before as well, and has seen the whole journal.
    ///
    /// # Errors
    ///
    /// The book comes back where memory is wanted; a number more may have been given.
    pub fn open(alloc: Global, book: Book) -> Result<(SeatDesk, Seat), Book>
        requires opens { Opens book }
        ensures seat { IfOk result (λ new. IsSeatOf new.0 new.1) }
        ensures number { IfOk result (λ new. number_of_seat new.1 ≡ entered_in book) }
        ensures numbers { IfOk result (λ new. numbers_of new.1 ≡ entered_in book ∷ numbers_below (entered_in book)) }
        ensures seen { IfOk result (λ new. seen_of new.1 ≡ Some (seen_in book)) }
        ensures given { IfOk result (λ new. given_of new.1 ≡ entered_in book + 1) }
        ensures kept { IfErr result (λ same. IsBook same) }
        ensures back { IfErr result (λ same. IsEnteredFrom book same) }
    {
        let mut book = book;
        let mut slots = Vec::new(alloc);
        let Ok(()) = slots.reserve(1) else {
            return Err(book);
        };
        let Some(number) = book.enter() else {
            unreachable!()
        };
        let key = Snapshot::of(&book);
        let journal_len = len_of(&book);
        slots.push_reserved(Some(book));
        match Table::new(alloc, &[0; 72], slots, &key) {
            Ok((table, token)) => Ok((
                SeatDesk { alloc, table },
                Seat {
                    token,
                    number,
                    notes: Notes::new(journal_len),
                },
            )),
            Err(Refused { slots }) => Err(book_of(slots)),
        }
    }

    /// The book, which goes on from all that the seat has seen. Of a seat that wasn't joined before nothing is left. Where a seat number is left,
    /// a desk may be opened with it again.
    pub fn close<R: Wait>(self, rt: &R, seat: Seat) -> Book
        requires seat { IsSeatOf self seat }
        ensures kept { IsBook result }
        ensures later { Later (seen_of seat) (Some (seen_in result)) }
        ensures opens { entered_in result < (setup_in result).limits.seats → Opens result }
    {
        let Seat { mut token, .. } = seat;
        self.take_turn(rt, &mut token);
        self.take(&mut token)
    }

    /// The book's claim with the seat's number.
    ///
    /// # Errors
    ///
    /// `Memory` where the book wants memory.
    #[tactic(auto, using(crate::proofs::SeatFacts::same_seat, crate::proofs::SeatFacts::split_off, crate::proofs::SeatFacts::joined_seat))]
    pub fn claim<R: Wait>(&self, rt: &R, seat: &mut Seat) -> Result<Claimed, Memory>
        requires seat { IsSeatOf self.now seat.old }
        ensures same { IsSameSeat seat.old seat.new }
        ensures answer { IfOk result (λ answer. IfSeen (seen_of seat.old) (seen_of seat.new) (ClaimsAt (numbers_of seat.old) (number_of_seat seat.old) answer)) }
        ensures none { OnErr result (IfSeen (seen_of seat.old) (seen_of seat.new) (WantsMemoryAt (numbers_of seat.old))) }
        ensures held { IfOk result (λ answer. IfSeen (seen_of seat.old) (seen_of seat.new) (λ old new. HoldsIfTicket new (number_of_seat seat.old) answer)) }
    {
        self.claim_as(rt, &mut seat.token, seat.number, &mut seat.notes)
    }

    /// The book's completion with the seat's number. It never answers `Stranger` for a claim that the seat holds.
    ///
    /// # Errors
    ///
    /// `Memory` where the book wants memory.
    #[tactic(auto, using(crate::proofs::SeatFacts::same_seat, crate::proofs::SeatFacts::split_off, crate::proofs::SeatFacts::joined_seat))]
    pub fn complete<R: Wait>(
        &self,
        rt: &R,
        seat: &mut Seat,
        done: Evaluated,
    ) -> Result<Completed, Memory>
        requires seat { IsSeatOf self.now seat.old }
        ensures same { IsSameSeat seat.old seat.new }
        ensures answer { IfOk result (λ answer. IfSeen (seen_of seat.old) (seen_of seat.new) (CompletesAt (numbers_of seat.old) (number_of_seat seat.old) done answer)) }
        ensures none { OnErr result (IfSeen (seen_of seat.old) (seen_of seat.new) (WantsMemoryAt (numbers_of seat.old))) }
        ensures held { IfOk result (λ answer. (seen : Seen) → seen_of seat.old ≡ Some seen → IsHeld seen (number_of_seat seat.old) (evaluated_number done) (evaluated_job done) → IsNoStranger answer) }
    {
        self.complete_as(rt, &mut seat.token, seat.number, &mut seat.notes, done)
    }

    /// A ticket is given back to the book with the seat's number. It never answers `Stranger` for a claim that the seat holds.
    ///
    /// # Errors
    ///
    /// `Memory` where the book wants memory.
    #[tactic(auto, using(crate::proofs::SeatFacts::same_seat, crate::proofs::SeatFacts::split_off, crate::proofs::SeatFacts::joined_seat))]
    pub fn give_back<R: Wait>(
        &self,
        rt: &R,
        seat: &mut Seat,
        ticket: Ticket,
    ) -> Result<GivenBack, Memory>
        requires seat { IsSeatOf self.now seat.old }
        ensures same { IsSameSeat seat.old seat.new }
        ensures answer { IfOk result (λ answer. IfSeen (seen_of seat.old) (seen_of seat.new) (GivesBackAt (numbers_of seat.old) (number_of_seat seat.old) ticket answer)) }
        ensures none { OnErr result (IfSeen (seen_of seat.old) (seen_of seat.new) (WantsMemoryAt (numbers_of seat.old))) }
        ensures held { IfOk result (λ answer. (seen : Seen) → seen_of seat.old ≡ Some seen → IsHeld seen (number_of_seat seat.old) (number_of ticket) (job_of ticket) → IsNoStrangersTicket answer) }
    {
        self.give_back_as(rt, &mut seat.token, seat.number, &mut seat.notes, ticket)
    }

    /// The book's move of the clock.
    #[tactic(auto, using(crate::proofs::SeatFacts::same_seat, crate::proofs::SeatFacts::split_off, crate::proofs::SeatFacts::joined_seat))]
    pub fn advance<R: Wait>(&self, rt: &R, seat: &mut Seat) -> Advanced
        requires seat { IsSeatOf self.now seat.old }
        ensures same { IsSameSeat seat.old seat.new }
        ensures answer { IfSeen (seen_of seat.old) (seen_of seat.new) (AdvancesAt (numbers_of seat.old) result) }
    {
        self.advance_as(rt, &mut seat.token, seat.number, &mut seat.notes)
    }

    /// Sees what others did: whether the journal is longer than before, a cut stands, or the book is spent.
    #[tactic(auto, using(crate::proofs::SeatFacts::same_seat, crate::proofs::SeatFacts::split_off, crate::proofs::SeatFacts::joined_seat))]
    pub(crate) fn look_on<R: Wait>(&self, rt: &R, seat: &mut Seat, before: usize) -> bool
        requires seat { IsSeatOf self.now seat.old }
        ensures same { IsSameSeat seat.old seat.new }
        ensures looks { IfSeen (seen_of seat.old) (seen_of seat.new) (SeesCall (numbers_of seat.old) []) }
    {
        let over = self.look_as(rt, &mut seat.token, seat.number, &mut seat.notes);
        over || before < seat.notes.journal_len
    }

    /// Sleeps until it was told more often that the journal has grown. It may also return for no reason.
    #[tactic(auto, using(crate::proofs::SeatFacts::same_seat, crate::proofs::SeatFacts::still_at_rest))]
    pub(crate) fn sleep_on<R: Wait>(&self, rt: &R, seat: &mut Seat, growths: u64)
        requires seat { IsSeatOf self.now seat.old }
        ensures same { IsSameSeat seat.old seat.new }
        ensures seen { seen_of seat.new ≡ seen_of seat.old }
    {
        self.sleep_until_grown(rt, &mut seat.token, &mut seat.notes, growths);
    }

    /// A new seat with a number of its own, which has seen what this one sees.
    #[tactic(auto, using(crate::proofs::SeatFacts::same_seat, crate::proofs::SeatFacts::split_off, crate::proofs::SeatFacts::joined_seat))]
    pub fn split<R: Wait>(&self, rt: &R, seat: &mut Seat) -> Split
        requires seat { IsSeatOf self.now seat.old }
        ensures same { IsSameSeat seat.old seat.new }
        ensures looks { IfSeen (seen_of seat.old) (seen_of seat.new) (SeesCall (numbers_of seat.old) []) }
        ensures answer { AnswersSplit seat.new result }
    {
        match self.split_as(rt, &mut seat.token, seat.number, &mut seat.notes) {
            Ok((token, number)) => {
                let notes = Notes::new(seat.notes.journal_len);
                Split::Seat(Seat {
                    token,
                    number,
                    notes,
                })
            }
            Err(given) => Split::Full(given),
        }
    }

    /// Takes in another seat: its numbers are then this one's, and its open claims stay open. It takes no turn.
    #[tactic(auto, using(crate::proofs::SeatFacts::same_seat, crate::proofs::SeatFacts::split_off, crate::proofs::SeatFacts::joined_seat, crate::proofs::SeatFacts::own_held, crate::proofs::SeatFacts::other_held))]
    pub fn join(&self, seat: &mut Seat, other: Seat)
        requires seat { IsSeatOf self.now seat.old }
        requires other { IsSeatOf self.now other }
        ensures table { table_of seat.new ≡ table_of seat.old }
        ensures number { number_of_seat seat.new ≡ number_of_seat seat.old }
        ensures joined { IsJoined seat.old other seat.new }
        ensures held { IfSeen (seen_of seat.old) (seen_of seat.new) (KeepsHeld (numbers_of seat.old)) }
        ensures other_held { IfSeen (seen_of other) (seen_of seat.new) (KeepsHeld (numbers_of other)) }
    {
        let Seat {
            token,
            number: _,
            notes,
        } = other;
        self.meet(&mut seat.token, token);
        seat.notes.journal_len = longer(seat.notes.journal_len, notes.journal_len);
    }
}
