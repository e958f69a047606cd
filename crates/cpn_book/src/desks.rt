//! Desks: the way of one seat to a book.

ghost use Rattle.std.specs.Prelude.{◌≡◌, ℕ, ◌<◌, List, [], ◌∷◌, Option, Some, IfOk, OnErr};
ghost use Rattle.cpn_book.specs.Books.{setup_in, IsBook};
ghost use Rattle.cpn_book.specs.Desks.{BookName, borrowed, book_at, seat_at, book_name_at, IsOneSeat};
ghost use Rattle.cpn_book.specs.Seen.{Seen, seen_in, IfSeen, Later, ClaimsAt, CompletesAt, GivesBackAt, AdvancesAt, WantsMemoryAt, SeesCall};

use crate::answers::{Advanced, Claimed, Completed, GivenBack};
use crate::books::Book;
use crate::tickets::{Evaluated, Ticket};
use cpn_core::Memory;

/// The way of one seat to a book: the calls of the book, made under the desk's seat.
///
/// A call tells what the seat has seen of the run when it returns: what it had seen, then what came by others, then the call's own events.
/// The answer is the book's, at the journal at which the call was made. A desk may tell nothing of what it sees.
///
/// Source: own choice.
pub trait Desk {
    /// What the seat has seen of the run.
    ghost seen: { Self → Option Seen };

    /// The seat numbers that are its own.
    ghost numbers: { Self → List ℕ };

    /// The number that it acts under.
    ghost seat: { Self → ℕ };

    /// The book that it acts on.
    ghost book: { Self → BookName };

    /// What holds of it between two calls.
    ghost Keeps: { Self → Type 0 };

    /// Makes the next claim.
    ///
    /// # Errors
    ///
    /// `Memory` where memory is wanted; the book is then spent.
    fn claim(&mut self) -> Result<Claimed, Memory>
        requires keeps { Keeps self.old }
        ensures keeps { Keeps self.new }
        ensures answer { IfOk result (λ answer. IfSeen (seen self.old) (seen self.new) (ClaimsAt (numbers self.old) (seat self.old) answer)) }
        ensures none { OnErr result (IfSeen (seen self.old) (seen self.new) (WantsMemoryAt (numbers self.old))) }
        ensures later { Later (seen self.old) (seen self.new) }
        ensures numbers { numbers self.new ≡ numbers self.old }
        ensures seat { seat self.new ≡ seat self.old }
        ensures book { book self.new ≡ book self.old };

    /// Completes the claim that the seat holds, by its evaluation.
    ///
    /// # Errors
    ///
    /// `Memory` where memory is wanted; the book is then spent.
    fn complete(&mut self, done: Evaluated) -> Result<Completed, Memory>
        requires keeps { Keeps self.old }
        ensures keeps { Keeps self.new }
        ensures answer { IfOk result (λ answer. IfSeen (seen self.old) (seen self.new) (CompletesAt (numbers self.old) (seat self.old) done answer)) }
        ensures none { OnErr result (IfSeen (seen self.old) (seen self.new) (WantsMemoryAt (numbers self.old))) }
        ensures later { Later (seen self.old) (seen self.new) }
        ensures numbers { numbers self.new ≡ numbers self.old }
        ensures seat { seat self.new ≡ seat self.old }
        ensures book { book self.new ≡ book self.old };

    /// Gives back the claim that the seat holds, for want of memory.
    ///
    /// # Errors
    ///
    /// `Memory` where memory is wanted; the book is then spent.
    fn give_back(&mut self, ticket: Ticket) -> Result<GivenBack, Memory>
        requires keeps { Keeps self.old }
        ensures keeps { Keeps self.new }
        ensures answer { IfOk result (λ answer. IfSeen (seen self.old) (seen self.new) (GivesBackAt (numbers self.old) (seat self.old) ticket answer)) }
        ensures none { OnErr result (IfSeen (seen self.old) (seen self.new) (WantsMemoryAt (numbers self.old))) }
        ensures later { Later (seen self.old) (seen self.new) }
        ensures numbers { numbers self.new ≡ numbers self.old }
        ensures seat { seat self.new ≡ seat self.old }
        ensures book { book self.new ≡ book self.old };

    /// Moves the clock, where nothing is ready and no claim is open.
    fn advance(&mut self) -> Advanced
        requires keeps { Keeps self.old }
        ensures keeps { Keeps self.new }
        ensures answer { IfSeen (seen self.old) (seen self.new) (AdvancesAt (numbers self.old) result) }
        ensures later { Later (seen self.old) (seen self.new) }
        ensures numbers { numbers self.new ≡ numbers self.old }
        ensures seat { seat self.new ≡ seat self.old }
        ensures book { book self.new ≡ book self.old };

    /// Makes no event, and may wait for events of others.
    fn rest(&mut self)
        requires keeps { Keeps self.old }
        ensures keeps { Keeps self.new }
        ensures looks { IfSeen (seen self.old) (seen self.new) (SeesCall (numbers self.old) []) }
        ensures later { Later (seen self.old) (seen self.new) }
        ensures numbers { numbers self.new ≡ numbers self.old }
        ensures seat { seat self.new ≡ seat self.old }
        ensures book { book self.new ≡ book self.old };
}

/// A desk for one thread, which has the book alone. Its `rest` returns at once.
///
/// Source: own choice.
#[derive(Drop)]
pub struct OneSeat<'a> {
    book: &'a mut Book,
    seat: u32,
}

impl<'a> OneSeat<'a> {
    /// The desk of a seat below the book's number of seats.
    pub fn new(book: &'a mut Book, seat: u32) -> OneSeat<'a>
        requires kept { IsBook book.old }
        requires known { seat < (setup_in book.old).limits.seats }
        ensures keeps { IsOneSeat result }
        ensures book { book_at result ≡ book.old }
        ensures seat { seat_at result ≡ seat }
        ensures same_reference { book_name_at result ≡ borrowed book.entry.ghost_name }
    {
        OneSeat { book, seat }
    }
}

impl<'a> Desk for OneSeat<'a> {
    ghost seen = { λ desk. Some (seen_in (book_at desk)) };

    ghost numbers = { λ desk. seat_at desk ∷ [] };

    ghost seat = { seat_at };

    ghost book = { book_name_at };

    ghost Keeps = { IsOneSeat };

    fn claim(&mut self) -> Result<Claimed, Memory> {
        self.book.claim(self.seat)
    }

    fn complete(&mut self, done: Evaluated) -> Result<Completed, Memory> {
        self.book.complete(self.seat, done)
    }

    fn give_back(&mut self, ticket: Ticket) -> Result<GivenBack, Memory> {
        self.book.give_back(self.seat, ticket)
    }

    fn advance(&mut self) -> Advanced {
        self.book.advance()
    }

    fn rest(&mut self) {}
}
