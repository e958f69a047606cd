//! A seat as the desk of a worker.

ghost use Rattle.std.specs.Prelude.{◌≡◌};
ghost use Rattle.cpn_seats.specs.Seats.{IsSeatOf, numbers_of, number_of_seat, seen_of, book_name_of};

use crate::seats::{Seat, SeatDesk};
use cpn_book::{Advanced, Claimed, Completed, Desk, Evaluated, GivenBack, Ticket};
use cpn_core::Memory;
use std::sync::Wait;

/// A seat, the desk that made it, and by what its calls wait: the desk of one worker. A rest takes no processor time while nothing
/// happens.
///
/// Source: own choice.
#[derive(Drop)]
pub struct SeatHandle<'a, R: Wait> {
    rt: &'a R,
    desk: &'a SeatDesk,
    seat: Seat,
    ghost own: { seat.token.table_id ≡ desk.now.table.shared.table_id },
}

impl<'a, R: Wait> SeatHandle<'a, R> {
    /// The handle of a seat that the desk made.
    pub fn new(rt: &'a R, desk: &'a SeatDesk, seat: Seat) -> SeatHandle<'a, R>
        requires seat { IsSeatOf desk.now seat }
        ensures seat { result.seat ≡ seat }
    {
        SeatHandle { rt, desk, seat }
    }

    /// The seat, with all that it has seen.
    pub fn into_seat(self) -> Seat
        ensures seat { result ≡ self.entry.seat }
    {
        let SeatHandle { seat, .. } = self;
        seat
    }
}

impl<'a, R: Wait> Desk for SeatHandle<'a, R> {
    ghost seen = { λ handle. seen_of handle.seat };

    ghost numbers = { λ handle. numbers_of handle.seat };

    ghost seat = { λ handle. number_of_seat handle.seat };

    ghost book = { λ handle. book_name_of handle.seat };

    ghost Keeps = { λ handle. Unit {0} };

    fn claim(&mut self) -> Result<Claimed, Memory> {
        self.desk.claim(self.rt, &mut self.seat)
    }

    fn complete(&mut self, done: Evaluated) -> Result<Completed, Memory> {
        self.desk.complete(self.rt, &mut self.seat, done)
    }

    fn give_back(&mut self, ticket: Ticket) -> Result<GivenBack, Memory> {
        self.desk.give_back(self.rt, &mut self.seat, ticket)
    }

    fn advance(&mut self) -> Advanced {
        self.desk.advance(self.rt, &mut self.seat)
    }

    // Returns once the journal has grown past what the seat had seen, a cut stands, or the book is spent.
    fn rest(&mut self) {
        let before = self.seat.notes.journal_len;
        for _ in self.rt.forever() {
            let growths = self.desk.growths();
            if self.desk.look_on(self.rt, &mut self.seat, before) {
                return;
            }
            self.desk.sleep_on(self.rt, &mut self.seat, growths);
        }
    }
}
