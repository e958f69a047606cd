//! How the seats of a run are given, each to one who acts under it.

ghost use Rattle.std.specs.Prelude.{◌≡◌, ◌<◌, ◌+◌, None, IfSome};
ghost use Rattle.cpn_book.specs.Books.{setup_in, entered_in, IsBook};
ghost use Rattle.cpn_book.specs.Steps.{IsEnteredFrom};

use crate::books::Book;

impl Book {
    /// The next seat number, from 0; `None` where each of the run's seats was given. No number is given twice. It is no event: the journal
    /// and the state are as they were. It takes no memory.
    pub fn enter(&mut self) -> Option<u32>
        requires kept { IsBook self.old }
        ensures kept { IsBook self.new }
        ensures same { IsEnteredFrom self.old self.new }
        ensures next { IfSome result (λ seat. (seat ≡ entered_in self.old) × (entered_in self.new ≡ seat + 1)) }
        ensures known { IfSome result (λ seat. seat < (setup_in self.old).limits.seats) }
        ensures none { result ≡ None → entered_in self.old ≡ (setup_in self.old).limits.seats }
        ensures unchanged { result ≡ None → self.new ≡ self.old }
    {
        let seat = self.entered;
        if seat == self.setup.limits.seats {
            return None;
        }
        self.entered = seat + 1;
        Some(seat)
    }

    /// How many seat numbers were given: those below it.
    pub fn entered(&self) -> u32
        ensures { result ≡ entered_in self.now }
    {
        self.entered
    }
}
