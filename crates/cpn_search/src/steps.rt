//! How many steps searches make.
ghost use Rattle.std.specs.Prelude.{◌≡◌, ◌+◌, ◌<◌};

use std::marker::Model;
use std::sync::ledger::{Blank, Book, Ledger, Share};

/// A count of steps, which can only rise, and has no bound. It is a count for contracts alone: it takes no memory, and nothing can
/// read it.
///
/// A step is a try of a search: a value that a stage tries of a partial binding that was come to, or a binding that all stages made.
/// Source: own choice.
#[derive(Drop)]
pub struct Steps<L: Ledger> {
    book: Book<L>,
    share: Share<L>,
    ghost some: { 0 < share.parts },
}

impl<L: Ledger> Model for Steps<L> {
    ghost use Rattle.std.specs.Prelude.{ℕ};
    ghost use Rattle.std.specs.Coded.{coded_ℕ};

    ghost Value = { ℕ };

    ghost coded = { coded_ℕ };

    ghost view = { λ s. s.book.total };
}

impl<L: Ledger> Steps<L> {
    /// No steps yet, on a new ledger.
    pub fn none(blank: Blank) -> Steps<L>
        requires name { blank.name ≡ L.name }
        requires parts { blank.parts ≡ L.parts }
        requires some { 0 < blank.parts }
        ensures none { result ≡ 0 }
    {
        let (book, share) = blank.open::<L>();
        Steps { book, share }
    }

    /// So many steps more.
    pub fn add(&mut self, more: u64)
        ensures added { self.new ≡ self.old + more }
    {
        self.book.add(&mut self.share, more);
    }
}
