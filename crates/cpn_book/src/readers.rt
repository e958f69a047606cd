//! What is to be read in a book.

ghost use Rattle.std.specs.Prelude.{◌≡◌, ◌≤◌, ◌-◌, ◌^◌, Some, false, length, map};
ghost use Rattle.std.specs.Option.{is_some};
ghost use Rattle.cpn_definitions.specs.Bounds.{IsBounded};
ghost use Rattle.cpn_definitions.specs.Legal.{Legal, timed};
ghost use Rattle.cpn_definitions.specs.Sound.{IsMarking};
ghost use Rattle.cpn_runs.specs.MeasuredStates.{values_in};
ghost use Rattle.cpn_runs.specs.Bounds.{HasGrown};
ghost use Rattle.cpn_runs.specs.FinishedViews.{setup_view};
ghost use Rattle.cpn_runs.specs.State.{unclaimed_in, settled_in, committed, committed_occurrences};
ghost use Rattle.cpn_runs.specs.Views.{event_view};
ghost use Rattle.cpn_book.specs.Books.{setup_in, journal_in, is_spent_in, InState, IsBook};
ghost use Rattle.cpn_book.specs.States.{AreReady, IsNextTime, open_claims};

use crate::books::Book;
use cpn_runs::{Event, Setup};
use cpn_tmset::Marking;

impl Book {
    /// The unclaimed marking: what the claims leave, each done one with its outputs. It is asked of a book that is not spent.
    pub fn unclaimed(&self) -> &Marking
        requires kept { IsBook self.now }
        requires unspent { is_spent_in self.now ≡ false }
        ensures unclaimed { InState self.now (λ state. unclaimed_in (setup_in self.now) state ≡ Some result.now) }
        // Each place has tokens of its colour set, fewer than 2^48.
        ensures marking { IsMarking (setup_in self.now).net.places result.now }
        ensures bounded { IsBounded (2 ^ 48 - 1) result.now }
        // It has at most as many more than the start as so many occurrences make as there are claims, and no later time stamp than three
        // times the last time where the start had none.
        ensures grown { InState self.now (λ state. HasGrown (setup_in self.now).net.places (setup_in self.now).start (length state.claims) result.now) }
    {
        self.standing.log.unclaimed()
    }

    /// The settled marking: what the committed claims leave. It is asked of a book that is not spent.
    pub fn settled(&self) -> &Marking
        requires kept { IsBook self.now }
        requires unspent { is_spent_in self.now ≡ false }
        ensures settled { InState self.now (λ state. settled_in (setup_in self.now) state ≡ Some result.now) }
        // The committed claims are a legal occurrence sequence from the start to it.
        ensures legal { InState self.now (λ state. Legal (setup_in self.now).net (setup_in self.now).start (setup_in self.now).clock (map timed (committed_occurrences (setup_in self.now) state)) result.now state.clock) }
        // Each place has tokens of its colour set, fewer than 2^48.
        ensures marking { IsMarking (setup_in self.now).net.places result.now }
        ensures bounded { IsBounded (2 ^ 48 - 1) result.now }
        // It has at most as many more than the start as the committed claims make, and no later time stamp than three times the last time
        // where the start had none.
        ensures grown { InState self.now (λ state. HasGrown (setup_in self.now).net.places (setup_in self.now).start (committed (setup_in self.now) state) result.now) }
        // Where no claim is open each claim is committed, and it is the unclaimed marking.
        ensures all_committed { InState self.now (λ state. open_claims state ≡ 0 → committed (setup_in self.now) state ≡ length state.claims) }
        ensures all { InState self.now (λ state. open_claims state ≡ 0 → unclaimed_in (setup_in self.now) state ≡ Some result.now) }
    {
        self.standing.log.settled()
    }

    /// The clock: 0 to 2^62. It is asked of a book that is not spent.
    pub fn clock(&self) -> u64
        requires kept { IsBook self.now }
        requires unspent { is_spent_in self.now ≡ false }
        ensures clock { InState self.now (λ state. result ≡ state.clock) }
        ensures in_time { result ≤ (setup_in self.now).limits.until }
    {
        self.standing.clock
    }

    /// Whether a cut stands. It is asked of a book that is not spent.
    pub fn is_cut(&self) -> bool
        requires kept { IsBook self.now }
        requires unspent { is_spent_in self.now ≡ false }
        ensures { InState self.now (λ state. result ≡ is_some state.cut) }
    {
        self.standing.cut.is_some()
    }

    /// How many binding elements are ready: covered in the unclaimed marking at the clock. It is asked of a book that is not spent.
    pub fn ready_len(&self) -> u64
        requires kept { IsBook self.now }
        requires unspent { is_spent_in self.now ≡ false }
        ensures { InState self.now (λ state. AreReady (setup_in self.now) state result) }
    {
        self.ready()
    }

    /// The least time from the clock on at which a binding element is enabled in the unclaimed marking; `None` where none is at any
    /// time. It is asked of a book that is not spent.
    pub fn next_time(&self) -> Option<u64>
        requires kept { IsBook self.now }
        requires unspent { is_spent_in self.now ≡ false }
        ensures { InState self.now (λ state. IsNextTime (setup_in self.now) state result) }
    {
        self.index.next_time()
    }

    /// The events so far, in the order in which they happened. It is asked of a book that is not spent.
    pub fn journal(&self) -> &[Event]
        requires unspent { is_spent_in self.now ≡ false }
        ensures { map event_view result.now ≡ journal_in self.now }
    {
        self.standing.journal.as_slice()
    }

    /// What the run started from.
    pub fn setup(&self) -> &Setup
        ensures { setup_view result.now ≡ setup_in self.now }
    {
        &self.setup
    }

    /// Whether an earlier call on this book wanted memory.
    pub fn is_spent(&self) -> bool
        ensures { result ≡ is_spent_in self.now }
    {
        self.spent
    }
}
