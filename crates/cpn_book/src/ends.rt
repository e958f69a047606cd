//! How a run ends.

ghost use Rattle.std.specs.Prelude.{◌≡◌, ◌<◌, Some, None, MatchOption};
ghost use Rattle.std.specs.List.{count_by};
ghost use Rattle.std.specs.Option.{is_some};
ghost use Rattle.cpn_monitor.specs.Kept.{MayClose};
ghost use Rattle.cpn_monitor.specs.Views.{measuring_view};
ghost use Rattle.cpn_runs.specs.Run.{IsRun};
ghost use Rattle.cpn_runs.specs.State.{PlainEnd, EndsBy};
ghost use Rattle.cpn_runs.specs.Views.{end_view};
ghost use Rattle.cpn_runs.specs.FinishedViews.{setup_view, finished_view};
ghost use Rattle.cpn_book.specs.Books.{setup_in, journal_in, shown, InState, IsBook, IsRunning};
ghost use Rattle.cpn_book.specs.Steps.{MayGoOn};

use crate::books::Book;
use crate::outlooks::outlook;
use crate::standings::Standing;
use cpn_runs::{End, Finished};

impl Book {
    /// The cause for which the run ends, if it ends; that of a cut is taken out of the book.
    pub(crate) fn take_end(&mut self) -> Option<End>
        requires kept { IsBook self.old }
        requires running { IsRunning self.old }
        requires none_open { count_by is_some self.old.standing.held.items ≡ 0 }
        ensures end { MatchOption result (InState self.old (λ state. (cause : PlainEnd) → EndsBy (setup_in self.old) state cause → ⊥)) (λ cause. IsRun (setup_in self.new) (shown self.new (end_view cause))) }
        ensures same { result ≡ None → self.new ≡ self.old }
        ensures goes_on { result ≡ None → MayGoOn self.old }
        ensures setup { setup_in self.new ≡ setup_in self.old }
        ensures journal { journal_in self.new ≡ journal_in self.old }
        ensures closes { MayClose (measuring_view self.new.standing.measuring) self.new.standing.clock }
    {
        if let Some(cut) = self.standing.cut.take() {
            return Some(cut.cause);
        }
        self.end()
    }

    // The cause for which the run ends where no cut stands.
    fn end(&self) -> Option<End>
        requires kept { IsBook self.now }
        requires running { IsRunning self.now }
        requires none_open { count_by is_some self.now.standing.held.items ≡ 0 }
        requires uncut { self.now.standing.cut ≡ None }
        ensures end { MatchOption result (InState self.now (λ state. (cause : PlainEnd) → EndsBy (setup_in self.now) state cause → ⊥)) (λ cause. InState self.now (λ state. EndsBy (setup_in self.now) state (end_view cause))) }
        ensures goes_on { result ≡ None → MayGoOn self.now }
    {
        if self.standing.log.len() == self.setup.limits.steps {
            return Some(End::Steps);
        }
        let Some(time) = self.index.next_time() else {
            return Some(End::Dead);
        };
        if self.setup.limits.until < time {
            Some(End::Until(time))
        } else {
            None
        }
    }

    /// What the run shows that has ended by a cause.
    pub(crate) fn ended(self, cause: End) -> Finished
        requires closes { MayClose (measuring_view self.standing.measuring) self.standing.clock }
        ensures shown { finished_view result ≡ shown self (end_view cause) }
        ensures setup { setup_view result.setup ≡ setup_in self }
    {
        let closing = outlook(&self.index);
        let Book {
            setup,
            standing,
            opening,
            ..
        } = self;
        let Standing {
            clock,
            log,
            journal,
            occurrences,
            measuring,
            ..
        } = standing;
        let values = setup.monitors.close(measuring, clock);
        Finished {
            setup,
            opening,
            journal,
            occurrences,
            marking: log.into_unclaimed(),
            clock,
            cause,
            closing,
            values,
        }
    }
}
