//! What is shown of an index.

ghost use Rattle.std.specs.Prelude.{◌≡◌};
ghost use Rattle.cpn_index.specs.Index.{clock_in, listed_in};
ghost use Rattle.cpn_runs.specs.FinishedViews.{outlook_view};
ghost use Rattle.cpn_book.specs.Shown.{outlook_at};

use cpn_index::Index;
use cpn_runs::Outlook;

/// The number of the ready elements, and the next time, at the clock of an index.
pub(crate) fn outlook(index: &Index) -> Outlook
    ensures outlook { outlook_view result ≡ outlook_at (clock_in index.now) (listed_in index.now) }
{
    Outlook {
        ready: index.ready_len(),
        next: index.next_time(),
    }
}
