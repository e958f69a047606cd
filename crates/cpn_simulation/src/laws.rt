// Laws of what is accepted.
ghost use Rattle.cpn_simulation.specs.AcceptedRuns.{AcceptedIsPlayable, ReportsTellJournals, RunsAreOfWorkers};

use cpn_report::{printable_runs, told_texts};

/// The laws of what is accepted: from each setup of the runs of whatever bytes are read as, under whatever options words give, a run may start;
/// after no event of such a run are more claims open than there are workers; and two reports with a trace that have the same text tell as many
/// runs with the same journals, but for the seats. A call does nothing: it is there for what it ensures.
pub fn accepted_runs()
    ensures playable { AcceptedIsPlayable }
    ensures workers { RunsAreOfWorkers }
    ensures journals { ReportsTellJournals }
{
    printable_runs();
    told_texts();
}
