// The laws that runs can be printed.
ghost use Rattle.cpn_report.specs.Printable.{RunsArePrintableInPart, RunsArePrintable};

/// The laws that a run of a printable net, from a marking of its places, can be printed: its occurrences and its last marking; and its
/// report, unless it ends for want of memory. A call does nothing: it is there for what it ensures.
pub fn printable_runs()
    ensures in_part { RunsArePrintableInPart }
    ensures printable { RunsArePrintable }
{}
