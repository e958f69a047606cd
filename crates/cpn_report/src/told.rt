// What the texts of a report tell apart.
ghost use Rattle.cpn_report.specs.Schedule.{SchedulesDiffer};
ghost use Rattle.cpn_report.specs.Told.{ValuesDiffer, ElementsDiffer, MonitorsDiffer, LinesEndOnce, LinesDiffer, JournalsDiffer, ValuesOfRunsDiffer};

/// The laws that texts tell apart what they tell: values of a colour set, binding elements of a net, what monitors measured, the lines of
/// journals, but for the seats, lines, and of reports of runs the journals of each, but for the seats, and what its monitors measured. A
/// call does nothing: it is there for what it ensures.
pub fn told_texts()
    ensures values { ValuesDiffer }
    ensures elements { ElementsDiffer }
    ensures monitors { MonitorsDiffer }
    ensures schedules { SchedulesDiffer }
    ensures line_ends { LinesEndOnce }
    ensures lines { LinesDiffer }
    ensures journals { JournalsDiffer }
    ensures values_of_runs { ValuesOfRunsDiffer }
{}
