// How much of a run its report tells.

/// Which lines of its runs a report has. The trace of a run is a line for each occurrence, and the line of the journal.
#[derive(Clone, Copy, Debug, PartialEq, Eq)]
pub enum Trace {
    /// All of them.
    On,
    /// All but the trace.
    Off,
    /// All but the trace and the lines of places.
    Brief,
}
