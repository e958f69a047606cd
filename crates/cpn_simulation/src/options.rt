//! What the program does, and the options of a run.

ghost use Rattle.std.specs.Prelude.{◌<◌, ◌≤◌};
ghost use Rattle.cpn_definitions.specs.Times.{last_time};
ghost use Rattle.cpn_runs.specs.Bounds.{most_steps};

use cpn_report::Trace;

/// What the program does.
#[derive(Clone, Copy, Debug, PartialEq, Eq)]
pub enum Mode {
    /// It runs the document that the source gives.
    Run,
    /// It runs the generated net of the seed, and reads no source.
    Large,
}

/// The options of a run.
#[derive(Debug, Drop)]
pub struct Options {
    /// What the program does.
    pub mode: Mode,
    /// The seed of the draws, and in mode `large` the number of the generated net.
    pub seed: u64,
    /// How many workers make each run: 1 to 64.
    pub workers: u64,
    /// How many claims a run may make, less the occurrences of the runs before it: 1 to 1,000,000.
    pub steps: u64,
    /// The last time that each run may reach: 0 to 2^62.
    pub until: u64,
    /// Which lines of the runs the report has: in mode `large` neither those of the trace nor those of places.
    pub trace: Trace,
    ghost some_worker: { 0 < workers },
    ghost few_workers: { workers ≤ 64 },
    ghost few_steps: { steps ≤ most_steps },
    ghost in_time: { until ≤ last_time },
}
