//! What was measured of a run.

ghost use Rattle.std.specs.Prelude.{◌≤◌, ◌<◌, ◌*◌, ◌^◌, pos, neg_ℤ, ◌≤ℤ◌};
ghost use Rattle.cpn_definitions.specs.Times.{last_time};

/// What a monitor measured.
///
/// Source: own choice.
#[derive(Clone, Copy, Debug, PartialEq, Eq)]
pub enum Measured {
    /// How often its transition occurred.
    Count {
        /// The occurrences.
        number: u64,
    },
    /// How many tokens its place had at the start and after each occurrence.
    Size(Sizes),
    /// The values of its inscription at the occurrences of its transition.
    Value(Integers),
    /// How often its transition occurred, until it stopped the run or the run ended.
    StopCount {
        /// The occurrences.
        number: u64,
    },
    /// How many tokens its place had at last.
    StopSize {
        /// The last number of tokens: below 2^48.
        last: u64,
    },
}

/// The numbers of tokens on a place over time.
#[derive(Clone, Copy, Debug, PartialEq, Eq)]
pub struct Sizes {
    /// The least number of tokens.
    pub least: u64,
    /// The greatest one.
    pub greatest: u64,
    /// The last one: below 2^48.
    pub last: u64,
    /// The sum of each number of tokens times the time for which it stood: at most 2^110.
    pub sum: u128,
    /// The time up to which the sum counts: 0 to 2^62.
    pub until: u64,
    pub ghost few: { last < 2 ^ 48 },
    pub ghost in_time: { until ≤ last_time },
    pub ghost bounded: { sum ≤ 2 ^ 48 * until },
}

/// The integers that an inscription had as its values.
#[derive(Clone, Copy, Debug, PartialEq, Eq)]
pub struct Integers {
    /// How often the inscription had a value.
    pub count: u64,
    /// The sum of the values.
    pub sum: i128,
    /// The least value, where there was one.
    pub least: Option<i64>,
    /// The greatest value, where there was one.
    pub greatest: Option<i64>,
    /// How often the inscription had a fault.
    pub faulted: u64,
    pub ghost above: { neg_ℤ (pos (2 ^ 63 * count)) ≤ℤ sum },
    pub ghost below: { sum ≤ℤ pos (2 ^ 63 * count) },
}

/// The values of one monitor.
#[derive(Drop)]
pub struct MonitorValue {
    /// The name of the monitor.
    pub name: String,
    /// What it measured.
    pub measured: Measured,
}

/// The values of the monitors of a run, in the order of the document.
#[derive(Drop)]
pub struct Values14 {
    /// One for each monitor.
    pub values: Vec<MonitorValue>,
}
