//! The events of a run, its limits and its ends.

use cpn_core::{Element, EvalFault};

/// An event of a run.
///
/// Source: own choice.
#[derive(Clone, Copy, Debug, PartialEq, Eq)]
pub enum Event {
    /// A seat claims a ready element under the next number, from 0.
    Claim { seat: u32, number: u64 },
    /// A seat completes the claim of this number, with its outputs or with their fault.
    Done { seat: u32, number: u64 },
    /// The clock moves to this time: 0 to 2^62.
    Move { time: u64 },
    /// The claims from this number on are cut off.
    Cut { number: u64 },
}

/// The limits of a run.
#[derive(Clone, Copy, Debug, PartialEq, Eq)]
pub struct Limits {
    /// How many claims the run may make: at most 1,000,000.
    pub steps: u64,
    /// The last time that the run may reach: 0 to 2^62.
    pub until: u64,
    /// How many seats make claims: 1 to 64.
    pub seats: u32,
}

/// The cause of a run's end: that of its last cut, if it has one (`Stop`, `Fault` or `Memory`); otherwise the first of the others that
/// holds, in their order here.
///
/// Source: own choice.
#[derive(Drop)]
pub enum End {
    /// The monitor of this number, from 0, stops the run after its last occurrence.
    Stop(u64),
    /// The outputs of the element have this fault.
    Fault(Element, EvalFault),
    /// A claim was given back for want of memory.
    Memory,
    /// As many claims were made as the limit allows.
    Steps,
    /// No binding element is enabled at any time.
    Dead,
    /// The least time at which a binding element is enabled is this one, which is above the last that the run may reach.
    Until(u64),
}
