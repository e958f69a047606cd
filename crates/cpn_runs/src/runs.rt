//! What a run starts from, and what it shows when it has ended.

use crate::events::{End, Event, Limits};
use cpn_core::{Net, Occurrence};
use cpn_monitor::{Monitors, Values14};
use cpn_tmset::Marking;
use std::sync::Arc;

/// What a run starts from.
///
/// Source: own choice.
#[derive(Drop)]
pub struct Setup {
    /// The net.
    pub net: Arc<Net>,
    /// The marking, with an entry for each place.
    pub start: Marking,
    /// The clock: 0 to 2^62.
    pub clock: u64,
    /// The limits of the run.
    pub limits: Limits,
    /// What is measured of the run, and what may stop it.
    pub monitors: Arc<Monitors>,
    /// The seed of the run's draws.
    pub seed: u64,
}

/// What is enabled in a marking at a clock.
#[derive(Clone, Copy, Debug, PartialEq, Eq)]
pub struct Outlook {
    /// How many binding elements are ready: covered at the clock.
    pub ready: u64,
    /// The least earliest time of an enabled element, not before the clock; `None` where none is enabled
    /// at any time.
    pub next: Option<u64>,
}

/// A run that has ended: what it started from, and what it shows.
#[derive(Drop)]
pub struct Finished {
    /// What the run started from.
    pub setup: Setup,
    /// What was enabled at the start.
    pub opening: Outlook,
    /// The events, in the order in which they happened.
    pub journal: Vec<Event>,
    /// The occurrences, in the order of their claims.
    pub occurrences: Vec<Occurrence>,
    /// The last marking.
    pub marking: Marking,
    /// The last clock.
    pub clock: u64,
    /// Why the run ended.
    pub cause: End,
    /// What is enabled at the end.
    pub closing: Outlook,
    /// What the monitors measured, up to the last clock.
    pub values: Values14,
}
