//! Probes: observers of a simulation run that the caller of the simulator hands in.
//!
//! A `Probe` is told the committed occurrences of runs, one after another, and is asked for its report in the end. What a probe
//! makes of an occurrence and what it reports is its own: each states a relation of its states, and its calls keep to it.
//! `tell_all` tells each probe each occurrence once, in order, and `report_all` asks each for its report. The crate makes no run,
//! knows no net, and changes nothing but the probes.
#![tactic(auto)]

mod boxes;
mod probes;
mod reporting;
mod telling;

pub use probes::Probe;
pub use reporting::report_all;
pub use telling::tell_all;
