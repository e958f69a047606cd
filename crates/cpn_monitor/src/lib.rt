//! Monitors: what is to be measured of a run, and what was measured.
//!
//! `specs/` says what a monitor's values are, as functions of the occurrences of a run with the marking after each, of its start and its
//! last clock; the data of the program stands for the plain data there. Monitors are told a run from its start on, one occurrence after
//! another. An occurrence costs what it concerns: the monitors of its transition, and those of the places at its arcs. The crate reads no
//! text, makes no run, and knows nothing of claims.
#![tactic(auto)]

mod measuring;
mod monitors;
mod noting;
mod starting;
mod stopping;
mod telling;
mod values;
mod watched;

pub use measuring::Measuring;
pub use monitors::{Bound, Measure, Monitor, Monitors};
pub use values::{Integers, Measured, MonitorValue, Sizes, Values14};
pub use watched::Watched;
