//! The report of runs, as text: one line after another, from the opening of the first run to the total.
//!
//! The crate only prints. It decides nothing about a run, reads nothing from outside, and writes to
//! nothing but the text that it returns.
#![tactic(auto)]

mod elements;
mod ends;
mod groups;
mod integers;
mod lines;
mod monitors;
mod names;
mod places;
mod probes;
mod reports;
mod runs;
mod starts;
mod told;
mod traces;
mod values;

pub use elements::{element_text, occurrence_text, push_element};
pub use ends::end_text;
pub use lines::{push_time, schedule_text};
pub use monitors::monitor_text;
pub use names::has_names;
pub use places::{place_text, push_place_lines};
pub use reports::{Report, run_text};
pub use runs::printable_runs;
pub use starts::Start;
pub use told::told_texts;
pub use traces::Trace;
pub use values::value_text;
