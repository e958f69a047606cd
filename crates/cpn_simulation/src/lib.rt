//! The simulation: words and a source in, a report or one error line out.
//!
//! `simulate` reads its source to the end, or in mode `large` generates a net, runs the phases of the net, tells its probes, and writes nothing
//! before the whole report, or the one error line, stands in memory. Each run is driven by workers, who share its book in turns. What the report
//! says is proved to be legal runs of the document; the crate decides no rule of nets itself, and makes no probe.
#![tactic(auto)]

mod answers;
mod documents;
mod laws;
mod no_options;
mod options;
mod phases;
mod refusals;
mod simulation;
mod statuses;
mod words;
mod workers;

pub use laws::accepted_runs;
pub use no_options::NoOptions;
pub use options::{Mode, Options};
pub use simulation::{refuse_words, simulate};
pub use statuses::{Status, exit_code};
pub use words::options_from;
