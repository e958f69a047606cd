//! Checks the monitors of a document, as they are written, against its net.
//!
//! [`check_monitors`] goes from the monitors as `cpn_document` reads them to those that measure a run (`cpn_monitor`): each transition and
//! place by its number, each text an inscription over the variables of its transition; or to the first refusal. What a
//! flattened name names ([`NamedNet`]), and whether an inscription has no other variables than some ([`check_over`]),
//! is told by itself, too. The crate makes no net and no run, and reads and writes nothing outside the program.
#![tactic(auto)]

mod checking;
mod measures;
mod names;
mod refusals;
mod values;
mod variables;

pub use checking::{check_monitors, one_check};
pub use names::NamedNet;
pub use refusals::MonitorError;
pub use values::check_over;
