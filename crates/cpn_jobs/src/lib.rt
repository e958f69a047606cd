//! What is left to do of a transition once an element of it is claimed: a job has all that the evaluation of the element's
//! outputs needs, and so needs no net.
//!
//! The work of a transition is made once for a net and shared by the jobs of its elements. Two jobs are the same where all
//! their contents are. The crate knows nothing of markings, of claims or of runs.
#![tactic(auto)]

mod equality;
mod outputs;
mod sendable;
mod work;
mod works;

pub use work::{Job, Work, WorkArc};
pub use works::works_of;
