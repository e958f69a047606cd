//! The log of a run: the claims in claim order, the marking that they leave, and the committed part with its marking.
//!
//! A claim takes its needs out of the unclaimed marking and is open; filled with its outputs, it adds them at its own place in
//! the claim order; a fault adds nothing; a cut removes the claims from a number on, and their tokens go back. A claim, a
//! completion and a cut tell which values on which places changed. Where all claims are committed, one call may make a claim,
//! complete it and commit it. The crate evaluates nothing, draws nothing, and knows neither what is
//! enabled nor why a claim is made or cut.
#![tactic(auto)]

mod claims;
mod exchanged;
mod filling;
mod gathered;
mod logs;
mod markings;
mod replay;
mod sendable;
mod settled;
mod states;
mod tokens;
mod touched;

pub use logs::Log;
pub use states::ClaimState;
