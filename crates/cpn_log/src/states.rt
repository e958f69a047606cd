//! How a claim stands.

use cpn_core::EvalFault;

/// How a claim stands.
///
/// Source: own choice.
#[derive(Clone, Copy, Debug, PartialEq, Eq)]
pub enum ClaimState {
    /// It is open: its outputs are still to come.
    Open,
    /// It is done with its outputs.
    Done,
    /// It is done with this fault of its outputs.
    Failed(EvalFault),
}
