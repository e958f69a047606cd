//! The stages in which the bindings of a transition are found: its binding terms, the equations of its guard, its variables
//! of small colour sets.
//!
//! `specs/` says what the stages are, which partial bindings they reach and how much they try, and `proofs/` has what
//! follows: the stages of a sound transition reach each binding with which it is covered. The crate has no function.
#![tactic(auto)]
