//! Readings: what something, or a part of it, is read as: a value, or the first refusal.
//!
//! `specs/` defines readings, steps of a reading and lists that are read item by item, and `proofs/` has what
//! follows. The crate has no function, and knows neither what is read nor why it is refused.
#![tactic(auto)]
