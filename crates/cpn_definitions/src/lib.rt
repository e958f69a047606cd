//! The definitions of the simulator: values and their order, colour sets, nets, markings, the
//! occurrence rule and legal occurrence sequences, on plain lists and numbers.
//!
//! The crate has definitions (`specs/`) and laws about them (`proofs/`) and no function. It knows
//! nothing of how the program keeps a value, a marking or a list of enabled bindings.
#![tactic(auto)]
