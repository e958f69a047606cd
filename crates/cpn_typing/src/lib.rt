//! Typing: which trees are accepted as inscriptions among the declared names, what each of them becomes, and
//! which refusal comes first.
//!
//! `specs/` has the rules and `proofs/` what follows from them: what is accepted has a meaning. The crate has
//! no function. It reads no text and evaluates nothing.
#![tactic(auto)]
