//! Why a text of the inscription language is refused, whatever it is a text of: an inscription, a declaration, a monitor or an edit.
//!
//! `specs/` says it. The crate has no function, and knows neither documents nor nets.
#![tactic(auto)]
