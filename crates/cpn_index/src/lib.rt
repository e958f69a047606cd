//! The index of enabled elements: what is enabled in a marking, kept in order, so that it follows a change of the marking by what the
//! change touches.
//!
//! An update takes the least times anew of the elements that wait for a told value, and searches for what a told value may enable.
#![tactic(auto)]

mod elements;
mod index;
mod readers;
mod retiming;
mod searching;
mod waiting;
mod watchers;

pub use index::Index;
