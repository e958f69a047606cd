//! Occurrences.

use crate::bindings::Element;
use std::sync::Arc;

/// An occurrence of a binding element.
///
/// Source: Jensen and Kristensen, chapter 11; that occurrences have numbers is our own choice.
#[derive(Drop)]
pub struct Occurrence {
    /// Its number among the occurrences of a run, from 0.
    pub number: u64,
    /// The time at which it occurs: 0 to 2^62.
    pub time: u64,
    /// What occurs. It may be shared.
    pub element: Arc<Element>,
}
