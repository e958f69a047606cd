//! Enabled elements.

use crate::bindings::Element;
use crate::needs::Needs;
use std::sync::Arc;

/// An element, and the earliest time at which it is enabled.
#[derive(Drop)]
pub struct Entry {
    /// The least time, not before the clock, at which the element is covered.
    pub earliest: u64,
    /// The element, which may be shared.
    pub element: Arc<Element>,
}

/// An enabled element: its entry, and the tokens that it needs.
///
/// Source: own choice. A search evaluates the needs, so what is made of the element need not evaluate them again; and a job, a
/// log and an occurrence may share the element with the list that it stands in.
#[derive(Drop)]
pub struct EnabledElement {
    /// The element, and its earliest time.
    pub entry: Entry,
    /// What it needs.
    pub needs: Needs,
}

/// The elements of one transition that a search found, in order.
pub type Found = Vec<EnabledElement>;
