//! The work of a transition, and jobs.

use cpn_core::{ArcExpr, Element, Expr, Funs};
use std::sync::Arc;

/// An output arc, with what its tokens need.
#[derive(Drop)]
pub struct WorkArc {
    /// The number of the place.
    pub place: u32,
    /// Whether the place keeps time stamps.
    pub timed: bool,
    /// The arc's inscription.
    pub inscription: Arc<ArcExpr>,
}

/// What is left to do of a transition once an element of it is claimed. Its inscriptions are shared with the net.
///
/// Source: own choice.
#[derive(Drop)]
pub struct Work {
    /// The functions that the inscriptions may call.
    pub funs: Arc<Funs>,
    /// The delay of the transition, where one is written.
    pub delay: Option<Arc<Expr>>,
    /// The output arcs, in document order.
    pub outputs: Vec<WorkArc>,
}

/// An element that was claimed, the time at which it occurs, and the work of its transition.
///
/// Source: own choice.
#[derive(Drop)]
pub struct Job {
    /// The element.
    pub element: Arc<Element>,
    /// The time at which it occurs: at most 2^62.
    pub time: u64,
    /// What is left to do of its transition.
    pub work: Arc<Work>,
}
