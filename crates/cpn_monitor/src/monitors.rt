//! What is to be measured of a run.

ghost use Rattle.std.specs.Prelude.{◌≡◌};
ghost use Rattle.cpn_monitor.specs.Looks.{looks_at};
ghost use Rattle.cpn_monitor.specs.Views.{look_view, measure_view};

use cpn_core::{Expr, Funs};
use std::sync::Arc;

/// Which numbers of tokens a monitor stops at.
#[derive(Clone, Copy, Debug, PartialEq, Eq)]
pub enum Bound {
    /// That many, or more.
    AtLeast,
    /// That many, or fewer.
    AtMost,
}

/// What a monitor measures, or after which occurrence it stops the run.
///
/// Source: the monitors of CPN Tools, as far as they count; what they print is our own choice.
#[derive(Drop)]
pub enum Measure {
    /// How often a transition occurs.
    Count {
        /// The number of the transition.
        transition: u32,
    },
    /// How many tokens a place has, from the start on.
    Size {
        /// The number of the place.
        place: u32,
    },
    /// The values of an inscription at the occurrences of a transition.
    Value {
        /// The number of the transition.
        transition: u32,
        /// An int inscription over variables of the transition.
        inscription: Expr,
    },
    /// It stops the run after so many occurrences of a transition.
    StopCount {
        /// The number of the transition.
        transition: u32,
        /// How many occurrences: 1 to 1,000,000.
        number: u64,
    },
    /// It stops the run after an occurrence that leaves so many tokens on a place.
    StopSize {
        /// The number of the place.
        place: u32,
        /// Whether it stops at that many or more, or at that many or fewer.
        bound: Bound,
        /// How many tokens: 0 to 2^62.
        number: u64,
    },
}

/// At what a monitor looks.
#[derive(Clone, Copy, Debug, PartialEq, Eq)]
pub(crate) enum Look {
    /// At the occurrences of the transition of this number.
    AtTransition(u32),
    /// At the tokens of the place of this number.
    AtPlace(u32),
}

impl Measure {
    /// At what it looks.
    pub(crate) fn looks_at(&self) -> Look
        ensures looks { look_view result ≡ looks_at (measure_view self.now) }
    {
        match self {
            Measure::Count { transition }
            | Measure::Value { transition, .. }
            | Measure::StopCount { transition, .. } => Look::AtTransition(*transition),
            Measure::Size { place } | Measure::StopSize { place, .. } => Look::AtPlace(*place),
        }
    }
}

/// A monitor.
#[derive(Drop)]
pub struct Monitor {
    /// Its name, which no other monitor of the document has.
    pub name: String,
    /// What it measures.
    pub measure: Measure,
}

/// The monitors of a document, in their order.
#[derive(Drop)]
pub struct Monitors {
    /// The functions that their inscriptions call: those of the net.
    pub funs: Arc<Funs>,
    /// The monitors.
    pub monitors: Vec<Monitor>,
}
