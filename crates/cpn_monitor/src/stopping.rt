//! Which monitors stop a run.

ghost use Rattle.std.specs.Prelude.{◌≡◌};
ghost use Rattle.cpn_definitions.specs.Marking.{Marking as PlainMarking};
ghost use Rattle.cpn_monitor.specs.Noted.{stops_at};
ghost use Rattle.cpn_monitor.specs.Stops.{is_within};
ghost use Rattle.cpn_monitor.specs.Views.{bound_view, measure_view, measured_view, marked_view};

use crate::monitors::{Bound, Measure};
use crate::values::Measured;
use cpn_core::Occurrence;

impl Bound {
    /// Whether a number of tokens is one at which a monitor stops.
    fn is_met(self, number: u64, size: u64) -> bool
        ensures met { result ≡ is_within (bound_view self) number size }
    {
        match self {
            Bound::AtLeast => number <= size,
            Bound::AtMost => size <= number,
        }
    }
}

impl Measure {
    /// Whether the run stops after an occurrence that has been noted; what only measures stops nothing.
    pub(crate) fn stops(&self, measured: &Measured, occurrence: &Occurrence) -> bool
        ensures stops { (after : PlainMarking) → result ≡ stops_at (marked_view occurrence.now after) (measure_view self.now) (measured_view measured.now) }
    {
        match self {
            Measure::StopCount { transition, number } => match measured {
                Measured::StopCount { number: counted } => {
                    *transition == occurrence.element.transition && counted == number
                }
                Measured::Count { .. }
                | Measured::Size(_)
                | Measured::Value(_)
                | Measured::StopSize { .. } => false,
            },
            Measure::StopSize { bound, number, .. } => match measured {
                Measured::StopSize { last } => bound.is_met(*number, *last),
                Measured::Count { .. }
                | Measured::Size(_)
                | Measured::Value(_)
                | Measured::StopCount { .. } => false,
            },
            Measure::Count { .. } | Measure::Size { .. } | Measure::Value { .. } => false,
        }
    }
}
