//! What is measured where nothing has occurred yet.

ghost use Rattle.std.specs.Prelude.{◌≡◌, ◌≤◌};
ghost use Rattle.cpn_definitions.specs.Inscription.{Functions};
ghost use Rattle.cpn_definitions.specs.Times.{last_time};
ghost use Rattle.cpn_monitor.specs.MonitorValues.{measured};
ghost use Rattle.cpn_monitor.specs.Noted.{MayLook};
ghost use Rattle.cpn_monitor.specs.MeasuredRuns.{begun};
ghost use Rattle.cpn_monitor.specs.Views.{measure_view, measured_view};

use crate::monitors::Measure;
use crate::values::{Integers, Measured, Sizes};
use cpn_tmset::Marking;

impl Measure {
    /// What is measured of a run that has begun at a marking and a clock.
    pub(crate) fn at_start(&self, marking: &Marking, clock: u64) -> Measured
        requires seen { MayLook marking.now (measure_view self.now) }
        requires in_time { clock ≤ last_time }
        ensures started { (funs : Functions) → measured_view result ≡ measured funs (begun marking.now clock) (measure_view self.now) }
    {
        match self {
            Measure::Count { .. } => Measured::Count { number: 0 },
            Measure::Size { place } => {
                let size = marking.place(*place).total();
                Measured::Size(Sizes {
                    least: size,
                    greatest: size,
                    last: size,
                    sum: 0,
                    until: clock,
                })
            }
            Measure::Value { .. } => Measured::Value(Integers {
                count: 0,
                sum: 0,
                least: None,
                greatest: None,
                faulted: 0,
            }),
            Measure::StopCount { .. } => Measured::StopCount { number: 0 },
            Measure::StopSize { place, .. } => Measured::StopSize {
                last: marking.place(*place).total(),
            },
        }
    }
}
