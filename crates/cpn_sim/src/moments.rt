//! How many moments of time had occurrences, as a probe counts them.

ghost use Rattle.std.specs.Prelude.{◌≡◌};
ghost use Rattle.cpn_sim.specs.ProbeViews.{moments_view};
ghost use Rattle.cpn_sim.specs.Probing.{no_moments};

use cpn_core::{Memory, Occurrence, Text};
use cpn_probe::Probe;
use std::alloc::Global;

/// A probe that counts the occurrences whose time differs from that of the one before, the first one included: as the times of a run never
/// fall, how many times it had occurrences at. It reports `moments N`.
#[derive(Drop)]
pub struct Moments {
    alloc: Global,
    count: u64,
    latest: Option<u64>,
}

impl Moments {
    /// One that was told no occurrence.
    pub fn new(alloc: Global) -> Moments
        ensures none { moments_view result ≡ no_moments }
    {
        Moments {
            alloc,
            count: 0,
            latest: None,
        }
    }
}

impl Probe for Moments {
    ghost use Rattle.std.specs.Prelude.{◌≡◌, ◌++◌, codes};
    ghost use Rattle.std.specs.Fmt.{decimal};
    ghost use Rattle.cpn_sim.specs.ProbeViews.{moments_view};
    ghost use Rattle.cpn_sim.specs.Probing.{moments_after};

    ghost Notes = { λ before occurrence now. moments_view now ≡ moments_after (moments_view before) occurrence };

    ghost Reports = { λ state report. report ≡ codes "moments " ++ decimal (moments_view state).count };

    fn note(&mut self, occurrence: &Occurrence) -> Result<(), Memory> {
        if self.latest != Some(occurrence.time) {
            self.count = self.count.saturating_add(1);
        }
        self.latest = Some(occurrence.time);
        Ok(())
    }

    fn report(&self, out: &mut Text) -> Result<(), Memory> {
        let report = format!(in self.alloc; "moments {}", self.count)?;
        out.push(report.as_bytes())
    }
}
