//! The longest stretch of occurrences of one transition, as a probe finds it.

ghost use Rattle.std.specs.Prelude.{◌≡◌};
ghost use Rattle.cpn_sim.specs.ProbeViews.{streak_view};
ghost use Rattle.cpn_sim.specs.Probing.{no_streak};

use cpn_core::{Memory, Occurrence, Text};
use cpn_probe::Probe;
use std::alloc::Global;

/// A probe that keeps the length of the longest stretch of occurrences of one transition: 0 where it was told none. It reports `streak N`.
#[derive(Drop)]
pub struct Streak {
    alloc: Global,
    longest: u64,
    length: u64,
    transition: Option<u32>,
}

impl Streak {
    /// One that was told no occurrence.
    pub fn new(alloc: Global) -> Streak
        ensures none { streak_view result ≡ no_streak }
    {
        Streak {
            alloc,
            longest: 0,
            length: 0,
            transition: None,
        }
    }
}

impl Probe for Streak {
    ghost use Rattle.std.specs.Prelude.{◌≡◌, ◌++◌, codes};
    ghost use Rattle.std.specs.Fmt.{decimal};
    ghost use Rattle.cpn_sim.specs.ProbeViews.{streak_view};
    ghost use Rattle.cpn_sim.specs.Probing.{streak_after};

    ghost Notes = { λ before occurrence now. streak_view now ≡ streak_after (streak_view before) occurrence };

    ghost Reports = { λ state report. report ≡ codes "streak " ++ decimal (streak_view state).longest };

    fn note(&mut self, occurrence: &Occurrence) -> Result<(), Memory> {
        let transition = occurrence.element.transition;
        self.length = if self.transition == Some(transition) {
            self.length.saturating_add(1)
        } else {
            1
        };
        self.longest = self.longest.max(self.length);
        self.transition = Some(transition);
        Ok(())
    }

    fn report(&self, out: &mut Text) -> Result<(), Memory> {
        let report = format!(in self.alloc; "streak {}", self.longest)?;
        out.push(report.as_bytes())
    }
}
