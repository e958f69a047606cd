// A box of a probe is a probe: it is told what the probe in it is told.
ghost use Rattle.cpn_probe.specs.Boxed.{Boxed};

use crate::probes::Probe;
use cpn_core::{Memory, Occurrence, Text};

impl Probe for Box<dyn Probe> {
    ghost Notes = { Boxed (λ probe. (Probe-box probe).Notes probe.value) };

    ghost Reports = { λ probe. (Probe-box probe).Reports probe.value };

    fn note(&mut self, occurrence: &Occurrence) -> Result<(), Memory> {
        (**self).note(occurrence)
    }

    fn report(&self, out: &mut Text) -> Result<(), Memory> {
        (**self).report(out)
    }
}
