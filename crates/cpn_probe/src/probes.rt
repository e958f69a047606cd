// What a probe is, and what its calls promise.
ghost use Rattle.std.specs.Prelude.{◌≡◌, ℕ, List, OnOk, OnErr};
ghost use Rattle.cpn_core.specs.Occurrences.{occurrence_view};
ghost use Rattle.cpn_definitions.specs.Legal.{PlainOccurrence};
ghost use Rattle.cpn_probe.specs.Reported.{Adds};

use cpn_core::{Memory, Occurrence, Text};

/// An observer of a simulation run, which is told occurrences and asked for a report. The state of a probe is what a clause sees
/// of it.
pub trait Probe: Drop {
    /// The probe's own relation: an occurrence that it notes in one state may lead to another.
    ghost Notes: { Self → PlainOccurrence → Self → Type 0 };

    /// What the probe may report of a state: the bytes of a text.
    ghost Reports: { Self → List ℕ → Type 0 };

    /// Notes an occurrence.
    ///
    /// # Errors
    ///
    /// `Memory` where memory is wanted; the probe is then as it was.
    fn note(&mut self, occurrence: &Occurrence) -> Result<(), Memory>
        ensures noted { OnOk result (Notes self.old (occurrence_view occurrence.now) self.new) }
        ensures unchanged { OnErr result (self.new ≡ self.old) };

    /// Appends its report to a text. The probe stays as it is.
    ///
    /// # Errors
    ///
    /// `Memory` where memory is wanted; what the text then is, is not said.
    fn report(&self, out: &mut Text) -> Result<(), Memory>
        ensures { OnOk result (Adds (Reports self.now) out.old out.new) };
}
