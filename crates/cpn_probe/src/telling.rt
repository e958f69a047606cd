// Telling probes occurrences.
ghost use Rattle.std.specs.Prelude.{map, OnOk, OnErr};
ghost use Rattle.cpn_core.specs.Occurrences.{occurrence_view};
ghost use Rattle.cpn_probe.specs.Told.{IsTold, IsToldPrefix, AreTold, AreToldPrefixes};

use crate::probes::Probe;
use cpn_core::{Memory, Occurrence};

/// Tells each probe each occurrence once, in order.
///
/// # Errors
///
/// `Memory` where a probe wants memory; each probe has then been told the first of the occurrences, up to some number of them.
pub fn tell_all<P: Probe>(probes: &mut Vec<P>, occurrences: &[Occurrence]) -> Result<(), Memory>
    ensures told { OnOk result (AreTold P.Notes probes.old.items (map occurrence_view occurrences.now) probes.new.items) }
    ensures prefix { OnErr result (AreToldPrefixes P.Notes probes.old.items (map occurrence_view occurrences.now) probes.new.items) }
{
    tell_each(probes.as_mut_slice(), occurrences)
}

fn tell_each<P: Probe>(probes: &mut [P], occurrences: &[Occurrence]) -> Result<(), Memory>
    ensures told { OnOk result (AreTold P.Notes probes.old (map occurrence_view occurrences.now) probes.new) }
    ensures prefix { OnErr result (AreToldPrefixes P.Notes probes.old (map occurrence_view occurrences.now) probes.new) }
{
    for number in 0..probes.len() {
        tell(&mut probes[number], occurrences)?;
    }
    Ok(())
}

fn tell<P: Probe>(probe: &mut P, occurrences: &[Occurrence]) -> Result<(), Memory>
    ensures told { OnOk result (IsTold P.Notes probe.old (map occurrence_view occurrences.now) probe.new) }
    ensures prefix { OnErr result (IsToldPrefix P.Notes probe.old (map occurrence_view occurrences.now) probe.new) }
{
    for occurrence in occurrences {
        probe.note(occurrence)?;
    }
    Ok(())
}
