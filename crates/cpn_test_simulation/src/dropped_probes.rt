//! Probes that are handed in: how often they are dropped, and what their want of memory gives.

use crate::runs::simulated;
use cpn_core::{Memory, Occurrence, Text};
use cpn_floor::Open;
use cpn_probe::Probe;
use std::alloc::Global;
use std::sync::atomic::{AtomicU64, Ordering};
use std::sync::{Arc, Wait};
use std::test::Fail;
use std::thread::Threads;

// Wants memory at the note after so many, says nothing, and counts its drops.
struct Counted {
    left: u64,
    drops: Arc<AtomicU64, Global>,
}

impl Drop for Counted {
    fn drop(self) {
        let Counted { left: _, drops } = self;
        drops.fetch_add(1, Ordering::SeqCst);
    }
}

impl Probe for Counted {
    ghost use Rattle.std.specs.Prelude.{◌≡◌, []};

    ghost Notes = { λ before occurrence now. now.drops ≡ before.drops };

    ghost Reports = { λ state report. report ≡ [] };

    fn note(&mut self, _occurrence: &Occurrence) -> Result<(), Memory> {
        if self.left == 0 {
            return Err(Memory);
        }
        self.left -= 1;
        Ok(())
    }

    fn report(&self, out: &mut Text) -> Result<(), Memory> {
        out.push(b"")
    }
}

const THREE_TOKENS: &str =
    r#"{"version": 1, "declarations": ["colset INT = int;", "var x : INT;"], "top": "Top", "modules": [{"name": "Top", "places": [{"name": "A", "colour": "INT", "initial": "3`7"}, {"name": "B", "colour": "INT"}], "transitions": [{"name": "t"}], "arcs": [{"place": "A", "transition": "t", "to": "transition", "expr": "x"}, {"place": "B", "transition": "t", "to": "place", "expr": "x"}]}], "phases": [{"start": "initial"}, {"start": "initial"}]}"#;

// A probe that notes so many occurrences, and counts its drops there.
fn probes_of(
    alloc: Global,
    left: u64,
    drops: &Arc<AtomicU64, Global>,
) -> Result<Vec<Box<dyn Probe>>, Memory> {
    let drops = drops.clone()?;
    let probe: Box<dyn Probe> = Box::new(alloc, Counted { left, drops })?;
    let mut probes = Vec::new(alloc);
    probes.push(probe)?;
    Ok(probes)
}

// The status of the document with a probe that notes so many occurrences, how often it is dropped, and the last line that was written.
fn with_probe(
    rt: &(impl Threads + Wait + Sync),
    alloc: Global,
    document: &str,
    left: u64,
) -> Result<String, Memory> {
    let drops = Arc::new(alloc, AtomicU64::new(0))?;
    let probes = probes_of(alloc, left, &drops)?;
    let given = simulated(rt, alloc, &[], document, probes, &Open)?;
    let (status, written) = given.split_once(' ').unwrap_or(("", ""));
    let dropped = drops.load(Ordering::SeqCst);
    let last = written.lines().last().unwrap_or("nothing");
    Ok(format!(in alloc; "{status} {dropped} {last}")?)
}

// The document, how many occurrences are noted, and what is told: all of them, none, and no memory at the first note, in the second run
// and at the last note.
const TABLE: &[(&str, u64, &str)] = &[
    (THREE_TOKENS, 6, "0 1 total 6"),
    ("[", 6, "3 1 error document 1 not_json"),
    (THREE_TOKENS, 0, "8 1 nothing"),
    (THREE_TOKENS, 4, "8 1 nothing"),
    (THREE_TOKENS, 5, "8 1 nothing"),
];

#[test]
fn probes_are_dropped_once(rt: HostRuntime) -> Result<(), Fail> {
    for (document, left, wanted) in TABLE {
        assert_eq!(rt;
            with_probe(&rt, rt.alloc(), document, *left)?.as_str(),
            *wanted
        );
    }
    Ok(())
}
