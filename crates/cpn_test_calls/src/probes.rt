//! Probes that are told runs, one of which may want memory in the middle, and what they report.

use cpn_core::{Binding, Element, Memory, Occurrence, Text};
use cpn_probe::{Probe, report_all, tell_all};
use std::alloc::Global;
use std::str;
use std::sync::Arc;
use std::test::Fail;

// Keeps the last digit of the number of each occurrence that it is told, up to so many of them, and wants memory for the next one.
#[derive(Drop)]
struct Keeper {
    digits: Text,
    left: u64,
}

impl Probe for Keeper {
    ghost use Rattle.std.specs.Prelude.{◌≡◌, [], ◌∷◌, ◌+◌, ◌%◌, ◌++◌};

    ghost Notes = { λ before occurrence now. now.digits ≡ before.digits ++ (48 + occurrence.number % 10) ∷ [] };

    ghost Reports = { λ state report. report ≡ state.digits };

    fn note(&mut self, occurrence: &Occurrence) -> Result<(), Memory> {
        if self.left == 0 {
            return Err(Memory);
        }
        self.digits.push(&[b'0' + (occurrence.number % 10) as u8])?;
        self.left -= 1;
        Ok(())
    }

    fn report(&self, out: &mut Text) -> Result<(), Memory> {
        out.push(self.digits.bytes())
    }
}

// The occurrence of a number, of transition 0, at twice the number.
fn occurrence(alloc: Global, number: u32) -> Result<Occurrence, Memory> {
    let element = Element {
        transition: 0,
        binding: Binding::new(alloc),
    };
    let number = u64::from(number);
    Ok(Occurrence {
        number,
        time: 2 * number,
        element: Arc::new(alloc, element)?,
    })
}

// So many occurrences, at the times 0, 2, 4 and so on.
fn run_of(alloc: Global, length: u32) -> Result<Vec<Occurrence>, Memory> {
    let mut occurrences = Vec::new(alloc);
    for number in 0..length {
        occurrences.push(occurrence(alloc, number)?)?;
    }
    Ok(occurrences)
}

// Whether the probes are told all of a run of this length.
fn are_told(alloc: Global, probes: &mut Vec<Box<dyn Probe>>, length: u32) -> Result<bool, Memory> {
    let run = run_of(alloc, length)?;
    Ok(tell_all(probes, &run).is_ok())
}

// Writes the reports of the probes.
fn push_reports(text: &mut String, alloc: Global, probes: &[Box<dyn Probe>]) -> Result<(), Memory> {
    for report in &report_all(alloc, probes)? {
        let report = str::from_utf8(report.bytes()).unwrap_or("no text");
        write!(text, "{report}; ")?;
    }
    Ok(())
}

// Writes whether probes with these limits are told runs of these lengths, one after another, and then their reports.
fn tell_probes(
    text: &mut String,
    alloc: Global,
    limits: &[u64],
    lengths: &[u32],
) -> Result<(), Memory> {
    let mut probes: Vec<Box<dyn Probe>> = Vec::new(alloc);
    for left in limits {
        let digits = Text::new(alloc);
        let left = *left;
        probes.push(Box::new(alloc, Keeper { digits, left })?)?;
    }
    for length in lengths {
        let is_told = are_told(alloc, &mut probes, *length)?;
        text.push_str(if is_told { "told; " } else { "memory; " })?;
    }
    push_reports(text, alloc, &probes)
}

// What probes with these limits are told of runs of these lengths, and what they report.
fn told_of_probes(alloc: Global, limits: &[u64], lengths: &[u32]) -> Result<String, Memory> {
    let mut text = String::new(alloc);
    tell_probes(&mut text, alloc, limits, lengths)?;
    Ok(text)
}

/// How many occurrences each probe keeps, how long the runs are, and what is told then.
const TABLE: &[(&[u64], &[u32], &str)] = &[
    (
        &[99, 99],
        &[3, 12],
        "told; told; 012012345678901; 012012345678901; ",
    ),
    (&[], &[3], "told; "),
    (&[99], &[], "; "),
    // The second of three probes wants memory at its second occurrence, and the third one is told none.
    (&[99, 1, 99], &[3], "memory; 012; 0; ; "),
];

#[test]
fn each_probe_is_told_each_occurrence_and_reports(rt: HostRuntime) -> Result<(), Fail> {
    for (limits, lengths, wanted) in TABLE {
        assert_eq!(rt;
            told_of_probes(rt.alloc(), limits, lengths)?.as_str(),
            *wanted
        );
    }
    Ok(())
}
