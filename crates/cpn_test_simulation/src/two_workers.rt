//! Two workers of one run: they hold claims at once.

use crate::runs::simulated;
use cpn_core::Memory;
use cpn_floor::Gate;
use std::alloc::Global;
use std::hint;
use std::sync::Wait;
use std::sync::atomic::{AtomicBool, Ordering};
use std::test::Fail;
use std::thread::Threads;

const THREE_TOKENS: &str =
    r#"{"version":1,"declarations":["colset INT = int;","var x : INT;"],"top":"Top","modules":[{"name":"Top","places":[{"name":"A","colour":"INT","initial":"3`7"},{"name":"B","colour":"INT"}],"transitions":[{"name":"t"}],"arcs":[{"place":"A","transition":"t","to":"transition","expr":"x"},{"place":"B","transition":"t","to":"place","expr":"x"}]}]}"#;

// How often a claim looks for the other one.
const MOST_LOOKS: u32 = 100_000_000;

// A claim at the gate: whether it has come, and whether it saw the other one come.
#[derive(Drop)]
struct Guest {
    came: AtomicBool,
    met: AtomicBool,
}

impl Guest {
    fn new() -> Guest {
        Guest {
            came: AtomicBool::new(false),
            met: AtomicBool::new(false),
        }
    }

    // Comes, and looks for the other one.
    fn meet(&self, other: &Guest) {
        self.came.store(true, Ordering::SeqCst);
        for _ in 0..MOST_LOOKS {
            if other.came.load(Ordering::SeqCst) {
                self.met.store(true, Ordering::SeqCst);
                return;
            }
            hint::spin_loop();
        }
    }
}

// A gate at which the claims 0 and 1 wait for each other.
#[derive(Drop)]
struct Meeting {
    first: Guest,
    second: Guest,
}

impl Gate for Meeting {
    fn pass(&self, claim: u64) {
        match claim {
            0 => self.first.meet(&self.second),
            1 => self.second.meet(&self.first),
            _ => {}
        }
    }
}

// The words for a run by two workers.
fn words_of(alloc: Global) -> Result<Vec<String>, Memory> {
    let mut words = Vec::new(alloc);
    for word in ["--workers", "2"] {
        words.push(String::from_str(alloc, word)?)?;
    }
    Ok(words)
}

// The status of the run by two workers who pass the gate, and what is written.
fn written(
    rt: &(impl Threads + Wait + Sync),
    alloc: Global,
    gate: &Meeting,
) -> Result<String, Memory> {
    let words = words_of(alloc)?;
    simulated(rt, alloc, &words, THREE_TOKENS, Vec::new(alloc), gate)
}

// The status, and whether the second claim stands ahead of the first completion.
fn order_in(given: &str) -> (&str, bool) {
    let (status, _) = given.split_once(" report").unwrap_or(("", ""));
    let (ahead, _) = given.split_once(" d0").unwrap_or(("", ""));
    (status, ahead.split_once(" c1").is_some())
}

#[test]
fn two_workers_hold_claims_at_once(rt: HostRuntime) -> Result<(), Fail> {
    let gate = Meeting {
        first: Guest::new(),
        second: Guest::new(),
    };
    let given = written(&rt, rt.alloc(), &gate)?;
    let met = gate.first.met.load(Ordering::SeqCst) && gate.second.met.load(Ordering::SeqCst);
    assert!(rt; met && order_in(&given) == ("0", true), "{given}");
    Ok(())
}
