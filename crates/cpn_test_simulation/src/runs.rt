//! A run of a document by the simulation.

use cpn_core::Memory;
use cpn_floor::Gate;
use cpn_io::{BytesSink, BytesSource};
use cpn_probe::Probe;
use cpn_simulation::simulate;
use std::alloc::Global;
use std::str;
use std::sync::Wait;
use std::thread::Threads;

/// The status of the run with these words, and what is written.
pub fn simulated(
    rt: &(impl Threads + Wait + Sync),
    alloc: Global,
    words: &[String],
    document: &str,
    probes: Vec<Box<dyn Probe>>,
    gate: &(impl Gate + Sync),
) -> Result<String, Memory> {
    let bytes = document.as_bytes().to_vec(alloc)?;
    let mut source = BytesSource::new(bytes, Vec::new(alloc), 64);
    let mut sink = BytesSink::new(alloc, Vec::new(alloc), 64, 4096)?;
    let status = simulate(rt, alloc, words, &mut source, &mut sink, probes, gate) as u8;
    let written = str::from_utf8(sink.bytes()).unwrap_or("no text");
    Ok(format!(in alloc; "{status} {written}")?)
}
