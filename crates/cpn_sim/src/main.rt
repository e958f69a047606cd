//! The program: the words of the command line and standard input in, a report or one error line on standard output.
//!
//! `main` hands `simulate` the words, the standard streams, two probes of its own and the open gate, and ends with the exit status of the answer.
//! All else is `cpn_simulation`.
#![tactic(auto)]

mod moments;
mod streaks;

use crate::moments::Moments;
use crate::streaks::Streak;
use cpn_core::Memory;
use cpn_floor::Open;
use cpn_io::{Stdin, Stdout};
use cpn_probe::Probe;
pub use cpn_simulation::{
    Mode, NoOptions, Options, Status, accepted_runs, exit_code, options_from, refuse_words,
    simulate,
};
use std::process::ExitCode;
use std::rt::Env;
use std::sync::Wait;
use std::thread::Threads;
use std::{env, io};

fn main(rt: HostRuntime) -> ExitCode {
    let status = run(&rt).unwrap_or(Status::Memory);
    exit_code(status)
}

/// Simulates standard input under the words of the command line, with the probes of the program, to standard output.
fn run(
    rt: &(impl Env + AllocGlobal + Input + Print + Threads + Wait + Sync),
) -> Result<Status, Memory> {
    let words = match command_words(rt) {
        Ok(words) => words,
        Err(error) if error.kind() == io::ErrorKind::OutOfMemory => return Err(Memory),
        Err(_) => return Ok(refuse_words(&mut Stdout::new(rt))),
    };
    let alloc = rt.alloc();
    let mut probes: Vec<Box<dyn Probe>> = Vec::with_capacity(alloc, 2)?;
    probes.push(Box::new(alloc, Moments::new(alloc))?)?;
    probes.push(Box::new(alloc, Streak::new(alloc))?)?;
    Ok(simulate(
        rt,
        alloc,
        words.as_slice(),
        &mut Stdin::new(rt),
        &mut Stdout::new(rt),
        probes,
        &Open,
    ))
}

/// The words after the program's name.
fn command_words(rt: &(impl Env + AllocGlobal)) -> io::Result<Vec<String>> {
    Ok(env::args(rt)?.skip(1).collect(rt.alloc())?)
}
