//! The program for tests: it does one of three things that its words name, and prints what comes out.
//!
//! It plays a schedule: it makes its calls on the book of one run, one after another, and prints a table of what each answers and where the
//! run then stands. Several seats claim, complete and give back in whatever order the schedule says. Where it is asked for, an index follows
//! the run beside the book, and is held against what a search of the whole net finds anew.
//!
//! It plays a script, whose commands put tokens on the places of a net, take them, move the clock and set guards, and an index of what is
//! enabled follows. Others keep elements that belong to no net.
//!
//! It reads a text of the inscription language, and prints its tokens, its tree or its refusal.
//!
//! The program decides no rule of nets, runs and texts itself: what it prints is what the libraries answer, keep and find.
#![tactic(auto)]

mod answers;
mod calls;
mod commands;
mod declarations;
mod differences;
mod documents;
mod dues;
mod edited_nets;
mod ends;
mod forms;
mod hands;
mod held;
mod numbers;
mod patterns;
mod plays;
mod refusals;
mod rows;
mod scripts;
mod searches;
mod telling;
mod texts;
mod trees;
mod values;
mod words;

use crate::documents::{model_from, setup_from, text_from};
use crate::plays::Table;
use crate::refusals::Refusal;
use crate::scripts::played;
use crate::texts::{answered, kind_in};
use crate::words::options_from;
use cpn_io::{Stdin, Stdout, read_all, write_all};
use std::env;
use std::process::ExitCode;
use std::rt::{Env, Files};

fn main(rt: HostRuntime) -> ExitCode {
    match told_by(&rt) {
        Ok(told) => printed(&rt, &told, ExitCode::SUCCESS),
        Err(refusal) => match refusal.line(rt.alloc()) {
            Ok(line) => printed(&rt, &line, ExitCode::FAILURE),
            Err(_) => ExitCode::FAILURE,
        },
    }
}

/// The status, once the text is printed.
fn printed(rt: &(impl AllocGlobal + Print), text: &str, status: ExitCode) -> ExitCode {
    match write_all(&mut Stdout::new(rt), text.as_bytes()) {
        Ok(()) => status,
        Err(_) => ExitCode::FAILURE,
    }
}

/// What is told of the script, the text or the schedule that the words name.
fn told_by(rt: &(impl Env + Files + AllocGlobal + Input)) -> Result<String, Refusal> {
    let words = command_words(rt)?;
    if words.len() == 3 && words[0].as_str() == "script" {
        return script_told(rt, words[2].as_str(), words[1].as_str());
    }
    if words.len() >= 2 && words[0].as_str() == "text" {
        return text_told(rt, words[1].as_str(), &words[2..]);
    }
    let mut table = Table::new(rt.alloc());
    fill(rt, &words, &mut table)?;
    Ok(table.into_text())
}

/// What the commands of a script tell, which are made in the net of a document.
fn script_told(
    rt: &(impl Files + AllocGlobal),
    script: &str,
    net: &str,
) -> Result<String, Refusal> {
    let script = text_from(rt, script)?;
    let model = model_from(rt, net)?;
    Ok(played(rt.alloc(), model, &script)?)
}

/// The line that answers the text on standard input, as the kind of text that the word names, over the declarations.
fn text_told(
    rt: &(impl AllocGlobal + Input),
    kind: &str,
    declarations: &[String],
) -> Result<String, Refusal> {
    let Some(kind) = kind_in(kind) else {
        return Err(Refusal::Words);
    };
    let Ok(text) = read_all(rt.alloc(), &mut Stdin::new(rt)) else {
        return Err(Refusal::File);
    };
    let mut line = answered(rt.alloc(), kind, declarations, &text)?;
    line.push_str("\n")?;
    Ok(line)
}

/// Fills the table of the schedule that the words name, played on the net that they name.
fn fill(
    rt: &(impl Files + AllocGlobal),
    words: &[String],
    table: &mut Table,
) -> Result<(), Refusal> {
    let Some(options) = options_from(words) else {
        return Err(Refusal::Words);
    };
    if let Some(beside) = options.beside {
        table.bring(setup_from(rt, &options, beside)?)?;
    }
    let schedule = text_from(rt, options.schedule)?;
    let setup = setup_from(rt, &options, options.net)?;
    table.play(setup, options.is_indexed, &schedule)?;
    Ok(())
}

/// The words behind the program's name.
fn command_words(rt: &(impl Env + AllocGlobal)) -> Result<Vec<String>, Refusal> {
    let Ok(words) = env::args(rt) else {
        return Err(Refusal::Words);
    };
    Ok(words.skip(1).collect(rt.alloc())?)
}
