//! The options that the words of the program give.

ghost use Rattle.std.specs.Prelude.{◌≡◌, ◌≤◌, ◌⊎◌, [], Some, map, string_bytes, IfOk, OnOk, IfErr, false};
ghost use Rattle.std.specs.Option.{option_map};
ghost use Rattle.clap.specs.Words.{app_of, fault_of, found_of, matches_of, rows_of, rule_of};
ghost use Rattle.cpn_simulation.specs.Options.{command_line, number_of, number_option, option, mode_of, options_from, options_in, trace_in, trace_of, value_of};
ghost use Rattle.cpn_simulation.specs.OptionsView.{options_view};
ghost use Rattle.cpn_simulation.specs.Given.{HasValue, HasValues, IsNumberIn};
ghost use Rattle.cpn_simulation.specs.Words.{IsOfWords};

use crate::no_options::NoOptions;
use crate::options::{Mode, Options};
use clap::builder::ValueParser;
use clap::error::ErrorKind;
use clap::{Arg, ArgAction, ArgMatches, Command};
use cpn_report::Trace;
use std::alloc::{AllocError, Global};

/// An option whose value is a number.
#[derive(Clone, Copy)]
struct NumberOption {
    name: &'static str,
    least: u64,
    most: u64,
    default: &'static str,
}

const SEED: NumberOption = NumberOption {
    name: "seed",
    least: 0,
    most: u64::MAX,
    default: "0",
};

const WORKERS: NumberOption = NumberOption {
    name: "workers",
    least: 1,
    most: 64,
    default: "1",
};

const STEPS: NumberOption = NumberOption {
    name: "steps",
    least: 1,
    most: 1_000_000,
    default: "1000",
};

const UNTIL: NumberOption = NumberOption {
    name: "until",
    least: 0,
    most: 1 << 62,
    default: "4611686018427387904",
};

/// The options that the words give, or that they are refused.
#[tactic(auto, unfolding(crate::specs::Options::options_from))]
pub fn options_from(alloc: Global, words: &[String]) -> Result<Options, NoOptions>
    ensures options { IfOk result (λ options. options_from (map string_bytes words.now) ≡ Some (options_view options)) }
    ensures cause { IfErr result (λ reason. IsOfWords reason (map string_bytes words.now)) }
{
    let matches = matches_of(alloc, words)?;
    match options_in(&matches) {
        Some(options) => Ok(options),
        None => Err(NoOptions::Refused),
    }
}

/// The matches of the words by the command line, or that it refuses them.
fn matches_of<'a>(alloc: Global, words: &'a [String]) -> Result<ArgMatches<'a>, NoOptions>
    ensures accepted { OnOk result (fault_of command_line (map string_bytes words.entry.now) ≡ []) }
    ensures matches { IfOk result (λ m. rows_of (found_of m) ≡ matches_of command_line (map string_bytes words.entry.now)) }
    ensures values { IfOk result (λ m. HasValues m) }
    ensures cause { IfErr result (λ reason. IsOfWords reason (map string_bytes words.entry.now)) }
{
    let Ok(command) = command_line(alloc) else {
        return Err(NoOptions::Memory);
    };
    match command.try_get_matches_from(words) {
        Ok(matches) => Ok(matches),
        Err(error) => Err(reason_of(error.kind())),
    }
}

/// What an error of the parse refuses: the words, but for want of memory.
fn reason_of(kind: ErrorKind) -> NoOptions
    ensures memory { kind ≡ ErrorKind.OutOfMemory → result ≡ NoOptions.Memory }
    ensures words { (result ≡ NoOptions.Refused) ⊎ (kind ≡ ErrorKind.OutOfMemory) }
{
    match kind {
        ErrorKind::OutOfMemory => NoOptions::Memory,
        _ => NoOptions::Refused,
    }
}

/// The command line: its options, each with a default.
fn command_line<'a>(alloc: Global) -> Result<Command<'a>, AllocError>
    ensures { IfOk result (λ command. app_of command ≡ command_line) }
{
    let command = Command::new(alloc, "cpn_sim")
        .no_binary_name(true)
        .disable_help_flag(true)
        .arg(word_option(alloc, "mode", "run"))?
        .arg(number_option(alloc, SEED))?
        .arg(number_option(alloc, WORKERS))?
        .arg(number_option(alloc, STEPS))?
        .arg(number_option(alloc, UNTIL))?
        .arg(word_option(alloc, "trace", "on"))?;
    Ok(command)
}

/// An option whose value is a word.
fn word_option<'a>(alloc: Global, name: &'a str, default: &'a str) -> Arg<'a>
    ensures rule { rule_of result ≡ option name.entry.now default.entry.now }
    ensures local { result.global ≡ false }
{
    Arg::new(alloc, name)
        .long(name)
        .action(ArgAction::Set)
        .default_value(default)
}

/// The option as clap reads it.
fn number_option<'a>(alloc: Global, option: NumberOption) -> Arg<'a>
    ensures rule { rule_of result ≡ number_option option.name.now option.least option.most option.default.now }
    ensures local { result.global ≡ false }
{
    word_option(alloc, option.name, option.default).value_parser(ValueParser::unsigned(
        option.least,
        option.most,
    ))
}

/// The options that the matches give: `None` where the mode or the trace has another name.
#[tactic(auto, unfolding(crate::specs::Options::options_in))]
fn options_in(matches: &ArgMatches<'_>) -> Option<Options>
    requires { HasValues matches.now }
    ensures { option_map options_view result ≡ options_in (rows_of (found_of matches.now)) }
{
    let mode = mode_of(word_of(matches, "mode"))?;
    let trace = trace_of(word_of(matches, "trace"))?;
    Some(Options {
        mode,
        seed: number_of(matches, SEED),
        workers: number_of(matches, WORKERS),
        steps: number_of(matches, STEPS),
        until: number_of(matches, UNTIL),
        trace: trace_in(mode, trace),
    })
}

/// The value of the option as it is written.
fn word_of<'a>(matches: &ArgMatches<'a>, name: &str) -> &'a str
    requires { HasValue matches.now name.now }
    ensures { result.now ≡ value_of name.now (rows_of (found_of matches.now)) }
{
    matches.get_str(name).unwrap()
}

/// The value of the option, which is in its range.
fn number_of(matches: &ArgMatches<'_>, option: NumberOption) -> u64
    requires { IsNumberIn option.least option.most matches.now option.name.now }
    ensures value { result ≡ number_of option.name.now (rows_of (found_of matches.now)) }
    ensures within { (option.least ≤ result) × (result ≤ option.most) }
{
    matches.get_one::<u64>(option.name).unwrap()
}

/// What the program does, by its name: `run` or `large`.
#[tactic(auto, unfolding(crate::specs::Options::mode_of))]
fn mode_of(name: &str) -> Option<Mode>
    ensures { result ≡ mode_of name.now }
{
    match name {
        "run" => Some(Mode::Run),
        "large" => Some(Mode::Large),
        _ => None,
    }
}

/// Which lines are told in the mode, where this trace is asked for.
#[tactic(auto, unfolding(crate::specs::Options::trace_in))]
fn trace_in(mode: Mode, trace: Trace) -> Trace
    ensures { result ≡ trace_in mode trace }
{
    match mode {
        Mode::Run => trace,
        Mode::Large => Trace::Brief,
    }
}

/// Whether the trace is told, by its name: `on` or `off`.
#[tactic(auto, unfolding(crate::specs::Options::trace_of))]
fn trace_of(name: &str) -> Option<Trace>
    ensures { result ≡ trace_of name.now }
{
    match name {
        "on" => Some(Trace::On),
        "off" => Some(Trace::Off),
        _ => None,
    }
}
