//! Claims of a log: one of two seats, in which the completion of the first claim changes which stamp the second one took; one that
//! is committed at once; and thousands.
ghost use Rattle.std.specs.Prelude.{◌≡◌, ℕ, ◌<◌, ◌≤◌, ◌+◌, [], length, true, IfOk, OnOk};
ghost use Rattle.std.specs.List.{AllByRecursion};
ghost use Rattle.cpn_definitions.specs.Marking.{tokens_at, AreSorted};
ghost use Rattle.cpn_log.specs.Kept.{IsKept};
ghost use Rattle.cpn_log.specs.LogViews.{log_view};

use crate::multisets::number_of;
use cpn_core::{Binding, Element, EvalFault, Funs, Made, Memory, Needed, Needs, Outputs, Value};
use cpn_jobs::{Job, Work};
use cpn_log::{ClaimState, Log};
use cpn_tmset::{Changes, Marking};
use std::alloc::Global;
use std::sync::Arc;
use std::test::Fail;

const MANY: u64 = 1_000_000;

const LAST: u64 = 4_611_686_018_427_387_904;

// 7 with stamp 0 on place 0, 8 with stamp 3 on place 1, 9 with stamp 0 on place 2.
fn marking(alloc: Global) -> Result<Marking, Memory>
    ensures sorted { IfOk result (λ m. (p : ℕ) → AreSorted (tokens_at m p)) }
    ensures few { IfOk result (λ m. (p : ℕ) → length (tokens_at m p) ≤ 3) }
{
    let outputs = outputs_on(alloc, 3, &[(0, 7, 0), (1, 8, 3), (2, 9, 0)])?;
    let mut marking = Marking::new(alloc, 3)?;
    marking.add_made(outputs)?;
    Ok(marking)
}

fn job_at(alloc: Global, time: u64) -> Result<Arc<Job>, Memory>
    ensures { IfOk result (λ job. job.value.time ≡ time) }
{
    let functions = Vec::new(alloc);
    let work = Work {
        funs: Arc::new(alloc, Funs { functions })?,
        delay: None,
        outputs: Vec::new(alloc),
    };
    let element = Element {
        transition: 0,
        binding: Binding::new(alloc),
    };
    let element = Arc::new(alloc, element)?;
    let work = Arc::new(alloc, work)?;
    let job = Arc::new(
        alloc,
        Job {
            element,
            time,
            work,
        },
    )?;
    Ok(job)
}

fn needs_of(alloc: Global, numbers: &[(u32, i64)]) -> Result<Needs, Memory> {
    let mut needs = Needs::new(alloc);
    for (place, number) in numbers {
        needs.add(Needed {
            place: *place,
            value: Value::Int(*number),
            offset: 0,
        })?;
    }
    Ok(needs)
}

// Claims numbers on places, at the least time at which they are covered; `None` where there is none.
fn claim(
    alloc: Global,
    log: &mut Log,
    seat: u32,
    numbers: &[(u32, i64)],
) -> Result<Option<Changes>, Memory>
    requires { IsKept (log_view log.old) }
    ensures { OnOk result (IsKept (log_view log.new)) }
{
    let needs = needs_of(alloc, numbers)?;
    let Some(time) = log.unclaimed().earliest(&needs) else {
        return Ok(None);
    };
    if log.len() >= MANY || time > LAST {
        return Ok(None);
    }
    let changes = log.push(seat, job_at(alloc, time)?, needs)?;
    Ok(Some(changes))
}

// Completes an open claim with a token, of which the place, the number and the stamp are told; `None` where it isn't open.
fn fill(
    alloc: Global,
    log: &mut Log,
    number: u64,
    token: (u32, i64, u64),
) -> Result<Option<Changes>, Memory>
    requires { IsKept (log_view log.old) }
    ensures { OnOk result (IsKept (log_view log.new)) }
{
    let (place, made, stamp) = token;
    if number >= log.len() || (place as usize) >= log.unclaimed().len() {
        return Ok(None);
    }
    let mut outputs = Outputs::new(alloc);
    outputs.add(Made {
        place,
        value: Value::Int(made),
        stamp,
    })?;
    match log.state(number) {
        ClaimState::Open => {
            let changes = log.fill(number, outputs)?;
            Ok(Some(changes))
        }
        ClaimState::Done => Ok(None),
        ClaimState::Failed(_) => Ok(None),
    }
}

// Adds a token, of which the place, the number and the stamp are told. One past the last place is left out.
fn add_on(outputs: &mut Outputs, places: usize, token: (u32, i64, u64)) -> Result<(), Memory>
    requires in_range { AllByRecursion (λ made. made.place < places) outputs.old }
    ensures in_range { OnOk result (AllByRecursion (λ made. made.place < places) outputs.new) }
    ensures few { OnOk result (length outputs.new ≤ length outputs.old + 1) }
{
    let (place, number, stamp) = token;
    if (place as usize) < places {
        outputs.add(Made {
            place,
            value: Value::Int(number),
            stamp,
        })?;
    }
    Ok(())
}

// Tokens on places. Those past the last place are left out.
fn outputs_on(alloc: Global, places: usize, tokens: &[(u32, i64, u64)]) -> Result<Outputs, Memory>
    ensures in_range { IfOk result (λ outputs. AllByRecursion (λ made. made.place < places) outputs) }
    ensures few { IfOk result (λ outputs. length outputs ≤ length tokens.now) }
{
    let mut outputs = Outputs::new(alloc);
    for token in tokens {
        add_on(&mut outputs, places, *token)?;
    }
    Ok(outputs)
}

// Whether no claim stands behind the committed ones.
fn all_are_committed(log: &Log) -> bool
    ensures { result ≡ true → (log_view log.now).claims ≡ [] }
{
    log.committed() == log.len()
}

// Takes numbers on places, at the least time at which they are covered, and puts up to 4 tokens in, as a claim that is committed at
// once, and what is told of that; `None` where they are covered at no time, or a claim stands behind the committed ones.
fn occur(
    alloc: Global,
    log: &mut Log,
    numbers: &[(u32, i64)],
    made: &[(u32, i64, u64)],
) -> Result<Option<Changes>, Memory>
    requires { IsKept (log_view log.old) }
    ensures { OnOk result (IsKept (log_view log.new)) }
{
    if !all_are_committed(log) || made.len() > 4 {
        return Ok(None);
    }
    let needs = needs_of(alloc, numbers)?;
    let Some(time) = log.unclaimed().earliest(&needs) else {
        return Ok(None);
    };
    if log.len() >= MANY || time > LAST {
        return Ok(None);
    }
    let outputs = outputs_on(alloc, log.unclaimed().len(), made)?;
    let changes = log.occur(0, job_at(alloc, time)?, &needs, outputs)?;
    Ok(Some(changes))
}

// Fails an open claim; whether it was open.
fn fail(log: &mut Log, number: u64) -> bool
    requires { IsKept (log_view log.old) }
    ensures { IsKept (log_view log.new) }
{
    if number >= log.len() {
        return false;
    }
    match log.state(number) {
        ClaimState::Open => {
            log.fail(number, EvalFault::DivideByZero);
            true
        }
        ClaimState::Done => false,
        ClaimState::Failed(_) => false,
    }
}

// Cuts at a claim that is not committed.
fn cut(log: &mut Log, number: u64) -> Result<Option<Changes>, Memory>
    requires { IsKept (log_view log.old) }
    ensures { OnOk result (IsKept (log_view log.new)) }
{
    if number < log.committed() || number > log.len() {
        return Ok(None);
    }
    let changes = log.cut(number)?;
    Ok(Some(changes))
}

// Fails an open claim, and cuts at it.
fn fail_and_cut(log: &mut Log, number: u64) -> Result<Option<Changes>, Memory>
    requires { IsKept (log_view log.old) }
    ensures { OnOk result (IsKept (log_view log.new)) }
{
    if fail(log, number) {
        cut(log, number)
    } else {
        Ok(None)
    }
}

// Writes the changes.
fn tell(text: &mut String, changes: &Option<Changes>) -> Result<(), Memory> {
    match changes {
        None => text.push_str("none ")?,
        Some(changes) => {
            for change in changes.items() {
                let place = change.place;
                let number = number_of(&change.value);
                write!(text, "{place}:{number} ")?;
            }
        }
    }
    Ok(())
}

// Writes the stamps of 7 on place 0.
fn tell_stamps(text: &mut String, marking: &Marking) -> Result<(), Memory> {
    for rank in 0..3 {
        if let Some(held) = marking.get(0) {
            if let Some(stamp) = held.stamp(&Value::Int(7), rank) {
                write!(text, "@{stamp} ")?;
            }
        }
    }
    text.push_str("| ")?;
    Ok(())
}

// Writes both markings, and whether the next claim joins the committed part.
fn show(text: &mut String, log: &mut Log) -> Result<(), Memory>
    requires { IsKept (log_view log.old) }
    ensures { OnOk result (IsKept (log_view log.new)) }
{
    tell_stamps(text, log.unclaimed())?;
    let committed = log.commit_one()?;
    write!(text, "{committed} ")?;
    tell_stamps(text, log.settled())
}

// Claims 9 on place 2, and puts it there again, so many times; how often the claim was committed.
fn go_round(alloc: Global, log: &mut Log, times: u64) -> Result<u64, Memory>
    requires { IsKept (log_view log.old) }
    ensures { OnOk result (IsKept (log_view log.new)) }
{
    let mut committed = 0;
    for number in 0..times {
        claim(alloc, log, 0, &[(2, 9)])?;
        fill(alloc, log, number, (2, 9, 0))?;
        if log.commit_one()? {
            committed = number + 1;
        }
    }
    Ok(committed)
}

// A call on a log.
#[derive(Clone, Copy)]
enum Call {
    // A claim of a seat, by numbers and their places.
    Claim(u32, &'static [(u32, i64)]),
    // The completion of a claim.
    Fill(u64, (u32, i64, u64)),
    // The failure of a claim, and a cut at it.
    Fail(u64),
    // A claim that is committed at once.
    Occur(&'static [(u32, i64)], &'static [(u32, i64, u64)]),
    // So many claims, each of which is committed.
    Round(u64),
    // A look at both markings, with a commit in between.
    Show,
    // How many claims there are, and how many of them are committed.
    Count,
}

// Makes a call, and writes what is told of it.
fn make(text: &mut String, alloc: Global, log: &mut Log, call: Call) -> Result<(), Memory>
    requires { IsKept (log_view log.old) }
    ensures { OnOk result (IsKept (log_view log.new)) }
{
    match call {
        Call::Claim(seat, numbers) => tell(text, &claim(alloc, log, seat, numbers)?),
        Call::Fill(number, token) => tell(text, &fill(alloc, log, number, token)?),
        Call::Fail(number) => tell(text, &fail_and_cut(log, number)?),
        Call::Occur(numbers, made) => tell(text, &occur(alloc, log, numbers, made)?),
        Call::Round(times) => push_number(text, go_round(alloc, log, times)?),
        Call::Show => show(text, log),
        Call::Count => {
            push_number(text, log.len())?;
            push_number(text, log.committed())
        }
    }
}

fn push_number(text: &mut String, number: u64) -> Result<(), Memory> {
    write!(text, "{number} ")?;
    Ok(())
}

// Makes calls, one after another.
fn make_all(text: &mut String, alloc: Global, log: &mut Log, calls: &[Call]) -> Result<(), Memory>
    requires { IsKept (log_view log.old) }
{
    for call in calls {
        make(text, alloc, log, *call)?;
    }
    Ok(())
}

// What is told of these calls on a log that begins with the marking.
fn told(alloc: Global, calls: &[Call]) -> Result<String, Memory> {
    let mut text = String::new(alloc);
    let mut log = Log::start(alloc, marking(alloc)?)?;
    make_all(&mut text, alloc, &mut log, calls)?;
    Ok(text)
}

const TABLE: &[(&[Call], &str)] = &[
    // A completion changes which stamp a later claim took.
    (
        &[
            Call::Claim(0, &[(2, 9)]),
            Call::Claim(1, &[(1, 8), (0, 7)]),
            Call::Show,
            Call::Fill(0, (0, 7, 2)),
            Call::Show,
            Call::Show,
            Call::Fail(1),
            Call::Show,
        ],
        "2:9 0:7 1:8 | false @0 | 0:7 @0 | true @0 @2 | @0 | false @0 @2 | 0:7 1:8 @0 @2 | false @0 @2 | ",
    ),
    // A claim is committed at once, between another one that is committed and one that is open: it takes the 7 that was there first, and
    // puts a later one in its place.
    (
        &[
            Call::Claim(0, &[(2, 9)]),
            Call::Fill(0, (0, 7, 2)),
            Call::Show,
            Call::Occur(&[(0, 7)], &[(0, 7, 4)]),
            Call::Show,
            Call::Claim(1, &[(0, 7)]),
            Call::Show,
            Call::Count,
        ],
        "2:9 0:7 @0 @2 | true @0 @2 | 0:7 @2 @4 | false @2 @4 | 0:7 @4 | false @2 @4 | 3 2 ",
    ),
    // Of four values on places one is taken, one is put back later, one is put back as it was, which is not told, and one is added.
    (
        &[Call::Occur(
            &[(0, 7), (1, 8), (2, 9)],
            &[(1, 8, 5), (2, 9, 0), (2, 10, 0)],
        )],
        "0:7 1:8 2:10 ",
    ),
    // Thousands of claims are committed.
    (&[Call::Round(3000), Call::Count], "3000 3000 3000 "),
];

#[test]
fn each_row_of_calls_is_told(rt: HostRuntime) -> Result<(), Fail> {
    for (calls, wanted) in TABLE {
        assert_eq!(rt; told(rt.alloc(), calls)?.as_str(), *wanted);
    }
    Ok(())
}
