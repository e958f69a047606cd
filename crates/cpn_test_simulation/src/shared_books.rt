//! Books that seats share, call by call: each answer is that of the book at the turn.

ghost use Rattle.std.specs.Prelude.{◌≡◌, ◌<◌, ◌≤◌, IfOk};
ghost use Rattle.cpn_book.specs.Books.{IsBook};
ghost use Rattle.cpn_seats.specs.Seats.{IsSeatOf};
ghost use Rattle.cpn_seats.specs.Turns.{Opens};

use cpn_book::{Advanced, Book, Claimed, Completed, Evaluated};
use cpn_core::{Memory, Value};
use cpn_document::Start;
use cpn_edit::Session;
use cpn_file::load;
use cpn_seats::{Seat, SeatDesk, Split};
use cpn_tmset::Marking;
use std::alloc::Global;
use std::sync::Wait;
use std::test::Fail;

// Two tokens of A, of which t1 takes one with that of C; t0 puts one more there, stamped by the clock.
const STAMPED: &str =
    r#"{"version": 1, "declarations": ["colset T = int timed;", "var x, y : T;"], "top": "Top", "modules": [{"name": "Top", "places": [{"name": "A", "colour": "T", "initial": "1`7@0 ++ 1`7@3"}, {"name": "B", "colour": "T", "initial": "1`0@5"}, {"name": "C", "colour": "T", "initial": "1`0@5"}], "transitions": [{"name": "t0"}, {"name": "t1"}], "arcs": [{"place": "B", "transition": "t0", "to": "transition", "expr": "y"}, {"place": "A", "transition": "t0", "to": "place", "expr": "1`7"}, {"place": "A", "transition": "t1", "to": "transition", "expr": "x"}, {"place": "C", "transition": "t1", "to": "transition", "expr": "y"}]}]}"#;

// Three tokens of A, which t takes one by one.
const THREE_TOKENS: &str =
    r#"{"version": 1, "declarations": ["colset INT = int;", "var x : INT;"], "top": "Top", "modules": [{"name": "Top", "places": [{"name": "A", "colour": "INT", "initial": "3`7"}, {"name": "B", "colour": "INT"}], "transitions": [{"name": "t"}], "arcs": [{"place": "A", "transition": "t", "to": "transition", "expr": "x"}, {"place": "B", "transition": "t", "to": "place", "expr": "x"}]}]}"#;

// What two seats are told of the first net; then its events, and the later one of the stamps that are left on A.
const PLAYED: &str =
    "full with 2; nothing beside 0; at 5; claim 0 of t0; claim 1 of t1; done true; done true; dead true; [Move { time: 5 }, Claim { seat: 0, number: 0 }, Claim { seat: 1, number: 1 }, Done { seat: 1, number: 1 }, Done { seat: 0, number: 0 }] Some(3)";

// The book of a run of the net.
fn book_of(alloc: Global, net: &str, seed: u64, seats: u32) -> Result<Book, Fail>
    requires some_seat { 0 < seats }
    requires few_seats { seats ≤ 64 }
    ensures opens { IfOk result Opens }
{
    let loaded = load(alloc, net.as_bytes())?;
    let mut session = Session::new(alloc, loaded, seed, 10, 1 << 62, seats)?;
    let _start = session.next_phase()?;
    let (_, book) = session.begin(Start::Initial)?;
    Ok(book)
}

// The desk and its first seat.
fn opened(alloc: Global, book: Book) -> Result<(SeatDesk, Seat), Memory>
    requires opens { Opens book }
    ensures seat { IfOk result (λ opened. IsSeatOf opened.0 opened.1) }
{
    match SeatDesk::open(alloc, book) {
        Ok(opened) => Ok(opened),
        Err(_) => Err(Memory),
    }
}

// Splits a seat off, and writes how.
fn split(text: &mut String, rt: &impl Wait, desk: &SeatDesk, seat: &mut Seat) -> Result<(), Memory>
    requires { IsSeatOf desk.now seat.old }
    ensures { IsSeatOf desk.now seat.new }
{
    match desk.split(rt, seat) {
        Split::Seat(_) => text.push_str("a seat; ")?,
        Split::Full(given) => write!(text, "full with {given}; ")?,
        Split::Memory => text.push_str("memory; ")?,
    }
    Ok(())
}

// Writes the number of a claim, and its transition.
fn tell_claim(text: &mut String, done: &Evaluated) -> Result<(), Memory> {
    let number = done.number();
    let transition = done.job().element.transition;
    write!(text, "claim {number} of t{transition}; ")?;
    Ok(())
}

// Claims, and writes what; the evaluation of the claim.
fn claim(
    text: &mut String,
    rt: &impl Wait,
    desk: &SeatDesk,
    seat: &mut Seat,
) -> Result<Option<Evaluated>, Memory>
    requires { IsSeatOf desk.now seat.old }
    ensures { IsSeatOf desk.now seat.new }
{
    match desk.claim(rt, seat)? {
        Claimed::Ticket(ticket) => {
            let Ok(done) = ticket.evaluate() else {
                return Err(Memory);
            };
            tell_claim(text, &done)?;
            Ok(Some(done))
        }
        Claimed::Nothing { held } => {
            write!(text, "nothing beside {held}; ")?;
            Ok(None)
        }
        _ => Err(Memory),
    }
}

// Completes a claim, and writes whether it is done.
fn complete(
    text: &mut String,
    rt: &impl Wait,
    desk: &SeatDesk,
    seat: &mut Seat,
    done: Option<Evaluated>,
) -> Result<(), Memory>
    requires { IsSeatOf desk.now seat.old }
    ensures { IsSeatOf desk.now seat.new }
{
    if let Some(done) = done {
        let answer = desk.complete(rt, seat, done)?;
        let is_done = matches!(answer, Completed::Done);
        write!(text, "done {is_done}; ")?;
    }
    Ok(())
}

// Moves the clock, and writes to when.
fn advance(
    text: &mut String,
    rt: &impl Wait,
    desk: &SeatDesk,
    seat: &mut Seat,
) -> Result<(), Memory>
    requires { IsSeatOf desk.now seat.old }
    ensures { IsSeatOf desk.now seat.new }
{
    if let Advanced::Moved(time) = desk.advance(rt, seat) {
        write!(text, "at {time}; ")?;
    }
    Ok(())
}

// Two seats claim one after the other, and the later one completes first.
fn claim_both(
    text: &mut String,
    rt: &impl Wait,
    desk: &SeatDesk,
    first: &mut Seat,
    second: &mut Seat,
) -> Result<(), Memory>
    requires first { IsSeatOf desk.now first.old }
    requires second { IsSeatOf desk.now second.old }
    ensures first { IsSeatOf desk.now first.new }
    ensures second { IsSeatOf desk.now second.new }
{
    let zero = claim(text, rt, desk, first)?;
    let one = claim(text, rt, desk, second)?;
    complete(text, rt, desk, second, one)?;
    complete(text, rt, desk, first, zero)
}

// What two seats are told, of which there are no more: nothing is ready, the clock moves, and each has a claim.
fn play(
    text: &mut String,
    rt: &impl Wait,
    desk: &SeatDesk,
    first: &mut Seat,
    second: &mut Seat,
) -> Result<(), Memory>
    requires first { IsSeatOf desk.now first.old }
    requires second { IsSeatOf desk.now second.old }
    ensures first { IsSeatOf desk.now first.new }
    ensures second { IsSeatOf desk.now second.new }
{
    split(text, rt, desk, first)?;
    let none = claim(text, rt, desk, first)?;
    complete(text, rt, desk, first, none)?;
    advance(text, rt, desk, first)?;
    claim_both(text, rt, desk, first, second)
}

// Plays by two seats of a desk, and joins them; the book then.
fn played(text: &mut String, rt: &impl Wait, desk: SeatDesk, first: Seat) -> Result<Book, Memory>
    requires first { IsSeatOf desk first }
    ensures book { IfOk result IsBook }
{
    let mut first = first;
    let Split::Seat(mut second) = desk.split(rt, &mut first) else {
        return Err(Memory);
    };
    play(text, rt, &desk, &mut first, &mut second)?;
    desk.join(&mut first, second);
    Ok(desk.close(rt, first))
}

// Writes whether no element is enabled at any time, the events, and the later one of the stamps that are left on A.
fn tell_left(text: &mut String, book: &mut Book) -> Result<(), Memory>
    requires { IsBook book.old }
{
    let is_dead = matches!(book.advance(), Advanced::Dead);
    write!(text, "dead {is_dead}; ")?;
    if book.is_spent() {
        return Err(Memory);
    }
    let events = book.journal();
    write!(text, "{events:?} ")?;
    let later = later_stamp(book.settled());
    write!(text, "{later:?}")?;
    Ok(())
}

// The later one of two stamps of 7 on the first place.
fn later_stamp(marking: &Marking) -> Option<u64> {
    marking.get(0)?.stamp(&Value::Int(7), 1)
}

// Plays by two seats in the first net, and writes what they leave.
fn play_stamped(text: &mut String, rt: &impl Wait, alloc: Global) -> Result<(), Fail> {
    let (desk, first) = opened(alloc, book_of(alloc, STAMPED, 4, 2)?)?;
    let mut book = played(text, rt, desk, first)?;
    tell_left(text, &mut book)?;
    Ok(())
}

#[test]
fn two_seats_share_a_book(rt: HostRuntime) -> Result<(), Fail> {
    let mut text = String::new(rt.alloc());
    play_stamped(&mut text, &rt, rt.alloc())?;
    assert_eq!(rt; text.as_str(), PLAYED);
    Ok(())
}

// Splits three times.
fn split_thrice(
    text: &mut String,
    rt: &impl Wait,
    desk: &SeatDesk,
    seat: &mut Seat,
) -> Result<(), Memory>
    requires { IsSeatOf desk.now seat.old }
{
    split(text, rt, desk, seat)?;
    split(text, rt, desk, seat)?;
    split(text, rt, desk, seat)
}

#[test]
fn three_seats_are_given_and_no_more(rt: HostRuntime) -> Result<(), Fail> {
    let mut text = String::new(rt.alloc());
    let (desk, mut first) = opened(rt.alloc(), book_of(rt.alloc(), THREE_TOKENS, 0, 3)?)?;
    split_thrice(&mut text, &rt, &desk, &mut first)?;
    assert_eq!(rt; text.as_str(), "a seat; a seat; full with 3; ");
    Ok(())
}
