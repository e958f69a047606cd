//! A run by workers, who share its book.

ghost use Rattle.std.specs.Prelude.{◌≡◌, ◌≢◌, ◌<◌, ◌≤◌, [], map, Option, IfOk, vec_len, vec_capacity};
ghost use Rattle.cpn_book.specs.Books.{setup_in, journal_in, entered_in, IsBook};
ghost use Rattle.cpn_book.specs.Seen.{Seen, seen_in, IsLater, Later};
ghost use Rattle.cpn_runs.specs.FinishedViews.{setup_view, finished_view};
ghost use Rattle.cpn_runs.specs.Run.{IsRun};
ghost use Rattle.cpn_runs.specs.State.{wants_memory};
ghost use Rattle.cpn_seats.specs.Seats.{IsSeatOf, seen_of};
ghost use Rattle.cpn_simulation.specs.SharedBooks.{AreSeatsOf, HaveSeen};

use cpn_book::Book;
use cpn_core::Memory;
use cpn_floor::{Gate, crew};
use cpn_runs::{End, Finished};
use cpn_seats::{Seat, SeatDesk, SeatHandle, Split};
use std::alloc::Global;
use std::sync::Wait;
use std::thread::Threads;

/// The run of a book that was just begun: workers drive it, one at each of its seats, and what they leave is taken to its end. Each worker
/// passes the gate with its claims.
///
/// # Errors
///
/// `Memory` where memory is wanted, also by a worker, who then gives its claim back.
pub(crate) fn run_by_workers<G: Gate + Sync, R: Threads + Wait + Sync>(
    rt: &R,
    alloc: Global,
    book: Book,
    gate: &G,
) -> Result<Finished, Memory>
    requires kept { IsBook book }
    requires begun { journal_in book ≡ [] }
    requires none_entered { entered_in book ≡ 0 }
    ensures setup { IfOk result (λ f. setup_view f.setup ≡ setup_in book) }
    ensures run { IfOk result (λ f. IsRun (setup_in book) (finished_view f)) }
    ensures ends_otherwise { IfOk result (λ f. (finished_view f).cause ≢ wants_memory) }
{
    let finished = by_workers(rt, alloc, book, gate)?.run_alone()?;
    if let End::Memory = finished.cause {
        return Err(Memory);
    }
    Ok(finished)
}

/// The book as its workers leave it. It is as it was where its run has one seat, and where memory for sharing it is wanted.
fn by_workers<G: Gate + Sync, R: Threads + Wait + Sync>(
    rt: &R,
    alloc: Global,
    book: Book,
    gate: &G,
) -> Result<Book, Memory>
    requires kept { IsBook book }
    requires begun { journal_in book ≡ [] }
    requires none_entered { entered_in book ≡ 0 }
    ensures kept { IfOk result (λ left. IsBook left) }
    ensures later { IfOk result (λ left. IsLater (seen_in book) (seen_in left)) }
{
    let seats = book.setup().limits.seats;
    if seats < 2 {
        return Ok(book);
    }
    let mut handles = Vec::new(alloc);
    let Ok(()) = handles.reserve(seats as usize) else {
        return Ok(book);
    };
    let (desk, seat) = match SeatDesk::open(alloc, book) {
        Ok(opened) => opened,
        Err(book) => return Ok(book),
    };
    let mut handles = seated(rt, &desk, seat, seats, handles)?;
    crew(rt, &mut handles, gate);
    let seat = joined(&desk, handles);
    Ok(desk.close(rt, seat))
}

// The handles of so many seats, while the run has one: those that are split off from the first, and last that of the first.
fn seated<'a, R: Wait>(
    rt: &'a R,
    desk: &'a SeatDesk,
    first: Seat,
    seats: u32,
    handles: Vec<SeatHandle<'a, R>>,
) -> Result<Vec<SeatHandle<'a, R>>, Memory>
    requires first { IsSeatOf desk.now first }
    requires empty { handles.items ≡ [] }
    requires some { 0 < seats }
    requires room { seats ≤ vec_capacity handles }
    ensures some { IfOk result (λ handles. 0 < vec_len handles) }
    ensures at_desk { IfOk result (λ handles. AreSeatsOf desk.entry.now (map (λ h. h.seat) handles.items)) }
    ensures seen { IfOk result (λ handles. HaveSeen (seen_of first) (map (λ h. h.seat) handles.items)) }
{
    let mut first = first;
    let mut handles = handles;
    while handles.len() + 1 < seats as usize {
        match desk.split(rt, &mut first) {
            Split::Seat(other) => handles.push_reserved(SeatHandle::new(rt, desk, other)),
            Split::Full(_) => break,
            Split::Memory => return Err(Memory),
        }
    }
    handles.push_reserved(SeatHandle::new(rt, desk, first));
    Ok(handles)
}

// The seats of the handles as one: the last of them, into which the others were joined. It has seen what all had seen.
fn joined<R: Wait>(desk: &SeatDesk, handles: Vec<SeatHandle<'_, R>>) -> Seat
    requires some { 0 < vec_len handles }
    requires at_desk { AreSeatsOf desk.now (map (λ h. h.seat) handles.items) }
    ensures at_desk { IsSeatOf desk.entry.now result }
    ensures seen { (before : Option Seen) → HaveSeen before (map (λ h. h.seat) handles.entry.items) → Later before (seen_of result) }
{
    let mut handles = handles;
    let Some(last) = handles.pop() else {
        unreachable!()
    };
    let mut seat = last.into_seat();
    while let Some(handle) = handles.pop() {
        desk.join(&mut seat, handle.into_seat());
    }
    seat
}
