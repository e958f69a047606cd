//! Workers, alone and in a crew.

ghost use Rattle.std.specs.Prelude.{◌≡◌, ℕ, ◌<◌, vec_len, slice_index_or};
ghost use Rattle.cpn_book.specs.Seen.{Later};
ghost use Rattle.cpn_floor.specs.LaterDesks.{IsLaterDesk};

use crate::gates::Gate;
use cpn_book::{Advanced, Claimed, Desk};
use std::sync::Wait;
use std::thread;
use std::thread::Threads;

/// A worker: claims, passes the gate, evaluates and completes, until the desk has no more work. A ticket that cannot be evaluated for want
/// of memory is given back. The desk is changed by its own calls alone. It may wait, and keeps its promise if it returns.
///
/// Where nothing is ready and no claim is open the clock is to move; where claims of others are open the desk rests. Any other answer to a claim or
/// to a move of the clock ends the work.
#[tactic(auto, using(cpn_book::proofs::LaterRuns::later_same, cpn_book::proofs::LaterRuns::later_trans))]
pub fn work<D: Desk, G: Gate, R: Wait>(rt: &R, desk: &mut D, gate: &G)
    requires keeps { D.Keeps desk.old }
    ensures keeps { D.Keeps desk.new }
    ensures later { Later (D.seen desk.old) (D.seen desk.new) }
    ensures numbers { D.numbers desk.new ≡ D.numbers desk.old }
    ensures seat { D.seat desk.new ≡ D.seat desk.old }
    ensures book { D.book desk.new ≡ D.book desk.old }
{
    for _ in rt.forever() {
        match desk.claim() {
            Ok(Claimed::Ticket(ticket)) => {
                gate.pass(ticket.number());
                match ticket.evaluate() {
                    Ok(done) => {
                        let _ = desk.complete(done);
                    }
                    Err(ticket) => {
                        let _ = desk.give_back(ticket);
                    }
                }
            }
            Ok(Claimed::Nothing { held: 0 }) => match desk.advance() {
                Advanced::Moved(_) | Advanced::Ready => {}
                Advanced::Open(_) => desk.rest(),
                _ => return,
            },
            Ok(Claimed::Nothing { held: _ }) => desk.rest(),
            _ => return,
        }
    }
}

/// A crew: a worker for each desk, each in a thread of its own while threads can be made. It returns when all have, and cannot be refused.
pub fn crew<D: Desk + Send, G: Gate + Sync, R: Threads + Wait + Sync>(
    rt: &R,
    desks: &mut Vec<D>,
    gate: &G,
)
    requires keeps { (k : ℕ) (d : D) → k < vec_len desks.old → D.Keeps (slice_index_or desks.old.items k d) }
    ensures len { vec_len desks.new ≡ vec_len desks.old }
    ensures each { (k : ℕ) (d : D) → k < vec_len desks.old → IsLaterDesk D.seen D.numbers D.seat D.book D.Keeps (slice_index_or desks.old.items k d) (slice_index_or desks.new.items k d) }
{
    let count = desks.len();
    if count == 0 {
        return;
    }
    thread::for_each_mut(
        rt,
        desks.as_mut_slice(),
        count,
        &|_, desk| { work(rt, desk, gate) },
    );
}
