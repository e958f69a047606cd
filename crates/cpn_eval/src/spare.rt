//! Locals that nothing needs any more.

ghost use Rattle.std.specs.Prelude.{◌≡◌, IsTrue, map, take, slice_get};
ghost use Rattle.cpn_definitions.specs.Outcome.{given};
ghost use Rattle.cpn_eval.specs.Answers.{Tells};
ghost use Rattle.cpn_eval.specs.Frames.{frame_view};
ghost use Rattle.cpn_eval.specs.Held.{held_view, all_held};
ghost use Rattle.cpn_eval.specs.Spare.{reach_of, Spare};

use crate::frames::Frame;
use crate::held::Held;
use crate::reach::Reach;
use crate::refusals::NoValue;
use cpn_core::Value;
use std::mem;

/// What the frame has to do with the locals from that number on.
#[tactic(auto, using(crate::proofs::SpareLocals::reads_more))]
fn reach(frame: &Frame<'_>, number: usize) -> Reach
    ensures reach { result ≡ reach_of (frame_view frame.now) number }
{
    match frame {
        Frame::Parts(_, _, rest) => {
            if rest.is_empty() {
                Reach::Passes
            } else {
                Reach::Reads
            }
        }
        Frame::Beside(_, _) => Reach::Passes,
        Frame::BesideLocal(_, local) => {
            if number <= *local as usize {
                Reach::Reads
            } else {
                Reach::Passes
            }
        }
        Frame::Argument(_) => Reach::Passes,
        Frame::Forget(count) => {
            if *count <= number {
                Reach::Forgets
            } else {
                Reach::Passes
            }
        }
        Frame::Caller(_, _) => Reach::Forgets,
        Frame::Also(_) => Reach::Reads,
        Frame::Otherwise(_) => Reach::Reads,
        Frame::Branches(_, _) => Reach::Reads,
        Frame::Body(_) => Reach::Reads,
        Frame::Arms(_) => Reach::Reads,
        Frame::Start(_, _) => Reach::Reads,
        Frame::Items(_, _) => Reach::Reads,
    }
}

/// Whether nothing that waits needs a local from that number on.
pub fn is_spare(frames: &[Frame<'_>], number: usize) -> bool
    ensures spare { IsTrue result → Spare (map frame_view frames.now) number }
{
    for passed in 0..frames.len() {
        match reach(&frames[frames.len() - 1 - passed], number) {
            Reach::Passes => {}
            Reach::Forgets => return true,
            Reach::Reads => return false,
        }
    }
    false
}

/// The local of that number, which leaves its place.
pub fn taken(locals: &mut Vec<Held>, number: usize) -> Result<Held, NoValue>
    ensures local { Tells held_view result (given (slice_get (all_held locals.old) number)) }
    ensures others { take number (all_held locals.new) ≡ take number (all_held locals.old) }
{
    if number >= locals.len() {
        return Err(NoValue::Untyped);
    }
    Ok(mem::replace(&mut locals[number], Held::Plain(Value::Unit)))
}
