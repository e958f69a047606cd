//! The cells of a row: where a run stands, and what is kept beside it.

ghost use Rattle.cpn_core.specs.Nets.{net_view};
ghost use Rattle.cpn_definitions.specs.Named.{IsNamed};
ghost use Rattle.cpn_definitions.specs.Sound.{IsMarking};
ghost use Rattle.cpn_test_program.specs.Held.{IsHeld};
ghost use Rattle.cpn_test_program.specs.Shown.{IsShown};

use crate::answers::push_words;
use crate::held::Held;
use cpn_book::Book;
use cpn_core::{Memory, Net};
use cpn_report::{push_place_lines, push_time};
use cpn_tmset::Marking;
use std::alloc::Global;
use std::fmt::Write;

/// Appends the call of a row.
pub fn push_call(out: &mut String, line: &str) -> Result<(), Memory> {
    push_words(out, line)?;
    push_words(out, " | ")
}

/// Appends where the run stands: the clock, how many elements are ready, the next time, the unclaimed and the settled marking.
pub fn push_standing(out: &mut String, net: &Net, book: &Book) -> Result<(), Memory>
    requires shown { IsShown (net_view net.now) book.now }
{
    if book.is_spent() {
        return Err(Memory);
    }
    let clock = book.clock();
    let ready = book.ready_len();
    write!(out, " | {clock} | {ready} | ")?;
    push_time(out, book.next_time())?;
    push_marking(out, net, book.unclaimed())?;
    push_marking(out, net, book.settled())
}

/// Appends a marking: each place with its tokens, as the report tells them.
fn push_marking(out: &mut String, net: &Net, marking: &Marking) -> Result<(), Memory>
    requires named { IsNamed (net_view net.now) }
    requires marking { IsMarking (net_view net.now).places marking.now }
{
    let mut lines = String::new(*out.allocator());
    push_place_lines(&mut lines, net, &net.places, marking)?;
    push_words(out, " | ")?;
    push_places(out, lines.as_str())
}

/// Appends the lines of places as one.
fn push_places(out: &mut String, lines: &str) -> Result<(), Memory> {
    for (number, line) in lines.lines().enumerate() {
        push_place(out, if number > 0 { "; " } else { "" }, line)?;
    }
    Ok(())
}

/// Appends a sign and the line of a place, without its first word.
fn push_place(out: &mut String, sign: &str, line: &str) -> Result<(), Memory> {
    push_words(out, sign)?;
    push_words(out, line.strip_prefix("place ").unwrap_or(line))
}

/// Appends what an index keeps: how many elements are ready, how many are kept, and whether a search of the whole net agrees.
pub fn push_held(out: &mut String, alloc: Global, net: &Net, held: &Held) -> Result<(), Memory>
    requires held { IsHeld (net_view net.now) held.now.marking held.now.index held.now.clock }
{
    let agrees = held.agrees(alloc, net)?;
    push_kept(out, held.index.ready_len(), held.index.len(), agrees)
}

/// Appends how many elements are ready and how many are kept, and whether a search agrees.
fn push_kept(out: &mut String, ready: u64, number: u64, agrees: bool) -> Result<(), Memory> {
    let word = if agrees { "agrees" } else { "differs" };
    write!(out, " | {ready} | {number} | {word}")?;
    Ok(())
}
