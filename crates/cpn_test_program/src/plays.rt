//! How a schedule is played.

ghost use Rattle.std.specs.Prelude.{IfOk, IfSome, OnOk};
ghost use Rattle.cpn_book.specs.Books.{IsBook};
ghost use Rattle.cpn_core.specs.Nets.{net_view};
ghost use Rattle.cpn_runs.specs.FinishedViews.{setup_view};
ghost use Rattle.cpn_runs.specs.Playable.{IsPlayable};
ghost use Rattle.cpn_test_program.specs.Held.{IsHeld};
ghost use Rattle.cpn_test_program.specs.Shown.{IsShown, IsShownSetup};

use crate::answers::{
    push_advanced, push_claimed, push_completed, push_given_back, push_not_made, push_words,
};
use crate::calls::{Call, Run, call_in};
use crate::ends::push_end;
use crate::hands::Hand;
use crate::held::Held;
use crate::rows::{push_call, push_held, push_standing};
use crate::searches::push_searched;
use cpn_book::{Book, Evaluated, Finish, Ticket};
use cpn_core::{Memory, Net};
use cpn_runs::Setup;
use std::alloc::Global;

/// The most seats of a run.
const MOST_SEATS: u32 = 64;

/// The table so far, and what is at hand of claims.
#[derive(Drop)]
pub struct Table {
    alloc: Global,
    out: String,
    /// What is at hand of the claims of the run itself.
    own: Hand,
    /// What is at hand of those of the net beside.
    brought: Hand,
}

impl Table {
    /// A table without rows.
    pub fn new(alloc: Global) -> Table {
        Table {
            alloc,
            out: String::new(alloc),
            own: Hand::new(alloc),
            brought: Hand::new(alloc),
        }
    }

    /// The text of the table.
    pub fn into_text(self) -> String {
        let Table { out, .. } = self;
        out
    }

    /// The tickets of the claims that the seats make, one each, at the start of a run of the net beside, are at hand.
    pub fn bring(&mut self, setup: Setup) -> Result<(), Memory>
        requires playable { IsPlayable (setup_view setup) }
    {
        let mut book = Book::start(self.alloc, setup)?;
        make_claims(&mut book, &mut self.brought)
    }

    /// Adds the rows of the calls of a schedule on a run from the setup. An index follows the run where it is asked for.
    pub fn play(&mut self, setup: Setup, is_indexed: bool, schedule: &str) -> Result<(), Memory>
        requires shown { IsShownSetup (setup_view setup) }
    {
        let net = setup.net.clone()?;
        let mut held = held_at_start(self.alloc, &setup, is_indexed)?;
        let mut run = Some(Book::start(self.alloc, setup)?);
        self.lines(&net, &mut run, &mut held, schedule)
    }

    /// Adds the rows of the lines of a schedule, one after another.
    fn lines(
        &mut self,
        net: &Net,
        run: &mut Option<Book>,
        held: &mut Option<Held>,
        schedule: &str,
    ) -> Result<(), Memory>
        requires shown { IfSome run.old (λ book. IsShown (net_view net.now) book) }
        requires held { IfSome held.old (λ held. IsHeld (net_view net.now) held.marking held.index held.clock) }
    {
        for line in schedule.lines() {
            self.line(net, run, line)?;
            end_row(&mut self.out, self.alloc, net, run, held)?;
        }
        Ok(())
    }

    /// Adds the first cells of a row, the line and what it is answered; the report, where the run ends.
    fn line(&mut self, net: &Net, run: &mut Option<Book>, line: &str) -> Result<(), Memory>
        requires shown { IfSome run.old (λ book. IsShown (net_view net.now) book) }
        ensures shown { OnOk result (IfSome run.new (λ book. IsShown (net_view net.now) book)) }
    {
        push_call(&mut self.out, line)?;
        if line == "alone" {
            return self.alone(net, run);
        }
        if line == "finish" {
            return self.finish(net, run);
        }
        match run {
            Some(book) => self.answer(net, book, call_in(line)),
            None => push_not_made(&mut self.out, "the run has ended\n"),
        }
    }

    /// Makes a call that leaves the run going on, if it is one, and adds its answer.
    fn answer(&mut self, net: &Net, book: &mut Book, call: Option<Call>) -> Result<(), Memory>
        requires shown { IsShown (net_view net.now) book.old }
        ensures shown { OnOk result (IsShown (net_view net.now) book.new) }
    {
        let Some(call) = call else {
            return push_not_made(&mut self.out, "it is no call");
        };
        match call {
            Call::Start => push_words(&mut self.out, "begun"),
            Call::Claim { seat } => self.claim(net, book, seat),
            Call::Complete { seat, run, number } => self.complete(net, book, seat, run, number),
            Call::GiveBack { seat, run, number } => self.give_back(net, book, seat, run, number),
            Call::Advance => push_advanced(&mut self.out, book.advance()),
            Call::Search { time } => self.search(net, book, time),
        }
    }

    /// What is at hand of the claims of a run.
    fn hand(&mut self, run: Run) -> &mut Hand {
        match run {
            Run::Own => &mut self.own,
            Run::Beside => &mut self.brought,
        }
    }

    /// A claim of a seat, where the run has it. Its ticket is then at hand.
    fn claim(&mut self, net: &Net, book: &mut Book, seat: u32) -> Result<(), Memory>
        requires shown { IsShown (net_view net.now) book.old }
        ensures shown { OnOk result (IsShown (net_view net.now) book.new) }
    {
        if book.setup().limits.seats <= seat {
            return push_not_made(&mut self.out, "the run has no such seat");
        }
        let claimed = book.claim(seat)?;
        push_claimed(&mut self.out, self.alloc, net, &claimed)?;
        self.own.keep_claimed(claimed)
    }

    /// A completion by a seat, where the evaluation is at hand.
    fn complete(
        &mut self,
        net: &Net,
        book: &mut Book,
        seat: u32,
        run: Run,
        number: u64,
    ) -> Result<(), Memory>
        requires shown { IsShown (net_view net.now) book.old }
        ensures shown { OnOk result (IsShown (net_view net.now) book.new) }
    {
        match self.hand(run).take_evaluation(number)? {
            Some(done) => self.complete_by(net, book, seat, run, done),
            None => push_not_made(&mut self.out, "no evaluation of that claim is at hand"),
        }
    }

    /// A completion by a seat. The evaluation is at hand again, where it comes back.
    fn complete_by(
        &mut self,
        net: &Net,
        book: &mut Book,
        seat: u32,
        run: Run,
        done: Evaluated,
    ) -> Result<(), Memory>
        requires shown { IsShown (net_view net.now) book.old }
        ensures shown { OnOk result (IsShown (net_view net.now) book.new) }
    {
        let completed = book.complete(seat, done)?;
        push_completed(&mut self.out, self.alloc, net, &completed)?;
        self.hand(run).keep_completed(completed)
    }

    /// A ticket that a seat gives back, where it is at hand.
    fn give_back(
        &mut self,
        net: &Net,
        book: &mut Book,
        seat: u32,
        run: Run,
        number: u64,
    ) -> Result<(), Memory>
        requires shown { IsShown (net_view net.now) book.old }
        ensures shown { OnOk result (IsShown (net_view net.now) book.new) }
    {
        match self.hand(run).take_ticket(number) {
            Some(ticket) => self.give_back_by(net, book, seat, run, ticket),
            None => push_not_made(&mut self.out, "no ticket of that claim is at hand"),
        }
    }

    /// A ticket that a seat gives back. It is at hand again, where it comes back.
    fn give_back_by(
        &mut self,
        net: &Net,
        book: &mut Book,
        seat: u32,
        run: Run,
        ticket: Ticket,
    ) -> Result<(), Memory>
        requires shown { IsShown (net_view net.now) book.old }
        ensures shown { OnOk result (IsShown (net_view net.now) book.new) }
    {
        let given_back = book.give_back(seat, ticket)?;
        push_given_back(&mut self.out, self.alloc, net, &given_back)?;
        self.hand(run).keep_given_back(given_back)
    }

    /// A search of the unclaimed marking.
    fn search(&mut self, net: &Net, book: &Book, time: u64) -> Result<(), Memory>
        requires shown { IsShown (net_view net.now) book.now }
    {
        if book.is_spent() {
            return Err(Memory);
        }
        push_searched(&mut self.out, self.alloc, net, book.unclaimed(), time)
    }

    /// The run to its end, by one seat.
    fn alone(&mut self, net: &Net, run: &mut Option<Book>) -> Result<(), Memory>
        requires shown { IfSome run.old (λ book. IsShown (net_view net.now) book) }
        ensures shown { OnOk result (IfSome run.new (λ book. IsShown (net_view net.now) book)) }
    {
        let Some(book) = run.take() else {
            return push_not_made(&mut self.out, "the run has ended\n");
        };
        let finished = book.run_alone()?;
        push_end(&mut self.out, self.alloc, &finished)
    }

    /// The end of the run, where it may end; else it goes on.
    fn finish(&mut self, net: &Net, run: &mut Option<Book>) -> Result<(), Memory>
        requires shown { IfSome run.old (λ book. IsShown (net_view net.now) book) }
        ensures shown { OnOk result (IfSome run.new (λ book. IsShown (net_view net.now) book)) }
    {
        let Some(book) = run.take() else {
            return push_not_made(&mut self.out, "the run has ended\n");
        };
        match book.finish() {
            Finish::Ended(finished) => push_end(&mut self.out, self.alloc, &finished),
            Finish::Running(book) => {
                *run = Some(book);
                push_words(&mut self.out, "running")
            }
            Finish::Spent => Err(Memory),
        }
    }
}

/// The index at the start of a run, where it is asked for.
fn held_at_start(alloc: Global, setup: &Setup, is_indexed: bool) -> Result<Option<Held>, Memory>
    requires playable { IsPlayable (setup_view setup.now) }
    ensures held { IfOk result (λ held. IfSome held (λ held. IsHeld (net_view setup.now.net.value) held.marking held.index held.clock)) }
{
    if !is_indexed {
        return Ok(None);
    }
    let held = Held::of(alloc, &setup.net, &setup.start, setup.clock)?;
    Ok(Some(held))
}

/// Adds the last cells of a row, where the run goes on: where it stands, and what the index keeps, if there is one.
fn end_row(
    out: &mut String,
    alloc: Global,
    net: &Net,
    run: &Option<Book>,
    held: &mut Option<Held>,
) -> Result<(), Memory>
    requires shown { IfSome run.now (λ book. IsShown (net_view net.now) book) }
    requires held { IfSome held.old (λ held. IsHeld (net_view net.now) held.marking held.index held.clock) }
    ensures held { OnOk result (IfSome held.new (λ held. IsHeld (net_view net.now) held.marking held.index held.clock)) }
{
    match run {
        Some(book) => {
            push_standing(out, net, book)?;
            follow_beside(out, alloc, net, book, held)?;
            push_words(out, "\n")
        }
        None => Ok(()),
    }
}

/// The index, if there is one, follows the run, and its cells are added.
fn follow_beside(
    out: &mut String,
    alloc: Global,
    net: &Net,
    book: &Book,
    held: &mut Option<Held>,
) -> Result<(), Memory>
    requires shown { IsShown (net_view net.now) book.now }
    requires held { IfSome held.old (λ held. IsHeld (net_view net.now) held.marking held.index held.clock) }
    ensures held { OnOk result (IfSome held.new (λ held. IsHeld (net_view net.now) held.marking held.index held.clock)) }
{
    match held {
        Some(held) => follow(out, alloc, net, book, held),
        None => Ok(()),
    }
}

/// The index follows the run to where it stands, and its cells are added.
fn follow(
    out: &mut String,
    alloc: Global,
    net: &Net,
    book: &Book,
    held: &mut Held,
) -> Result<(), Memory>
    requires shown { IsShown (net_view net.now) book.now }
    requires held { IsHeld (net_view net.now) held.old.marking held.old.index held.old.clock }
    ensures held { OnOk result (IsHeld (net_view net.now) held.new.marking held.new.index held.new.clock) }
{
    if book.is_spent() {
        return Err(Memory);
    }
    held.follow(alloc, net, book.unclaimed(), book.clock())?;
    push_held(out, alloc, net, held)
}

/// A claim of each seat. The tickets are then at hand.
fn make_claims(book: &mut Book, found: &mut Hand) -> Result<(), Memory>
    requires kept { IsBook book.old }
{
    for seat in 0..MOST_SEATS {
        make_claim(book, found, seat)?;
    }
    Ok(())
}

/// A claim of a seat, where the run has it. Its ticket is then at hand.
fn make_claim(book: &mut Book, found: &mut Hand, seat: u32) -> Result<(), Memory>
    requires kept { IsBook book.old }
    ensures kept { OnOk result (IsBook book.new) }
{
    if book.setup().limits.seats <= seat {
        return Ok(());
    }
    let claimed = book.claim(seat)?;
    found.keep_claimed(claimed)
}
