//! The unclaimed and the settled marking of a log.

ghost use Rattle.cpn_log.specs.SettledViews.{CatchesUp};

use crate::exchanged::changes_of_exchange;
use crate::settled::{Behind, Exchange, Settled, caught_up};
use crate::tokens::add_copy;
use cpn_core::{Made, Memory, Needs, Outputs};
use cpn_tmset::{Changes, Marking};
use std::alloc::Global;
use std::mem;

/// How the settled marking is kept.
#[derive(Drop)]
pub(crate) enum SettledAs {
    /// It is the unclaimed one. Beside it may stand a marking that is behind by an exchange.
    Unclaimed(Option<Behind>),
    /// It stands apart.
    Apart(Settled),
}

/// The marking that all claims leave, and the one that the committed claims leave. They are one where the last claim was committed
/// with none behind it; an open claim and a cut set the settled one apart, and an exchange in both does not.
#[derive(Drop)]
pub(crate) struct Markings {
    unclaimed: Marking,
    settled: SettledAs,
    ghost catches_up: { CatchesUp unclaimed settled },
}

impl Markings {
    ghost use Rattle.std.specs.Prelude.{◌≡◌, ◌≤◌, true, length, IfOk, OnOk, OnErr, IsOk};
    ghost use Rattle.cpn_definitions.specs.Marking.{add_token, on_place, token_at, tokens_at};
    ghost use Rattle.cpn_definitions.specs.Times.{last_time};
    ghost use Rattle.cpn_definitions.specs.Lists.{in_order, IsInOrder};
    ghost use Rattle.cpn_definitions.specs.Occurrence.{made_cmp, needed_cmp, subtract, threshold};
    ghost use Rattle.cpn_core.specs.Views.{value_view};
    ghost use Rattle.cpn_tmset.specs.ChangedViews.{changes_view};
    ghost use Rattle.cpn_tmset.specs.Limits.{HasRoom, HaveRoomFor};
    ghost use Rattle.cpn_tmset.specs.StampsTaken.{stamps_taken};
    ghost use Rattle.cpn_log.specs.Exchanges.{exchanged, LeadsTo};
    ghost use Rattle.cpn_log.specs.Gathered.{differing, each_once, tokens_taken};
    ghost use Rattle.cpn_log.specs.MarkingViews.{IsApart, settled_in, unclaimed_in};

    /// The marking of no claim. It takes no memory.
    pub(crate) fn new(marking: Marking) -> Markings
        ensures unclaimed { unclaimed_in result ≡ marking }
        ensures settled { settled_in result ≡ marking }
    {
        Markings {
            unclaimed: marking,
            settled: SettledAs::Unclaimed(None),
        }
    }

    pub(crate) fn unclaimed(&self) -> &Marking
        ensures same { result.now ≡ unclaimed_in self.now }
    {
        &self.unclaimed
    }

    pub(crate) fn settled(&self) -> &Marking
        ensures same { result.now ≡ settled_in self.now }
    {
        match &self.settled {
            SettledAs::Unclaimed(_) => &self.unclaimed,
            SettledAs::Apart(settled) => settled.marking(),
        }
    }

    /// The unclaimed marking alone. It takes no memory.
    pub(crate) fn into_unclaimed(self) -> Marking
        ensures same { result ≡ unclaimed_in self }
    {
        self.unclaimed
    }

    /// Takes needs out of the unclaimed marking, and gives the stamp of the token that each of them takes. After `Memory` both are as
    /// they were.
    pub(crate) fn take(
        &mut self,
        alloc: Global,
        needs: &Needs,
        time: u64,
    ) -> Result<Vec<u64>, Memory>
        requires in_time { time ≤ last_time }
        ensures taken { OnOk result (unclaimed_in self.new ≡ subtract (threshold time) needs.now (unclaimed_in self.old)) }
        ensures stamps { IfOk result (λ stamps. stamps.items ≡ stamps_taken time needs.now (unclaimed_in self.old)) }
        ensures unchanged { OnErr result (unclaimed_in self.new ≡ unclaimed_in self.old) }
        ensures settled { settled_in self.new ≡ settled_in self.old }
    {
        self.set_apart()?;
        self.unclaimed.take_out(alloc, needs, time)
    }

    /// Takes needs out of both markings, where they are one, and puts outputs in: the places and values of which other tokens are put in
    /// than were taken. After `Memory` nothing is known of either.
    pub(crate) fn exchange(
        &mut self,
        alloc: Global,
        needs: &Needs,
        time: u64,
        outputs: Outputs,
    ) -> Result<Changes, Memory>
        requires in_time { time ≤ last_time }
        requires one { settled_in self.old ≡ unclaimed_in self.old }
        requires room { HaveRoomFor (length outputs) (settled_in self.old) }
        ensures unclaimed { OnOk result (unclaimed_in self.new ≡ exchanged needs.now time outputs (settled_in self.old)) }
        ensures settled { OnOk result (settled_in self.new ≡ exchanged needs.now time outputs (settled_in self.old)) }
        ensures needs_in_order { IfOk result (λ changes. IsInOrder needed_cmp needs.now) }
        ensures outputs_in_order { IfOk result (λ changes. IsInOrder made_cmp outputs) }
        ensures changes { IfOk result (λ changes. changes_view changes ≡ each_once (differing (in_order made_cmp (tokens_taken needs.now (stamps_taken time needs.now (unclaimed_in self.old)))) outputs)) }
    {
        self.settled = SettledAs::Unclaimed(None);
        let stamps = self.unclaimed.take_out(alloc, needs, time)?;
        let changes = changes_of_exchange(alloc, needs, stamps.as_slice(), &outputs)?;
        self.unclaimed.add_made(outputs)?;
        Ok(changes)
    }

    /// Puts a copy of a token with another stamp into the unclaimed marking; one for a place past the last one is lost. After `Memory`
    /// both are as they were.
    pub(crate) fn put(&mut self, made: &Made, stamp: u64) -> Result<(), Memory>
        requires room { HasRoom (tokens_at (unclaimed_in self.old) made.now.place) }
        ensures put { OnOk result (unclaimed_in self.new ≡ on_place made.now.place (add_token (token_at (value_view made.now.value) stamp)) (unclaimed_in self.old)) }
        ensures settled { settled_in self.new ≡ settled_in self.old }
    {
        self.set_apart()?;
        add_copy(&mut self.unclaimed, made, stamp)
    }

    /// Replaces the unclaimed marking. It takes no memory.
    pub(crate) fn replace(&mut self, left: Marking)
        ensures unclaimed { unclaimed_in self.new ≡ left }
        ensures settled { settled_in self.new ≡ settled_in self.old }
    {
        let old = mem::replace(&mut self.unclaimed, left);
        if let SettledAs::Unclaimed(_) = &self.settled {
            self.settled = SettledAs::Apart(Settled::new(old));
        }
    }

    /// Makes an exchange in the settled marking. The last one there is leads it to the unclaimed one, and takes no memory. After
    /// `Memory` both are as they were.
    pub(crate) fn settle(&mut self, exchange: Exchange, is_last: bool) -> Result<(), Memory>
        requires in_time { exchange.time ≤ last_time }
        requires room { HaveRoomFor (length exchange.outputs) (settled_in self.old) }
        requires last { is_last ≡ true → unclaimed_in self.old ≡ exchanged exchange.needs exchange.time exchange.outputs (settled_in self.old) }
        ensures settled { OnOk result (settled_in self.new ≡ exchanged exchange.needs exchange.time exchange.outputs (settled_in self.old)) }
        ensures unchanged { OnErr result (settled_in self.new ≡ settled_in self.old) }
        ensures unclaimed { unclaimed_in self.new ≡ unclaimed_in self.old }
        ensures no_memory { is_last ≡ true → IsOk result }
    {
        if is_last {
            self.join(exchange);
            return Ok(());
        }
        self.set_apart()?;
        match &mut self.settled {
            SettledAs::Apart(settled) => settled.change(exchange),
            SettledAs::Unclaimed(_) => unreachable!(),
        }
    }

    // The settled marking is the unclaimed one from here on: the exchange leads it there.
    fn join(&mut self, exchange: Exchange)
        requires leads { LeadsTo exchange.needs exchange.time exchange.outputs (settled_in self.old) (unclaimed_in self.old) }
        ensures settled { settled_in self.new ≡ unclaimed_in self.old }
        ensures unclaimed { unclaimed_in self.new ≡ unclaimed_in self.old }
    {
        if let SettledAs::Apart(settled) = mem::replace(
            &mut self.settled,
            SettledAs::Unclaimed(None),
        ) {
            let marking = settled.into_marking();
            self.settled = SettledAs::Unclaimed(Some(Behind { marking, exchange }));
        }
    }

    // Sets the settled marking apart: it is the one that was behind, which catches up, or else a copy.
    fn set_apart(&mut self) -> Result<(), Memory>
        ensures apart { OnOk result (IsApart self.new) }
        ensures unclaimed { unclaimed_in self.new ≡ unclaimed_in self.old }
        ensures settled { settled_in self.new ≡ settled_in self.old }
    {
        let second = match &mut self.settled {
            SettledAs::Apart(_) => return Ok(()),
            SettledAs::Unclaimed(spare) => spare.take(),
        };
        let settled = match second {
            None => self.unclaimed.copy()?,
            Some(behind) => caught_up(behind)?,
        };
        self.settled = SettledAs::Apart(Settled::new(settled));
        Ok(())
    }
}
