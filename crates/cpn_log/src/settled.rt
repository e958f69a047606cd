//! The marking of the committed claims: it changes whole or not at all.

ghost use Rattle.std.specs.Prelude.{◌≡◌, ◌≤◌, length, IfOk, OnOk, OnErr};
ghost use Rattle.cpn_definitions.specs.Times.{last_time};
ghost use Rattle.cpn_tmset.specs.Limits.{HaveRoomFor};
ghost use Rattle.cpn_log.specs.Exchanges.{exchanged};

use crate::tokens::add_copies;
use cpn_core::{Memory, Needs, Outputs};
use cpn_tmset::Marking;
use std::marker::Model;
use std::mem;

/// What a claim that is done takes and puts in.
#[derive(Drop)]
pub(crate) struct Exchange {
    pub(crate) needs: Needs,
    pub(crate) time: u64,
    pub(crate) outputs: Outputs,
}

/// A marking, and an exchange that is still to be made in it.
#[derive(Drop)]
pub(crate) struct Behind {
    pub(crate) marking: Marking,
    pub(crate) exchange: Exchange,
}

/// A marking that changes whole or not at all: beside it stands, from the first change on, a second one, which is behind by
/// the last exchange. A change is made in that one, and where memory is wanted in the midst of it, only that one is lost.
#[derive(Drop)]
pub(crate) struct Settled {
    marking: Marking,
    spare: Option<Behind>,
}

impl Model for Settled {
    ghost use Rattle.std.specs.Option.{ForSome};
    ghost use Rattle.cpn_definitions.specs.Marking.{Marking as PlainMarking};
    ghost use Rattle.cpn_tmset.specs.Codes.{marking_code};
    ghost use Rattle.cpn_log.specs.Exchanges.{LeadsTo};

    ghost Value = { PlainMarking };

    ghost coded = { marking_code };

    ghost view = { λ s. s.marking };

    ghost invariant = { λ s. ForSome s.spare (λ behind. LeadsTo behind.exchange.needs behind.exchange.time behind.exchange.outputs behind.marking s.marking) };
}

impl Settled {
    /// The marking, with no second one yet. It takes no memory.
    pub(crate) fn new(marking: Marking) -> Settled
        ensures same { result ≡ marking }
    {
        Settled {
            marking,
            spare: None,
        }
    }

    pub(crate) fn marking(&self) -> &Marking
        ensures same { result.now ≡ self.now }
    {
        &self.marking
    }

    /// The marking alone. It takes no memory.
    pub(crate) fn into_marking(self) -> Marking
        ensures same { result ≡ self }
    {
        self.marking
    }

    /// Takes the needs and puts the outputs in. After `Memory` the marking is as it was.
    pub(crate) fn change(&mut self, exchange: Exchange) -> Result<(), Memory>
        requires in_time { exchange.time ≤ last_time }
        requires room { HaveRoomFor (length exchange.outputs) self.old }
        ensures changed { OnOk result (self.new ≡ exchanged exchange.needs exchange.time exchange.outputs self.old) }
        ensures unchanged { OnErr result (self.new ≡ self.old) }
    {
        let mut next = self.second()?;
        next.subtract(&exchange.needs, exchange.time);
        add_copies(&mut next, &exchange.outputs)?;
        let marking = mem::replace(&mut self.marking, next);
        self.spare = Some(Behind { marking, exchange });
        Ok(())
    }

    // A second marking with the same tokens: the one that was behind, which catches up, or else a copy.
    fn second(&mut self) -> Result<Marking, Memory>
        ensures same { IfOk result (λ second. second ≡ self.old) }
        ensures unchanged { self.new ≡ self.old }
    {
        match self.spare.take() {
            None => self.marking.copy(),
            Some(behind) => caught_up(behind),
        }
    }
}

/// The marking after the exchange that it is behind by.
pub(crate) fn caught_up(behind: Behind) -> Result<Marking, Memory>
    requires in_time { behind.exchange.time ≤ last_time }
    requires room { HaveRoomFor (length behind.exchange.outputs) behind.marking }
    ensures caught_up { IfOk result (λ marking. marking ≡ exchanged behind.exchange.needs behind.exchange.time behind.exchange.outputs behind.marking) }
{
    let Behind {
        mut marking,
        exchange,
    } = behind;
    let Exchange {
        needs,
        time,
        outputs,
    } = exchange;
    marking.subtract(&needs, time);
    marking.add_made(outputs)?;
    Ok(marking)
}
