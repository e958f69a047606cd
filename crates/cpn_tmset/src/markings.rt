//! Markings: the tokens of each place of a net.
ghost use Rattle.std.specs.Prelude.{◌≡◌, ◌<◌, [], length, replicate, slice_set, ◌↔◌, IsSome, IfSome, IfOk, OnOk, OnErr};
ghost use Rattle.cpn_definitions.specs.Marking.{token_at, tokens_at, on_place, add_token, without_token, AreSorted, stamps, without_latest};
ghost use Rattle.cpn_core.specs.Views.{value_view};
ghost use Rattle.cpn_tmset.specs.Limits.{HasRoom};
ghost use Rattle.cpn_tmset.specs.Stamps.{latest_of};

use crate::tmsets::TMSet;
use cpn_core::{Memory, Value};
use std::alloc::Global;
use std::marker::Model;

/// A marking: for each place, by its number from 0, its tokens.
///
/// Source: timed multisets, Jensen and Kristensen, chapter 11. A clause sees it as the plain marking of the definitions.
#[derive(Drop)]
pub struct Marking {
    places: Vec<TMSet>,
}

impl Model for Marking {
    ghost use Rattle.cpn_definitions.specs.Marking.{Marking as PlainMarking};
    ghost use Rattle.cpn_tmset.specs.Codes.{marking_code};

    ghost Value = { PlainMarking };

    ghost coded = { marking_code };

    ghost view = { λ m. m.places.items };
}

impl Marking {
    /// The marking of so many places without tokens.
    pub fn new(alloc: Global, places: usize) -> Result<Marking, Memory>
        ensures empty { IfOk result (λ marking. marking ≡ replicate places []) }
        ensures places { IfOk result (λ marking. length marking ≡ places) }
    {
        let mut held = Vec::with_capacity(alloc, places)?;
        for _place in 0..places {
            held.push(TMSet::new(alloc))?;
        }
        Ok(Marking { places: held })
    }

    /// The number of places.
    pub fn len(&self) -> usize
        ensures number { result ≡ length self.now }
    {
        self.places.len()
    }

    /// The tokens of a place.
    pub fn place(&self, place: u32) -> &TMSet
        requires in_range { place < length self.now }
        ensures tokens { result.now ≡ tokens_at self.now place }
    {
        &self.places[place as usize]
    }

    /// The tokens of the place at a position; `None` past the last place.
    pub fn get(&self, position: usize) -> Option<&TMSet>
        ensures present { IsSome result ↔ (position < length self.now) }
        ensures tokens { IfSome result (λ held. held.now ≡ tokens_at self.now position) }
    {
        self.places.get(position)
    }

    /// Puts these tokens on a place, in the stead of those that are there. It takes no memory.
    pub fn set(&mut self, place: u32, tokens: TMSet)
        requires in_range { place < length self.old }
        ensures set { self.new ≡ slice_set self.old place tokens }
        ensures places { length self.new ≡ length self.old }
    {
        self.places[place as usize] = tokens;
    }

    /// Adds a token of the value with the time stamp to a place. After `Memory` the marking is as it was.
    pub fn add(&mut self, place: u32, value: Value, stamp: u64) -> Result<(), Memory>
        requires in_range { place < length self.old }
        requires room { HasRoom (tokens_at self.old place) }
        ensures added { OnOk result (self.new ≡ on_place place (add_token (token_at (value_view value) stamp)) self.old) }
        ensures unchanged { OnErr result (self.new ≡ self.old) }
        ensures places { length self.new ≡ length self.old }
    {
        let held = &mut self.places[place as usize];
        held.add(value, stamp)
    }

    /// Takes from a place the latest token of the value whose stamp is not above `latest`; where there is
    /// none the marking stays as it is. It takes no memory.
    pub fn take(&mut self, place: u32, value: &Value, latest: u64)
        requires in_range { place < length self.old }
        ensures taken { self.new ≡ on_place place (without_token (value_view value.now) latest) self.old }
        // The timed subtraction: the value's stamps there lose their largest one that is not above `latest`.
        ensures stamps { stamps (value_view value.now) (tokens_at self.new place) ≡ without_latest latest (stamps (value_view value.now) (tokens_at self.old place)) }
        ensures sorted { AreSorted (tokens_at self.old place) }
        ensures places { length self.new ≡ length self.old }
    {
        let held = &mut self.places[place as usize];
        held.take(value, latest);
    }

    /// The same, and gives the stamp of the token that it takes.
    pub(crate) fn take_latest(&mut self, place: u32, value: &Value, latest: u64) -> Option<u64>
        requires in_range { place < length self.old }
        ensures stamp { result ≡ latest_of latest (stamps (value_view value.now) (tokens_at self.old place)) }
        ensures taken { self.new ≡ on_place place (without_token (value_view value.now) latest) self.old }
        ensures places { length self.new ≡ length self.old }
    {
        let held = &mut self.places[place as usize];
        held.take_latest(value, latest)
    }

    /// A marking of its own with the same tokens.
    pub fn copy(&self) -> Result<Marking, Memory>
        ensures same { IfOk result (λ marking. marking ≡ self.now) }
    {
        let mut places = Vec::with_capacity(*self.places.allocator(), self.places.len())?;
        for place in &self.places {
            places.push(place.copy()?)?;
        }
        Ok(Marking { places })
    }
}
