//! Which elements wait for a value on a place.
ghost use Rattle.std.specs.Prelude.{◌≡◌, ℕ, ◌==◌, ◌<◌, ◌&&◌, ◌||◌, not, false, IfOk, OnOk};
ghost use Rattle.std.specs.List.{list_any, AllByRecursion};
ghost use Rattle.cpn_definitions.specs.Value.{PlainValue};
ghost use Rattle.cpn_definitions.specs.Order.{same_value};
ghost use Rattle.cpn_definitions.specs.Occurrence.{PlainElement};
ghost use Rattle.cpn_core.specs.Views.{value_view};
ghost use Rattle.cpn_core.specs.Elements.{element_view};
ghost use Rattle.cpn_index.specs.WatcherOrder.{watching};
ghost use Rattle.cpn_index.specs.Waiting.{same_element};
ghost use Rattle.cpn_index.specs.Watchers.{is_needed, is_watched, places_of};

use crate::waiting::{Waiting, Watcher};
use cpn_core::{Element, Memory, Needed, Needs, Value};
use std::alloc::Global;
use std::sync::Arc;

/// The elements that wait for values on places: for each place, by its number from 0, and each value, which elements need a token
/// of the value there.
///
/// Source: own choice. A clause asks it by `is_watched`, and for the number of places.
#[derive(Drop)]
pub(crate) struct Watchers {
    alloc: Global,
    places: Vec<Waiting>,
}

impl Watchers {
    /// So many places, on which nothing is waited for.
    pub(crate) fn new(alloc: Global, places: usize) -> Result<Watchers, Memory>
        ensures none { IfOk result (λ watchers. (p : ℕ) (v : PlainValue) (e : PlainElement) → is_watched watchers p v e ≡ false) }
        ensures places { IfOk result (λ watchers. places_of watchers ≡ places) }
    {
        let mut empty = Vec::with_capacity(alloc, places)?;
        for _place in 0..places {
            empty.push(Waiting::new(alloc))?;
        }
        Ok(Watchers {
            alloc,
            places: empty,
        })
    }

    /// Lets the element wait for each value that it needs, on its place.
    pub(crate) fn watch(&mut self, needs: &Needs, element: &Arc<Element>) -> Result<(), Memory>
        requires in_range { AllByRecursion (λ need. need.place < places_of self.old) needs.now }
        ensures watched { OnOk result ((p : ℕ) (v : PlainValue) (e : PlainElement) → is_watched self.new p v e ≡ ((same_element e (element_view element.now.value) && is_needed p v needs.now) || is_watched self.old p v e)) }
        ensures places { places_of self.new ≡ places_of self.old }
    {
        for need in needs.tokens() {
            self.watch_one(need, element)?;
        }
        Ok(())
    }

    // Lets the element wait for the value of one need, on its place.
    fn watch_one(&mut self, need: &Needed, element: &Arc<Element>) -> Result<(), Memory>
        requires in_range { need.now.place < places_of self.old }
        ensures watched { OnOk result ((p : ℕ) (v : PlainValue) (e : PlainElement) → is_watched self.new p v e ≡ ((same_element e (element_view element.now.value) && ((p == need.now.place) && same_value v (value_view need.now.value))) || is_watched self.old p v e)) }
        ensures places { places_of self.new ≡ places_of self.old }
    {
        let alloc = self.alloc;
        let watcher = Watcher {
            element: element.clone()?,
        };
        let waiting = &mut self.places[need.place as usize];
        waiting.put(alloc, &need.value, watcher)?;
        Ok(())
    }

    /// Lets the element wait no longer for the values that it needs. It takes no memory, and keeps no value for which nothing waits.
    pub(crate) fn unwatch(&mut self, needs: &Needs, element: Arc<Element>)
        ensures unwatched { (p : ℕ) (v : PlainValue) (e : PlainElement) → is_watched self.new p v e ≡ (not (same_element e (element_view element.value) && is_needed p v needs.now) && is_watched self.old p v e) }
        ensures places { places_of self.new ≡ places_of self.old }
    {
        let watcher = Watcher { element };
        for need in needs.tokens() {
            self.unwatch_one(need, &watcher);
        }
    }

    // Lets the watcher wait no longer for the value of one need, on its place.
    fn unwatch_one(&mut self, need: &Needed, watcher: &Watcher)
        ensures unwatched { (p : ℕ) (v : PlainValue) (e : PlainElement) → is_watched self.new p v e ≡ (not (same_element e (watching watcher.now) && ((p == need.now.place) && same_value v (value_view need.now.value))) && is_watched self.old p v e) }
        ensures places { places_of self.new ≡ places_of self.old }
    {
        let Some(waiting) = self.places.get_mut(need.place as usize) else {
            return;
        };
        waiting.remove(&need.value, watcher);
    }

    /// The elements that wait for the value on the place.
    pub(crate) fn at(
        &self,
        alloc: Global,
        place: u32,
        value: &Value,
    ) -> Result<Vec<Arc<Element>>, Memory>
        ensures exact { IfOk result (λ found. (e : PlainElement) → list_any (λ element. same_element e (element_view element.value)) found.items ≡ is_watched self.now place (value_view value.now) e) }
    {
        let Some(waiting) = self.places.get(place as usize) else {
            return Ok(Vec::new(alloc));
        };
        let found = waiting.elements(alloc, value)?;
        Ok(found)
    }

    /// Lets nothing wait any longer. It takes no memory.
    pub(crate) fn clear(&mut self)
        ensures none { (p : ℕ) (v : PlainValue) (e : PlainElement) → is_watched self.new p v e ≡ false }
        ensures places { places_of self.new ≡ places_of self.old }
    {
        for waiting in self.places.iter_mut() {
            waiting.clear();
        }
    }
}
