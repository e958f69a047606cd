//! The enabled elements that an index keeps, and which of them wait for a value on a place.
ghost use Rattle.std.specs.Prelude.{◌≡◌, ℕ, ◌<◌, ◌≤◌, not, false, Some, None, List, [], ◌∷◌, map, length, option_map, slice_get, IfOk, OnOk, OnErr};
ghost use Rattle.std.specs.List.{list_any, AllByRecursion};
ghost use Rattle.cpn_definitions.specs.Lists.{Rises};
ghost use Rattle.cpn_definitions.specs.Occurrence.{PlainElement};
ghost use Rattle.cpn_definitions.specs.Enabled.{next_time};
ghost use Rattle.cpn_core.specs.Elements.{element_view};
ghost use Rattle.cpn_core.specs.Views.{value_view};
ghost use Rattle.cpn_due.specs.Due.{PlainEnabled, plain_enabled, entries_in, enabled_cmp, is_kept, without, due_at};
ghost use Rattle.cpn_index.specs.Added.{AreAdded};
ghost use Rattle.cpn_index.specs.Retimed.{IsBack, IsTakenAnew};
ghost use Rattle.cpn_index.specs.WatchedElements.{of_others, waits, AreWatched, AreWatchedWith};
ghost use Rattle.cpn_index.specs.Waiting.{same_element};
ghost use Rattle.cpn_index.specs.Watchers.{places_of};

use crate::watchers::Watchers;
use cpn_core::{Element, EnabledElement, Entry, Memory, Value};
use cpn_due::Due;
use cpn_tmset::Marking;
use std::alloc::Global;
use std::marker::Model;
use std::sync::Arc;

/// The enabled elements, each once and in order, each with its least time and its needs; a clock, at which some are due; and which of
/// them wait for a value on a place, since they need a token of it there.
///
/// Source: own choice. A clause sees the list of them, the clock, and the number of places.
#[derive(Drop)]
pub(crate) struct WatchedElements {
    due: Due,
    watchers: Watchers,
}

impl Model for WatchedElements {
    ghost use Rattle.cpn_definitions.specs.Lists.{Rises};
    ghost use Rattle.cpn_due.specs.Due.{enabled_cmp};
    ghost use Rattle.cpn_index.specs.WatchedElements.{PlainElements, elements_code, AreWatched};
    ghost use Rattle.cpn_index.specs.Watchers.{places_of};

    ghost Value = { PlainElements };

    ghost coded = { elements_code };

    ghost view = { λ w. record { elements = w.due.elements; clock = w.due.clock; places = places_of w.watchers } };

    ghost invariant = { λ w. Rises enabled_cmp w.due.elements × AreWatched w.due.elements w.watchers };
}

impl WatchedElements {
    /// No element yet, at a clock, of a net with so many places.
    pub(crate) fn new(alloc: Global, places: usize, clock: u64) -> Result<WatchedElements, Memory>
        ensures empty { IfOk result (λ w. w ≡ record { elements = []; clock = clock; places = places }) }
    {
        let watchers = Watchers::new(alloc, places)?;
        let mut due = Due::new(alloc);
        due.take_due(clock);
        Ok(WatchedElements { due, watchers })
    }

    /// Adds the elements that are not there yet. After `Memory` there is no element any longer.
    pub(crate) fn add_all(&mut self, elements: Vec<EnabledElement>) -> Result<(), Memory>
        requires in_range { AllByRecursion (λ x. AllByRecursion (λ need. need.place < self.old.places) x.needs) elements.items }
        ensures added { OnOk result (AreAdded self.old.elements (map plain_enabled elements.items) self.new.elements) }
        ensures in_order { OnOk result (Rises enabled_cmp self.new.elements) }
        ensures gone { OnErr result (self.new.elements ≡ []) }
        ensures clock { self.new.clock ≡ self.old.clock }
        ensures places { self.new.places ≡ self.old.places }
    {
        match add_each(&mut self.due, &mut self.watchers, elements) {
            Ok(()) => Ok(()),
            Err(Memory) => {
                self.due.clear();
                self.watchers.clear();
                Err(Memory)
            }
        }
    }

    /// Takes out the elements of a transition. After `Memory` there is no element any longer.
    pub(crate) fn remove_of(&mut self, transition: u32) -> Result<(), Memory>
        ensures others { OnOk result (self.new.elements ≡ of_others transition self.old.elements) }
        ensures gone { OnErr result (self.new.elements ≡ []) }
        ensures clock { self.new.clock ≡ self.old.clock }
        ensures places { self.new.places ≡ self.old.places }
    {
        match remove_each(&mut self.due, &mut self.watchers, transition) {
            Ok(()) => Ok(()),
            Err(Memory) => {
                self.due.clear();
                self.watchers.clear();
                Err(Memory)
            }
        }
    }

    /// The elements that wait for the value on the place.
    pub(crate) fn waiting(
        &self,
        alloc: Global,
        place: u32,
        value: &Value,
    ) -> Result<Vec<Arc<Element>>, Memory>
        ensures waiting { IfOk result (λ found. (e : PlainElement) → list_any (λ element. same_element e (element_view element.value)) found.items ≡ waits self.now.elements place (value_view value.now) e) }
    {
        self.watchers.at(alloc, place, value)
    }

    /// Takes out all elements. The clock and the places stay.
    pub(crate) fn clear(&mut self)
        ensures elements { self.new.elements ≡ [] }
        ensures clock { self.new.clock ≡ self.old.clock }
        ensures places { self.new.places ≡ self.old.places }
    {
        self.due.clear();
        self.watchers.clear();
    }

    /// Moves the clock. No element comes or goes by that.
    pub(crate) fn take_due(&mut self, clock: u64)
        requires not_back { self.old.clock ≤ clock }
        ensures moved { self.new.clock ≡ clock }
        ensures elements { self.new.elements ≡ self.old.elements }
        ensures places { self.new.places ≡ self.old.places }
    {
        self.due.take_due(clock);
    }

    /// The clock.
    pub(crate) fn clock(&self) -> u64
        ensures clock { result ≡ self.now.clock }
    {
        self.due.clock()
    }

    /// How many elements there are. They are in order.
    pub(crate) fn len(&self) -> u64
        ensures number { result ≡ length self.now.elements }
        ensures in_order { Rises enabled_cmp self.now.elements }
    {
        self.due.len()
    }

    /// The least time of all elements, also of those that are due; `None` where there is none.
    pub(crate) fn first_time(&self) -> Option<u64>
        ensures first { result ≡ next_time (entries_in self.now.elements) }
    {
        self.due.first_time()
    }

    /// How many elements are due at the clock.
    pub(crate) fn ready_len(&self) -> u64
        ensures number { result ≡ length (due_at self.now.clock self.now.elements) }
    {
        self.due.ready_len()
    }

    /// The element at a position, from 0, among those that are due, in order.
    pub(crate) fn ready(&self, k: u64) -> &EnabledElement
        requires within { k < length (due_at self.now.clock self.now.elements) }
        ensures element { slice_get (due_at self.now.clock self.now.elements) k ≡ Some (plain_enabled result.now) }
    {
        self.due.ready(k)
    }

    /// Takes the least time of the element anew in a marking, if the element is there: where the marking covers it at no time, it goes.
    /// Answers whether it went or has another time. It takes no memory.
    pub(crate) fn retime(&mut self, marking: &Marking, element: &Element) -> bool
        ensures anew { IsTakenAnew marking.now (element_view element.now) self.old.elements self.new.elements result }
        ensures was_in_order { Rises enabled_cmp self.old.elements }
        ensures in_order { Rises enabled_cmp self.new.elements }
        ensures clock { self.new.clock ≡ self.old.clock }
        ensures places { self.new.places ≡ self.old.places }
    {
        match self.due.remove(element) {
            Some(enabled) => put_back(&mut self.due, &mut self.watchers, marking, enabled),
            None => false,
        }
    }
}

// Adds the elements that are not there yet, and lets each wait for the values that it needs.
fn add_each(
    due: &mut Due,
    watchers: &mut Watchers,
    elements: Vec<EnabledElement>,
) -> Result<(), Memory>
    requires in_range { AllByRecursion (λ x. AllByRecursion (λ need. need.place < places_of watchers.old) x.needs) elements.items }
    requires in_order { Rises enabled_cmp due.old.elements }
    requires watched { AreWatched due.old.elements watchers.old }
    ensures added { OnOk result (AreAdded due.old.elements (map plain_enabled elements.items) due.new.elements) }
    ensures in_order { OnOk result (Rises enabled_cmp due.new.elements) }
    ensures watched { OnOk result (AreWatched due.new.elements watchers.new) }
    ensures clock { due.new.clock ≡ due.old.clock }
    ensures places { places_of watchers.new ≡ places_of watchers.old }
{
    for element in elements {
        add(due, watchers, element)?;
    }
    Ok(())
}

// Adds the element, unless it is there, and lets it wait for the values that it needs.
fn add(due: &mut Due, watchers: &mut Watchers, enabled: EnabledElement) -> Result<(), Memory>
    requires in_range { AllByRecursion (λ need. need.place < places_of watchers.old) enabled.needs }
    requires in_order { Rises enabled_cmp due.old.elements }
    requires watched { AreWatched due.old.elements watchers.old }
    ensures added { OnOk result (AreAdded due.old.elements (plain_enabled enabled ∷ []) due.new.elements) }
    ensures in_order { OnOk result (Rises enabled_cmp due.new.elements) }
    ensures watched { OnOk result (AreWatched due.new.elements watchers.new) }
    ensures clock { due.new.clock ≡ due.old.clock }
    ensures places { places_of watchers.new ≡ places_of watchers.old }
{
    if due.contains(&enabled.entry.element) {
        return Ok(());
    }
    due.reserve(1)?;
    watchers.watch(&enabled.needs, &enabled.entry.element)?;
    due.insert(enabled);
    Ok(())
}

// Puts the element back, for which there is room, at its least time in the marking; or lets it wait no longer where it has none. Answers
// whether it went or has another time.
fn put_back(
    due: &mut Due,
    watchers: &mut Watchers,
    marking: &Marking,
    enabled: EnabledElement,
) -> bool
    requires room { 0 < due.old.spare }
    requires absent { is_kept (plain_enabled enabled).entry.element due.old.elements ≡ false }
    requires watched { AreWatchedWith (plain_enabled enabled) due.old.elements watchers.old }
    ensures back { IsBack marking.now (plain_enabled enabled) due.old.elements due.new.elements result }
    ensures watched { AreWatched due.new.elements watchers.new }
    ensures clock { due.new.clock ≡ due.old.clock }
    ensures places { places_of watchers.new ≡ places_of watchers.old }
{
    let EnabledElement { entry, needs } = enabled;
    match marking.earliest(&needs) {
        Some(earliest) => {
            let changed = earliest != entry.earliest;
            let element = entry.element;
            due.insert(EnabledElement {
                entry: Entry { earliest, element },
                needs,
            });
            changed
        }
        None => {
            watchers.unwatch(&needs, entry.element);
            true
        }
    }
}

// Takes out the elements of the transition, and lets them wait no longer. After `Memory` some of them may still be there.
fn remove_each(due: &mut Due, watchers: &mut Watchers, transition: u32) -> Result<(), Memory>
    requires in_order { Rises enabled_cmp due.old.elements }
    requires watched { AreWatched due.old.elements watchers.old }
    ensures others { OnOk result (due.new.elements ≡ of_others transition due.old.elements) }
    ensures in_order { Rises enabled_cmp due.new.elements }
    ensures watched { AreWatched due.new.elements watchers.new }
    ensures clock { due.new.clock ≡ due.old.clock }
    ensures places { places_of watchers.new ≡ places_of watchers.old }
{
    while let Some(first) = due.first_of(transition) {
        let element = first.entry.element.clone()?;
        take_out(due, watchers, &element);
    }
    Ok(())
}

// Takes the element out, if it is there, and lets it wait no longer.
fn take_out(due: &mut Due, watchers: &mut Watchers, element: &Element)
    requires in_order { Rises enabled_cmp due.old.elements }
    requires watched { AreWatched due.old.elements watchers.old }
    ensures others { due.new.elements ≡ without (element_view element.now) due.old.elements }
    ensures in_order { Rises enabled_cmp due.new.elements }
    ensures watched { AreWatched due.new.elements watchers.new }
    ensures clock { due.new.clock ≡ due.old.clock }
    ensures places { places_of watchers.new ≡ places_of watchers.old }
{
    match due.remove(element) {
        Some(enabled) => {
            let EnabledElement { entry, needs } = enabled;
            watchers.unwatch(&needs, entry.element);
        }
        None => {}
    }
}
