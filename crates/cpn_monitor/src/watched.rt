//! Which monitors look at what.

ghost use Rattle.std.specs.Prelude.{◌≡◌, ◌<◌, ◌↔◌, ◌||◌, true, false, length, map, IfOk, OnOk, Contains};
ghost use Rattle.std.specs.List.{AllByRecursion};
ghost use Rattle.cpn_core.specs.Nets.{arcs_view, net_view};
ghost use Rattle.cpn_numbers.specs.NumberLists.{numbers_at};
ghost use Rattle.cpn_monitor.specs.Fitting.{IsMeasurable};
ghost use Rattle.cpn_monitor.specs.Looks.{are_at};
ghost use Rattle.cpn_monitor.specs.Views.{look_view, monitor_view, watched_view};
ghost use Rattle.cpn_monitor.specs.Watched.{AreWatched, AreBeside, IsKnown, WatchesMore, TouchMore};

use crate::monitors::{Look, Monitor};
use cpn_core::{Memory, Net, PlaceArc};
use cpn_numbers::NumberLists;
use std::alloc::Global;

/// The monitors of each transition and of each place of a net, by their numbers.
///
/// Source: own choice.
#[derive(Drop)]
pub struct Watched {
    of_transition: NumberLists,
    of_place: NumberLists,
}

impl Watched {
    /// Which monitors look at what of a net.
    ///
    /// # Errors
    ///
    /// `Memory` where memory is wanted.
    pub fn of(alloc: Global, net: &Net, monitors: &[Monitor]) -> Result<Watched, Memory>
        requires measurable { AllByRecursion (λ monitor. IsMeasurable (net_view net.now) monitor.measure) (map monitor_view monitors.now) }
        ensures watched { IfOk result (λ watched. AreWatched (map monitor_view monitors.now) (watched_view watched)) }
        ensures places { IfOk result (λ watched. length (watched_view watched).of_place ≡ length (net_view net.now).places) }
    {
        let of_transition = NumberLists::empty(alloc, net.transitions.len())?;
        let of_place = NumberLists::empty(alloc, net.places.len())?;
        let mut watched = Watched {
            of_transition,
            of_place,
        };
        for number in 0..monitors.len() {
            watched.push(monitors[number].measure.looks_at(), number)?;
        }
        Ok(watched)
    }

    // One monitor more, of a number.
    fn push(&mut self, look: Look, number: usize) -> Result<(), Memory>
        requires known { IsKnown (watched_view self.old) (look_view look) }
        ensures more { OnOk result (WatchesMore (look_view look) number (watched_view self.old) (watched_view self.new)) }
    {
        match look {
            Look::AtTransition(transition) => self.of_transition.push(transition as usize, number),
            Look::AtPlace(place) => self.of_place.push(place as usize, number),
        }
    }

    /// The numbers of the monitors that look at the occurrences of a transition.
    pub fn of_transition(&self, transition: u32) -> &[usize]
        ensures numbers { result.now ≡ numbers_at (watched_view self.now).of_transition transition }
    {
        self.of_transition.at(transition as usize)
    }

    /// The numbers of the monitors that look at the tokens of a place.
    pub fn of_place(&self, place: usize) -> &[usize]
        ensures numbers { result.now ≡ numbers_at (watched_view self.now).of_place place }
    {
        self.of_place.at(place)
    }
}

/// For each transition of a net the places at its arcs at which a monitor looks.
///
/// # Errors
///
/// `Memory` where memory is wanted.
pub(crate) fn places_beside(
    alloc: Global,
    net: &Net,
    watched: &Watched,
) -> Result<NumberLists, Memory>
    requires places { length (watched_view watched.now).of_place ≡ length (net_view net.now).places }
    ensures beside { IfOk result (λ beside. AreBeside (net_view net.now) (watched_view watched.now) beside) }
{
    let mut transitions = NumberLists::empty(alloc, net.places.len())?;
    for number in 0..net.transitions.len() {
        let transition = &net.transitions[number];
        push_places(&mut transitions, &transition.inputs, watched, number)?;
        push_places(&mut transitions, &transition.outputs, watched, number)?;
    }
    transitions.turned(alloc, net.transitions.len())
}

/// A transition is put at the places of arcs at which a monitor looks.
fn push_places(
    transitions: &mut NumberLists,
    arcs: &[PlaceArc],
    watched: &Watched,
    transition: usize,
) -> Result<(), Memory>
    requires places { length transitions.old ≡ length (watched_view watched.now).of_place }
    ensures touched { OnOk result (TouchMore (watched_view watched.now) (arcs_view arcs.now) transition transitions.old transitions.new) }
{
    for arc in arcs {
        let place = arc.place as usize;
        if !watched.of_place(place).is_empty() {
            transitions.push(place, transition)?;
        }
    }
    Ok(())
}
