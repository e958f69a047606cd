//! The transitions and places that monitors name.

ghost use Rattle.std.specs.Prelude.{◌≡◌, ◌<◌, ◌^◌, length, map, IfOk};
ghost use Rattle.cpn_core.specs.Nets.{net_view, place_view, transition_view};
ghost use Rattle.cpn_monitor_texts.specs.Answers.{Checks};
ghost use Rattle.cpn_monitor_texts.specs.Named.{transition_named as number_of_transition, place_named as number_of_place, known};

use crate::refusals::MonitorError;
use cpn_core::{Memory, Net, Place, Transition};
use cpn_names::Names;
use std::alloc::Global;
use std::marker::Model;

/// The names of transitions.
fn names_of_transitions<'n>(
    alloc: Global,
    transitions: &'n [Transition],
) -> Result<Names<'n>, Memory>
    ensures names { IfOk result (λ names. names ≡ map (λ t. t.name) (map transition_view transitions.now)) }
{
    let mut names = Vec::with_capacity(alloc, transitions.len())?;
    for transition in transitions {
        names.push(transition.name.as_str())?;
    }
    Names::of(alloc, names)
}

/// The names of places.
fn names_of_places<'n>(alloc: Global, places: &'n [Place]) -> Result<Names<'n>, Memory>
    ensures names { IfOk result (λ names. names ≡ map (λ p. p.name) (map place_view places.now)) }
{
    let mut names = Vec::with_capacity(alloc, places.len())?;
    for place in places {
        names.push(place.name.as_str())?;
    }
    Names::of(alloc, names)
}

/// A net whose transitions and places are found by their flattened names.
#[derive(Drop)]
pub struct NamedNet<'n> {
    net: &'n Net,
    transitions: Names<'n>,
    places: Names<'n>,
}

impl<'n> Model for NamedNet<'n> {
    ghost use Rattle.cpn_core.specs.Nets.{net_view};
    ghost use Rattle.cpn_core.specs.declared.nets.Net.{Net as ItsNet};
    ghost use Rattle.cpn_core.specs.contracts.nets.Net as its_net;
    ghost use Rattle.cpn_monitor_texts.specs.Named.{AreNamesOf};

    ghost Value = { ItsNet };

    ghost coded = { its_net.the_row.coded };

    ghost view = { λ named. named.net.now };

    ghost invariant = { λ named. AreNamesOf (net_view named.net.now) named.transitions named.places };
}

impl<'n> NamedNet<'n> {
    /// The net with its names. Each name is put in its place once.
    ///
    /// # Errors
    ///
    /// Memory is wanted.
    pub fn of(alloc: Global, net: &'n Net) -> Result<NamedNet<'n>, Memory>
        ensures net { IfOk result (λ named. named ≡ net.now) }
    {
        Ok(NamedNet {
            net,
            transitions: names_of_transitions(alloc, net.transitions.as_slice())?,
            places: names_of_places(alloc, net.places.as_slice())?,
        })
    }

    /// The net alone.
    pub fn net(&self) -> &'n Net
        ensures net { result.now ≡ self.now }
    {
        self.net
    }

    /// The number of the transition of a flattened name, if there is one: the first of several.
    pub fn transition_named(&self, name: &str) -> Option<u32>
        requires few { length self.now.transitions.items < 2 ^ 32 }
        ensures named { result ≡ number_of_transition (net_view self.now) name.now }
    {
        match self.transitions.number(name) {
            Some(number) => Some(number as u32),
            None => None,
        }
    }

    /// The number of the place of a flattened name, if there is one: the first of several. A compound place has one name alone.
    pub fn place_named(&self, name: &str) -> Option<u32>
        requires few { length self.now.places.items < 2 ^ 32 }
        ensures named { result ≡ number_of_place (net_view self.now) name.now }
    {
        match self.places.number(name) {
            Some(number) => Some(number as u32),
            None => None,
        }
    }
}

/// The number of the transition of a name, or the refusal of the monitor of a number.
pub(crate) fn known_transition(
    net: &NamedNet,
    number: usize,
    name: &str,
) -> Result<u32, MonitorError>
    requires few { length net.now.transitions.items < 2 ^ 32 }
    ensures known { Checks (λ t. t) result (known number (number_of_transition (net_view net.now) name.now)) }
{
    match net.transition_named(name) {
        Some(transition) => Ok(transition),
        None => Err(MonitorError::UnknownName(number)),
    }
}

/// The number of the place of a name, or the refusal of the monitor of a number.
pub(crate) fn known_place(net: &NamedNet, number: usize, name: &str) -> Result<u32, MonitorError>
    requires few { length net.now.places.items < 2 ^ 32 }
    ensures known { Checks (λ p. p) result (known number (number_of_place (net_view net.now) name.now)) }
{
    match net.place_named(name) {
        Some(place) => Ok(place),
        None => Err(MonitorError::UnknownName(number)),
    }
}
