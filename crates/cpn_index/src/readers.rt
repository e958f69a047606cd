//! Which transitions a place bears on: those that have a binding term there, and those that read it otherwise.

ghost use Rattle.std.specs.Prelude.{◌≡◌, ℕ, ◌<◌, ◌==◌, ◌&&◌, true, [], length, slice_index_or, IfOk, OnOk};
ghost use Rattle.std.specs.List.{list_any, AllByRecursion};
ghost use Rattle.cpn_definitions.specs.Sound.{IsSound};
ghost use Rattle.cpn_core.specs.Inscriptions.{multiset_view};
ghost use Rattle.cpn_core.specs.Nets.{arc_view, arcs_view, net_view};
ghost use Rattle.cpn_index.specs.Readers.{has_term, reads_otherwise, bears, IsReadable, part_count, numbers_at, ends_with, with_last, AreWith, AreReaders};

use cpn_core::{MExpr, Memory, Net, PlaceArc};
use std::alloc::Global;

/// For each place of a net, the transitions that it bears on, in rising order.
///
/// Source: own choice. They hold for every marking, so they are made once and kept beside the net.
#[derive(Drop)]
pub(crate) struct Readers {
    with_term: Vec<Vec<u32>>,
    otherwise: Vec<Vec<u32>>,
}

/// How many parts the root sum of the inscription has.
fn part_count(inscription: &MExpr) -> usize
    ensures exact { result ≡ part_count (multiset_view inscription.now) }
{
    match inscription {
        MExpr::Sum(parts) => parts.len(),
        _ => 1,
    }
}

/// Whether the input arc has a binding term.
fn has_term(arc: &PlaceArc) -> bool
    requires readable { IsReadable (arc_view arc.now) }
    ensures exact { result ≡ has_term (arc_view arc.now) }
{
    !arc.inscription.terms.is_empty()
}

/// Whether a part of the input arc's root sum is no binding term, so that there are more parts than terms.
fn reads_otherwise(arc: &PlaceArc) -> bool
    requires readable { IsReadable (arc_view arc.now) }
    ensures exact { result ≡ reads_otherwise (arc_view arc.now) }
{
    arc.inscription.terms.len() != part_count(&arc.inscription.expr)
}

/// Whether the number is the last of them.
fn stands_last(numbers: &[u32], number: u32) -> bool
    ensures exact { result ≡ ends_with number numbers.now }
{
    match numbers.last() {
        Some(last) => *last == number,
        None => false,
    }
}

/// Adds the number behind the others, unless it is the last of them.
fn push_last(numbers: &mut Vec<u32>, number: u32) -> Result<(), Memory>
    ensures last { OnOk result (numbers.new.items ≡ with_last true number numbers.old.items) }
{
    if stands_last(numbers, number) {
        return Ok(());
    }
    numbers.push(number)?;
    Ok(())
}

/// Adds the number once to the list of the place, if an arc from there bears on the transition.
fn push_at(lists: &mut Vec<Vec<u32>>, place: u32, bears: bool, number: u32) -> Result<(), Memory>
    requires in_range { place < length lists.old.items }
    ensures with { OnOk result (AreWith (λ p. (place == p) && bears) number lists.old.items lists.new.items) }
{
    if !bears {
        return Ok(());
    }
    push_last(&mut lists[place as usize], number)?;
    Ok(())
}

/// Lists without a number, so many.
fn empty_lists(alloc: Global, count: usize) -> Result<Vec<Vec<u32>>, Memory>
    ensures as_many { IfOk result (λ lists. length lists.items ≡ count) }
    ensures empty { IfOk result (λ lists. (p : ℕ) → numbers_at lists.items p ≡ []) }
{
    let mut lists = Vec::new(alloc);
    for _place in 0..count {
        lists.push(Vec::new(alloc))?;
    }
    Ok(lists)
}

impl Readers {
    /// Adds the transition of a number to the lists of the place that the input arc comes from, once to each.
    fn push_arc(&mut self, arc: &PlaceArc, number: u32) -> Result<(), Memory>
        requires readable { IsReadable (arc_view arc.now) }
        requires with_term { (arc_view arc.now).place < length self.old.with_term.items }
        requires otherwise { (arc_view arc.now).place < length self.old.otherwise.items }
        ensures with_term { OnOk result (AreWith (λ p. bears has_term p (arc_view arc.now)) number self.old.with_term.items self.new.with_term.items) }
        ensures otherwise { OnOk result (AreWith (λ p. bears reads_otherwise p (arc_view arc.now)) number self.old.otherwise.items self.new.otherwise.items) }
    {
        push_at(&mut self.with_term, arc.place, has_term(arc), number)?;
        push_at(&mut self.otherwise, arc.place, reads_otherwise(arc), number)?;
        Ok(())
    }

    /// Adds the transition of a number to the lists of the places that its input arcs come from, once to each.
    fn push_arcs(&mut self, inputs: &[PlaceArc], number: u32) -> Result<(), Memory>
        requires readable { AllByRecursion IsReadable (arcs_view inputs.now) }
        requires with_term { AllByRecursion (λ arc. arc.place < length self.old.with_term.items) (arcs_view inputs.now) }
        requires otherwise { AllByRecursion (λ arc. arc.place < length self.old.otherwise.items) (arcs_view inputs.now) }
        ensures with_term { OnOk result (AreWith (λ p. list_any (bears has_term p) (arcs_view inputs.now)) number self.old.with_term.items self.new.with_term.items) }
        ensures otherwise { OnOk result (AreWith (λ p. list_any (bears reads_otherwise p) (arcs_view inputs.now)) number self.old.otherwise.items self.new.otherwise.items) }
    {
        for arc in inputs {
            self.push_arc(arc, number)?;
        }
        Ok(())
    }

    /// The readers of a sound net.
    ///
    /// # Errors
    ///
    /// `Memory` where memory is wanted.
    pub(crate) fn of(alloc: Global, net: &Net) -> Result<Readers, Memory>
        requires sound { IsSound (net_view net.now) }
        ensures readers { IfOk result (λ readers. AreReaders (net_view net.now) readers) }
    {
        let with_term = empty_lists(alloc, net.places.len())?;
        let otherwise = empty_lists(alloc, net.places.len())?;
        let mut readers = Readers {
            with_term,
            otherwise,
        };
        for t in 0..net.transitions.len() as u32 {
            readers.push_arcs(&net.transitions[t as usize].inputs, t)?;
        }
        Ok(readers)
    }

    /// The transitions that have a binding term on an input arc from the place, in rising order; none past the last
    /// place.
    pub(crate) fn with_term(&self, place: u32) -> &[u32]
        ensures listed { result.now ≡ numbers_at self.now.with_term.items place }
    {
        match self.with_term.get(place as usize) {
            Some(numbers) => numbers,
            None => &[],
        }
    }

    /// The transitions that read the place otherwise, in rising order; none past the last place.
    pub(crate) fn otherwise(&self, place: u32) -> &[u32]
        ensures listed { result.now ≡ numbers_at self.now.otherwise.items place }
    {
        match self.otherwise.get(place as usize) {
            Some(numbers) => numbers,
            None => &[],
        }
    }
}
