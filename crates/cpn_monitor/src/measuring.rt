//! What is kept of a run that goes on, and at which monitors an occurrence looks.

ghost use Rattle.std.specs.Prelude.{◌≡◌, ◌⊎◌, ◌↔◌, ℕ, ◌<◌, ◌++◌, true, false, length, replicate, IfOk, OnOk, Contains};
ghost use Rattle.cpn_numbers.specs.NumberLists.{numbers_at};
ghost use Rattle.cpn_monitor.specs.Kept.{AreConcerned, AreBelow};
ghost use Rattle.cpn_monitor.specs.Views.{measuring_view};

use crate::values::Values14;
use crate::watched::Watched;
use cpn_core::Memory;
use cpn_numbers::NumberLists;
use std::alloc::Global;

/// What monitors have measured of a run that goes on.
///
/// What a monitor has measured counts up to the last occurrence that concerned it: one of its transition, or of a transition at an arc of its place.
/// So an occurrence costs what it concerns. `Monitors::close` gives the values at a clock.
///
/// Source: own choice.
#[derive(Drop)]
pub struct Measuring {
    pub(crate) values: Values14,
    pub(crate) watched: Watched,
    /// For each transition the places at its arcs at which a monitor looks.
    pub(crate) beside: NumberLists,
    /// That an occurrence was noted, and the last one stopped nothing: so no monitor that stops by a size is met.
    pub(crate) is_quiet: bool,
}

impl Measuring {
    /// The numbers of the monitors that are to look at an occurrence of a transition: all of them, or where the run is quiet those that it
    /// concerns.
    pub(crate) fn looked_at(&self, alloc: Global, transition: u32) -> Result<Vec<usize>, Memory>
        ensures concerned { IfOk result (λ numbers. self.now.is_quiet ≡ true → AreConcerned (measuring_view self.now) transition numbers.items) }
        ensures all { IfOk result (λ numbers. self.now.is_quiet ≡ false → AreBelow (length (measuring_view self.now).values) numbers.items) }
    {
        if self.is_quiet {
            self.concerned(alloc, transition)
        } else {
            numbers_below(alloc, self.values.values.len())
        }
    }

    // The numbers of the monitors that an occurrence of a transition concerns.
    fn concerned(&self, alloc: Global, transition: u32) -> Result<Vec<usize>, Memory>
        ensures concerned { IfOk result (λ numbers. AreConcerned (measuring_view self.now) transition numbers.items) }
    {
        let mut numbers = Vec::new(alloc);
        push_each(&mut numbers, self.watched.of_transition(transition))?;
        for place in self.beside.at(transition as usize) {
            push_each(&mut numbers, self.watched.of_place(*place))?;
        }
        Ok(numbers)
    }
}

/// The numbers below a count.
fn numbers_below(alloc: Global, count: usize) -> Result<Vec<usize>, Memory>
    ensures below { IfOk result (λ numbers. AreBelow count numbers.items) }
{
    let mut numbers = Vec::with_capacity(alloc, count)?;
    for number in 0..count {
        numbers.push(number)?;
    }
    Ok(numbers)
}

/// Adds numbers at the end.
fn push_each(numbers: &mut Vec<usize>, more: &[usize]) -> Result<(), Memory>
    ensures pushed { OnOk result (numbers.new.items ≡ numbers.old.items ++ more.now) }
{
    for number in more {
        numbers.push(*number)?;
    }
    Ok(())
}
