//! Enabled elements that are marked where they are due.
ghost use Rattle.std.specs.Prelude.{◌≡◌, [], ◌∷◌, length, option_map};
ghost use Rattle.cpn_due.specs.Due.{plain_enabled, first_of};
ghost use Rattle.std.specs.Ordering.{is_lt};
ghost use Rattle.cpn_definitions.specs.Enabled.{element_cmp};
ghost use Rattle.cpn_core.specs.Elements.{element_view};
ghost use Rattle.cpn_due.specs.Marked.{plain_marked, marked_cmp, marked_at, are_due, are_not_due, least_time};

use crate::order::compare_elements;
use cpn_core::{Element, EnabledElement};
use std::cmp::Ordering;

/// An enabled element, and whether it is due.
#[derive(Drop)]
pub(crate) struct Marked {
    /// The element.
    pub(crate) element: EnabledElement,
    /// Whether its earliest time is not above the clock.
    pub(crate) is_due: bool,
}

impl Marked {
    /// Whether it comes before another one.
    pub(crate) fn is_before(&self, other: &Marked) -> bool
        ensures exact { result ≡ is_lt (marked_cmp (plain_marked self.now) (plain_marked other.now)) }
    {
        compare_elements(&self.element.entry.element, &other.element.entry.element)
            == Ordering::Less
    }

    /// How an element compares with its own.
    pub(crate) fn order_of(&self, element: &Element) -> Ordering
        ensures exact { result ≡ element_cmp (element_view element.now) (plain_marked self.now).enabled.entry.element }
    {
        compare_elements(element, &self.element.entry.element)
    }

    /// Marks the item also where its time is not above the clock.
    pub(crate) fn mark(&mut self, clock: u64)
        ensures marked { plain_marked self.new ≡ marked_at clock (plain_marked self.old) }
    {
        self.is_due = self.is_due || self.element.entry.earliest <= clock;
    }

    /// How many are due: it, or none.
    pub(crate) fn due_count(&self) -> u64
        ensures count { result ≡ length (are_due (plain_marked self.now ∷ [])) }
    {
        if self.is_due { 1 } else { 0 }
    }

    /// Its earliest time, where it is not due.
    pub(crate) fn later_time(&self) -> Option<u64>
        ensures time { result ≡ least_time (are_not_due (plain_marked self.now ∷ [])) }
    {
        if self.is_due {
            None
        } else {
            Some(self.element.entry.earliest)
        }
    }

    /// The number of its transition.
    pub(crate) fn transition(&self) -> u32
        ensures exact { result ≡ (plain_marked self.now).enabled.entry.element.transition }
    {
        self.element.entry.element.transition
    }

    /// Its element, if that is of the transition.
    pub(crate) fn if_of(&self, transition: u32) -> Option<&EnabledElement>
        ensures exact { option_map (λ x. plain_enabled x.now) result ≡ first_of transition ((plain_marked self.now).enabled ∷ []) }
    {
        if self.transition() == transition {
            return Some(&self.element);
        }
        None
    }
}
