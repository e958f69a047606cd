//! What is found in a tree.
ghost use Rattle.std.specs.Prelude.{◌≡◌, ◌<◌, Some, length, slice_get, option_map};
ghost use Rattle.cpn_core.specs.Elements.{element_view};
ghost use Rattle.cpn_due.specs.Due.{plain_enabled, is_kept, first_of};
ghost use Rattle.cpn_due.specs.Marked.{are_due, enabled_in};

use crate::trees::{Node, Tree};
use cpn_core::{Element, EnabledElement};
use std::cmp::Ordering;

impl Tree {
    /// Whether an item of the element is there.
    pub(crate) fn contains(&self, element: &Element) -> bool
        ensures exact { result ≡ is_kept (element_view element.now) (enabled_in self.now.items) }
    {
        match &self.node {
            Node::Leaf => false,
            Node::Fork(cell) => match &**cell {
                None => false,
                Some(fork) => match fork.root.order_of(element) {
                    Ordering::Less => fork.left.contains(element),
                    Ordering::Equal => true,
                    Ordering::Greater => fork.right.contains(element),
                },
            },
        }
    }

    /// The first item of a transition; `None` where there is none.
    pub(crate) fn first_of(&self, transition: u32) -> Option<&EnabledElement>
        ensures first { option_map (λ x. plain_enabled x.now) result ≡ first_of transition (enabled_in self.now.items) }
    {
        match &self.node {
            Node::Leaf => None,
            Node::Fork(cell) => match &**cell {
                None => None,
                Some(fork) => {
                    let here = fork.root.transition();
                    if here < transition {
                        return fork.right.first_of(transition);
                    }
                    match fork.left.first_of(transition) {
                        Some(found) => Some(found),
                        None => fork.root.if_of(transition),
                    }
                }
            },
        }
    }

    /// The item at a rank, from 0, among those that are due.
    pub(crate) fn due(&self, rank: u64) -> &EnabledElement
        requires within { rank < length (are_due self.now.items) }
        ensures item { slice_get (enabled_in (are_due self.now.items)) rank ≡ Some (plain_enabled result.now) }
    {
        match &self.node {
            Node::Leaf => unreachable!(),
            Node::Fork(cell) => match &**cell {
                None => unreachable!(),
                Some(fork) => {
                    let before = fork.left.summary().due;
                    if rank < before {
                        return fork.left.due(rank);
                    }
                    let rest = rank - before;
                    let here = fork.root.due_count();
                    if rest < here {
                        return &fork.root.element;
                    }
                    fork.right.due(rest - here)
                }
            },
        }
    }
}
