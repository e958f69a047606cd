//! How an element is taken out of a tree.
ghost use Rattle.std.specs.Prelude.{◌≡◌, ◌+◌, ◌^◌, ◌<◌, ◌≤◌, [], ◌∷◌, ◌++◌, length, option_map, is_some, if◌then◌else◌};
ghost use Rattle.cpn_definitions.specs.Lists.{Rises};
ghost use Rattle.cpn_core.specs.Elements.{element_view};
ghost use Rattle.cpn_due.specs.Marked.{plain_marked, marked_cmp, item_of, without_item};
ghost use Rattle.cpn_due.specs.Sides.{around, above, count_around, DifferByAtMost};
ghost use Rattle.cpn_due.specs.Trees.{node_view, AreBalanced, IsBalanced, IsFork, HasRoot};

use crate::balance::settle;
use crate::marked::Marked;
use crate::trees::{Fork, Node, Tree};
use cpn_core::Element;
use std::cmp::Ordering;
use std::mem;

/// An item that was taken out of a tree, and the box that this frees.
#[derive(Drop)]
pub(crate) struct Taken {
    /// The item.
    pub(crate) item: Marked,
    /// The box.
    pub(crate) spare: Box<Option<Fork>>,
}

/// Takes the item of the element out of a tree, if it is there.
pub(crate) fn remove(tree: &mut Tree, element: &Element) -> Option<Taken>
    requires few { length tree.old.items < 2 ^ 63 }
    ensures items { tree.new.items ≡ without_item (element_view element.now) tree.old.items }
    ensures taken { option_map (λ t. plain_marked t.item) result ≡ item_of (element_view element.now) tree.old.items }
    ensures count { length tree.old.items ≡ length tree.new.items + (if is_some result then 1 else 0) }
    ensures not_higher { tree.new.height ≤ tree.old.height }
    ensures at_most_one_lower { tree.old.height ≤ tree.new.height + 1 }
{
    match &mut tree.node {
        Node::Leaf => None,
        Node::Fork(cell) => match &mut **cell {
            None => None,
            Some(fork) => match fork.root.order_of(element) {
                Ordering::Less => {
                    let taken = remove(&mut fork.left, element);
                    settle(fork);
                    taken
                }
                Ordering::Greater => {
                    let taken = remove(&mut fork.right, element);
                    settle(fork);
                    taken
                }
                Ordering::Equal => {
                    if fork.left.height() == 0 {
                        let right = mem::replace(&mut fork.right, Tree::new());
                        return Some(lift(&mut tree.node, right));
                    }
                    Some(take_root(fork))
                }
            },
        },
    }
}

// Takes the root out of a fork, and puts the last item of its left side there.
fn take_root(fork: &mut Fork) -> Taken
    requires some { 0 < fork.old.left.height }
    requires rises { Rises marked_cmp (around fork.old.left (plain_marked fork.old.root) fork.old.right) }
    requires level { DifferByAtMost 1 fork.old.left fork.old.right }
    requires few { count_around fork.old.left fork.old.right < 2 ^ 63 }
    ensures item { plain_marked result.item ≡ plain_marked fork.old.root }
    ensures balanced { AreBalanced fork.new.left (plain_marked fork.new.root) fork.new.right fork.new.summary }
    ensures items { around fork.new.left (plain_marked fork.new.root) fork.new.right ≡ fork.old.left.items ++ fork.old.right.items }
    ensures not_lower { above fork.old.left fork.old.right ≤ fork.new.summary.height + 1 }
    ensures not_higher { fork.new.summary.height ≤ above fork.old.left fork.old.right }
{
    let last = pop_last(&mut fork.left);
    let item = mem::replace(&mut fork.root, last.item);
    settle(fork);
    Taken {
        item,
        spare: last.spare,
    }
}

// Takes the last item out of a tree that has items.
fn pop_last(tree: &mut Tree) -> Taken
    requires some { 0 < tree.old.height }
    requires few { length tree.old.items < 2 ^ 63 }
    ensures items { tree.old.items ≡ tree.new.items ++ plain_marked result.item ∷ [] }
    ensures count { length tree.old.items ≡ length tree.new.items + 1 }
    ensures not_higher { tree.new.height ≤ tree.old.height }
    ensures at_most_one_lower { tree.old.height ≤ tree.new.height + 1 }
{
    match &mut tree.node {
        Node::Leaf => unreachable!(),
        Node::Fork(cell) => match &mut **cell {
            None => unreachable!(),
            Some(fork) => {
                if fork.right.height() == 0 {
                    let left = mem::replace(&mut fork.left, Tree::new());
                    return lift(&mut tree.node, left);
                }
                let last = pop_last(&mut fork.right);
                settle(fork);
                last
            }
        },
    }
}

// Puts another tree in the place of a fork, and gives the root of the fork and its box.
fn lift(node: &mut Node, other: Tree) -> Taken
    requires fork { IsFork node.old }
    ensures item { HasRoot node.old (plain_marked result.item) }
    ensures same_view { node_view node.new ≡ other }
    ensures balanced { IsBalanced node.new }
{
    match mem::replace(node, other.node) {
        Node::Leaf => unreachable!(),
        Node::Fork(mut spare) => match spare.take() {
            None => unreachable!(),
            Some(fork) => Taken {
                item: fork.root,
                spare,
            },
        },
    }
}
