//! How an element is put into a tree.
ghost use Rattle.std.specs.Prelude.{◌≡◌, ◌+◌, ◌^◌, ◌<◌, ◌≤◌, false, length};
ghost use Rattle.cpn_definitions.specs.Lists.{with_item};
ghost use Rattle.cpn_due.specs.Marked.{plain_marked, marked_cmp, has_item};

use crate::balance::settle;
use crate::marked::Marked;
use crate::trees::{Fork, Node, Tree};

/// Puts an item into a tree that has none of the same element, with a box that is at hand.
pub(crate) fn insert(tree: &mut Tree, item: Marked, spare: Box<Option<Fork>>)
    requires absent { has_item (plain_marked item) tree.old.items ≡ false }
    requires few { length tree.old.items < 2 ^ 63 }
    ensures items { tree.new.items ≡ with_item marked_cmp (plain_marked item) tree.old.items }
    ensures count { length tree.new.items ≡ length tree.old.items + 1 }
    ensures not_lower { tree.old.height ≤ tree.new.height }
    ensures at_most_one_higher { tree.new.height ≤ tree.old.height + 1 }
{
    match &mut tree.node {
        Node::Leaf => *tree = Tree::lone(item, spare),
        Node::Fork(cell) => match &mut **cell {
            None => *tree = Tree::lone(item, spare),
            Some(fork) => {
                if item.is_before(&fork.root) {
                    insert(&mut fork.left, item, spare);
                    settle(fork);
                    return;
                }
                insert(&mut fork.right, item, spare);
                settle(fork);
            }
        },
    }
}
