//! How the items of a tree become due.
ghost use Rattle.std.specs.Prelude.{◌≡◌, ◌^◌, ◌<◌, map, length};
ghost use Rattle.cpn_due.specs.Marked.{marked_at};

use crate::summaries::summarize;
use crate::trees::{Node, Tree};

/// Marks the items whose time is not above the clock.
pub(crate) fn mark_due(tree: &mut Tree, clock: u64)
    requires few { length tree.old.items < 2 ^ 63 }
    ensures items { tree.new.items ≡ map (marked_at clock) tree.old.items }
    ensures count { length tree.new.items ≡ length tree.old.items }
    ensures height { tree.new.height ≡ tree.old.height }
{
    let comes = tree.summary().is_reached(clock);
    if !comes {
        return;
    }
    match &mut tree.node {
        Node::Leaf => {}
        Node::Fork(cell) => match &mut **cell {
            None => {}
            Some(fork) => {
                fork.root.mark(clock);
                mark_due(&mut fork.left, clock);
                mark_due(&mut fork.right, clock);
                fork.summary = summarize(&fork.left, &fork.root, &fork.right);
            }
        },
    }
}
