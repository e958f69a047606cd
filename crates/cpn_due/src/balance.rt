//! How a fork is made level, one of whose sides has changed.
ghost use Rattle.std.specs.Prelude.{◌≡◌, ◌+◌, ◌^◌, ◌<◌, ◌≤◌};
ghost use Rattle.cpn_definitions.specs.Lists.{Rises};
ghost use Rattle.cpn_due.specs.Marked.{plain_marked, marked_cmp};
ghost use Rattle.cpn_due.specs.Sides.{around, above, count_around, DifferByAtMost};
ghost use Rattle.cpn_due.specs.Trees.{AreBalanced};

use crate::summaries::summarize;
use crate::trees::{Fork, Parts, Tree};
use std::mem;

/// Makes a fork level, one of whose sides has just become higher or lower by one, and its summary anew.
pub(crate) fn settle(fork: &mut Fork)
    requires rises { Rises marked_cmp (around fork.old.left (plain_marked fork.old.root) fork.old.right) }
    requires level { DifferByAtMost 2 fork.old.left fork.old.right }
    requires few { count_around fork.old.left fork.old.right < 2 ^ 64 }
    ensures balanced { AreBalanced fork.new.left (plain_marked fork.new.root) fork.new.right fork.new.summary }
    ensures items { around fork.new.left (plain_marked fork.new.root) fork.new.right ≡ around fork.old.left (plain_marked fork.old.root) fork.old.right }
    ensures count { count_around fork.new.left fork.new.right ≡ count_around fork.old.left fork.old.right }
    ensures not_lower { above fork.old.left fork.old.right ≤ fork.new.summary.height + 1 }
    ensures not_higher { fork.new.summary.height ≤ above fork.old.left fork.old.right }
    ensures same_height { DifferByAtMost 1 fork.old.left fork.old.right → fork.new.summary.height ≡ above fork.old.left fork.old.right }
{
    turn(fork);
    fork.summary = summarize(&fork.left, &fork.root, &fork.right);
}

// Turns a fork where one side is two levels higher.
fn turn(fork: &mut Fork)
    requires rises { Rises marked_cmp (around fork.old.left (plain_marked fork.old.root) fork.old.right) }
    requires level { DifferByAtMost 2 fork.old.left fork.old.right }
    requires few { count_around fork.old.left fork.old.right < 2 ^ 64 }
    ensures level { DifferByAtMost 1 fork.new.left fork.new.right }
    ensures items { around fork.new.left (plain_marked fork.new.root) fork.new.right ≡ around fork.old.left (plain_marked fork.old.root) fork.old.right }
    ensures count { count_around fork.new.left fork.new.right ≡ count_around fork.old.left fork.old.right }
    ensures not_lower { above fork.old.left fork.old.right ≤ above fork.new.left fork.new.right + 1 }
    ensures not_higher { above fork.new.left fork.new.right ≤ above fork.old.left fork.old.right }
    ensures same_height { DifferByAtMost 1 fork.old.left fork.old.right → above fork.new.left fork.new.right ≡ above fork.old.left fork.old.right }
{
    let (left, right) = (fork.left.height(), fork.right.height());
    if left > right + 1 {
        lean_right(fork);
        return;
    }
    if right > left + 1 {
        lean_left(fork);
    }
}

// Turns a fork whose left side is two levels higher.
fn lean_right(fork: &mut Fork)
    requires rises { Rises marked_cmp (around fork.old.left (plain_marked fork.old.root) fork.old.right) }
    requires two_higher { fork.old.left.height ≡ fork.old.right.height + 2 }
    requires few { count_around fork.old.left fork.old.right < 2 ^ 64 }
    ensures level { DifferByAtMost 1 fork.new.left fork.new.right }
    ensures items { around fork.new.left (plain_marked fork.new.root) fork.new.right ≡ around fork.old.left (plain_marked fork.old.root) fork.old.right }
    ensures count { count_around fork.new.left fork.new.right ≡ count_around fork.old.left fork.old.right }
    ensures not_lower { fork.old.left.height ≤ above fork.new.left fork.new.right }
    ensures at_most_one_higher { above fork.new.left fork.new.right ≤ fork.old.left.height + 1 }
{
    let high = mem::replace(&mut fork.left, Tree::new());
    let right = mem::replace(&mut fork.right, Tree::new());
    let Parts {
        spare: second,
        left,
        root: pivot,
        right: inner,
    } = high.take_apart();
    if left.height() >= inner.height() {
        let root = mem::replace(&mut fork.root, pivot);
        fork.left = left;
        fork.right = Tree::join(Parts {
            spare: second,
            left: inner,
            root,
            right,
        });
        return;
    }
    let middle = inner.take_apart();
    let root = mem::replace(&mut fork.root, middle.root);
    fork.left = Tree::join(Parts {
        spare: second,
        left,
        root: pivot,
        right: middle.left,
    });
    fork.right = Tree::join(Parts {
        spare: middle.spare,
        left: middle.right,
        root,
        right,
    });
}

// Turns a fork whose right side is two levels higher.
fn lean_left(fork: &mut Fork)
    requires rises { Rises marked_cmp (around fork.old.left (plain_marked fork.old.root) fork.old.right) }
    requires two_higher { fork.old.right.height ≡ fork.old.left.height + 2 }
    requires few { count_around fork.old.left fork.old.right < 2 ^ 64 }
    ensures level { DifferByAtMost 1 fork.new.left fork.new.right }
    ensures items { around fork.new.left (plain_marked fork.new.root) fork.new.right ≡ around fork.old.left (plain_marked fork.old.root) fork.old.right }
    ensures count { count_around fork.new.left fork.new.right ≡ count_around fork.old.left fork.old.right }
    ensures not_lower { fork.old.right.height ≤ above fork.new.left fork.new.right }
    ensures at_most_one_higher { above fork.new.left fork.new.right ≤ fork.old.right.height + 1 }
{
    let high = mem::replace(&mut fork.right, Tree::new());
    let left = mem::replace(&mut fork.left, Tree::new());
    let Parts {
        spare: second,
        left: inner,
        root: pivot,
        right,
    } = high.take_apart();
    if right.height() >= inner.height() {
        let root = mem::replace(&mut fork.root, pivot);
        fork.right = right;
        fork.left = Tree::join(Parts {
            spare: second,
            left,
            root,
            right: inner,
        });
        return;
    }
    let middle = inner.take_apart();
    let root = mem::replace(&mut fork.root, middle.root);
    fork.left = Tree::join(Parts {
        spare: middle.spare,
        left,
        root,
        right: middle.left,
    });
    fork.right = Tree::join(Parts {
        spare: second,
        left: middle.right,
        root: pivot,
        right,
    });
}
