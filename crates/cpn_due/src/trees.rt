//! Balanced trees of elements.
ghost use Rattle.std.specs.Prelude.{◌≡◌, [], ◌∷◌, ◌^◌, ◌<◌, ◌≤◌, length};
ghost use Rattle.cpn_definitions.specs.Lists.{Rises};
ghost use Rattle.cpn_due.specs.Marked.{plain_marked, marked_cmp, summary_of};
ghost use Rattle.cpn_due.specs.Sides.{around, above, count_around, DifferByAtMost};

use crate::marked::Marked;
use crate::summaries::{Summary, summarize};
use std::marker::Model;

/// A tree of elements in order, whose sides differ in height by at most one at each node.
#[cycle(tree)]
#[derive(Drop)]
pub(crate) struct Tree {
    pub(crate) node: Node,
}

/// The top of a tree.
#[cycle(tree)]
#[derive(Drop)]
pub(crate) enum Node {
    /// Nothing.
    Leaf,
    /// A fork in its box. An empty box stands for nothing too.
    Fork(Box<Option<Fork>>),
}

/// A root, what stands on both sides of it, and what is kept of all of them.
#[cycle(tree)]
#[derive(Drop)]
pub(crate) struct Fork {
    /// What comes before the root.
    pub(crate) left: Tree,
    /// What comes after it.
    pub(crate) right: Tree,
    /// The root.
    pub(crate) root: Marked,
    /// What is kept of all of them.
    pub(crate) summary: Summary,
}

impl Model for Tree {
    ghost use Rattle.std.specs.Prelude.{length};
    ghost use Rattle.cpn_due.specs.Marked.{PlainTree, tree_code};

    ghost Value = { PlainTree };

    ghost coded = { tree_code };

    ghost use Rattle.cpn_due.specs.Trees.{node_view, IsBalanced};

    ghost view = { λ t. node_view t.node };

    ghost invariant = { λ t. IsBalanced t.node };

    ghost size = { λ t. length t.items };

    ghost use Rattle.std.proofs.Common.{arith, length-append};

    ghost size_decreases = { λ t h. Prim.grind (arith, length-append) };
}

/// A tree taken apart: its root, what stood on both sides of it, and the box that held them.
#[derive(Drop)]
pub(crate) struct Parts {
    /// The box, whose content counts for nothing.
    pub(crate) spare: Box<Option<Fork>>,
    /// What comes before the root.
    pub(crate) left: Tree,
    /// The root.
    pub(crate) root: Marked,
    /// What comes after the root.
    pub(crate) right: Tree,
}

impl Tree {
    /// The tree of nothing.
    pub(crate) fn new() -> Tree
        ensures items { result.items ≡ [] }
        ensures height { result.height ≡ 0 }
    {
        Tree { node: Node::Leaf }
    }

    /// What is kept of all its items.
    pub(crate) fn summary(&self) -> Summary
        ensures summary { result ≡ summary_of self.now.items self.now.height }
        ensures low { self.now.height ≤ length self.now.items }
        ensures empty { self.now.height ≡ 0 → self.now.items ≡ [] }
        ensures rises { Rises marked_cmp self.now.items }
    {
        match &self.node {
            Node::Leaf => Summary::empty(),
            Node::Fork(cell) => match &**cell {
                None => Summary::empty(),
                Some(fork) => fork.summary,
            },
        }
    }

    /// Its height, which is 0 exactly where it has no item.
    pub(crate) fn height(&self) -> u64
        ensures height { result ≡ self.now.height }
        ensures low { self.now.height ≤ length self.now.items }
        ensures empty { self.now.height ≡ 0 → self.now.items ≡ [] }
    {
        self.summary().height
    }

    /// The tree of one item, with a box that is at hand.
    pub(crate) fn lone(root: Marked, mut spare: Box<Option<Fork>>) -> Tree
        ensures items { result.items ≡ plain_marked root ∷ [] }
        ensures height { result.height ≡ 1 }
    {
        let summary = Summary::lone(&root);
        *spare = Some(Fork {
            left: Tree::new(),
            right: Tree::new(),
            root,
            summary,
        });
        Tree {
            node: Node::Fork(spare),
        }
    }

    /// Takes a tree that has items apart.
    pub(crate) fn take_apart(self) -> Parts
        requires some { 0 < self.height }
        ensures items { self.items ≡ around result.left (plain_marked result.root) result.right }
        ensures count { length self.items ≡ count_around result.left result.right }
        ensures height { self.height ≡ above result.left result.right }
        ensures level { DifferByAtMost 1 result.left result.right }
        ensures rises { Rises marked_cmp (around result.left (plain_marked result.root) result.right) }
    {
        match self.node {
            Node::Leaf => unreachable!(),
            Node::Fork(mut spare) => match spare.take() {
                None => unreachable!(),
                Some(fork) => {
                    let Fork {
                        left,
                        right,
                        root,
                        ..
                    } = fork;
                    Parts {
                        spare,
                        left,
                        root,
                        right,
                    }
                }
            },
        }
    }

    /// Puts a tree together, whose sides differ in height by at most one.
    pub(crate) fn join(parts: Parts) -> Tree
        requires rises { Rises marked_cmp (around parts.left (plain_marked parts.root) parts.right) }
        requires level { DifferByAtMost 1 parts.left parts.right }
        requires few { count_around parts.left parts.right < 2 ^ 64 }
        ensures items { result.items ≡ around parts.left (plain_marked parts.root) parts.right }
        ensures count { length result.items ≡ count_around parts.left parts.right }
        ensures height { result.height ≡ above parts.left parts.right }
    {
        let Parts {
            mut spare,
            left,
            root,
            right,
        } = parts;
        let summary = summarize(&left, &root, &right);
        *spare = Some(Fork {
            left,
            right,
            root,
            summary,
        });
        Tree {
            node: Node::Fork(spare),
        }
    }
}
