//! Trees of items, in which the classes are found.
ghost use Rattle.std.specs.Prelude.{◌≡◌, ℕ, ◌<◌, ◌≤◌, List, ◌∷◌, length, slice_index, IfOk};
ghost use Rattle.std.specs.List.{range_with_len};
ghost use Rattle.cpn_classes.specs.Joined.{IsJoined};
ghost use Rattle.cpn_classes.specs.Trees.{AreTrees, links, JoinTheSame};

use cpn_memory::Memory;
use std::alloc::Global;
use std::marker::Model;

/// Items in trees: each has a parent, which is itself at a root, and else an item before it. So the root of a
/// tree is the first of its items.
///
/// A clause sees the list of the parents.
#[derive(Drop)]
pub(crate) struct Trees {
    parents: Vec<u32>,
}

impl Model for Trees {
    ghost use Rattle.std.specs.Prelude.{ℕ, List};
    ghost use Rattle.cpn_classes.specs.Trees.{AreTrees};

    ghost Value = { List ℕ };

    ghost view = { λ trees. trees.parents.items };

    ghost invariant = { λ trees. AreTrees trees.parents.items };
}

impl Trees {
    /// So many items, each alone.
    pub(crate) fn alone(alloc: Global, count: u32) -> Result<Trees, Memory>
        ensures alone { IfOk result (λ trees. trees ≡ range_with_len 0 count) }
    {
        let parents = (0..count).collect(alloc)?;
        Ok(Trees { parents })
    }

    /// The parent of each item.
    pub(crate) fn parents(&self) -> &[u32]
        ensures parents { result.now ≡ self.now }
        ensures trees { AreTrees self.now }
    {
        self.parents.as_slice()
    }

    /// Joins the trees of two items: the later root gets the earlier one as its parent.
    pub(crate) fn join(&mut self, one: u32, other: u32)
        requires one { one < length self.old }
        requires other { other < length self.old }
        ensures joined { JoinTheSame (links self.new) ((one, other) ∷ links self.old) }
        ensures length { length self.new ≡ length self.old }
    {
        let first = self.root(one);
        let second = self.root(other);
        self.parents[first.max(second) as usize] = first.min(second);
    }

    // The root of an item's tree. On the way each second item gets its parent's parent as its own, so that the
    // next way is half as long.
    fn root(&mut self, item: u32) -> u32
        requires item { item < length self.old }
        ensures root { slice_index self.new result ≡ result }
        ensures before { result ≤ item }
        ensures joined { IsJoined (links self.new) item result }
        ensures same { JoinTheSame (links self.old) (links self.new) }
        ensures roots { (r : ℕ) → slice_index self.old r ≡ r → slice_index self.new r ≡ r }
        ensures length { length self.new ≡ length self.old }
    {
        let mut at = item;
        while self.parents[at as usize] != at {
            let parent = self.parents[at as usize];
            let next = self.parents[parent as usize];
            self.parents[at as usize] = next;
            at = next;
        }
        at
    }
}
