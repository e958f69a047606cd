//! What a tree keeps of all its items.
ghost use Rattle.std.specs.Prelude.{◌≡◌, [], ◌∷◌, ◌^◌, ◌<◌, ◌≤◌, length};
ghost use Rattle.cpn_due.specs.Marked.{plain_marked, summary_of, is_reached, sooner as sooner_of};
ghost use Rattle.cpn_due.specs.Sides.{around, above, count_around};

use crate::marked::Marked;
use crate::trees::Tree;

/// What a tree keeps of all its items.
#[derive(Clone, Copy)]
pub(crate) struct Summary {
    /// The height of the tree.
    pub(crate) height: u64,
    /// How many items there are.
    pub(crate) count: u64,
    /// How many of them are due.
    pub(crate) due: u64,
    /// The least earliest time.
    pub(crate) first: Option<u64>,
    /// The least earliest time of those that are not due.
    pub(crate) later: Option<u64>,
}

impl Summary {
    /// The summary of no item.
    pub(crate) fn empty() -> Summary
        ensures empty { result ≡ summary_of [] 0 }
    {
        Summary {
            height: 0,
            count: 0,
            due: 0,
            first: None,
            later: None,
        }
    }

    /// The summary of one item.
    pub(crate) fn lone(item: &Marked) -> Summary
        ensures lone { result ≡ summary_of (plain_marked item.now ∷ []) 1 }
    {
        Summary {
            height: 1,
            count: 1,
            due: item.due_count(),
            first: Some(item.element.entry.earliest),
            later: item.later_time(),
        }
    }

    /// Whether an item that is not due comes due at the clock.
    pub(crate) fn is_reached(&self, clock: u64) -> bool
        ensures reached { result ≡ is_reached self.now.later clock }
    {
        match self.later {
            None => false,
            Some(time) => time <= clock,
        }
    }
}

/// The summary of a root and of what stands on both sides of it.
#[tactic(auto, using(crate::proofs::SummaryLaws::count_joined, crate::proofs::SummaryLaws::due_joined, crate::proofs::SummaryLaws::first_joined, crate::proofs::SummaryLaws::later_joined))]
pub(crate) fn summarize(left: &Tree, root: &Marked, right: &Tree) -> Summary
    requires few { count_around left.now right.now < 2 ^ 64 }
    ensures summary { result ≡ summary_of (around left.now (plain_marked root.now) right.now) (above left.now right.now) }
    ensures low { above left.now right.now ≤ count_around left.now right.now }
{
    let before = left.summary();
    let after = right.summary();
    let time = Some(root.element.entry.earliest);
    Summary {
        height: before.height.max(after.height) + 1,
        count: before.count + 1 + after.count,
        due: before.due + root.due_count() + after.due,
        first: sooner(before.first, sooner(time, after.first)),
        later: sooner(before.later, sooner(root.later_time(), after.later)),
    }
}

fn sooner(time: Option<u64>, other: Option<u64>) -> Option<u64>
    ensures lesser { result ≡ sooner_of time other }
{
    match time {
        None => other,
        Some(time) => match other {
            None => Some(time),
            Some(other) => Some(time.min(other)),
        },
    }
}
