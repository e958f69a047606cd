//! Sets of pairs of numbers.

ghost use Rattle.std.specs.Prelude.{◌≡◌, ℕ, ◌==◌, ◌&&◌, ◌||◌, [], OnOk, OnErr};
ghost use Rattle.cpn_module.specs.Pairs.{has_pair};

use std::alloc::{AllocError, Global};
use std::collections::BTreeSet;
use std::marker::Model;

/// Pairs of numbers, none of them twice.
#[derive(Drop)]
pub(crate) struct Pairs {
    set: BTreeSet<(usize, usize)>,
}

impl Model for Pairs {
    ghost use Rattle.std.specs.Prelude.{ℕ, List};

    ghost Value = { List (ℕ × ℕ) };

    ghost view = { λ pairs. pairs.set.keys };
}

impl Pairs {
    /// No pairs.
    pub(crate) fn new(alloc: Global) -> Pairs
        ensures empty { result ≡ [] }
    {
        Pairs {
            set: BTreeSet::new(alloc),
        }
    }

    /// Adds a pair, unless it is there already.
    #[tactic(auto, using(crate::proofs::PairSets::pair_added))]
    pub(crate) fn add(&mut self, first: usize, second: usize) -> Result<(), AllocError>
        ensures added { OnOk result ((a b : ℕ) → has_pair a b self.new ≡ (has_pair a b self.old || (a == first && b == second))) }
        ensures unchanged { OnErr result (self.new ≡ self.old) }
    {
        self.set.insert((first, second))?;
        Ok(())
    }

    /// Whether a pair is there.
    pub(crate) fn has(&self, first: usize, second: usize) -> bool
        ensures tells { result ≡ has_pair first second self.now }
    {
        self.set.contains(&(first, second))
    }
}
