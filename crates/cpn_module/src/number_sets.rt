//! Numbers, each once, in the order in which they first came.

ghost use Rattle.std.specs.Prelude.{◌≡◌, [], not, nat_eq, length, IfOk, OnErr};
ghost use Rattle.std.specs.List.{IsDistinct};
ghost use Rattle.cpn_module.specs.Submodules.{is_among, with_number};

use std::alloc::{AllocError, Global};
use std::collections::BTreeSet;
use std::marker::Model;

/// Numbers in the order in which they first came, none of them twice.
#[derive(Drop)]
pub(crate) struct NumberSet {
    numbers: Vec<usize>,
    set: BTreeSet<usize>,
}

impl Model for NumberSet {
    ghost use Rattle.std.specs.Prelude.{ℕ, List};
    ghost use Rattle.cpn_module.specs.NumberSets.{IsSetOf};

    ghost Value = { List ℕ };

    ghost view = { λ numbers. numbers.numbers.items };

    ghost invariant = { λ numbers. IsSetOf numbers.numbers.items numbers.set };
}

impl NumberSet {
    /// No numbers.
    pub(crate) fn new(alloc: Global) -> NumberSet
        ensures empty { result ≡ [] }
    {
        NumberSet {
            numbers: Vec::new(alloc),
            set: BTreeSet::new(alloc),
        }
    }

    /// How many numbers there are.
    pub(crate) fn len(&self) -> usize
        ensures number { result ≡ length self.now }
        ensures distinct { IsDistinct nat_eq self.now }
    {
        self.numbers.len()
    }

    /// The numbers.
    pub(crate) fn as_slice(&self) -> &[usize]
        ensures numbers { result.now ≡ self.now }
    {
        self.numbers.as_slice()
    }

    /// Whether a number is there.
    pub(crate) fn has(&self, number: usize) -> bool
        ensures tells { result ≡ is_among number self.now }
    {
        self.set.contains(&number)
    }

    /// Adds a number at the end, unless it is there already. Answers whether it was added.
    pub(crate) fn add(&mut self, number: usize) -> Result<bool, AllocError>
        ensures added { IfOk result (λ added. added ≡ not (is_among number self.old)) }
        ensures numbers { IfOk result (λ _. self.new ≡ with_number self.old number) }
        ensures unchanged { OnErr result (self.new ≡ self.old) }
    {
        self.numbers.push(number)?;
        match self.set.insert(number) {
            Ok(true) => Ok(true),
            Ok(false) => {
                self.numbers.pop();
                Ok(false)
            }
            Err(_) => {
                self.numbers.pop();
                Err(AllocError)
            }
        }
    }
}
