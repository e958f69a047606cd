//! The classes of joined items, numbered.
ghost use Rattle.std.specs.Prelude.{◌≡◌, ℕ, ◌<◌, List, length, All, IfOk};
ghost use Rattle.cpn_classes.specs.Numbering.{Numbering, number_of, first_of, IsNumbering};
ghost use Rattle.cpn_classes.specs.Trees.{AreTrees, links};

use crate::trees::Trees;
use cpn_memory::Memory;
use std::alloc::Global;
use std::marker::Model;

/// Items in classes. The items are the numbers below a count, at most 2^32 - 1; the classes are numbered from 0
/// in the order of their first members.
///
/// A clause sees the number of each item's class, and each class's first member.
#[derive(Drop)]
pub struct Classes {
    numbers: Vec<u32>,
    firsts: Vec<u32>,
}

impl Model for Classes {
    ghost use Rattle.std.specs.Prelude.{◌<◌, ◌^◌, length};
    ghost use Rattle.cpn_classes.specs.Numbering.{Numbering, IsInOrder};

    ghost Value = { Numbering };

    ghost view = { λ c. record { numbers = c.numbers.items; firsts = c.firsts.items } };

    ghost invariant = { λ c. IsInOrder (record { numbers = c.numbers.items; firsts = c.firsts.items }) × (length c.numbers.items < 2 ^ 32) };
}

impl Classes {
    /// The classes of so many items by pairs: the least in which the members of each pair are in one class.
    ///
    /// # Errors
    ///
    /// Want of memory.
    pub fn of(alloc: Global, count: u32, pairs: &[(u32, u32)]) -> Result<Classes, Memory>
        requires items { All (λ p. (p.0 < count) × (p.1 < count)) pairs.now }
        ensures numbering { IfOk result (λ classes. IsNumbering count pairs.now classes) }
        ensures only { IfOk result (λ classes. (n : Numbering) → IsNumbering count pairs.now n → n ≡ classes) }
    {
        let mut trees = Trees::alone(alloc, count)?;
        for (one, other) in pairs {
            trees.join(*one, *other);
        }
        Classes::of_trees(alloc, count, trees.parents())
    }

    /// How many items there are.
    pub fn items(&self) -> u32
        ensures items { result ≡ length self.now.numbers }
    {
        self.numbers.len() as u32
    }

    /// How many classes there are.
    pub fn classes(&self) -> u32
        ensures classes { result ≡ length self.now.firsts }
    {
        self.firsts.len() as u32
    }

    /// The number of an item's class.
    pub fn number(&self, item: u32) -> u32
        requires item { item < length self.now.numbers }
        ensures number { result ≡ number_of self.now item }
        ensures class { result < length self.now.firsts }
    {
        self.numbers[item as usize]
    }

    /// The first member of a class: the least.
    pub fn first(&self, class: u32) -> u32
        requires class { class < length self.now.firsts }
        ensures first { result ≡ first_of self.now class }
        ensures item { result < length self.now.numbers }
    {
        self.firsts[class as usize]
    }

    // The classes of items in trees: a root begins a class, and each other item has its parent's.
    fn of_trees(alloc: Global, count: u32, parents: &[u32]) -> Result<Classes, Memory>
        requires each { length parents.now ≡ count }
        requires trees { AreTrees parents.now }
        ensures numbering { IfOk result (λ classes. IsNumbering count (links parents.now) classes) }
    {
        let mut numbers = Vec::with_capacity(alloc, parents.len())?;
        let mut firsts = Vec::new(alloc);
        for item in 0..count {
            let parent = parents[item as usize];
            if parent == item {
                numbers.push(firsts.len() as u32)?;
                firsts.push(item)?;
            } else {
                let number = numbers[parent as usize];
                numbers.push(number)?;
            }
        }
        Ok(Classes { numbers, firsts })
    }
}
