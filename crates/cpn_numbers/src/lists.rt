//! Lists of numbers, one for each number from 0 on.

ghost use Rattle.std.specs.Prelude.{◌≡◌, ℕ, ◌<◌, ◌↔◌, [], length, replicate, IfOk, OnOk, Contains};
ghost use Rattle.std.specs.List.{AllByRecursion};
ghost use Rattle.cpn_numbers.specs.NumberLists.{numbers_at, ends_with, with_last, with_number, AreTurned, AreWithEach};

use cpn_memory::Memory;
use std::alloc::Global;
use std::marker::Model;

/// Lists of numbers, one for each of so many numbers from 0 on.
///
/// A clause sees the lists in their order. Source: own choice.
#[derive(Drop)]
pub struct NumberLists {
    lists: Vec<Vec<usize>>,
}

impl Model for NumberLists {
    ghost use Rattle.std.specs.Prelude.{ℕ, List, map};

    ghost Value = { List (List ℕ) };

    ghost view = { λ lists. map (λ numbers. numbers.items) lists.lists.items };
}

/// Whether a number is the last of some.
fn stands_last(numbers: &[usize], number: usize) -> bool
    ensures exact { result ≡ ends_with number numbers.now }
{
    match numbers.last() {
        Some(last) => *last == number,
        None => false,
    }
}

/// Adds a number behind the others, unless it is the last of them.
fn push_last(numbers: &mut Vec<usize>, number: usize) -> Result<(), Memory>
    ensures last { OnOk result (numbers.new.items ≡ with_last number numbers.old.items) }
{
    if stands_last(numbers, number) {
        return Ok(());
    }
    numbers.push(number)?;
    Ok(())
}

impl NumberLists {
    /// So many lists, all empty.
    ///
    /// # Errors
    ///
    /// Want of memory.
    pub fn empty(alloc: Global, count: usize) -> Result<NumberLists, Memory>
        ensures empty { IfOk result (λ lists. lists ≡ replicate count []) }
    {
        let mut lists = Vec::new(alloc);
        for _list in 0..count {
            lists.push(Vec::new(alloc))?;
        }
        Ok(NumberLists { lists })
    }

    /// How many lists there are.
    pub fn len(&self) -> usize
        ensures many { result ≡ length self.now }
    {
        self.lists.len()
    }

    /// The numbers of a list; none past the last list.
    pub fn at(&self, list: usize) -> &[usize]
        ensures numbers { result.now ≡ numbers_at self.now list }
    {
        match self.lists.get(list) {
            Some(numbers) => numbers,
            None => &[],
        }
    }

    /// Adds a number behind the others of a list, unless it is the last of them.
    ///
    /// # Errors
    ///
    /// Want of memory.
    pub fn push(&mut self, list: usize, number: usize) -> Result<(), Memory>
        requires there { list < length self.old }
        ensures with { OnOk result (self.new ≡ with_number list number self.old) }
    {
        push_last(&mut self.lists[list], number)
    }

    /// Adds a number to each of some lists.
    fn push_at_each(&mut self, lists: &[usize], number: usize) -> Result<(), Memory>
        requires there { AllByRecursion (λ list. list < length self.old) lists.now }
        ensures with { OnOk result (AreWithEach lists.now number self.old self.new) }
    {
        for list in lists {
            self.push(*list, number)?;
        }
        Ok(())
    }

    /// The lists turned round: which of these lists have a number, for each number below a count.
    ///
    /// # Errors
    ///
    /// Want of memory.
    pub fn turned(&self, alloc: Global, count: usize) -> Result<NumberLists, Memory>
        requires below { AllByRecursion (λ numbers. AllByRecursion (λ number. number < count) numbers) self.now }
        ensures many { IfOk result (λ turned. length turned ≡ count) }
        ensures turned { IfOk result (AreTurned self.now) }
    {
        let mut turned = NumberLists::empty(alloc, count)?;
        for list in 0..self.lists.len() {
            turned.push_at_each(&self.lists[list], list)?;
        }
        Ok(turned)
    }
}
