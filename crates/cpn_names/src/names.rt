//! Lists of names, and the numbers of names in them.

ghost use Rattle.std.specs.Prelude.{◌≡◌, IfOk};
ghost use Rattle.cpn_names.specs.Names.{texts_of as bytes_of, number_of, Numbers};

use cpn_memory::Memory;
use std::alloc::Global;
use std::collections::BTreeMap;
use std::marker::Model;

/// The number of each name: that of the first place at which it stands.
fn numbers_of<'n>(alloc: Global, names: &[&'n str]) -> Result<BTreeMap<&'n str, usize>, Memory>
    ensures numbers { IfOk result (λ numbers. Numbers (bytes_of names.now) numbers) }
{
    let mut numbers = BTreeMap::new(alloc);
    for (number, name) in names.iter().enumerate() {
        let first = numbers.get(*name).copied().unwrap_or(number);
        numbers.insert(*name, first)?;
    }
    Ok(numbers)
}

/// Names in order. One that is there several times has the number of its first place.
#[derive(Drop)]
pub struct Names<'n> {
    names: Vec<&'n str>,
    numbers: BTreeMap<&'n str, usize>,
}

impl<'n> Model for Names<'n> {
    ghost use Rattle.std.specs.Prelude.{ℕ, List};
    ghost use Rattle.cpn_names.specs.Names.{texts_of as bytes_of, Numbers};

    ghost Value = { List (List ℕ) };

    ghost view = { λ names. bytes_of names.names.items };

    ghost invariant = { λ names. Numbers (bytes_of names.names.items) names.numbers };
}

impl<'n> Names<'n> {
    /// The names of a list.
    ///
    /// # Errors
    ///
    /// Memory is wanted.
    pub fn of(alloc: Global, names: Vec<&'n str>) -> Result<Names<'n>, Memory>
        ensures names { IfOk result (λ numbered. numbered ≡ bytes_of names.entry.items) }
    {
        let numbers = numbers_of(alloc, names.as_slice())?;
        Ok(Names { names, numbers })
    }

    /// The number of a name, where it is there: that of the first that is the same.
    pub fn number(&self, name: &str) -> Option<usize>
        ensures number { result ≡ number_of name.now self.now }
    {
        self.numbers.get(name).copied()
    }
}
