//! Things in order, each under a name.

ghost use Rattle.std.specs.Prelude.{◌≡◌, ◌∷◌, [], ◌++◌, ◌-◌, length, take, is_some, IfOk, OnOk, OnErr};
ghost use Rattle.std.specs.Map.{lookup};
ghost use Rattle.std.specs.Option.{option_copied};
ghost use Rattle.std.specs.Str.{bytes_eq};
ghost use Rattle.cpn_names.specs.Names.{number_of};
ghost use Rattle.cpn_names.specs.Named.{names_of};

use cpn_memory::Memory;
use std::alloc::Global;
use std::collections::BTreeMap;
use std::marker::Model;

/// Things in order, each under a name. Of several under one name the first is found.
#[derive(Drop)]
pub struct Named<V> {
    entries: Vec<(String, V)>,
    numbers: BTreeMap<String, usize>,
}

impl<V> Model for Named<V> {
    ghost use Rattle.std.specs.Prelude.{ℕ, List};
    ghost use Rattle.cpn_names.specs.Named.{entries_of, names_of, AreNumbered};

    ghost Value = { List (List ℕ × V) };

    ghost view = { λ named. entries_of named.entries.items };

    ghost invariant = { λ named. AreNumbered (names_of (entries_of named.entries.items)) named.numbers };
}

impl<V> Named<V> {
    /// Nothing yet. It takes no memory yet.
    pub fn new(alloc: Global) -> Named<V>
        ensures empty { result ≡ [] }
    {
        Named {
            entries: Vec::new(alloc),
            numbers: BTreeMap::new(alloc),
        }
    }

    /// How many things there are.
    pub fn len(&self) -> usize
        ensures number { result ≡ length self.now }
    {
        self.entries.len()
    }

    /// The number of a name, where it is there: that of the first that is the same.
    pub fn number(&self, name: &str) -> Option<usize>
        ensures number { result ≡ number_of name.now (names_of self.now) }
    {
        self.numbers.get(name).copied()
    }

    /// Whether a name is there.
    pub fn has(&self, name: &str) -> bool
        ensures tells { result ≡ is_some (lookup (bytes_eq name.now) self.now) }
    {
        self.number(name).is_some()
    }

    /// What stands under a name, where it is there.
    pub fn get(&self, name: &str) -> Option<&V>
        ensures value { option_copied result ≡ lookup (bytes_eq name.now) self.now }
    {
        match self.number(name) {
            Some(number) => Some(&self.entries[number].1),
            None => None,
        }
    }
}

impl<V: Drop> Named<V> {
    /// Adds a thing at the end, under a name.
    ///
    /// # Errors
    ///
    /// Memory is wanted. Nothing is changed then.
    pub fn push(&mut self, alloc: Global, name: &str, value: V) -> Result<(), Memory>
        ensures added { OnOk result (self.new ≡ self.old ++ (name.now, value) ∷ []) }
        ensures unchanged { OnErr result (self.new ≡ self.old) }
    {
        let text = String::from_str(alloc, name)?;
        let key = String::from_str(alloc, name)?;
        let first = self
            .numbers
            .get(name)
            .copied()
            .unwrap_or(self.entries.len());
        self.entries.push((text, value))?;
        match self.numbers.insert(key, first) {
            Ok(_) => Ok(()),
            Err(_) => {
                self.entries.pop();
                Err(Memory)
            }
        }
    }

    /// Takes the last thing away, where there is one.
    fn pop(&mut self)
        ensures rest { self.new ≡ take (length self.old - 1) self.old }
    {
        if let Some((name, _)) = self.entries.pop() {
            let name = name.as_str();
            if self.numbers.get(name).copied() == Some(self.entries.len()) {
                self.numbers.remove(name);
            }
        }
    }

    /// Keeps the first so many things; where there are fewer, all of them.
    pub fn truncate(&mut self, count: usize)
        ensures first { self.new ≡ take count self.old }
    {
        while count < self.len() {
            self.pop();
        }
    }
}
