//! Of which values on which places the stamps changed.

ghost use Rattle.std.specs.Prelude.{◌≡◌, [], ◌∷◌, ◌++◌, OnOk, OnErr};
ghost use Rattle.cpn_core.specs.Views.{value_view};
ghost use Rattle.cpn_tmset.specs.ChangedViews.{change_views, changes_view};

use cpn_core::{Memory, Value};
use smallvec::SmallVec;
use std::alloc::Global;

/// A value on a place.
#[derive(Default, Drop)]
pub struct Change {
    /// The number of the place.
    pub place: u32,
    /// The value.
    pub value: Value,
}

/// Places and values whose time stamps changed. Whoever gathers them says whether each stands there once, in what order, and whether all of
/// them changed.
///
/// Source: own choice.
#[derive(Drop)]
pub struct Changes {
    items: SmallVec<Change, 4>,
}

impl Changes {
    /// No change. It takes no memory yet.
    pub fn new(alloc: Global) -> Changes
        ensures empty { changes_view result ≡ [] }
    {
        Changes {
            items: SmallVec::new(alloc),
        }
    }

    /// The places and values, in their order.
    pub fn items(&self) -> &[Change]
        ensures items { change_views result.now ≡ changes_view self.now }
    {
        self.items.as_slice()
    }

    /// Appends a value on a place. After `Memory` the changes are as they were.
    pub fn push(&mut self, place: u32, value: Value) -> Result<(), Memory>
        ensures pushed { OnOk result (changes_view self.new ≡ changes_view self.old ++ record { place = place; value = value_view value } ∷ []) }
        ensures unchanged { OnErr result (changes_view self.new ≡ changes_view self.old) }
    {
        self.items.push(Change { place, value })?;
        Ok(())
    }

    /// Appends other changes, in their order. After `Memory` the changes are as they were.
    pub fn append(&mut self, others: Changes) -> Result<(), Memory>
        ensures appended { OnOk result (changes_view self.new ≡ changes_view self.old ++ changes_view others) }
        ensures unchanged { OnErr result (changes_view self.new ≡ changes_view self.old) }
    {
        let mut others = others;
        self.items.append(&mut others.items)?;
        Ok(())
    }
}
