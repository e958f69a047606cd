//! Lists that are read item by item, in order, up to the first item that is refused.

ghost use Rattle.std.specs.Prelude.{◌≡◌, ◌++◌, map, OnOk};
ghost use Rattle.serde_json.specs.View.{view};
ghost use Rattle.cpn_document.specs.Rules.{each_item};
ghost use Rattle.cpn_document.specs.Parts.{each_named, names_in};
ghost use Rattle.cpn_document.specs.Answers.{Gives};

use crate::names::Names;
use crate::refusals::DocError;
use serde_json::Value;
use std::alloc::Global;

/// A thing that stands in a list.
pub(crate) trait Item: Sized + Drop {
    ghost use Rattle.std.specs.Prelude.{ℕ, List};
    ghost use Rattle.serde_json.specs.Data.{Data};
    ghost use Rattle.serde_json.specs.View.{view};
    ghost use Rattle.cpn_document.specs.Rules.{Rule};
    ghost use Rattle.cpn_document.specs.Answers.{Gives};

    /// What a reader has to know of where the list stands.
    type Within: Copy;

    // The thing as plain data.
    ghost Raw: { Type 0 };

    ghost seen: { Self → Raw };

    // What a value is read as, and the rules that it has to keep, by its number.
    ghost value_in: { Data → Raw };

    ghost rules: { Self.Within → ℕ → Data → List Rule };

    /// The item of a number.
    fn read(
        alloc: Global,
        within: Self::Within,
        number: usize,
        value: &Value,
    ) -> Result<Self, DocError>
        ensures gives { Gives seen result (value_in (view value.now)) (rules within number (view value.now)) };
}

/// A thing that stands in a list of things with names, no two of them the same.
pub(crate) trait Named: Sized + Drop {
    ghost use Rattle.std.specs.Prelude.{◌≡◌, ℕ, List, [], ◌∷◌, ◌++◌, codes, OnOk};
    ghost use Rattle.serde_json.specs.Data.{Data};
    ghost use Rattle.serde_json.specs.View.{view};
    ghost use Rattle.cpn_document.specs.Parts.{text_at};
    ghost use Rattle.cpn_document.specs.Rules.{Rule};
    ghost use Rattle.cpn_document.specs.Answers.{Gives};

    /// What a reader has to know of where the list stands.
    type Within: Copy;

    // The thing as plain data.
    ghost Raw: { Type 0 };

    ghost seen: { Self → Raw };

    // What a value is read as, and the rules that it has to keep, by its number and the names before it.
    ghost value_in: { Data → Raw };

    ghost rules: { Self.Within → ℕ → List (List ℕ) → Data → List Rule };

    /// The thing of a number. Its name is added to the names.
    fn read<'v>(
        alloc: Global,
        within: Self::Within,
        number: usize,
        names: &mut Names<'v>,
        value: &'v Value,
    ) -> Result<Self, DocError>
        ensures gives { Gives seen result (value_in (view value.now)) (rules within number names.old (view value.now)) }
        ensures names { OnOk result (names.new ≡ names.old ++ text_at (codes "name") (view value.now) ∷ []) };
}

/// The items of a list, in order.
pub(crate) fn items_of<T: Item>(
    alloc: Global,
    within: T::Within,
    list: &[Value],
) -> Result<Vec<T>, DocError>
    ensures gives { Gives (λ items. map T.seen items.items) result (map T.value_in (map view list.now))
        (each_item (T.rules within) 0 (map view list.now)) }
{
    let mut items = Vec::with_capacity(alloc, list.len())?;
    for (number, value) in list.iter().enumerate() {
        items.push_reserved(T::read(alloc, within, number, value)?);
    }
    Ok(items)
}

/// The things of a list, in order. Their names are added to the names.
pub(crate) fn named_of<'v, T: Named>(
    alloc: Global,
    within: T::Within,
    names: &mut Names<'v>,
    list: &'v [Value],
) -> Result<Vec<T>, DocError>
    ensures gives { Gives (λ things. map T.seen things.items) result (map T.value_in (map view list.now))
        (each_named (T.rules within) 0 names.old (map view list.now)) }
    ensures names { OnOk result (names.new ≡ names.old ++ names_in (map view list.now)) }
{
    let mut things = Vec::with_capacity(alloc, list.len())?;
    for (number, value) in list.iter().enumerate() {
        things.push_reserved(T::read(alloc, within, number, names, value)?);
    }
    Ok(things)
}
