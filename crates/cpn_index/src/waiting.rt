//! The elements that wait for values on one place.
ghost use Rattle.std.specs.Prelude.{◌≡◌, ◌&&◌, ◌||◌, not, [], IfOk, OnOk};
ghost use Rattle.std.specs.List.{list_any};
ghost use Rattle.cpn_definitions.specs.Value.{PlainValue};
ghost use Rattle.cpn_definitions.specs.Order.{same_value};
ghost use Rattle.cpn_definitions.specs.Occurrence.{PlainElement};
ghost use Rattle.cpn_core.specs.Views.{value_view};
ghost use Rattle.cpn_core.specs.Elements.{element_view};
ghost use Rattle.cpn_index.specs.WatcherOrder.{watching};
ghost use Rattle.cpn_index.specs.Waiting.{same_element, has_watcher, waiting_for, EachIsAwaited};

use cpn_core::{Element, Memory, Value};
use cpn_due::compare_elements;
use std::alloc::Global;
use std::cmp::Ordering;
use std::collections::{BTreeMap, BTreeSet};
use std::sync::Arc;

/// An element that waits for a value. Watchers compare as their elements.
#[derive(Drop)]
pub(crate) struct Watcher {
    pub(crate) element: Arc<Element>,
}

impl PartialEq for Watcher {
    ghost use Rattle.cpn_index.specs.WatcherOrder.{same_watchers, same_watchers_laws};

    ghost eq = { same_watchers };

    ghost laws = { same_watchers_laws };

    fn eq(&self, other: &Watcher) -> bool {
        compare_elements(&self.element, &other.element) == Ordering::Equal
    }
}

impl Eq for Watcher {
    ghost use Rattle.cpn_index.specs.WatcherOrder.{same_watchers_equiv};

    ghost laws = { same_watchers_equiv };
}

impl PartialOrd for Watcher {
    ghost use Rattle.std.specs.Ordering.{as_partial_cmp};
    ghost use Rattle.cpn_index.specs.WatcherOrder.{watcher_order, watcher_order_laws};

    ghost partial_cmp = { as_partial_cmp watcher_order };

    ghost laws = { watcher_order_laws };

    fn partial_cmp(&self, other: &Watcher) -> Option<Ordering> {
        Some(compare_elements(&self.element, &other.element))
    }
}

impl Ord for Watcher {
    ghost use Rattle.std.proofs.Common.{refl};
    ghost use Rattle.cpn_index.specs.WatcherOrder.{watcher_order, watcher_order_total};

    ghost cmp = { watcher_order };

    ghost total = { watcher_order_total };

    ghost matches_partial_cmp = { λ v w. refl };

    ghost matches_eq = { λ v w. refl };

    fn cmp(&self, other: &Watcher) -> Ordering {
        compare_elements(&self.element, &other.element)
    }
}

/// The elements that wait for values on one place: each value for which an element waits, and the watchers of those that do.
#[derive(Drop)]
pub(crate) struct Waiting {
    sets: BTreeMap<Value, BTreeSet<Watcher>>,
    ghost no_empty_set: { EachIsAwaited sets.entries },
}

impl Waiting {
    /// Nothing waits. It takes no memory yet.
    pub(crate) fn new(alloc: Global) -> Waiting
        ensures none { result.sets.entries ≡ [] }
    {
        Waiting {
            sets: BTreeMap::new(alloc),
        }
    }

    /// Puts the watcher among those that wait for the value.
    pub(crate) fn put(
        &mut self,
        alloc: Global,
        value: &Value,
        watcher: Watcher,
    ) -> Result<(), Memory>
        ensures put { OnOk result ((v : PlainValue) (e : PlainElement) → has_watcher e (waiting_for v self.new.sets.entries) ≡ ((same_element e (watching watcher) && same_value v (value_view value.now)) || has_watcher e (waiting_for v self.old.sets.entries))) }
    {
        if let Some(watchers) = self.sets.get_mut(value) {
            watchers.insert(watcher)?;
            return Ok(());
        }
        let mut watchers = BTreeSet::new(alloc);
        watchers.insert(watcher)?;
        self.sets.insert(value.copy()?, watchers)?;
        Ok(())
    }

    /// Takes the watcher out of those that wait for the value. It takes no memory.
    pub(crate) fn remove(&mut self, value: &Value, watcher: &Watcher)
        ensures removed { (v : PlainValue) (e : PlainElement) → has_watcher e (waiting_for v self.new.sets.entries) ≡ (not (same_element e (watching watcher.now) && same_value v (value_view value.now)) && has_watcher e (waiting_for v self.old.sets.entries)) }
    {
        let Some(watchers) = self.sets.get_mut(value) else {
            return;
        };
        watchers.remove(watcher);
        if watchers.is_empty() {
            self.sets.remove(value);
        }
    }

    /// The elements that wait for the value.
    pub(crate) fn elements(&self, alloc: Global, value: &Value) -> Result<Vec<Arc<Element>>, Memory>
        ensures exact { IfOk result (λ found. (e : PlainElement) → list_any (λ element. same_element e (element_view element.value)) found.items ≡ has_watcher e (waiting_for (value_view value.now) self.now.sets.entries)) }
    {
        let Some(watchers) = self.sets.get(value) else {
            return Ok(Vec::new(alloc));
        };
        let found = share_elements(alloc, watchers)?;
        Ok(found)
    }

    /// Lets nothing wait any longer. It takes no memory.
    pub(crate) fn clear(&mut self)
        ensures none { self.new.sets.entries ≡ [] }
    {
        self.sets.clear();
    }
}

// The elements of the watchers, which the list shares.
fn share_elements(alloc: Global, watchers: &BTreeSet<Watcher>) -> Result<Vec<Arc<Element>>, Memory>
    ensures exact { IfOk result (λ found. (e : PlainElement) → list_any (λ element. same_element e (element_view element.value)) found.items ≡ has_watcher e watchers.now.keys) }
{
    let mut found = Vec::new(alloc);
    for watcher in watchers {
        found.push(watcher.element.clone()?)?;
    }
    Ok(found)
}
