//! The enabled elements of a marking, and a clock.
ghost use Rattle.std.specs.Prelude.{◌≡◌, ◌+◌, ◌-◌, ◌<◌, ◌≤◌, ◌==◌, [], false, Some, if◌then◌else◌, is_some, length, option_map, slice_get, OnOk};
ghost use Rattle.cpn_definitions.specs.Lists.{Rises, with_item};
ghost use Rattle.cpn_definitions.specs.Enabled.{next_time};
ghost use Rattle.cpn_core.specs.Elements.{element_view, enabled_view};
ghost use Rattle.cpn_due.specs.Due.{plain_enabled, entries_in, enabled_cmp, is_kept, kept_of, without, first_of, due_at};

use crate::inserting::insert;
use crate::marked::Marked;
use crate::marking::mark_due;
use crate::removing::{Taken, remove};
use crate::trees::{Fork, Tree};
use cpn_core::{Element, EnabledElement, Memory};
use std::alloc::Global;
use std::marker::Model;

/// The enabled elements of a marking, each once and in order, each with its earliest time and its needs; and a clock, at which
/// some of them are due.
///
/// A clause sees the list of them, the clock, and for how many more there is room. Source: own choice.
#[derive(Drop)]
pub struct Due {
    tree: Tree,
    spares: Vec<Box<Option<Fork>>>,
    clock: u64,
}

impl Model for Due {
    ghost use Rattle.std.specs.Prelude.{◌+◌, ◌≤◌, length, vec_len, vec_capacity};
    ghost use Rattle.cpn_due.specs.Due.{PlainDue};
    ghost use Rattle.cpn_due.specs.DueCode.{due_code};
    ghost use Rattle.cpn_due.specs.Marked.{enabled_in, AreMarked};

    ghost Value = { PlainDue };

    ghost coded = { due_code };

    ghost view = { λ d. record { elements = enabled_in d.tree.items; clock = d.clock; spare = vec_len d.spares } };

    ghost invariant = { λ d. AreMarked d.clock d.tree.items × (length d.tree.items + vec_len d.spares ≤ vec_capacity d.spares) };
}

impl Due {
    /// No element, the clock 0, and no room. It takes no memory yet.
    pub fn new(alloc: Global) -> Due
        ensures empty { result ≡ record { elements = []; clock = 0; spare = 0 } }
    {
        Due {
            tree: Tree::new(),
            spares: Vec::new(alloc),
            clock: 0,
        }
    }

    /// Makes room for so many elements more. After `Memory` there is no less room than before.
    pub fn reserve(&mut self, n: usize) -> Result<(), Memory>
        ensures spare { OnOk result (n ≤ self.new.spare) }
        ensures no_less { self.old.spare ≤ self.new.spare }
        ensures elements { self.new.elements ≡ self.old.elements }
        ensures clock { self.new.clock ≡ self.old.clock }
    {
        while self.spare() < n {
            self.add_spare()?;
        }
        Ok(())
    }

    // Makes room for one element more.
    fn add_spare(&mut self) -> Result<(), Memory>
        ensures added { OnOk result (self.new.spare ≡ self.old.spare + 1) }
        ensures no_less { self.old.spare ≤ self.new.spare }
        ensures elements { self.new.elements ≡ self.old.elements }
        ensures clock { self.new.clock ≡ self.old.clock }
    {
        let count = self.tree.summary().count as usize;
        self.spares.reserve(count + 1)?;
        let nothing: Option<Fork> = None;
        let spare = Box::new(*self.spares.allocator(), nothing)?;
        self.spares.push_reserved(spare);
        Ok(())
    }

    /// Puts in an element, none of whose entries is there.
    pub fn insert(&mut self, element: EnabledElement)
        requires room { 0 < self.old.spare }
        requires absent { is_kept (enabled_view element).element self.old.elements ≡ false }
        ensures elements { self.new.elements ≡ with_item enabled_cmp (plain_enabled element) self.old.elements }
        ensures clock { self.new.clock ≡ self.old.clock }
        ensures spare { self.new.spare ≡ self.old.spare - 1 }
    {
        let is_due = element.entry.earliest <= self.clock;
        let Some(spare) = self.spares.pop() else {
            unreachable!()
        };
        insert(&mut self.tree, Marked { element, is_due }, spare);
    }

    /// Takes the element out; `None` where it is not there.
    pub fn remove(&mut self, element: &Element) -> Option<EnabledElement>
        ensures removed { option_map plain_enabled result ≡ kept_of (element_view element.now) self.old.elements }
        ensures elements { self.new.elements ≡ without (element_view element.now) self.old.elements }
        ensures clock { self.new.clock ≡ self.old.clock }
        ensures spare { self.new.spare ≡ self.old.spare + (if is_some result then 1 else 0) }
    {
        match remove(&mut self.tree, element) {
            None => None,
            Some(taken) => {
                let Taken { item, spare } = taken;
                self.spares.push_reserved(spare);
                Some(item.element)
            }
        }
    }

    /// Takes out all elements. The clock and the room stay as they were; what room the elements took is given up.
    pub fn clear(&mut self)
        ensures elements { self.new.elements ≡ [] }
        ensures clock { self.new.clock ≡ self.old.clock }
        ensures spare { self.new.spare ≡ self.old.spare }
    {
        self.tree = Tree::new();
    }

    /// Moves the clock. No element comes or goes by that.
    pub fn take_due(&mut self, clock: u64)
        requires not_back { self.old.clock ≤ clock }
        ensures moved { self.new.clock ≡ clock }
        ensures elements { self.new.elements ≡ self.old.elements }
        ensures spare { self.new.spare ≡ self.old.spare }
    {
        mark_due(&mut self.tree, clock);
        self.clock = clock;
    }

    /// Whether the element is there.
    pub fn contains(&self, element: &Element) -> bool
        ensures exact { result ≡ is_kept (element_view element.now) self.now.elements }
    {
        self.tree.contains(element)
    }

    /// The first element of a transition, in order; `None` where there is none.
    pub fn first_of(&self, transition: u32) -> Option<&EnabledElement>
        ensures first { option_map (λ x. plain_enabled x.now) result ≡ first_of transition self.now.elements }
    {
        self.tree.first_of(transition)
    }

    /// The least earliest time of all elements, also of those that are due; `None` where there is none.
    pub fn first_time(&self) -> Option<u64>
        ensures first { result ≡ next_time (entries_in self.now.elements) }
    {
        self.tree.summary().first
    }

    /// The clock.
    pub fn clock(&self) -> u64
        ensures clock { result ≡ self.now.clock }
    {
        self.clock
    }

    /// How many elements there are. They are in order.
    pub fn len(&self) -> u64
        ensures number { result ≡ length self.now.elements }
        ensures in_order { Rises enabled_cmp self.now.elements }
    {
        self.tree.summary().count
    }

    /// Whether there is no element.
    pub fn is_empty(&self) -> bool
        ensures exact { result ≡ (length self.now.elements == 0) }
    {
        self.len() == 0
    }

    /// For how many elements more there is room.
    pub fn spare(&self) -> usize
        ensures spare { result ≡ self.now.spare }
    {
        self.spares.len()
    }

    /// How many elements are due: their earliest time is not above the clock.
    pub fn ready_len(&self) -> u64
        ensures number { result ≡ length (due_at self.now.clock self.now.elements) }
    {
        self.tree.summary().due
    }

    /// The element at a position, from 0, among those that are due, in order.
    pub fn ready(&self, k: u64) -> &EnabledElement
        requires within { k < length (due_at self.now.clock self.now.elements) }
        ensures element { slice_get (due_at self.now.clock self.now.elements) k ≡ Some (plain_enabled result.now) }
    {
        self.tree.due(k)
    }
}
