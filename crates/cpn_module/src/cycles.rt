//! Whether a module is part of itself.

ghost use Rattle.std.specs.Prelude.{◌≡◌, ◌<◌, ◌↔◌, ℕ, true, map, length, All, IfOk, OnOk, MatchOption};
ghost use Rattle.cpn_module.specs.Hierarchy.{PlainHierarchy, IsPartOf, IsAcyclic, IsFirstInItself};
ghost use Rattle.cpn_module.specs.Ranges.{HasItsNumbers};
ghost use Rattle.cpn_module.specs.Submodules.{submodules_of as submodules_in, with_numbers, each_once, is_among, submodule_lists};
ghost use Rattle.cpn_module.specs.Views.{structure_view, hierarchy_view};

use crate::hierarchy::{Hierarchy, Structure};
use crate::number_sets::NumberSet;
use std::alloc::{AllocError, Global};

/// Adds the numbers that are not there yet.
fn add_all(numbers: &mut NumberSet, more: &[usize]) -> Result<(), AllocError>
    ensures added { OnOk result (numbers.new ≡ with_numbers numbers.old more.now) }
{
    for number in more {
        numbers.add(*number)?;
    }
    Ok(())
}

/// The submodules of a module, each once.
fn submodules_of(alloc: Global, structure: &Structure) -> Result<NumberSet, AllocError>
    ensures each { IfOk result (λ submodules. submodules ≡ each_once (submodules_in (structure_view structure.now))) }
{
    let mut submodules = NumberSet::new(alloc);
    for substitution in structure.substitutions.as_slice() {
        submodules.add(substitution.submodule)?;
    }
    Ok(submodules)
}

/// The submodules of each module, each once.
fn all_submodules(alloc: Global, modules: &[Structure]) -> Result<Vec<NumberSet>, AllocError>
    ensures each { IfOk result (λ lists. lists.items ≡ submodule_lists (map structure_view modules.now)) }
{
    let mut lists = Vec::with_capacity(alloc, modules.len())?;
    for structure in modules {
        lists.push(submodules_of(alloc, structure)?)?;
    }
    Ok(lists)
}

/// The modules that are part of a module: its submodules, and theirs, and so on.
fn parts_of(alloc: Global, submodules: &[NumberSet], whole: usize) -> Result<NumberSet, AllocError>
    requires there { whole < length submodules.now }
    requires below { All (All (λ part. part < length submodules.now)) submodules.now }
    ensures exact { IfOk result (λ parts. (h : PlainHierarchy) → submodules.now ≡ submodule_lists h.modules → (part : ℕ) → (is_among part parts ≡ true) ↔ IsPartOf h part whole) }
{
    let mut parts = NumberSet::new(alloc);
    add_all(&mut parts, submodules[whole].as_slice())?;
    let mut seen = 0;
    while seen < parts.len() {
        let part = parts.as_slice()[seen];
        add_all(&mut parts, submodules[part].as_slice())?;
        seen += 1;
    }
    Ok(parts)
}

/// The first module that is part of itself, if one is.
pub(crate) fn first_in_itself(
    alloc: Global,
    hierarchy: &Hierarchy,
) -> Result<Option<usize>, AllocError>
    requires numbers { HasItsNumbers (hierarchy_view hierarchy.now) }
    ensures first { IfOk result (λ first. MatchOption first (IsAcyclic (hierarchy_view hierarchy.now)) (IsFirstInItself (hierarchy_view hierarchy.now))) }
{
    let submodules = all_submodules(alloc, hierarchy.modules.as_slice())?;
    for number in 0..submodules.len() {
        let parts = parts_of(alloc, submodules.as_slice(), number)?;
        if parts.has(number) {
            return Ok(Some(number));
        }
    }
    Ok(None)
}
