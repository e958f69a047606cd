//! The written initial markings of the members of compound places.

ghost use Rattle.std.specs.Prelude.{◌≡◌, ℕ, ◌<◌, ◌^◌, ◌++◌, [], map, option_map, length, slice_index_or, IfOk, OnOk};
ghost use Rattle.cpn_classes.specs.Numbering.{number_of};
ghost use Rattle.cpn_fuse.specs.Views.{instances_view};
ghost use Rattle.cpn_accepted.specs.Views.{module_net_view};
ghost use Rattle.cpn_flat.specs.FlatNet.{module_net_among};
ghost use Rattle.cpn_flat.specs.Placed.{AreOfModules};
ghost use Rattle.cpn_flat.specs.InitialMarking.{all_initials as initials_in, added, written_in};
ghost use Rattle.cpn_flat.specs.WrittenViews.{referred_view, optional_view, lists_view};

use cpn_accepted::ModuleNet;
use cpn_classes::Classes;
use cpn_core::{ArcExpr, Memory};
use cpn_fuse::Instance;
use std::alloc::Global;

/// Adds the initial markings of the places of a module, where they are written.
fn push_initials<'a>(
    initials: &mut Vec<Option<&'a ArcExpr>>,
    module: &'a ModuleNet,
) -> Result<(), Memory>
    ensures pushed { IfOk result (λ _. optional_view initials.new.items ≡ optional_view initials.old.items ++ (module_net_view module.now).initials) }
{
    for initial in &module.initials {
        initials.push(initial.as_ref())?;
    }
    Ok(())
}

/// Adds the initial markings of the places of an instance of a module.
fn push_instance<'a>(
    initials: &mut Vec<Option<&'a ArcExpr>>,
    modules: &'a [ModuleNet],
    of_module: usize,
) -> Result<(), Memory>
    requires in_range { of_module < length modules.now }
    ensures pushed { IfOk result (λ _. optional_view initials.new.items ≡ optional_view initials.old.items ++ (module_net_among (map module_net_view modules.now) of_module).initials) }
{
    push_initials(initials, &modules[of_module])
}

/// The initial markings of all place instances, in order, where they are written.
#[tactic(auto, unfolding(crate::specs::FlatNet::each_instance))]
pub(crate) fn all_initials<'a>(
    alloc: Global,
    modules: &'a [ModuleNet],
    instances: &[Instance],
) -> Result<Vec<Option<&'a ArcExpr>>, Memory>
    requires in_modules { AreOfModules (length modules.now) (instances_view instances.now) }
    ensures initials { IfOk result (λ initials. optional_view initials.items ≡ initials_in (map module_net_view modules.now) (instances_view instances.now)) }
{
    let mut initials = Vec::new(alloc);
    for instance in instances {
        push_instance(&mut initials, modules, instance.of_module)?;
    }
    Ok(initials)
}

/// Lists without an item, so many.
fn empty_lists<'a>(alloc: Global, count: u32) -> Result<Vec<Vec<&'a ArcExpr>>, Memory>
    ensures each { IfOk result (λ lists. length lists.items ≡ count) }
    ensures empty { IfOk result (λ lists. (c : ℕ) → slice_index_or (lists_view lists.items) c [] ≡ []) }
{
    let mut lists = Vec::new(alloc);
    for _class in 0..count {
        lists.push(Vec::new(alloc))?;
    }
    Ok(lists)
}

/// Adds the initial marking of a place instance to those of its compound place, where it is written.
fn push_written<'a>(
    lists: &mut Vec<Vec<&'a ArcExpr>>,
    class: usize,
    initial: Option<&'a ArcExpr>,
) -> Result<(), Memory>
    requires class { class < length lists.old.items }
    ensures each { OnOk result (length lists.new.items ≡ length lists.old.items) }
    ensures pushed { OnOk result ((c : ℕ) → slice_index_or (lists_view lists.new.items) c [] ≡ slice_index_or (lists_view lists.old.items) c [] ++ added c class (option_map referred_view initial.entry)) }
{
    match initial {
        Some(initial) => {
            lists[class].push(initial)?;
            Ok(())
        }
        None => Ok(()),
    }
}

/// Of each compound place, the initial markings that are written of its members, in order.
pub(crate) fn written_lists<'a>(
    alloc: Global,
    initials: &[Option<&'a ArcExpr>],
    classes: &Classes,
) -> Result<Vec<Vec<&'a ArcExpr>>, Memory>
    requires as_many { length classes.now.numbers ≡ length initials.now }
    requires small { length classes.now.numbers < 2 ^ 32 }
    ensures each { IfOk result (λ lists. length lists.items ≡ length classes.now.firsts) }
    ensures written { IfOk result (λ lists. (c : ℕ) → c < length classes.now.firsts → slice_index_or (lists_view lists.items) c [] ≡ written_in c classes.now.numbers (optional_view initials.now)) }
{
    let mut lists = empty_lists(alloc, classes.classes())?;
    for (number, initial) in initials.iter().enumerate() {
        let class = classes.number(number as u32);
        push_written(&mut lists, class as usize, *initial)?;
    }
    Ok(lists)
}
