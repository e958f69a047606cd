//! The places of the flat net.

ghost use Rattle.std.specs.Prelude.{◌≡◌, ◌<◌, ◌++◌, map, length, string_bytes, IfOk};
ghost use Rattle.cpn_core.specs.Nets.{place_view};
ghost use Rattle.cpn_classes.specs.Numbering.{Numbering};
ghost use Rattle.cpn_fuse.specs.Views.{instances_view};
ghost use Rattle.cpn_accepted.specs.Views.{module_net_view};
ghost use Rattle.cpn_flat.specs.Names.{name_at};
ghost use Rattle.cpn_flat.specs.Placed.{AreOfModules};
ghost use Rattle.cpn_flat.specs.FlatNet.{module_net_among, joined_place, all_places as place_instances, compound_among};

use crate::names::{joined, name_of};
use cpn_accepted::ModuleNet;
use cpn_classes::Classes;
use cpn_core::{Memory, Place};
use cpn_fuse::Instance;
use std::alloc::Global;

/// A place of an instance of the name.
fn place_in(alloc: Global, whole: &str, place: &Place) -> Result<Place, Memory>
    ensures made { IfOk result (λ made. place_view made ≡ joined_place whole.now (place_view place.now)) }
{
    let name = joined(alloc, whole, place.name.as_str())?;
    place.with_name(name)
}

/// Adds the places of a module, as those of an instance of the name.
fn push_places(
    alloc: Global,
    places: &mut Vec<Place>,
    whole: &str,
    module: &ModuleNet,
) -> Result<(), Memory>
    ensures pushed { IfOk result (λ _. map place_view places.new.items ≡ map place_view places.old.items ++ map (joined_place whole.now) (module_net_view module.now).places) }
{
    for place in &module.places {
        places.push(place_in(alloc, whole, place)?)?;
    }
    Ok(())
}

/// Adds the places of an instance of a module, by their numbers.
fn push_instance(
    alloc: Global,
    modules: &[ModuleNet],
    names: &[String],
    places: &mut Vec<Place>,
    number: usize,
    of_module: usize,
) -> Result<(), Memory>
    requires named { number < length names.now }
    requires in_range { of_module < length modules.now }
    ensures pushed { IfOk result (λ _. map place_view places.new.items ≡ map place_view places.old.items ++ map (joined_place (name_at (map string_bytes names.now) number)) (module_net_among (map module_net_view modules.now) of_module).places) }
{
    push_places(alloc, places, name_of(names, number), &modules[of_module])
}

/// The places of all instances, in order.
#[tactic(auto, unfolding(crate::specs::FlatNet::each_instance))]
pub(crate) fn all_places(
    alloc: Global,
    modules: &[ModuleNet],
    instances: &[Instance],
    names: &[String],
) -> Result<Vec<Place>, Memory>
    requires named { length names.now ≡ length instances.now }
    requires in_modules { AreOfModules (length modules.now) (instances_view instances.now) }
    ensures places { IfOk result (λ places. map place_view places.items ≡ place_instances (map module_net_view modules.now) (instances_view instances.now) (map string_bytes names.now)) }
{
    let mut places = Vec::new(alloc);
    for (number, instance) in instances.iter().enumerate() {
        push_instance(
            alloc,
            modules,
            names,
            &mut places,
            number,
            instance.of_module,
        )?;
    }
    Ok(places)
}

/// A copy of a place.
fn copied(alloc: Global, place: &Place) -> Result<Place, Memory>
    ensures same { IfOk result (λ copy. place_view copy ≡ place_view place.now) }
{
    let name = String::from_str(alloc, place.name.as_str())?;
    place.with_name(name)
}

/// The compound places: the first members of the classes among all places.
pub(crate) fn compound_places(
    alloc: Global,
    places: &[Place],
    classes: &Classes,
) -> Result<Vec<Place>, Memory>
    requires as_many { length classes.now.numbers ≡ length places.now }
    ensures compound { IfOk result (λ made. map place_view made.items ≡ compound_among (map place_view places.now) classes.now.firsts) }
{
    let mut made = Vec::new(alloc);
    for class in 0..classes.classes() {
        let first = &places[classes.first(class) as usize];
        made.push(copied(alloc, first)?)?;
    }
    Ok(made)
}
