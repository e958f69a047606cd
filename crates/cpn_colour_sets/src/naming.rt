//! Several names at a time, and colour sets by their names.

ghost use Rattle.std.specs.Prelude.{◌≡◌, map, string_bytes, OnOk};
ghost use Rattle.std.specs.List.{list_any};
ghost use Rattle.std.specs.Str.{bytes_eq};
ghost use Rattle.cpn_core.specs.Colours.{colour_view, shape_view, shapes_view};
ghost use Rattle.cpn_typing.specs.ColourSets.{is_new, with_new, with_all_new, other_names, component as component_of_rules, components as components_of_rules};
ghost use Rattle.cpn_typing.specs.Declarations.{colour_of, type_named as type_of_rules};
ghost use Rattle.cpn_declared.specs.Additions.{with_names, named_from, all_before, Grows};
ghost use Rattle.cpn_typing.specs.Answers.{Refuses};
ghost use Rattle.cpn_declared.specs.Answers.{Answers, refusal_of};
ghost use Rattle.cpn_declared.specs.DeclsViews.{decls_view};
ghost use Rattle.cpn_colour_sets.specs.ColouredNames.{old_name};
ghost use Rattle.cpn_colour_sets.specs.Kinds.{kind_view};
ghost use Rattle.cpn_declared.specs.TypeViews.{ty_view};

use crate::kinds::Kind;
use cpn_core::{Colour, Shape};
use cpn_declared::{Decls, Ty, TypeError};
use std::alloc::Global;

/// Adds names of a kind, from left to right. Those before a name that is not new stay.
pub(crate) fn add_names(
    alloc: Global,
    decls: &mut Decls,
    names: &[String],
    kind: &Kind,
) -> Result<(), TypeError>
    ensures exact { Answers (λ _. all_before (map string_bytes names.now) (other_names (decls_view decls.old))) result (with_all_new (map string_bytes names.now) (other_names (decls_view decls.old))) }
    ensures added { OnOk result (decls_view decls.new ≡ with_names (decls_view decls.old) (named_from (kind_view kind.now) 0 (map string_bytes names.now))) }
    ensures grown { Grows (decls_view decls.old) (decls_view decls.new) }
{
    for (position, name) in names.iter().enumerate() {
        let meaning = kind.meaning_at(position)?;
        decls.add_name(alloc, name.as_str(), meaning)?;
    }
    Ok(())
}

/// Whether a name is among these.
fn is_among(name: &str, names: &[String]) -> bool
    ensures exact { result ≡ list_any (bytes_eq name.now) (map string_bytes names.now) }
{
    for other in names {
        if name == other.as_str() {
            return true;
        }
    }
    false
}

/// Whether a name is new beside what is declared and these names.
fn is_new_beside(decls: &Decls, names: &[String], name: &str) -> bool
    ensures exact { result ≡ is_new name.now (all_before (map string_bytes names.now) (other_names (decls_view decls.now))) }
{
    if is_among(name, names) {
        return false;
    }
    decls.is_new_name(name)
}

/// The refusal of a name that is not new.
fn not_new(alloc: Global, name: &str) -> TypeError
    ensures exact { Refuses (refusal_of result) (old_name name.now) }
{
    match String::from_str(alloc, name) {
        Ok(name) => TypeError::Duplicate(name),
        Err(_) => TypeError::Memory,
    }
}

/// That the names are new, from left to right: each beside what is declared and the names before it.
pub(crate) fn check_new(alloc: Global, decls: &Decls, names: &[String]) -> Result<(), TypeError>
    ensures exact { Answers (λ _. all_before (map string_bytes names.now) (other_names (decls_view decls.now))) result (with_all_new (map string_bytes names.now) (other_names (decls_view decls.now))) }
{
    for (position, name) in names.iter().enumerate() {
        let name = name.as_str();
        if !is_new_beside(decls, &names[..position], name) {
            return Err(not_new(alloc, name));
        }
    }
    Ok(())
}

/// The colour set of a name, which has to be declared.
pub(crate) fn colour_named<'d>(
    alloc: Global,
    decls: &'d Decls,
    name: &str,
) -> Result<&'d Colour, TypeError>
    ensures exact { Answers (λ colour. colour_view colour.now) result (colour_of (decls_view decls.now) name.now) }
{
    match decls.colour(name) {
        Some(colour) => Ok(colour),
        None => Err(TypeError::Unknown(String::from_str(alloc, name)?)),
    }
}

/// The type of the colour set of a name.
///
/// # Errors
///
/// [`TypeError::Unknown`] exactly where no colour set has the name; [`TypeError::Memory`].
pub fn type_named(alloc: Global, decls: &Decls, name: &str) -> Result<Ty, TypeError>
    ensures exact { Answers ty_view result (type_of_rules (decls_view decls.now) name.now) }
{
    match colour_named(alloc, decls, name) {
        Ok(colour) => Ok(Ty::of_shape(alloc, &colour.shape)?),
        Err(error) => Err(error),
    }
}

/// The shape of a component: that of the colour set of the name, which is shared.
pub(crate) fn component(alloc: Global, decls: &Decls, name: &str) -> Result<Shape, TypeError>
    ensures exact { Answers shape_view result (component_of_rules (decls_view decls.now) name.now) }
{
    match colour_named(alloc, decls, name) {
        Ok(colour) => Ok(colour.shape.share()?),
        Err(error) => Err(error),
    }
}

/// The shapes of components, from left to right.
pub(crate) fn components(
    alloc: Global,
    decls: &Decls,
    names: &[String],
) -> Result<Vec<Shape>, TypeError>
    ensures exact { Answers (λ shapes. shapes_view shapes.items) result (components_of_rules (decls_view decls.now) (map string_bytes names.now)) }
{
    let mut shapes = Vec::with_capacity(alloc, names.len())?;
    for name in names {
        let shape = component(alloc, decls, name.as_str())?;
        shapes.push(shape)?;
    }
    Ok(shapes)
}
