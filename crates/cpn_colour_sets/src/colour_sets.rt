//! Colour sets and variables that are declared.

ghost use Rattle.std.specs.Prelude.{◌≡◌, ◌∷◌, [], map, string_bytes, option_map, Some, IfOk, OnOk, OnErr};
ghost use Rattle.cpn_core.specs.Colours.{shape_view, colour_view};
ghost use Rattle.cpn_trees.specs.DeclTrees.{alternative_view, body_view, colour_set, variables, union as union_body, enumeration as enumeration_body};
ghost use Rattle.cpn_typing.specs.ColourSets.{alternatives_of as alternatives_of_rules, constructors_from, other_names};
ghost use Rattle.cpn_typing.specs.Declarations.{declared_form, coloured_as};
ghost use Rattle.cpn_typing.specs.Types.{type_of_shape};
ghost use Rattle.cpn_declared.specs.Additions.{with_names, with_more_variables, Grows};
ghost use Rattle.cpn_colour_sets.specs.Alternatives.{argument_in, alternative_in, constructor_with, alternatives_seen};
ghost use Rattle.cpn_declared.specs.Answers.{Answers};
ghost use Rattle.cpn_colour_sets.specs.Bodies.{AnswersBody};
ghost use Rattle.cpn_colour_sets.specs.ColouredNames.{declared_with};
ghost use Rattle.cpn_declared.specs.DeclsViews.{decls_view, constructor_view};
ghost use Rattle.cpn_declared.specs.TypeViews.{ty_view};

use crate::kinds::Kind;
use crate::limits::check_limits;
use crate::naming::{add_names, check_new, component, components};
use cpn_core::{Colour, Memory, Shape};
use cpn_declared::{Constructor, Decls, Meaning, Ty, TypeError, number_of};
use cpn_trees::{Alternative, Body};
use std::alloc::Global;
use std::sync::Arc;

fn copies_of(alloc: Global, names: &[String]) -> Result<Vec<String>, Memory>
    ensures same { IfOk result (λ copies. map string_bytes copies.items ≡ map string_bytes names.now) }
{
    let mut copies = Vec::with_capacity(alloc, names.len())?;
    for name in names {
        copies.push(String::from_str(alloc, name.as_str())?)?;
    }
    Ok(copies)
}

// Adds variables of a colour set.
fn add_coloured(
    alloc: Global,
    decls: &mut Decls,
    names: &[String],
    colour: &Colour,
) -> Result<(), Memory>
    ensures added { OnOk result (decls_view decls.new ≡ with_more_variables (decls_view decls.old) (map (coloured_as (colour_view colour.now)) (map string_bytes names.now))) }
    ensures grown { Grows (decls_view decls.old) (decls_view decls.new) }
{
    for name in names {
        let copied = colour.copy()?;
        decls.add_variable(alloc, name.as_str(), copied)?;
    }
    Ok(())
}

// Declares variables of this colour set.
fn declare_coloured(
    alloc: Global,
    decls: &mut Decls,
    names: &[String],
    colour: &Colour,
) -> Result<(), TypeError>
    ensures exact { Answers (λ _. decls_view decls.new) result (declared_with (decls_view decls.old) (map string_bytes names.now) (colour_view colour.now)) }
    ensures grown { Grows (decls_view decls.old) (decls_view decls.new) }
{
    let first = decls.next_variable()?;
    let ty = Ty::of_shape(alloc, &colour.shape)?;
    add_names(alloc, decls, names, &Kind::Variables { first, ty: &ty })?;
    add_coloured(alloc, decls, names, colour)?;
    Ok(())
}

/// Declares variables of a colour set. Their names come first: where one is not new, this is told before that the colour
/// set is not there.
///
/// # Errors
///
/// The first reason from left to right: [`TypeError::Duplicate`] at a name that is not new, [`TypeError::Unknown`] where no colour set
/// has the name, or [`TypeError::Memory`]. The names in front of a refused one may stay declared: who wants none of them cuts them
/// off ([`Decls::cut`]).
pub fn declare_variables(
    alloc: Global,
    decls: &mut Decls,
    names: &[String],
    colour_name: &str,
) -> Result<(), TypeError>
    ensures exact { Answers (λ _. decls_view decls.new) result (declared_form (decls_view decls.old) (variables (map string_bytes names.now) colour_name.now)) }
    ensures grown { Grows (decls_view decls.old) (decls_view decls.new) }
{
    match decls.colour(colour_name) {
        Some(colour) => {
            let colour = colour.copy()?;
            declare_coloured(alloc, decls, names, &colour)
        }
        None => {
            check_new(alloc, decls, names)?;
            let name = String::from_str(alloc, colour_name)?;
            Err(TypeError::Unknown(name))
        }
    }
}

// The shape of the argument of a constructor, if it takes one.
fn argument_of(
    alloc: Global,
    decls: &Decls,
    colour_name: &Option<String>,
) -> Result<Option<Shape>, TypeError>
    ensures exact { Answers (option_map shape_view) result (argument_in (decls_view decls.now) (option_map string_bytes colour_name.now)) }
{
    match colour_name {
        None => Ok(None),
        Some(colour_name) => match component(alloc, decls, colour_name.as_str()) {
            Ok(shape) => Ok(Some(shape)),
            Err(error) => Err(error),
        },
    }
}

// The type of the argument of a constructor, if it takes one.
fn type_of_argument(alloc: Global, argument: &Option<Shape>) -> Result<Option<Ty>, Memory>
    ensures exact { IfOk result (λ ty. option_map ty_view ty ≡ option_map type_of_shape (option_map shape_view argument.now)) }
{
    match argument {
        None => Ok(None),
        Some(shape) => {
            let ty = Ty::of_shape(alloc, shape)?;
            Ok(Some(ty))
        }
    }
}

// Adds the constructor of an alternative, and gives it with the shape of its argument.
fn add_alternative(
    alloc: Global,
    decls: &mut Decls,
    union: u32,
    position: usize,
    alternative: &Alternative,
) -> Result<(Option<Shape>, Constructor), TypeError>
    ensures exact { Answers (λ found. option_map shape_view found.0) result (alternative_in (decls_view decls.old) (alternative_view alternative.now)) }
    ensures added { IfOk result (λ found. decls_view decls.new ≡ with_names (decls_view decls.old) (constructors_from union position (constructor_view found.1 ∷ []))) }
    ensures named { IfOk result (λ found. constructor_view found.1 ≡ constructor_with (string_bytes alternative.now.constructor) (option_map shape_view found.0)) }
    ensures unchanged { OnErr result (decls_view decls.new ≡ decls_view decls.old) }
{
    let name = alternative.constructor.as_str();
    if !decls.is_new_name(name) {
        return Err(TypeError::Duplicate(String::from_str(alloc, name)?));
    }
    let shape = argument_of(alloc, decls, &alternative.argument)?;
    let constructor = Constructor {
        name: String::from_str(alloc, name)?,
        argument: type_of_argument(alloc, &shape)?,
    };
    let position = number_of(position)?;
    let argument = type_of_argument(alloc, &shape)?;
    decls.add_name(
        alloc,
        name,
        Meaning::Constructor {
            union,
            position,
            argument,
        },
    )?;
    Ok((shape, constructor))
}

// What was read of the alternatives of a union.
#[derive(Drop)]
struct Alternatives {
    shapes: Vec<Option<Shape>>,
    constructors: Vec<Constructor>,
}

// Adds the constructors of the alternatives of a union, from left to right.
fn add_alternatives(
    alloc: Global,
    decls: &mut Decls,
    union: u32,
    alternatives: &[Alternative],
) -> Result<Alternatives, TypeError>
    ensures exact { Answers (λ found. alternatives_seen found.shapes.items found.constructors.items) result (alternatives_of_rules (decls_view decls.old) (map alternative_view alternatives.now) (other_names (decls_view decls.old))) }
    ensures added { IfOk result (λ found. decls_view decls.new ≡ with_names (decls_view decls.old) (constructors_from union 0 (map constructor_view found.constructors.items))) }
    ensures grown { Grows (decls_view decls.old) (decls_view decls.new) }
{
    let mut shapes = Vec::with_capacity(alloc, alternatives.len())?;
    let mut constructors = Vec::with_capacity(alloc, alternatives.len())?;
    for (position, alternative) in alternatives.iter().enumerate() {
        let (shape, constructor) = add_alternative(alloc, decls, union, position, alternative)?;
        shapes.push(shape)?;
        constructors.push(constructor)?;
    }
    Ok(Alternatives {
        shapes,
        constructors,
    })
}

// Adds a union, and gives its shape.
fn add_union(
    alloc: Global,
    decls: &mut Decls,
    name: &str,
    alternatives: &[Alternative],
) -> Result<Shape, TypeError>
    ensures exact { AnswersBody (decls_view decls.old) name.now (union_body (map alternative_view alternatives.now)) (decls_view decls.new) result }
    ensures grown { Grows (decls_view decls.old) (decls_view decls.new) }
{
    let number = decls.next_union()?;
    let found = add_alternatives(alloc, decls, number, alternatives)?;
    let Alternatives {
        shapes,
        constructors,
    } = found;
    let arguments = Arc::new(alloc, shapes)?;
    decls.add_union(constructors)?;
    Ok(Shape::Union(number, arguments))
}

// Adds an enumeration, and gives its shape.
fn add_enumeration(
    alloc: Global,
    decls: &mut Decls,
    name: &str,
    constants: &[String],
) -> Result<Shape, TypeError>
    ensures exact { AnswersBody (decls_view decls.old) name.now (enumeration_body (map string_bytes constants.now)) (decls_view decls.new) result }
    ensures grown { Grows (decls_view decls.old) (decls_view decls.new) }
{
    let number = decls.next_enumeration()?;
    let count = number_of(constants.len())?;
    add_names(alloc, decls, constants, &Kind::Constants(number))?;
    let copies = copies_of(alloc, constants)?;
    decls.add_enumeration(copies)?;
    Ok(Shape::Enum(number, count))
}

// The shape of the body of a colour set of a name, whose constants or constructors are added.
fn add_body(alloc: Global, decls: &mut Decls, name: &str, body: &Body) -> Result<Shape, TypeError>
    ensures exact { AnswersBody (decls_view decls.old) name.now (body_view body.now) (decls_view decls.new) result }
    ensures grown { Grows (decls_view decls.old) (decls_view decls.new) }
{
    match body {
        Body::Unit => Ok(Shape::Unit),
        Body::Bool => Ok(Shape::Bool),
        Body::Int => Ok(Shape::Int {
            low: i64::MIN,
            high: i64::MAX,
        }),
        Body::IntRange { low, high } => {
            if *low <= *high {
                Ok(Shape::Int {
                    low: *low,
                    high: *high,
                })
            } else {
                Err(TypeError::EmptyColour(String::from_str(alloc, name)?))
            }
        }
        Body::String => Ok(Shape::Text),
        Body::Enumeration(constants) => add_enumeration(alloc, decls, name, constants.as_slice()),
        Body::Product(names) => {
            let items = components(alloc, decls, names.as_slice())?;
            let shapes = Arc::new(alloc, items)?;
            Ok(Shape::Tuple(shapes))
        }
        Body::List(item) => {
            let shape = component(alloc, decls, item.as_str())?;
            Ok(Shape::List(Arc::new(alloc, shape)?))
        }
        Body::Union(alternatives) => add_union(alloc, decls, name, alternatives.as_slice()),
        Body::Named(other) => {
            let shape = component(alloc, decls, other.as_str())?;
            Ok(shape)
        }
    }
}

/// Declares a colour set.
///
/// # Errors
///
/// The first reason from left to right: [`TypeError::Duplicate`] at a name that is not new, or the first refusal of the body
/// ([`TypeError::Unknown`], [`TypeError::Duplicate`], [`TypeError::EmptyRange`], [`TypeError::TooMany`]); [`TypeError::Memory`]. What was
/// declared in front of the refused part stays ([`Decls::cut`] takes it back).
pub fn declare_colour_set(
    alloc: Global,
    decls: &mut Decls,
    name: &str,
    body: &Body,
    timed: bool,
) -> Result<(), TypeError>
    ensures exact { Answers (λ _. decls_view decls.new) result (declared_form (decls_view decls.old) (colour_set name.now (body_view body.now) timed)) }
    ensures grown { Grows (decls_view decls.old) (decls_view decls.new) }
{
    if !decls.is_new_colour(name) {
        return Err(TypeError::Duplicate(String::from_str(alloc, name)?));
    }
    let shape = add_body(alloc, decls, name, body)?;
    check_limits(&shape)?;
    decls.add_colour(alloc, name, Colour { shape, timed })?;
    Ok(())
}
