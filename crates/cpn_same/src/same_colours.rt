//! Whether two colour sets are the same.

ghost use Rattle.std.specs.Prelude.{◌≡◌, option_map};
ghost use Rattle.cpn_core.specs.Colours.{colour_view, constructors_view, shape_view, shapes_view};
ghost use Rattle.cpn_same.specs.Equality.{same_options};
ghost use Rattle.cpn_same.specs.SameColours.{same_colour, same_constructors, same_shape, same_shapes};

use cpn_core::{Colour, Shape};

/// Whether both colour sets are of one shape, and both timed or both untimed.
pub fn same_colour(colour: &Colour, other: &Colour) -> bool
    ensures exact { result ≡ same_colour (colour_view colour.now) (colour_view other.now) }
{
    same_shape(&colour.shape, &other.shape) && colour.timed == other.timed
}

#[cycle(same)]
#[tactic(auto, using(cpn_core::proofs::ShapeLevels::shape_list, cpn_core::proofs::ShapeLevels::shape_union))]
fn same_shape(shape: &Shape, other: &Shape) -> bool
    ensures exact { result ≡ same_shape (shape_view shape.now) (shape_view other.now) }
{
    match shape {
        Shape::Unit => match other {
            Shape::Unit => true,
            _ => false,
        },
        Shape::Bool => match other {
            Shape::Bool => true,
            _ => false,
        },
        Shape::Int { low, high } => match other {
            Shape::Int {
                low: least,
                high: greatest,
            } => *low == *least && *high == *greatest,
            _ => false,
        },
        Shape::Text => match other {
            Shape::Text => true,
            _ => false,
        },
        Shape::Enum(number, count) => match other {
            Shape::Enum(second, constants) => *number == *second && *count == *constants,
            _ => false,
        },
        Shape::Tuple(shapes) => match other {
            Shape::Tuple(others) => same_shapes(shapes, others),
            _ => false,
        },
        Shape::Union(number, constructors) => match other {
            Shape::Union(second, others) => *number == *second
                && same_constructors(constructors, others),
            _ => false,
        },
        Shape::List(item) => match other {
            Shape::List(second) => same_shape(item, second),
            _ => false,
        },
    }
}

#[cycle(same)]
#[tactic(auto, using(crate::proofs::Rows::shapes_more, crate::proofs::Rows::shapes_end))]
fn same_shapes(shapes: &Vec<Shape>, others: &Vec<Shape>) -> bool
    ensures exact { result ≡ same_shapes (shapes_view shapes.now.items) (shapes_view others.now.items) }
{
    let shorter = shapes.len().min(others.len());
    for i in 0..shorter {
        if !same_shape(&shapes[i], &others[i]) {
            return false;
        }
    }
    shapes.len() == others.len()
}

#[cycle(same)]
#[tactic(auto, using(crate::proofs::Rows::constructors_more, crate::proofs::Rows::constructors_end))]
fn same_constructors(constructors: &Vec<Option<Shape>>, others: &Vec<Option<Shape>>) -> bool
    ensures exact { result ≡ same_constructors (constructors_view constructors.now.items) (constructors_view others.now.items) }
{
    let shorter = constructors.len().min(others.len());
    for i in 0..shorter {
        if !same_argument(&constructors[i], &others[i]) {
            return false;
        }
    }
    constructors.len() == others.len()
}

// Whether both constructors have no argument, or one of the same shape.
#[cycle(same)]
fn same_argument(argument: &Option<Shape>, other: &Option<Shape>) -> bool
    ensures exact { result ≡ same_options same_shape (option_map shape_view argument.now) (option_map shape_view other.now) }
{
    match argument {
        None => match other {
            None => true,
            Some(_) => false,
        },
        Some(shape) => match other {
            None => false,
            Some(second) => same_shape(shape, second),
        },
    }
}
