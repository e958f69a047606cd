//! How deep a colour set is, and how large.

ghost use Rattle.std.specs.Prelude.{◌≡◌, ◌-◌, ◌^◌, min};
ghost use Rattle.cpn_core.specs.Colours.{shape_view, shapes_view, constructors_view};
ghost use Rattle.cpn_typing.specs.ColourSets.{depth_of, deepest_of, deepest_argument as deepest_of_arguments, bodies_of, bodies_of_all, bodies_of_arguments, limited};
ghost use Rattle.cpn_declared.specs.Answers.{Answers};

use cpn_core::Shape;
use cpn_declared::{Limit, TypeError};

/// How deep bodies may nest.
const MOST_DEPTH: u64 = 32;

/// How many bodies there may be, all written out.
const MOST_BODIES: u64 = 4_096;

/// Refuses a shape that is too deep, or else too large.
pub(crate) fn check_limits(shape: &Shape) -> Result<(), TypeError>
    ensures exact { Answers (λ _. shape_view shape.now) result (limited (shape_view shape.now)) }
{
    if depth(shape) > MOST_DEPTH {
        return Err(TypeError::TooMany(Limit::Depth));
    }
    if bodies(shape) > MOST_BODIES {
        return Err(TypeError::TooMany(Limit::Nodes));
    }
    Ok(())
}

// How deep bodies nest in it. A number past the greatest `u64` is given as that one, here and below.
#[cycle(depth)]
#[tactic(auto, using(cpn_core::proofs::ShapeLevels::shape_list, cpn_core::proofs::ShapeLevels::shape_tuple, cpn_core::proofs::ShapeLevels::shape_union))]
fn depth(shape: &Shape) -> u64
    ensures number { result ≡ min (depth_of (shape_view shape.now)) (2 ^ 64 - 1) }
{
    match shape {
        Shape::Unit => 1,
        Shape::Bool => 1,
        Shape::Int { low: _, high: _ } => 1,
        Shape::Text => 1,
        Shape::Enum(_, _) => 1,
        Shape::Tuple(shapes) => deepest(shapes.as_slice()).saturating_add(1),
        Shape::Union(_, constructors) => {
            deepest_argument(constructors.as_slice()).saturating_add(1)
        }
        Shape::List(item) => depth(item).saturating_add(1),
    }
}

#[cycle(depth)]
fn deepest(shapes: &[Shape]) -> u64
    ensures number { result ≡ min (deepest_of (shapes_view shapes.now)) (2 ^ 64 - 1) }
{
    let mut most: u64 = 0;
    for shape in shapes {
        most = most.max(depth(shape));
    }
    most
}

#[cycle(depth)]
fn deepest_argument(constructors: &[Option<Shape>]) -> u64
    ensures number { result ≡ min (deepest_of_arguments (constructors_view constructors.now)) (2 ^ 64 - 1) }
{
    let mut most: u64 = 0;
    for constructor in constructors {
        match constructor {
            None => {}
            Some(shape) => most = most.max(depth(shape)),
        }
    }
    most
}

// How many bodies there are in it, all written out.
#[cycle(bodies)]
#[tactic(auto, using(cpn_core::proofs::ShapeLevels::shape_list, cpn_core::proofs::ShapeLevels::shape_tuple, cpn_core::proofs::ShapeLevels::shape_union))]
fn bodies(shape: &Shape) -> u64
    ensures number { result ≡ min (bodies_of (shape_view shape.now)) (2 ^ 64 - 1) }
{
    match shape {
        Shape::Unit => 1,
        Shape::Bool => 1,
        Shape::Int { low: _, high: _ } => 1,
        Shape::Text => 1,
        Shape::Enum(_, _) => 1,
        Shape::Tuple(shapes) => bodies_in_all(shapes.as_slice()).saturating_add(1),
        Shape::Union(_, constructors) => {
            bodies_in_arguments(constructors.as_slice()).saturating_add(1)
        }
        Shape::List(item) => bodies(item).saturating_add(1),
    }
}

#[cycle(bodies)]
fn bodies_in_all(shapes: &[Shape]) -> u64
    ensures number { result ≡ min (bodies_of_all (shapes_view shapes.now)) (2 ^ 64 - 1) }
{
    let mut sum: u64 = 0;
    for shape in shapes {
        sum = sum.saturating_add(bodies(shape));
    }
    sum
}

#[cycle(bodies)]
fn bodies_in_arguments(constructors: &[Option<Shape>]) -> u64
    ensures number { result ≡ min (bodies_of_arguments (constructors_view constructors.now)) (2 ^ 64 - 1) }
{
    let mut sum: u64 = 0;
    for constructor in constructors {
        match constructor {
            None => {}
            Some(shape) => sum = sum.saturating_add(bodies(shape)),
        }
    }
    sum
}
