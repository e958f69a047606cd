// The names of constants and constructors.
ghost use Rattle.std.specs.Prelude.{◌≡◌, ◌<◌, [], length, slice_index_or};
ghost use Rattle.cpn_definitions.specs.Named.{has_names as net_has_names, have_names, arguments_have_names};
ghost use Rattle.cpn_core.specs.Colours.{shape_view, shapes_view, constructors_view};
ghost use Rattle.cpn_core.specs.Nets.{names_view, net_view};

use cpn_core::{Colour, Net, Shape};

/// Whether the net has a name for each constant and each constructor of the colour set, and so its values can be printed.
pub fn has_names(net: &Net, colour: &Colour) -> bool
    ensures exact { result ≡ net_has_names (net_view net.now) (shape_view colour.now.shape) }
{
    is_named(net, &colour.shape)
}

#[cycle(names)]
#[tactic(auto, using(cpn_core::proofs::ShapeLevels::shape_list, cpn_core::proofs::ShapeLevels::shape_union, crate::proofs::ShapedText::counted))]
fn is_named(net: &Net, shape: &Shape) -> bool
    ensures { result ≡ net_has_names (net_view net.now) (shape_view shape.now) }
{
    match shape {
        Shape::Unit => true,
        Shape::Bool => true,
        Shape::Int { low: _, high: _ } => true,
        Shape::Text => true,
        Shape::Enum(number, count) => *count as usize <= name_count(&net.constants, *number),
        Shape::Tuple(shapes) => are_named(net, shapes),
        Shape::Union(number, constructors) => {
            constructors.len() <= name_count(&net.constructors, *number)
                && arguments_are_named(net, constructors)
        }
        Shape::List(item) => is_named(net, item),
    }
}

#[cycle(names)]
fn are_named(net: &Net, shapes: &Vec<Shape>) -> bool
    ensures { result ≡ have_names (net_view net.now) (shapes_view shapes.now.items) }
{
    for shape in shapes {
        if !is_named(net, shape) {
            return false;
        }
    }
    true
}

#[cycle(names)]
fn arguments_are_named(net: &Net, constructors: &Vec<Option<Shape>>) -> bool
    ensures { result ≡ arguments_have_names (net_view net.now) (constructors_view constructors.now.items) }
{
    for constructor in constructors {
        if let Some(shape) = constructor {
            if !is_named(net, shape) {
                return false;
            }
        }
    }
    true
}

/// How many names the list of a number has, or 0 past the last list.
fn name_count(lists: &[Vec<String>], number: u32) -> usize
    ensures { result ≡ length (slice_index_or (names_view lists.now) number []) }
{
    match lists.get(number as usize) {
        Some(names) => names.len(),
        None => 0,
    }
}

/// The name at a position of the list of a number.
pub(crate) fn name_at(lists: &[Vec<String>], number: u32, position: u32) -> &str
    requires known { position < length (slice_index_or (names_view lists.now) number []) }
    ensures name { result.now ≡ slice_index_or (slice_index_or (names_view lists.now) number []) position [] }
{
    let names = &lists[number as usize];
    names[position as usize].as_str()
}
