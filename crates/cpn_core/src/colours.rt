// Colour sets, and which values they admit.
ghost use Rattle.std.specs.Prelude.{◌≡◌, ℕ, option_map, IfOk};
ghost use Rattle.std.specs.List.{list_all};
ghost use Rattle.cpn_definitions.specs.Colour.{PlainShape, union_shape, is_printable, has_shape as shape_holds, have_shapes as shapes_hold, all_have_shape as shape_holds_of_all, admits as colour_admits};
ghost use Rattle.cpn_core.specs.Views.{value_view, values_view, constructor_view};
ghost use Rattle.cpn_core.specs.Colours.{shape_view, shapes_view, constructors_view, colour_view};

use crate::values::{Value, Values};
use cpn_memory::Memory;
use std::sync::Arc;

/// The shape of the values of a colour set. The shapes that it is made of may be shared.
///
/// Source: the colour sets of CPN ML, Jensen and Kristensen, chapter 3.
#[derive(Drop)]
pub enum Shape {
    /// The unit colour set.
    Unit,
    /// The truth values.
    Bool,
    /// The integers from `low` to `high`, both of them included.
    Int { low: i64, high: i64 },
    /// The strings of bytes from 0x20 to 0x7E.
    Text,
    /// An enumeration, by its number in the net, and how many constants it has.
    Enum(u32, u32),
    /// The tuples of items of these shapes, one for one.
    Tuple(Arc<Vec<Shape>>),
    /// A union, by its number in the net, and its constructors, each without or with an argument of a
    /// shape.
    Union(u32, Arc<Vec<Option<Shape>>>),
    /// The lists of items of one shape.
    List(Arc<Shape>),
}

/// A colour set: the shape of its values, and whether its tokens carry time stamps.
#[derive(Drop)]
pub struct Colour {
    /// The shape of its values.
    pub shape: Shape,
    /// Whether its tokens carry time stamps.
    pub timed: bool,
}

impl Colour {
    /// Whether the value is one of the colour set.
    pub fn admits(&self, value: &Value) -> bool
        ensures exact { result ≡ colour_admits (colour_view self.now) (value_view value.now) }
    {
        has_shape(value, &self.shape)
    }

    /// The same colour set. It shares its shape.
    pub fn copy(&self) -> Result<Colour, Memory>
        ensures same { IfOk result (λ colour. colour_view colour ≡ colour_view self.now) }
    {
        let shape = self.shape.share()?;
        Ok(Colour {
            shape,
            timed: self.timed,
        })
    }
}

impl Shape {
    /// The same shape. It shares the shapes that it is made of.
    #[tactic(auto, using(crate::proofs::ShapeLevels::shape_list, crate::proofs::ShapeLevels::shape_tuple, crate::proofs::ShapeLevels::shape_union))]
    pub fn share(&self) -> Result<Shape, Memory>
        ensures same { IfOk result (λ shape. shape_view shape ≡ shape_view self.now) }
    {
        match self {
            Shape::Unit => Ok(Shape::Unit),
            Shape::Bool => Ok(Shape::Bool),
            Shape::Int { low, high } => Ok(Shape::Int {
                low: *low,
                high: *high,
            }),
            Shape::Text => Ok(Shape::Text),
            Shape::Enum(number, count) => Ok(Shape::Enum(*number, *count)),
            Shape::Tuple(shapes) => Ok(Shape::Tuple(shapes.clone()?)),
            Shape::Union(number, constructors) => Ok(Shape::Union(*number, constructors.clone()?)),
            Shape::List(item) => Ok(Shape::List(item.clone()?)),
        }
    }
}

#[cycle(admits)]
#[tactic(auto, using(crate::proofs::ValueLevels::view_con, crate::proofs::ShapeLevels::shape_union))]
fn has_shape(value: &Value, shape: &Shape) -> bool
    ensures exact { result ≡ shape_holds (value_view value.now) (shape_view shape.now) }
{
    match value {
        Value::Unit => match shape {
            Shape::Unit => true,
            _ => false,
        },
        Value::Bool(_) => match shape {
            Shape::Bool => true,
            _ => false,
        },
        Value::Int(number) => match shape {
            Shape::Int { low, high } => *low <= *number && *number <= *high,
            _ => false,
        },
        Value::Enum(position) => match shape {
            Shape::Enum(_, count) => *position < *count,
            _ => false,
        },
        Value::Text(text) => match shape {
            Shape::Text => are_printable(text.bytes()),
            _ => false,
        },
        Value::Tuple(items) => match shape {
            Shape::Tuple(shapes) => have_shapes(items, shapes),
            _ => false,
        },
        Value::Con(position, argument) => match shape {
            Shape::Union(_, constructors) => is_constructed(
                *position,
                argument,
                constructors.as_slice(),
            ),
            _ => false,
        },
        Value::List(items) => match shape {
            Shape::List(item) => all_have_shape(items, item),
            _ => false,
        },
    }
}

// Whether the constructor is one of the union's, with an argument exactly where one is declared.
#[cycle(admits)]
#[tactic(auto, using(crate::proofs::Shapes::declared_at, crate::proofs::Shapes::none_declared))]
fn is_constructed(
    position: u32,
    argument: &Option<Box<Value>>,
    constructors: &[Option<Shape>],
) -> bool
    ensures exact { (id : ℕ) → result ≡ shape_holds (constructor_view position argument.now) (union_shape id (constructors_view constructors.now)) }
{
    let place = position as usize;
    if place >= constructors.len() {
        return false;
    }
    let declared = &constructors[place];
    match argument {
        None => match declared {
            None => true,
            Some(_) => false,
        },
        Some(inner) => match declared {
            None => false,
            Some(shape) => has_shape(inner, shape),
        },
    }
}

#[cycle(admits)]
#[tactic(auto, using(crate::proofs::Shapes::held_more, crate::proofs::Shapes::held_all))]
fn have_shapes(values: &Values, shapes: &Vec<Shape>) -> bool
    ensures exact { result ≡ shapes_hold (values_view values.now.items) (shapes_view shapes.now.items) }
{
    let shorter = values.len().min(shapes.len());
    for i in 0..shorter {
        if !has_shape(&values[i], &shapes[i]) {
            return false;
        }
    }
    values.len() == shapes.len()
}

#[cycle(admits)]
fn all_have_shape(values: &Values, shape: &Shape) -> bool
    ensures exact { result ≡ shape_holds_of_all (values_view values.now.items) (shape_view shape.now) }
{
    for value in values {
        if !has_shape(value, shape) {
            return false;
        }
    }
    true
}

fn are_printable(bytes: &[u8]) -> bool
    ensures exact { result ≡ list_all is_printable bytes.now }
{
    for byte in bytes {
        if *byte < 0x20 || *byte > 0x7E {
            return false;
        }
    }
    true
}
