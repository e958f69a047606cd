// Values of colour sets as they are printed.
ghost use Rattle.std.specs.Prelude.{◌≡◌, ◌++◌, true, [], codes, if◌then◌else◌, IfOk, OnOk};
ghost use Rattle.std.specs.List.{list_all};
ghost use Rattle.std.specs.String.{string_bytes};
ghost use Rattle.cpn_definitions.specs.Colour.{union_shape, is_printable, has_shape, have_shapes, all_have_shape, admits};
ghost use Rattle.cpn_definitions.specs.Named.{has_names, have_names};
ghost use Rattle.cpn_core.specs.Views.{value_view, values_view, constructor_view};
ghost use Rattle.cpn_core.specs.Colours.{shape_view, shapes_view, constructors_view, colour_view};
ghost use Rattle.cpn_core.specs.Nets.{net_view};
ghost use Rattle.cpn_report.specs.ValueText.{joined, truth_text, byte_text, string_text, tuple_texts, list_texts, shaped_text, value_text as text_of_value};

use crate::integers::push_int;
use crate::names::name_at;
use cpn_core::{Colour, Memory, Net, Shape, Value, Values};
use std::alloc::Global;

/// The text of a value of the colour set, as it is written in an inscription: `()`, `true`, `~5`, `"a\"b"`, `(1,2)`,
/// `[1,2]`, the name of a constant, and the name of a constructor, with its argument in parentheses where it has one. The
/// net has the names. Source: our own profile of CPN ML.
///
/// `Err` comes for want of memory alone.
pub fn value_text(
    alloc: Global,
    net: &Net,
    colour: &Colour,
    value: &Value,
) -> Result<String, Memory>
    requires admitted { admits (colour_view colour.now) (value_view value.now) ≡ true }
    requires named { has_names (net_view net.now) (shape_view colour.now.shape) ≡ true }
    ensures text { IfOk result (λ text. string_bytes text ≡ text_of_value (net_view net.now) (colour_view colour.now) (value_view value.now)) }
{
    let mut out = String::new(alloc);
    push_value(&mut out, net, &colour.shape, value)?;
    Ok(out)
}

/// Appends a value of the shape.
#[cycle(values)]
pub(crate) fn push_value(
    out: &mut String,
    net: &Net,
    shape: &Shape,
    value: &Value,
) -> Result<(), Memory>
    requires admitted { has_shape (value_view value.now) (shape_view shape.now) ≡ true }
    requires named { has_names (net_view net.now) (shape_view shape.now) ≡ true }
    ensures written { OnOk result (string_bytes out.new ≡ string_bytes out.old ++ shaped_text (net_view net.now) (value_view value.now) (shape_view shape.now)) }
{
    match value {
        Value::Unit => out.push_str("()")?,
        Value::Bool(truth) => out.push_str(truth_name(*truth))?,
        Value::Int(number) => push_int(out, i128::from(*number))?,
        Value::Text(text) => push_string(out, text.bytes())?,
        Value::Enum(position) => match shape {
            Shape::Enum(number, _) => out.push_str(name_at(&net.constants, *number, *position))?,
            _ => unreachable!(),
        },
        Value::Tuple(items) => match shape {
            Shape::Tuple(shapes) => push_tuple(out, net, shapes, items)?,
            _ => unreachable!(),
        },
        Value::Con(position, argument) => match shape {
            Shape::Union(number, constructors) => {
                push_constructed(out, net, *number, constructors, *position, argument)?
            }
            _ => unreachable!(),
        },
        Value::List(items) => match shape {
            Shape::List(item) => push_list(out, net, item, items)?,
            _ => unreachable!(),
        },
    }
    Ok(())
}

/// Appends a constructor, with its argument in parentheses where it has one.
#[cycle(values)]
fn push_constructed(
    out: &mut String,
    net: &Net,
    number: u32,
    constructors: &Vec<Option<Shape>>,
    position: u32,
    argument: &Option<Box<Value>>,
) -> Result<(), Memory>
    requires admitted { has_shape (constructor_view position argument.now) (union_shape number (constructors_view constructors.now.items)) ≡ true }
    requires named { has_names (net_view net.now) (union_shape number (constructors_view constructors.now.items)) ≡ true }
    ensures written { OnOk result (string_bytes out.new ≡ string_bytes out.old ++ shaped_text (net_view net.now) (constructor_view position argument.now) (union_shape number (constructors_view constructors.now.items))) }
{
    out.push_str(name_at(&net.constructors, number, position))?;
    if let Some(value) = argument {
        let Some(shape) = &constructors[position as usize] else {
            unreachable!()
        };
        out.push_str("(")?;
        push_value(out, net, shape, value)?;
        out.push_str(")")?;
    }
    Ok(())
}

/// Appends a tuple, whose items have the shapes, one for one.
#[cycle(values)]
fn push_tuple(
    out: &mut String,
    net: &Net,
    shapes: &Vec<Shape>,
    items: &Values,
) -> Result<(), Memory>
    requires admitted { have_shapes (values_view items.now.items) (shapes_view shapes.now.items) ≡ true }
    requires named { have_names (net_view net.now) (shapes_view shapes.now.items) ≡ true }
    ensures written { OnOk result (string_bytes out.new ≡ string_bytes out.old ++ (codes "(" ++ joined (codes ",") (tuple_texts (net_view net.now) (values_view items.now.items) (shapes_view shapes.now.items)) ++ codes ")")) }
{
    out.push_str("(")?;
    for number in 0..items.len() {
        push_value(out, net, &shapes[number], &items[number])?;
        push_comma(out, number + 1 < items.len())?;
    }
    out.push_str(")")?;
    Ok(())
}

/// Appends a list, whose items have the shape.
#[cycle(values)]
fn push_list(out: &mut String, net: &Net, shape: &Shape, items: &Values) -> Result<(), Memory>
    requires admitted { all_have_shape (values_view items.now.items) (shape_view shape.now) ≡ true }
    requires named { has_names (net_view net.now) (shape_view shape.now) ≡ true }
    ensures written { OnOk result (string_bytes out.new ≡ string_bytes out.old ++ (codes "[" ++ joined (codes ",") (list_texts (net_view net.now) (values_view items.now.items) (shape_view shape.now)) ++ codes "]")) }
{
    out.push_str("[")?;
    for number in 0..items.len() {
        push_value(out, net, shape, &items[number])?;
        push_comma(out, number + 1 < items.len())?;
    }
    out.push_str("]")?;
    Ok(())
}

/// Appends a comma where another item follows.
fn push_comma(out: &mut String, another: bool) -> Result<(), Memory>
    ensures written { OnOk result (string_bytes out.new ≡ string_bytes out.old ++ (if another then codes "," else [])) }
{
    if another {
        out.push_str(",")?;
    }
    Ok(())
}

/// How a truth value is written.
fn truth_name(truth: bool) -> &'static str
    ensures name { result.now ≡ truth_text truth }
{
    if truth { "true" } else { "false" }
}

/// Appends a string of printable bytes, in quotes.
fn push_string(out: &mut String, bytes: &[u8]) -> Result<(), Memory>
    requires printable { list_all is_printable bytes.now ≡ true }
    ensures written { OnOk result (string_bytes out.new ≡ string_bytes out.old ++ string_text bytes.now) }
{
    out.push_str("\"")?;
    for byte in bytes {
        push_byte(out, *byte)?;
    }
    out.push_str("\"")?;
    Ok(())
}

/// Appends a printable byte of a string, a quote and a backslash with a backslash in front.
fn push_byte(out: &mut String, byte: u8) -> Result<(), Memory>
    requires printable { is_printable byte ≡ true }
    ensures written { OnOk result (string_bytes out.new ≡ string_bytes out.old ++ byte_text byte) }
{
    if byte == b'"' || byte == b'\\' {
        out.push('\\')?;
    }
    out.push(byte as char)?;
    Ok(())
}
