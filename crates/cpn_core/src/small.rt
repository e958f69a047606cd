// All values of a small colour set.
ghost use Rattle.std.specs.Prelude.{◌≡◌, ℕ, ◌≤◌, ◌+◌, ◌++◌, ◌∷◌, [], min, length, map, List, IfOk, IfSome, IfNone};
ghost use Rattle.cpn_definitions.specs.Value.{applied, tuple, list, none, more};
ghost use Rattle.cpn_definitions.specs.Bindable.{AreAll, IsSmall};
ghost use Rattle.cpn_core.specs.Views.{value_view, values_view, rows_view};
ghost use Rattle.cpn_core.specs.Colours.{shape_view, shapes_view, constructors_view, colour_view};
ghost use Rattle.cpn_core.specs.ShapeValues.{int_count, integers, constants, headed, values_in as the_values, rows_in as the_rows, constructed_in, count_of, count_of_rows, count_of_constructed};

use crate::colours::{Colour, Shape};
use crate::values::{Value, Values, copy_values};
use cpn_memory::Memory;
use std::alloc::Global;

impl Colour {
    /// All values of the colour set in their order, or none where there are more than 256. They are
    /// counted before any is made, so that an answer of none takes no longer for more values.
    /// Source: the small colour sets of our own profile of CPN ML.
    ///
    /// `Memory` is also the answer for a union of more constructors than a `Value` can tell apart, 2^32.
    pub fn small(&self, alloc: Global) -> Result<Option<Values>, Memory>
        ensures all { IfOk result (λ found. IfSome found (λ values. AreAll (colour_view self.now) (map value_view values.items))) }
        ensures few { IfOk result (λ found. IfSome found (λ values. length values.items ≤ 256)) }
        ensures large { IfOk result (λ found. IfNone found (IsSmall (colour_view self.now) → ⊥)) }
    {
        if count(&self.shape) > 256 {
            return Ok(None);
        }
        let values = values_in(alloc, &self.shape)?;
        Ok(Some(values))
    }
}

// How many values the shape has, up to 257.
#[cycle(count)]
fn count(shape: &Shape) -> u32
    ensures { result ≡ min (count_of (shape_view shape.now)) 257 }
{
    match shape {
        Shape::Unit => 1,
        Shape::Bool => 2,
        Shape::Int { low, high } => count_between(*low, *high),
        Shape::Text => 257,
        Shape::Enum(_, count) => (*count).min(257),
        Shape::Tuple(shapes) => count_rows(shapes),
        Shape::Union(_, constructors) => count_constructed(constructors),
        Shape::List(item) => { if count(item) == 0 { 1 } else { 257 } }
    }
}

// How many integers there are from `low` to `high`, up to 257.
fn count_between(low: i64, high: i64) -> u32
    ensures { result ≡ min (int_count low high) 257 }
{
    if low > high {
        return 0;
    }
    let gap = high.abs_diff(low);
    if gap > 255 {
        return 257;
    }
    gap as u32 + 1
}

// The product of the counts of the shapes, up to 257.
#[cycle(count)]
fn count_rows(shapes: &Vec<Shape>) -> u32
    ensures { result ≡ min (count_of_rows (shapes_view shapes.now.items)) 257 }
{
    let mut product: u32 = 1;
    for shape in shapes {
        product = product.saturating_mul(count(shape)).min(257);
    }
    product
}

// The sum of what the constructors count, up to 257: each without an argument one, and each other
// one as many as there are arguments.
#[cycle(count)]
fn count_constructed(constructors: &Vec<Option<Shape>>) -> u32
    ensures { result ≡ min (count_of_constructed (constructors_view constructors.now.items)) 257 }
{
    let mut sum: u32 = 0;
    for constructor in constructors {
        match constructor {
            None => sum = (sum + 1).min(257),
            Some(shape) => sum = (sum + count(shape)).min(257),
        }
    }
    sum
}

// The values of a shape that has at most 256.
#[cycle(list)]
fn values_in(alloc: Global, shape: &Shape) -> Result<Values, Memory>
    requires few { count_of (shape_view shape.now) ≤ 256 }
    ensures { IfOk result (λ values. map value_view values.items ≡ the_values (shape_view shape.now)) }
{
    match shape {
        Shape::Unit => Ok(vec![in alloc; Value::Unit]?),
        Shape::Bool => Ok(vec![in alloc; Value::Bool(false), Value::Bool(true)]?),
        Shape::Int { low, high } => integers_between(alloc, *low, *high),
        Shape::Text => unreachable!(),
        Shape::Enum(_, count) => constants_below(alloc, *count),
        Shape::Tuple(shapes) => tuples(rows_in(alloc, shapes)?),
        Shape::Union(_, constructors) => constructed(alloc, constructors),
        Shape::List(_) => empty_list(alloc),
    }
}

// The empty list, alone.
fn empty_list(alloc: Global) -> Result<Values, Memory>
    ensures { IfOk result (λ values. map value_view values.items ≡ list none ∷ []) }
{
    let mut values = Vec::new(alloc);
    values.push(Value::List(Vec::new(alloc)))?;
    Ok(values)
}

// The integers from `low` to `high`, of which there are at most 256.
fn integers_between(alloc: Global, low: i64, high: i64) -> Result<Values, Memory>
    requires few { int_count low high ≤ 256 }
    ensures { IfOk result (λ values. map value_view values.items ≡ integers low (int_count low high)) }
{
    let mut values = Vec::new(alloc);
    for k in 0..count_between(low, high) {
        values.push(Value::Int(low + k as i64))?;
    }
    Ok(values)
}

// The first constants of an enumeration, so many.
fn constants_below(alloc: Global, count: u32) -> Result<Values, Memory>
    ensures { IfOk result (λ values. map value_view values.items ≡ constants count) }
{
    let mut values = Vec::new(alloc);
    for k in 0..count {
        values.push(Value::Enum(k))?;
    }
    Ok(values)
}

// The tuples of these rows.
fn tuples(rows: Vec<Values>) -> Result<Values, Memory>
    ensures { IfOk result (λ values. map value_view values.items ≡ map tuple (rows_view rows.items)) }
{
    let mut values = Vec::with_capacity(*rows.allocator(), rows.len())?;
    for row in rows {
        values.push(Value::Tuple(row))?;
    }
    Ok(values)
}

// The rows of items of these shapes, one for one, of which there are at most 256. The last item changes
// fastest, so they are made from the last shape to the first.
#[cycle(list)]
fn rows_in(alloc: Global, shapes: &Vec<Shape>) -> Result<Vec<Values>, Memory>
    requires few { count_of_rows (shapes_view shapes.now.items) ≤ 256 }
    ensures { IfOk result (λ rows. rows_view rows.items ≡ the_rows (shapes_view shapes.now.items)) }
{
    if count_rows(shapes) == 0 {
        return Ok(Vec::new(alloc));
    }
    let mut rows = vec![in alloc; Vec::new(alloc)]?;
    for done in 0..shapes.len() {
        let heads = values_in(alloc, &shapes[shapes.len() - 1 - done])?;
        rows = headed_by(alloc, &heads, &rows)?;
    }
    Ok(rows)
}

// Each of the heads ahead of each of the rows.
fn headed_by(alloc: Global, heads: &Values, rows: &Vec<Values>) -> Result<Vec<Values>, Memory>
    ensures { IfOk result (λ longer. rows_view longer.items ≡ headed (map value_view heads.now.items) (rows_view rows.now.items)) }
{
    let mut longer = Vec::new(alloc);
    for head in heads {
        push_headed(&mut longer, head, rows)?;
    }
    Ok(longer)
}

// Adds the head ahead of each of the rows.
fn push_headed(longer: &mut Vec<Values>, head: &Value, rows: &Vec<Values>) -> Result<(), Memory>
    ensures { IfOk result (λ _. rows_view longer.new.items ≡ rows_view longer.old.items ++ map (more (value_view head.now)) (rows_view rows.now.items)) }
{
    for row in rows {
        longer.push(with_head(head, row)?)?;
    }
    Ok(())
}

// The row with a head ahead of its items.
fn with_head(head: &Value, row: &Values) -> Result<Values, Memory>
    ensures { IfOk result (λ longer. values_view longer.items ≡ more (value_view head.now) (values_view row.now.items)) }
{
    let mut longer = copy_values(row)?;
    longer.insert(0, head.copy()?)?;
    Ok(longer)
}

// The values of the constructors of a union, of which there are at most 256.
#[cycle(list)]
fn constructed(alloc: Global, constructors: &Vec<Option<Shape>>) -> Result<Values, Memory>
    requires few { count_of_constructed (constructors_view constructors.now.items) ≤ 256 }
    ensures { IfOk result (λ values. map value_view values.items ≡ constructed_in (constructors_view constructors.now.items) 0) }
{
    if constructors.len() > 0x1_0000_0000 {
        return Err(Memory);
    }
    let mut values = Vec::new(alloc);
    for place in 0..constructors.len() {
        match &constructors[place] {
            None => values.push(Value::Con(place as u32, None))?,
            Some(shape) => push_applied(&mut values, place as u32, values_in(alloc, shape)?)?,
        }
    }
    Ok(values)
}

// Adds the constructor at the position with each of the arguments.
#[tactic(auto, using(crate::proofs::ValueLevels::view_con_some))]
fn push_applied(values: &mut Values, position: u32, arguments: Values) -> Result<(), Memory>
    ensures { IfOk result (λ _. map value_view values.new.items ≡ map value_view values.old.items ++ map (applied position) (map value_view arguments.items)) }
{
    let alloc = *arguments.allocator();
    for argument in arguments {
        values.push(Value::Con(position, Some(Box::new(alloc, argument)?)))?;
    }
    Ok(())
}
