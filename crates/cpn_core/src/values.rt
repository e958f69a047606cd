// Values of colour sets, their copies and their sizes.
ghost use Rattle.std.specs.Prelude.{◌≡◌, ◌+◌, ◌-◌, ◌^◌, min, IfOk};
ghost use Rattle.cpn_definitions.specs.Value.{nodes_of, nodes_of_all};
ghost use Rattle.cpn_core.specs.Views.{value_view, values_view};

use cpn_memory::{Memory, Text};

/// Several values, one after another: the items of a tuple or of a list.
pub type Values = Vec<Value>;

/// A value of a colour set. Source: the values of CPN ML, Jensen and Kristensen, chapter 3.
#[derive(Default, Drop)]
pub enum Value {
    /// The value of the unit colour set.
    #[default]
    Unit,
    /// A truth value.
    Bool(bool),
    /// An integer.
    Int(i64),
    /// A constant of an enumeration, by its position from 0.
    Enum(u32),
    /// A string, by its bytes.
    Text(Text),
    /// A tuple, item by item.
    Tuple(Values),
    /// A constructor of a union, by its position from 0, without or with its argument.
    Con(u32, Option<Box<Value>>),
    /// A list, item by item.
    List(Values),
}

impl Value {
    /// A value of its own that stands for the same plain value.
    pub fn copy(&self) -> Result<Value, Memory>
        ensures same { IfOk result (λ value. value_view value ≡ value_view self.now) }
    {
        copy_value(self)
    }

    /// The number of nodes of the value: one for each value in it, and one more for each byte of a
    /// string. A number past the greatest `u64` is given as that one.
    pub fn nodes(&self) -> u64
        ensures number { result ≡ min (nodes_of (value_view self.now)) (2 ^ 64 - 1) }
    {
        nodes_in(self)
    }
}

/// The copies of the values, one for one.
pub fn copy_values(values: &Values) -> Result<Values, Memory>
    ensures same { IfOk result (λ copies. values_view copies.items ≡ values_view values.now.items) }
{
    copy_each(values)
}

#[cycle(copy)]
#[tactic(auto, using(crate::proofs::ValueLevels::view_con_some))]
fn copy_value(value: &Value) -> Result<Value, Memory>
    ensures same { IfOk result (λ copied. value_view copied ≡ value_view value.now) }
{
    match value {
        Value::Unit => Ok(Value::Unit),
        Value::Bool(truth) => Ok(Value::Bool(*truth)),
        Value::Int(number) => Ok(Value::Int(*number)),
        Value::Enum(position) => Ok(Value::Enum(*position)),
        Value::Text(text) => Ok(Value::Text(text.copy()?)),
        Value::Tuple(items) => Ok(Value::Tuple(copy_each(items)?)),
        Value::Con(position, argument) => match argument {
            None => Ok(Value::Con(*position, None)),
            Some(inner) => {
                let copied = copy_value(inner)?;
                Ok(Value::Con(*position, Some(Box::new(*Box::allocator(inner), copied)?)))
            }
        },
        Value::List(items) => Ok(Value::List(copy_each(items)?)),
    }
}

#[cycle(copy)]
fn copy_each(values: &Values) -> Result<Values, Memory>
    ensures same { IfOk result (λ copies. values_view copies.items ≡ values_view values.now.items) }
{
    let mut copies = Vec::with_capacity(*values.allocator(), values.len())?;
    for value in values {
        copies.push(copy_value(value)?)?;
    }
    Ok(copies)
}

#[cycle(nodes)]
#[tactic(auto, using(crate::proofs::ValueLevels::view_con_some))]
fn nodes_in(value: &Value) -> u64
    ensures count { result ≡ min (nodes_of (value_view value.now)) (2 ^ 64 - 1) }
{
    match value {
        Value::Unit => 1,
        Value::Bool(_) => 1,
        Value::Int(_) => 1,
        Value::Enum(_) => 1,
        Value::Text(text) => (text.len() as u64).saturating_add(1),
        Value::Tuple(items) => nodes_in_all(items).saturating_add(1),
        Value::Con(_, argument) => match argument {
            None => 1,
            Some(inner) => nodes_in(inner).saturating_add(1),
        },
        Value::List(items) => nodes_in_all(items).saturating_add(1),
    }
}

#[cycle(nodes)]
fn nodes_in_all(values: &Values) -> u64
    ensures count { result ≡ min (nodes_of_all (values_view values.now.items)) (2 ^ 64 - 1) }
{
    let mut sum: u64 = 0;
    for value in values {
        sum = sum.saturating_add(nodes_in(value));
    }
    sum
}
