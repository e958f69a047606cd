//! Lists that are kept backwards.

ghost use Rattle.std.specs.Prelude.{◌≡◌, ◌∷◌, [], ◌++◌, map, IfOk};
ghost use Rattle.cpn_definitions.specs.Operations.{consed, operated, truth_in};
ghost use Rattle.cpn_definitions.specs.Outcome.{gives};
ghost use Rattle.cpn_core.specs.Views.{value_view};
ghost use Rattle.cpn_core.specs.Inscriptions.{op_view};
ghost use Rattle.cpn_eval.specs.Answers.{MayTell, Tells};
ghost use Rattle.cpn_eval.specs.Operands.{head_of, length_of};
ghost use Rattle.cpn_eval.specs.Held.{backwards_view, held_view, all_held};

use crate::held::{Backwards, Held};
use crate::kinds::{MOST_NODES, items_in, truth_in};
use crate::refusals::NoValue;
use cpn_core::{EvalFault, Memory, Op, Value, Values, copy_values};

impl Backwards {
    /// The list as a value.
    #[tactic(auto, using(crate::proofs::ValueLists::view_list))]
    fn into_value(self) -> Value
        ensures same { value_view result ≡ backwards_view self }
    {
        let mut items = self.items;
        items.reverse();
        Value::List(items)
    }

    /// A copy of the list.
    fn copy(&self) -> Result<Backwards, Memory>
        ensures same { IfOk result (λ copied. backwards_view copied ≡ backwards_view self.now) }
    {
        let items = copy_values(&self.items)?;
        Ok(Backwards {
            nodes: self.nodes,
            items,
        })
    }

    /// What an operation gives for the list, if it only looks at the first item or counts them.
    pub fn read(&self, op: Op) -> Result<Option<Value>, NoValue>
        ensures value { MayTell value_view result (operated (op_view op) (backwards_view self.now ∷ [])) }
    {
        match op {
            Op::Head => Ok(Some(self.first()?)),
            Op::Length => Ok(Some(self.length())),
            _ => Ok(None),
        }
    }

    /// A copy of the first item.
    #[tactic(auto, using(crate::proofs::BackwardLists::no_first, crate::proofs::BackwardLists::first_there))]
    fn first(&self) -> Result<Value, NoValue>
        ensures item { Tells value_view result (head_of (backwards_view self.now)) }
    {
        match self.items.last() {
            None => Err(NoValue::Fault(EvalFault::EmptyList)),
            Some(item) => Ok(item.copy()?),
        }
    }

    /// How many items there are.
    fn length(&self) -> Value
        ensures number { length_of (backwards_view self.now) ≡ gives (value_view result) }
    {
        Value::Int(self.items.len() as i64)
    }

    /// The list with an item before it, where it is not too large then.
    fn with(self, item: Value) -> Result<Backwards, NoValue>
        ensures list { Tells backwards_view result (consed (value_view item) (backwards_view self)) }
    {
        let nodes = self.nodes.saturating_add(item.nodes());
        if nodes > MOST_NODES {
            return Err(NoValue::Fault(EvalFault::TooLarge));
        }
        let mut items = self.items;
        items.push(item)?;
        Ok(Backwards { nodes, items })
    }
}

impl Held {
    /// The value as it is.
    pub fn into_value(self) -> Value
        ensures same { value_view result ≡ held_view self }
    {
        match self {
            Held::Plain(value) => value,
            Held::Backwards(list) => list.into_value(),
        }
    }

    /// The truth value that the value is.
    pub fn into_truth(self) -> Result<bool, NoValue>
        ensures truth { Tells (λ b. b) result (truth_in (held_view self)) }
    {
        let value = self.into_value();
        truth_in(&value)
    }

    /// A copy of the value.
    pub fn copy(&self) -> Result<Held, Memory>
        ensures same { IfOk result (λ copied. held_view copied ≡ held_view self.now) }
    {
        match self {
            Held::Plain(value) => Ok(Held::Plain(value.copy()?)),
            Held::Backwards(list) => Ok(Held::Backwards(list.copy()?)),
        }
    }
}

/// The list with the item before it.
pub fn consed(item: Value, list: Held) -> Result<Held, NoValue>
    ensures list { Tells held_view result (consed (value_view item) (held_view list)) }
{
    match list {
        Held::Plain(list) => Ok(Held::Backwards(turned(item, list)?)),
        Held::Backwards(list) => Ok(Held::Backwards(list.with(item)?)),
    }
}

/// The list, turned round, with the item before it.
fn turned(item: Value, list: Value) -> Result<Backwards, NoValue>
    ensures list { Tells backwards_view result (consed (value_view item) (value_view list)) }
{
    let nodes = item.nodes().saturating_add(list.nodes());
    let mut items = items_in(list)?;
    if nodes > MOST_NODES {
        return Err(NoValue::Fault(EvalFault::TooLarge));
    }
    items.reverse();
    items.push(item)?;
    Ok(Backwards { nodes, items })
}

/// The values, one after another, behind those that are held.
pub fn hold_all(held: &mut Vec<Held>, values: Values) -> Result<(), Memory>
    ensures all { IfOk result (λ _. all_held held.new ≡ all_held held.old ++ map value_view values.items) }
{
    for value in values {
        held.push(Held::Plain(value))?;
    }
    Ok(())
}

/// The values of all that are held.
pub fn values_of(held: Vec<Held>) -> Result<Values, Memory>
    ensures all { IfOk result (λ values. map value_view values.items ≡ all_held held) }
{
    let mut values = Vec::with_capacity(*held.allocator(), held.len())?;
    for one in held {
        values.push(one.into_value())?;
    }
    Ok(values)
}
