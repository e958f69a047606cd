//! Bindings and binding elements.

ghost use Rattle.std.specs.Prelude.{◌≡◌, [], ◌∷◌, ◌++◌, IfOk, IfErr, option_copied, option_map};
ghost use Rattle.cpn_definitions.specs.Meaning.{bound_value};
ghost use Rattle.cpn_core.specs.Views.{value_view};

use crate::values::Value;
use cpn_memory::Memory;
use smallvec::SmallVec;
use std::alloc::Global;
use std::marker::Model;

/// A variable by its number, and the value that it is bound to.
#[derive(Default, Drop)]
pub struct Pair {
    /// The number of the variable.
    pub variable: u32,
    /// Its value.
    pub value: Value,
}

/// A binding: the value of each variable of a transition, in declaration order.
///
/// A clause sees it as the list of the pairs of number and value.
/// Source: Jensen and Kristensen, chapter 4.
#[derive(Drop)]
pub struct Binding {
    pairs: SmallVec<Pair, 4>,
}

impl Model for Binding {
    ghost use Rattle.cpn_definitions.specs.Meaning.{PlainBinding};
    ghost use Rattle.cpn_core.specs.BindingCode.{binding_code};

    ghost Value = { PlainBinding };

    ghost coded = { binding_code };

    ghost use Rattle.cpn_core.specs.Pairs.{pairs_view};

    ghost view = { λ b. pairs_view b.pairs.items };
}

impl Binding {
    ghost use Rattle.cpn_core.specs.Pairs.{pairs_view};

    /// The binding of no variable.
    pub fn new(alloc: Global) -> Binding
        ensures empty { result ≡ [] }
    {
        Binding {
            pairs: SmallVec::new(alloc),
        }
    }

    /// Binds one more variable, the last one so far. After `Memory` the binding is unchanged.
    pub fn bind(&mut self, variable: u32, value: Value) -> Result<(), Memory>
        ensures bound { IfOk result (λ _. self.new ≡ self.old ++ (variable, value_view value) ∷ []) }
        ensures unchanged { IfErr result (λ _. self.new ≡ self.old) }
    {
        self.pairs.push(Pair { variable, value })?;
        Ok(())
    }

    /// The pairs of variable and value, in declaration order.
    pub fn pairs(&self) -> &[Pair]
        ensures pairs { pairs_view result.now ≡ self.now }
    {
        self.pairs.as_slice()
    }

    /// A copy of its own.
    pub fn copy(&self) -> Result<Binding, Memory>
        ensures same { IfOk result (λ copied. copied ≡ self.now) }
    {
        let mut copied = Binding::new(*self.pairs.allocator());
        for pair in self.pairs() {
            copied.bind(pair.variable, pair.value.copy()?)?;
        }
        Ok(copied)
    }
}

/// A binding element: a transition and a binding of its variables.
///
/// Source: Jensen and Kristensen, chapter 4.
#[derive(Drop)]
pub struct Element {
    /// The number of the transition.
    pub transition: u32,
    /// The values of its variables.
    pub binding: Binding,
}

impl Element {
    /// A copy of its own.
    pub fn copy(&self) -> Result<Element, Memory>
        ensures transition { IfOk result (λ copied. copied.transition ≡ self.now.transition) }
        ensures binding { IfOk result (λ copied. copied.binding ≡ self.now.binding) }
    {
        let binding = self.binding.copy()?;
        Ok(Element {
            transition: self.transition,
            binding,
        })
    }
}
