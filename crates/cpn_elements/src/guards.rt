//! Whether the guard of a transition holds under a binding.

ghost use Rattle.std.specs.Prelude.{◌≡◌, map, IfOk};
ghost use Rattle.std.specs.List.{AllByRecursion};
ghost use Rattle.cpn_definitions.specs.Outcome.{HasMeaning, gives_and};
ghost use Rattle.cpn_definitions.specs.Meaning.{meaning, is_true};
ghost use Rattle.cpn_definitions.specs.Occurrence.{guard_holds};
ghost use Rattle.cpn_core.specs.Inscriptions.{expr_view, funs_view};
ghost use Rattle.cpn_core.specs.Nets.{net_view, transition_view};
ghost use Rattle.cpn_elements.specs.Guards.{GuardHasMeaning};

use cpn_core::{Binding, Expr, Funs, Memory, Net, Transition, Value};
use cpn_eval::{Refused, eval};
use std::alloc::Global;

/// Whether each conjunct of the transition's guard is true under the binding; one whose meaning is a fault is not.
///
/// Source: Jensen and Kristensen, chapter 4.
pub fn guard_holds(
    alloc: Global,
    net: &Net,
    transition: &Transition,
    binding: &Binding,
) -> Result<bool, Memory>
    requires meaning { GuardHasMeaning (net_view net.now).functions (transition_view transition.now).guard binding.now }
    ensures holds { IfOk result (λ holds. holds ≡ guard_holds (net_view net.now).functions (transition_view transition.now).guard binding.now) }
{
    for conjunct in &transition.guard.conjuncts {
        let holds = is_true(alloc, &net.funs, conjunct, binding)?;
        if !holds {
            return Ok(false);
        }
    }
    Ok(true)
}

/// Whether the inscription means true; it reads no time.
fn is_true(alloc: Global, funs: &Funs, expr: &Expr, binding: &Binding) -> Result<bool, Memory>
    requires meaning { HasMeaning (meaning (funs_view funs.now) (expr_view expr.now) binding.now 0) }
    ensures exact { IfOk result (λ is. is ≡ gives_and (meaning (funs_view funs.now) (expr_view expr.now) binding.now 0) is_true) }
{
    match eval(alloc, funs, expr, binding, 0) {
        Ok(value) => Ok(value == Value::Bool(true)),
        Err(Refused::Fault(_)) => Ok(false),
        Err(Refused::Memory) => Err(Memory),
    }
}
