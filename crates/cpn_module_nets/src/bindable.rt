//! The variables of the transitions have to be bindable.

ghost use Rattle.std.specs.Prelude.{◌≡◌, true, map};
ghost use Rattle.std.specs.List.{AllByRecursion};
ghost use Rattle.cpn_definitions.specs.Net.{PlainNet};
ghost use Rattle.cpn_core.specs.Nets.{transition_view};
ghost use Rattle.cpn_declared.specs.DeclsViews.{decls_view};
ghost use Rattle.cpn_module_nets.specs.Transitions.{HasItsTerms, AreBindable};
ghost use Rattle.cpn_module_nets.specs.Answers.{LoadsBy};

use crate::refusals::{NetError, not_accepted};
use cpn_core::Transition;
use cpn_document::{ModulePart, Pointer, TransitionPart};
use cpn_types::{Decls, check_bindable};
use std::alloc::Global;

/// That the variables of each transition of a module are bindable.
pub(crate) fn check_variables(
    alloc: Global,
    decls: &Decls,
    of_module: usize,
    transitions: &[Transition],
) -> Result<(), NetError>
    requires terms { AllByRecursion HasItsTerms (map transition_view transitions.now) }
    ensures bindable { (n : PlainNet) → n.variables ≡ (decls_view decls.now).variables → LoadsBy (λ _. true) result (AreBindable n of_module 0 (map transition_view transitions.now)) }
{
    for (number, transition) in transitions.iter().enumerate() {
        match check_bindable(alloc, decls, transition) {
            Ok(()) => {}
            Err(error) => return Err(not_accepted(
                Pointer::Module(
                    of_module,
                    ModulePart::Transition(number, TransitionPart::Whole),
                ),
                error,
            )),
        }
    }
    Ok(())
}
