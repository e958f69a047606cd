//! A net and its initial marking after edits.

ghost use Rattle.std.specs.Prelude.{◌≡◌, length, IfOk};
ghost use Rattle.std.specs.List.{AllByRecursion};
ghost use Rattle.cpn_core.specs.Nets.{net_view};
ghost use Rattle.cpn_declared.specs.DeclsViews.{decls_view};
ghost use Rattle.cpn_typing.specs.DeclaresFor.{DeclaresFor};
ghost use Rattle.cpn_edit_texts.specs.Edits.{net_after_all, initial_after_all};
ghost use Rattle.cpn_edit_texts.specs.Ready.{IsThere};
ghost use Rattle.cpn_edit_texts.specs.Views.{edits_view};

use crate::copies::{copy_of_edit, copy_of_net};
use crate::edits::Edit;
use cpn_core::{Memory, Net};
use cpn_tmset::Marking;
use cpn_types::Decls;
use std::alloc::Global;

/// A net of what is declared, and its initial marking, after edits, one after another. The net that is given, its initial marking and the
/// edits stay as they are.
///
/// # Errors
///
/// `Memory` where memory is wanted.
pub fn after_edits(
    alloc: Global,
    decls: &Decls,
    net: &Net,
    marking: &Marking,
    edits: &[Edit],
) -> Result<(Net, Marking), Memory>
    requires declares { DeclaresFor (decls_view decls.now) (net_view net.now) }
    requires there { AllByRecursion (IsThere (length net.now.transitions.items) (length marking.now)) (edits_view edits.now) }
    ensures net { IfOk result (λ after. net_view after.0 ≡ net_after_all (net_view net.now) (edits_view edits.now)) }
    ensures initial { IfOk result (λ after. after.1 ≡ initial_after_all marking.now (edits_view edits.now)) }
{
    let mut edited = copy_of_net(alloc, decls, net)?;
    let mut edited_marking = marking.copy()?;
    for edit in edits {
        copy_of_edit(alloc, edit)?.make(&mut edited, &mut edited_marking);
    }
    Ok((edited, edited_marking))
}
