//! From the bytes of a document to its net.

ghost use Rattle.std.specs.Prelude.{◌≡◌, ℕ, List, IfOk, IfErr, IfSome};
ghost use Rattle.cpn_declared.specs.DeclsViews.{decls_view};
ghost use Rattle.cpn_definitions.specs.DistinctNames.{HasDistinctNames, HasWellSpelledNames};
ghost use Rattle.cpn_definitions.specs.Integers.{HasShortIntegers};
ghost use Rattle.cpn_document.specs.FewArcs.{HaveFewArcs};
ghost use Rattle.cpn_document.specs.Views.{document_view};
ghost use Rattle.cpn_document.specs.WellNamed.{AreWellNamed, HasFewDeclarations};
ghost use Rattle.cpn_flat.specs.Flat.{PlainLoaded};
ghost use Rattle.cpn_flat.specs.FlatNames.{HasFlatNames};
ghost use Rattle.cpn_flat.specs.Views.{loaded_view};
ghost use Rattle.cpn_flat.specs.WellLoaded.{IsWellLoaded};
ghost use Rattle.cpn_typing.specs.Consistency.{IsConsistent};
ghost use Rattle.cpn_file.specs.Reading.{Reading, read, refused};
ghost use Rattle.cpn_file.specs.Reads.{loaded_in, IsReadAs};
ghost use Rattle.cpn_file.specs.Answers.{Loads, LoadsBy, load_refusal_of};

use crate::refusals::LoadError;
use cpn_document::{Document, read_document};
use cpn_flat::{Loaded, flatten, one_flat_net};
use cpn_module_nets::{accept, one_acceptance};
use std::alloc::Global;

/// What a document is read as: what is accepted of it, then its flat net.
fn loaded_of(alloc: Global, document: Document) -> Result<Loaded, LoadError>
    requires few_arcs { HaveFewArcs (document_view document) }
    requires well_named { AreWellNamed (document_view document) }
    requires few_declarations { HasFewDeclarations (document_view document) }
    ensures reads { LoadsBy loaded_view result (loaded_in (document_view document)) }
    ensures consistent { IfOk result (λ loaded. IsConsistent (decls_view loaded.decls)) }
    ensures well_loaded { IfOk result (λ loaded. IsWellLoaded (loaded_view loaded)) }
    ensures distinct { IfOk result (λ loaded. HasDistinctNames (loaded_view loaded).net) }
    ensures well_spelled { IfOk result (λ loaded. HasWellSpelledNames (loaded_view loaded).net) }
    ensures flat_names { IfOk result (λ loaded. HasFlatNames (loaded_view loaded).net) }
    ensures short { IfOk result (λ loaded. HasShortIntegers (loaded_view loaded).net) }
{
    let accepted = accept(alloc, &document)?;
    let loaded = flatten(alloc, document, accepted)?;
    Ok(loaded)
}

/// Reads a net document: its flat net and its initial marking.
///
/// The document is one JSON value, at most 127 levels deep, in version 1. It is read in this order, and the first refusal counts: its
/// form, whole; the declarations, one after another; the colour set of each place; how the modules are put together; then, module
/// after module, the initial marking of each place, the guard and the delay of each transition in turn, the inscription of each arc,
/// and the variables of each transition; then the flat net: how many instances there are, and the initial markings.
///
/// # Errors
///
/// - [`LoadError::Document`]: the bytes are no document.
/// - [`LoadError::Inscription`]: a text, or the variables of a transition, are not accepted.
/// - [`LoadError::Module`]: the modules make no hierarchy.
/// - [`LoadError::Flat`]: there are too many instances, or an initial marking has a fault or differs from another.
/// - [`LoadError::Memory`]: memory ran out.
pub fn load(alloc: Global, bytes: &[u8]) -> Result<Loaded, LoadError>
    ensures reads { IfOk result (λ loaded. IsReadAs bytes.now (read (loaded_view loaded))) }
    // What it declares is consistent.
    ensures consistent { IfOk result (λ loaded. IsConsistent (decls_view loaded.decls)) }
    ensures well_loaded { IfOk result (λ loaded. IsWellLoaded (loaded_view loaded)) }
    // No two places, transitions or variables of the net have one name, nor two constants or constructors of a colour set.
    ensures distinct { IfOk result (λ loaded. HasDistinctNames (loaded_view loaded).net) }
    // Its names are paths and words.
    ensures well_spelled { IfOk result (λ loaded. HasWellSpelledNames (loaded_view loaded).net) }
    // Those of places and transitions are of the form in which monitors and edits give them.
    ensures flat_names { IfOk result (λ loaded. HasFlatNames (loaded_view loaded).net) }
    // The integers of the colour sets of its places and variables have 64 bits.
    ensures short { IfOk result (λ loaded. HasShortIntegers (loaded_view loaded).net) }
    ensures refuses { IfErr result (λ e. IfSome (load_refusal_of e) (λ refusal. IsReadAs bytes.now (refused refusal))) }
    // Whatever the answer, the bytes have at most one reading.
    ensures one_reading { (reading other : Reading PlainLoaded) → IsReadAs bytes.now reading → IsReadAs bytes.now other → reading ≡ other }
    // Whatever the bytes are read as is answered, but for want of memory.
    ensures complete { (reading : Reading PlainLoaded) → IsReadAs bytes.now reading → Loads loaded_view result reading }
{
    one_acceptance();
    one_flat_net();
    let document = read_document(alloc, bytes)?;
    let loaded = loaded_of(alloc, document)?;
    Ok(loaded)
}
