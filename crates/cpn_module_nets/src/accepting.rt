//! From a document to the nets of its modules.

ghost use Rattle.std.specs.Prelude.{◌≡◌, IfOk};
ghost use Rattle.cpn_document.specs.Document.{RawDocument};
ghost use Rattle.cpn_document.specs.FewArcs.{HaveFewArcs};
ghost use Rattle.cpn_document.specs.Views.{document_view};
ghost use Rattle.cpn_module.specs.Named.{hierarchy_in};
ghost use Rattle.cpn_module.specs.Ranges.{HasItsNumbers};
ghost use Rattle.cpn_module.specs.Views.{hierarchy_view};
ghost use Rattle.cpn_readings.specs.Relations.{HasOne};
ghost use Rattle.cpn_accepted.specs.Views.{accepted_view};
ghost use Rattle.cpn_accepted.specs.Nets.{IsWellAccepted};
ghost use Rattle.cpn_module_nets.specs.Answers.{LoadsBy};
ghost use Rattle.cpn_module_nets.specs.Documents.{accepted_in};

use crate::declarations::declared;
use crate::nets::nets_of;
use crate::places::places_of_each;
use crate::refusals::NetError;
use cpn_accepted::Accepted;
use cpn_document::Document;
use cpn_module::check_hierarchy;
use cpn_module_trees::document_trees;
use std::alloc::Global;

/// What is accepted of a document, or the first refusal.
fn accepted_of(alloc: Global, document: &Document) -> Result<Accepted, NetError>
    ensures reads { LoadsBy accepted_view result (accepted_in (document_view document.now)) }
    ensures numbers { IfOk result (λ accepted. HasItsNumbers (hierarchy_view accepted.hierarchy)) }
    ensures hierarchy { IfOk result (λ accepted. hierarchy_view accepted.hierarchy ≡ hierarchy_in (document_view document.now)) }
{
    let trees = document_trees(alloc, document)?;
    let decls = declared(alloc, trees.declarations.as_slice())?;
    let places = places_of_each(alloc, &decls, trees.modules.as_slice())?;
    let hierarchy = check_hierarchy(alloc, document, &decls)?;
    let modules = nets_of(alloc, &decls, &hierarchy, places, trees.modules.as_slice())?;
    Ok(Accepted {
        decls,
        hierarchy,
        modules,
    })
}

/// What is declared in a document, how its modules are put together, and the net of each.
///
/// All is checked in this order, and the first refusal counts: the declarations, one after another; the colour set of each place of
/// each module; how the modules are put together; then module after module the initial marking of each place, the guard and the delay
/// of each transition in turn, the inscription of each arc, and the variables of each transition. At a substitution transition the
/// inscription of an arc is not looked at.
///
/// # Errors
///
/// - [`NetError::Inscription`]: a text, or the variables of a transition, are not accepted.
/// - [`NetError::Modules`]: the modules make no hierarchy.
/// - [`NetError::Memory`]: memory ran out, or a module has more places than there are numbers of 32 bits.
pub fn accept(alloc: Global, document: &Document) -> Result<Accepted, NetError>
    requires few_arcs { HaveFewArcs (document_view document.now) }
    // What is answered is what the document is accepted as, or the refusal of the first rule that is broken.
    ensures reads { LoadsBy accepted_view result (accepted_in (document_view document.now)) }
    // A document is accepted as at most one thing.
    ensures one { HasOne (accepted_in (document_view document.now)) }
    // The net of each module is sound, and the nets go together.
    ensures well { IfOk result (λ accepted. IsWellAccepted (accepted_view accepted)) }
    // The modules are put together as the document says.
    ensures hierarchy { IfOk result (λ accepted. hierarchy_view accepted.hierarchy ≡ hierarchy_in (document_view document.now)) }
{
    accepted_of(alloc, document)
}

/// The law that a document is accepted as at most one thing. A call does nothing: it is there for what it ensures.
pub fn one_acceptance()
    ensures one { (d : RawDocument) → HasOne (accepted_in d) }
{}
