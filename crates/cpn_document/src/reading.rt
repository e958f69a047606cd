//! The document that bytes are.

ghost use Rattle.std.specs.Prelude.{◌≡◌, IfOk, IfErr, IfSome};
ghost use Rattle.cpn_document.specs.Document.{RawDocument};
ghost use Rattle.cpn_document.specs.FewArcs.{HaveFewArcs};
ghost use Rattle.cpn_document.specs.Reading.{Reading, read, refused, IsDocument};
ghost use Rattle.cpn_document.specs.Views.{document_view};
ghost use Rattle.cpn_document.specs.WellNamed.{AreWellNamed, HasFewDeclarations};
ghost use Rattle.cpn_document.specs.Answers.{refusal_of};

use crate::document::Document;
use crate::form::document_of;
use crate::json::value_of;
use crate::refusals::DocError;
use std::alloc::Global;

/// Reads a net document: the JSON value that the bytes are, and the texts at the keys of its objects.
///
/// What the texts say is not looked into.
///
/// # Errors
///
/// The refusal of the first rule that is broken. The bytes are a JSON value, at most 127 levels deep
/// ([`DocError::NotJson`]); then the value is walked from its root, each object's keys that are no keys of it before what stands
/// at its own, and these in their order. Or [`DocError::Memory`]: memory ran out.
pub fn read_document(alloc: Global, bytes: &[u8]) -> Result<Document, DocError>
    // What is answered is what the bytes are read as: the document,
    ensures read { IfOk result (λ document. IsDocument bytes.now (read (document_view document))) }
    // or the refusal of the first rule that is broken.
    ensures refused { IfErr result (λ e. IfSome (refusal_of e) (λ refusal. IsDocument bytes.now (refused refusal))) }
    // No transition of a document has more than 64 arcs.
    ensures few_arcs { IfOk result (λ document. HaveFewArcs (document_view document)) }
    // The modules, the fusion sets, the monitors, and the things of each list of a module have names, no two of them the same; nor
    // have a transition and a substitution transition of one module.
    ensures well_named { IfOk result (λ document. AreWellNamed (document_view document)) }
    // A document has at most 1,024 declarations.
    ensures few_declarations { IfOk result (λ document. HasFewDeclarations (document_view document)) }
    // Bytes are read as at most one thing: so a document that keeps the rules is never refused, and one that breaks a rule is never read.
    ensures one { (first second : Reading RawDocument) → IsDocument bytes.now first → IsDocument bytes.now second → first ≡ second }
{
    let value = value_of(alloc, bytes)?;
    let document = document_of(alloc, &value)?;
    Ok(document)
}
