//! What the names of a document name.

ghost use Rattle.std.specs.Prelude.{◌≡◌, IfOk};
ghost use Rattle.cpn_document.specs.Views.{document_view};
ghost use Rattle.cpn_module.specs.Named.{hierarchy_in};
ghost use Rattle.cpn_module.specs.Names.{AreNamesOf};
ghost use Rattle.cpn_module.specs.ModuleRules.{name_rules};
ghost use Rattle.cpn_module.specs.Ranges.{HasItsNumbers};
ghost use Rattle.cpn_module.specs.Views.{hierarchy_view};
ghost use Rattle.cpn_module.specs.Answers.{Checks};

use crate::hierarchy::Hierarchy;
use crate::name_lists::DocumentNames;
use crate::numbered::hierarchy_of;
use crate::refusals::ModuleError;
use crate::unknown::check_names;
use cpn_document::Document;
use std::alloc::Global;

/// The hierarchy that a document names, given the names of its modules and of their places; else the refusal of the first name that is
/// not there.
fn named_among(
    alloc: Global,
    document: &Document,
    names: &DocumentNames,
) -> Result<Hierarchy, ModuleError>
    requires names { AreNamesOf (document_view document.now) names.now.modules names.now.places.items }
    ensures checks { Checks result (name_rules (document_view document.now)) }
    ensures named { IfOk result (λ hierarchy. hierarchy_view hierarchy ≡ hierarchy_in (document_view document.now)) }
    ensures numbers { IfOk result (λ hierarchy. HasItsNumbers (hierarchy_view hierarchy)) }
{
    check_names(alloc, document, names)?;
    let hierarchy = hierarchy_of(alloc, document, names)?;
    Ok(hierarchy)
}

/// The hierarchy that a document names, where everything that is named is there; else the refusal of the first name that is not.
pub(crate) fn named(alloc: Global, document: &Document) -> Result<Hierarchy, ModuleError>
    ensures checks { Checks result (name_rules (document_view document.now)) }
    ensures named { IfOk result (λ hierarchy. hierarchy_view hierarchy ≡ hierarchy_in (document_view document.now)) }
    ensures numbers { IfOk result (λ hierarchy. HasItsNumbers (hierarchy_view hierarchy)) }
{
    let names = DocumentNames::of(alloc, document.modules.as_slice())?;
    named_among(alloc, document, &names)
}
