//! What a document is checked as.

ghost use Rattle.std.specs.Prelude.{◌≡◌, IfOk, IfErr};
ghost use Rattle.cpn_readings.specs.Relations.{RefusesBy, HasOne};
ghost use Rattle.cpn_declared.specs.DeclsViews.{decls_view};
ghost use Rattle.cpn_document.specs.Views.{document_view};
ghost use Rattle.cpn_module.specs.Hierarchy.{IsAcyclic};
ghost use Rattle.cpn_module.specs.Named.{hierarchy_in};
ghost use Rattle.cpn_module.specs.ModuleRules.{relation_rules};
ghost use Rattle.cpn_module.specs.Checked.{read, IsChecked};
ghost use Rattle.cpn_module.specs.Ranges.{HasItsNumbers};
ghost use Rattle.cpn_module.specs.Views.{hierarchy_view};
ghost use Rattle.cpn_module.specs.Answers.{refusal_of, Checks};

use crate::colours::check_colours;
use crate::cycles::first_in_itself;
use crate::fusions::{check_fusion_ports, check_two_fusions};
use crate::hierarchy::Hierarchy;
use crate::names::named;
use crate::ports::check_ports;
use crate::refusals::ModuleError;
use crate::sockets::check_sockets;
use cpn_declared::Decls;
use cpn_document::{Document, ModulePart, Pointer};
use std::alloc::Global;

/// That ports, sockets and fusion sets go together.
fn check_relations(
    alloc: Global,
    document: &Document,
    decls: &Decls,
    hierarchy: &Hierarchy,
) -> Result<(), ModuleError>
    requires named { hierarchy_view hierarchy.now ≡ hierarchy_in (document_view document.now) }
    requires numbers { HasItsNumbers (hierarchy_view hierarchy.now) }
    ensures checks { Checks result (relation_rules (decls_view decls.now) (document_view document.now) (hierarchy_view hierarchy.now)) }
{
    check_sockets(alloc, hierarchy)?;
    check_colours(document, decls, hierarchy)?;
    check_ports(alloc, hierarchy)?;
    check_fusion_ports(hierarchy)?;
    check_two_fusions(alloc, hierarchy)?;
    Ok(())
}

/// Checks how the modules of a document are put together.
///
/// Names name the first of their name. The declarations are those that the document's texts are declared as.
///
/// # Errors
///
/// The refusal of the first of these rules that is broken, each of them looked at over the whole document before the next:
/// everything that is named is there, modules ([`ModuleError::UnknownModule`]), then places and ports
/// ([`ModuleError::UnknownPlace`]), then transitions ([`ModuleError::UnknownTransition`]); no module is part of itself
/// ([`ModuleError::Cycle`]); each socket is of the type of its port ([`ModuleError::SocketType`]); colour sets of sockets and
/// ports, and of the members of a fusion set, agree ([`ModuleError::ColourDiffers`]); each port has at most one socket
/// ([`ModuleError::PortTwice`]); no member of a fusion set is a port ([`ModuleError::PortInFusion`]); no place is in two fusion
/// sets ([`ModuleError::TwoFusions`]). Or [`ModuleError::Memory`]: memory ran out.
pub fn check_hierarchy(
    alloc: Global,
    document: &Document,
    decls: &Decls,
) -> Result<Hierarchy, ModuleError>
    // What is answered is what the document is checked as: the hierarchy,
    ensures checked { IfOk result (λ hierarchy. IsChecked (decls_view decls.now) (document_view document.now) (read (hierarchy_view hierarchy))) }
    // or the refusal of the first rule that is broken.
    ensures refused { IfErr result (λ e. RefusesBy (IsChecked (decls_view decls.now) (document_view document.now)) (refusal_of e)) }
    // What a document is checked as is one thing: so one that keeps the rules is never refused, and one that breaks a rule is never accepted.
    ensures one { HasOne (IsChecked (decls_view decls.now) (document_view document.now)) }
    // Each number of a hierarchy is that of something.
    ensures numbers { IfOk result (λ hierarchy. HasItsNumbers (hierarchy_view hierarchy)) }
    // No module of a hierarchy is part of itself.
    ensures acyclic { IfOk result (λ hierarchy. IsAcyclic (hierarchy_view hierarchy)) }
{
    let hierarchy = named(alloc, document)?;
    if let Some(number) = first_in_itself(alloc, &hierarchy)? {
        let here = Pointer::Module(number, ModulePart::Whole);
        return Err(ModuleError::Cycle(here));
    }
    check_relations(alloc, document, decls, &hierarchy)?;
    Ok(hierarchy)
}
