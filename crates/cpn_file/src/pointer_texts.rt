//! The texts of JSON pointers into a document.

ghost use Rattle.std.specs.Prelude.{◌≡◌, IfOk, string_bytes};
ghost use Rattle.cpn_file.specs.PointerTexts.{place_text as text_of_place, transition_text as text_of_transition, arc_text as text_of_arc, assignment_text as text_of_assignment, member_text as text_of_member, monitor_text as text_of_monitor, edit_text as text_of_edit, item_text as text_of_item, sub_text as text_of_sub, module_text as text_of_module, fusion_text as text_of_fusion, phase_text as text_of_phase, pointer_text as text_of_pointer};

use cpn_core::Memory;
use cpn_document::{
    ArcPart, AssignmentPart, EditPart, FusionPart, MemberPart, ModulePart, MonitorPart, PhasePart,
    PlacePart, Pointer, SubPart, TransitionPart,
};
use std::alloc::Global;

fn place_text(part: PlacePart) -> &'static str
    ensures text { result.now ≡ text_of_place part }
{
    match part {
        PlacePart::Whole => "",
        PlacePart::Name => "/name",
        PlacePart::Colour => "/colour",
        PlacePart::Initial => "/initial",
        PlacePart::Port => "/port",
    }
}

fn transition_text(part: TransitionPart) -> &'static str
    ensures text { result.now ≡ text_of_transition part }
{
    match part {
        TransitionPart::Whole => "",
        TransitionPart::Name => "/name",
        TransitionPart::Guard => "/guard",
        TransitionPart::Delay => "/delay",
    }
}

fn arc_text(part: ArcPart) -> &'static str
    ensures text { result.now ≡ text_of_arc part }
{
    match part {
        ArcPart::Whole => "",
        ArcPart::Place => "/place",
        ArcPart::Transition => "/transition",
        ArcPart::To => "/to",
        ArcPart::Expr => "/expr",
    }
}

fn assignment_text(part: AssignmentPart) -> &'static str
    ensures text { result.now ≡ text_of_assignment part }
{
    match part {
        AssignmentPart::Whole => "",
        AssignmentPart::Port => "/port",
        AssignmentPart::Socket => "/socket",
    }
}

fn member_text(part: MemberPart) -> &'static str
    ensures text { result.now ≡ text_of_member part }
{
    match part {
        MemberPart::Whole => "",
        MemberPart::Module => "/module",
        MemberPart::Place => "/place",
    }
}

fn monitor_text(part: MonitorPart) -> &'static str
    ensures text { result.now ≡ text_of_monitor part }
{
    match part {
        MonitorPart::Whole => "",
        MonitorPart::Name => "/name",
        MonitorPart::Kind => "/kind",
        MonitorPart::Transition => "/transition",
        MonitorPart::Place => "/place",
        MonitorPart::Expr => "/expr",
        MonitorPart::Op => "/op",
        MonitorPart::N => "/n",
    }
}

fn edit_text(part: EditPart) -> &'static str
    ensures text { result.now ≡ text_of_edit part }
{
    match part {
        EditPart::Whole => "",
        EditPart::Kind => "/kind",
        EditPart::Transition => "/transition",
        EditPart::Place => "/place",
        EditPart::Text => "/text",
    }
}

/// An item of a list, by its number, and a part of it.
fn item_text(alloc: Global, list: &str, number: usize, part: &str) -> Result<String, Memory>
    ensures text { IfOk result (λ text. string_bytes text ≡ text_of_item list.now number part.now) }
{
    let text = format!(in alloc; "{list}{number}{part}")?;
    Ok(text)
}

/// A text of its own.
fn own(alloc: Global, text: &str) -> Result<String, Memory>
    ensures text { IfOk result (λ own. string_bytes own ≡ text.now) }
{
    let text = String::from_str(alloc, text)?;
    Ok(text)
}

fn sub_text(alloc: Global, part: SubPart) -> Result<String, Memory>
    ensures text { IfOk result (λ text. string_bytes text ≡ text_of_sub part) }
{
    match part {
        SubPart::Whole => own(alloc, ""),
        SubPart::Name => own(alloc, "/name"),
        SubPart::Module => own(alloc, "/module"),
        SubPart::Assign => own(alloc, "/assign"),
        SubPart::Assignment(number, part) => {
            item_text(alloc, "/assign/", number, assignment_text(part))
        }
    }
}

fn module_text(alloc: Global, part: ModulePart) -> Result<String, Memory>
    ensures text { IfOk result (λ text. string_bytes text ≡ text_of_module part) }
{
    match part {
        ModulePart::Whole => own(alloc, ""),
        ModulePart::Name => own(alloc, "/name"),
        ModulePart::Places => own(alloc, "/places"),
        ModulePart::Place(number, part) => item_text(alloc, "/places/", number, place_text(part)),
        ModulePart::Transitions => own(alloc, "/transitions"),
        ModulePart::Transition(number, part) => {
            item_text(alloc, "/transitions/", number, transition_text(part))
        }
        ModulePart::Arcs => own(alloc, "/arcs"),
        ModulePart::Arc(number, part) => item_text(alloc, "/arcs/", number, arc_text(part)),
        ModulePart::Subs => own(alloc, "/subs"),
        ModulePart::Sub(number, part) => {
            let rest = sub_text(alloc, part)?;
            item_text(alloc, "/subs/", number, rest.as_str())
        }
    }
}

fn fusion_text(alloc: Global, part: FusionPart) -> Result<String, Memory>
    ensures text { IfOk result (λ text. string_bytes text ≡ text_of_fusion part) }
{
    match part {
        FusionPart::Whole => own(alloc, ""),
        FusionPart::Name => own(alloc, "/name"),
        FusionPart::Members => own(alloc, "/members"),
        FusionPart::Member(number, part) => {
            item_text(alloc, "/members/", number, member_text(part))
        }
    }
}

fn phase_text(alloc: Global, part: PhasePart) -> Result<String, Memory>
    ensures text { IfOk result (λ text. string_bytes text ≡ text_of_phase part) }
{
    match part {
        PhasePart::Whole => own(alloc, ""),
        PhasePart::Start => own(alloc, "/start"),
        PhasePart::Edits => own(alloc, "/edits"),
        PhasePart::Edit(number, part) => item_text(alloc, "/edits/", number, edit_text(part)),
    }
}

/// The text of a pointer into a document.
pub(crate) fn pointer_text(alloc: Global, pointer: Pointer) -> Result<String, Memory>
    ensures text { IfOk result (λ text. string_bytes text ≡ text_of_pointer pointer) }
{
    match pointer {
        Pointer::Root => own(alloc, ""),
        Pointer::Version => own(alloc, "/version"),
        Pointer::Declarations => own(alloc, "/declarations"),
        Pointer::Declaration(number) => item_text(alloc, "/declarations/", number, ""),
        Pointer::Top => own(alloc, "/top"),
        Pointer::Modules => own(alloc, "/modules"),
        Pointer::Module(number, part) => {
            let rest = module_text(alloc, part)?;
            item_text(alloc, "/modules/", number, rest.as_str())
        }
        Pointer::Fusions => own(alloc, "/fusions"),
        Pointer::Fusion(number, part) => {
            let rest = fusion_text(alloc, part)?;
            item_text(alloc, "/fusions/", number, rest.as_str())
        }
        Pointer::Monitors => own(alloc, "/monitors"),
        Pointer::Monitor(number, part) => {
            item_text(alloc, "/monitors/", number, monitor_text(part))
        }
        Pointer::Phases => own(alloc, "/phases"),
        Pointer::Phase(number, part) => {
            let rest = phase_text(alloc, part)?;
            item_text(alloc, "/phases/", number, rest.as_str())
        }
    }
}
