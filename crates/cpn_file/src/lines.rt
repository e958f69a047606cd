//! The error line of a document that is not read.

ghost use Rattle.std.specs.Prelude.{◌≡◌, ◌++◌, IfOk, IfSome, codes, string_bytes};
ghost use Rattle.cpn_core.specs.Faults.{fault_view};
ghost use Rattle.cpn_document.specs.Answers.{refusal_of};
ghost use Rattle.cpn_module.specs.Answers.{refusal_of as module_refusal_of};
ghost use Rattle.cpn_flat.specs.Answers.{refusal_of as flat_refusal_of};
ghost use Rattle.cpn_file.specs.PointerTexts.{pointer_text as text_of_pointer};
ghost use Rattle.cpn_file.specs.Refusals.{counted_name as name_of_counted, fault_name as name_of_fault, numbered_line as line_in, form_line, module_line, flat_line, refusal_line};
ghost use Rattle.cpn_file.specs.Answers.{load_refusal_of};

use crate::pointer_texts::pointer_text;
use crate::refusals::LoadError;
use crate::spaces::spaced;
use crate::text_lines::inscription_line_of;
use cpn_core::{EvalFault, Memory};
use cpn_document::{DocError, Limit, Pointer};
use cpn_flat::FlatError;
use cpn_module::ModuleError;
use std::alloc::Global;

/// The line of a refusal by its number, of what is refused, with what it carries.
fn numbered_line(
    alloc: Global,
    what: &str,
    number: u64,
    name: &str,
    detail: &str,
) -> Result<String, Memory>
    ensures line { IfOk result (λ line. string_bytes line ≡ line_in what.now number name.now detail.now) }
{
    let detail = spaced(alloc, detail)?;
    let detail = detail.as_str();
    let line = format!(in alloc; "error {what} {number} {name}{detail}\n")?;
    Ok(line)
}

/// The line of a refusal by its number, of what is refused, with the pointer that it carries, and its line feed.
///
/// # Errors
///
/// [`Memory`]: memory ran out.
pub fn pointer_line(
    alloc: Global,
    what: &str,
    number: u64,
    name: &str,
    pointer: Pointer,
) -> Result<String, Memory>
    ensures line { IfOk result (λ line. string_bytes line ≡ line_in what.now number name.now (text_of_pointer pointer)) }
{
    let pointer = pointer_text(alloc, pointer)?;
    numbered_line(alloc, what, number, name, pointer.as_str())
}

/// What there are too many of.
fn counted_name(kind: Limit) -> &'static str
    ensures name { result.now ≡ name_of_counted kind }
{
    match kind {
        Limit::Declarations => "declarations",
        Limit::Modules => "modules",
        Limit::Arcs => "arcs",
        Limit::Phases => "phases",
    }
}

/// The line of a document that is refused for its form.
fn form_line_of(alloc: Global, error: &DocError) -> Result<String, Memory>
    ensures line { IfOk result (λ line. IfSome (refusal_of error.now) (λ r. string_bytes line ≡ form_line r)) }
{
    let what = "document";
    match error {
        DocError::Memory => Err(Memory),
        DocError::NotJson => numbered_line(alloc, what, 1, "not_json", ""),
        DocError::Shape(pointer) => pointer_line(alloc, what, 2, "shape", *pointer),
        DocError::BadNumber(pointer) => pointer_line(alloc, what, 3, "bad_number", *pointer),
        DocError::BadName(pointer) => pointer_line(alloc, what, 4, "bad_name", *pointer),
        DocError::Version => numbered_line(alloc, what, 5, "version", ""),
        DocError::Limit(kind) => numbered_line(alloc, what, 6, "limit", counted_name(*kind)),
    }
}

/// The line of a document whose modules make no hierarchy.
fn module_line_of(alloc: Global, error: &ModuleError) -> Result<String, Memory>
    ensures line { IfOk result (λ line. IfSome (module_refusal_of error.now) (λ r. string_bytes line ≡ module_line r)) }
{
    let what = "net module";
    match error {
        ModuleError::Memory => Err(Memory),
        ModuleError::UnknownModule(pointer) => pointer_line(
            alloc,
            what,
            1,
            "unknown_module",
            *pointer,
        ),
        ModuleError::UnknownPlace(pointer) => pointer_line(
            alloc,
            what,
            2,
            "unknown_place",
            *pointer,
        ),
        ModuleError::UnknownTransition(pointer) => {
            pointer_line(alloc, what, 3, "unknown_transition", *pointer)
        }
        ModuleError::Cycle(pointer) => pointer_line(alloc, what, 4, "cycle", *pointer),
        ModuleError::SocketType(pointer) => pointer_line(alloc, what, 5, "socket_type", *pointer),
        ModuleError::ColourDiffers(pointer) => pointer_line(
            alloc,
            what,
            6,
            "colour_differs",
            *pointer,
        ),
        ModuleError::PortTwice(pointer) => pointer_line(alloc, what, 7, "port_twice", *pointer),
        ModuleError::PortInFusion(pointer) => pointer_line(
            alloc,
            what,
            8,
            "port_in_fusion",
            *pointer,
        ),
        ModuleError::TwoFusions(pointer) => pointer_line(alloc, what, 9, "two_fusions", *pointer),
    }
}

/// The name of a fault.
pub(crate) fn fault_name(fault: EvalFault) -> &'static str
    ensures name { result.now ≡ name_of_fault (fault_view fault) }
{
    match fault {
        EvalFault::Overflow => "overflow",
        EvalFault::DivideByZero => "divide_by_zero",
        EvalFault::EmptyList => "empty_list",
        EvalFault::NoCase => "no_case",
        EvalFault::NotInColour => "not_in_colour",
        EvalFault::BadCoefficient => "bad_coefficient",
        EvalFault::BadDelay => "bad_delay",
        EvalFault::TooLarge => "too_large",
    }
}

/// The line of an initial marking that has a fault, by the name of its place.
fn init_line_of(alloc: Global, place: &str, fault: EvalFault) -> Result<String, Memory>
    ensures line { IfOk result (λ line. string_bytes line ≡ line_in (codes "net flat") 4 (codes "init") (place.now ++ codes " " ++ name_of_fault (fault_view fault))) }
{
    let fault = fault_name(fault);
    let detail = format!(in alloc; "{place} {fault}")?;
    numbered_line(alloc, "net flat", 4, "init", detail.as_str())
}

/// The line of a document that has no flat net with an initial marking.
fn flat_line_of(alloc: Global, error: &FlatError) -> Result<String, Memory>
    ensures line { IfOk result (λ line. IfSome (flat_refusal_of error.now) (λ r. string_bytes line ≡ flat_line r)) }
{
    let what = "net flat";
    match error {
        FlatError::Memory => Err(Memory),
        FlatError::Instances => numbered_line(alloc, what, 1, "instances", ""),
        FlatError::Places => numbered_line(alloc, what, 2, "places", ""),
        FlatError::Transitions => numbered_line(alloc, what, 3, "transitions", ""),
        FlatError::Init(place, fault) => init_line_of(alloc, place.as_str(), *fault),
        FlatError::InitialDiffers(place) => {
            numbered_line(alloc, what, 5, "initial_differs", place.as_str())
        }
    }
}

impl LoadError {
    /// The error line, with its line feed. Want of memory has none, and is answered as itself.
    pub fn line(&self, alloc: Global) -> Result<String, Memory>
        ensures line { IfOk result (λ line. IfSome (load_refusal_of self.now) (λ refusal. string_bytes line ≡ refusal_line refusal)) }
    {
        match self {
            LoadError::Memory => Err(Memory),
            LoadError::Document(error) => form_line_of(alloc, error),
            LoadError::Inscription(pointer, error) => inscription_line_of(alloc, *pointer, error),
            LoadError::Module(error) => module_line_of(alloc, error),
            LoadError::Flat(error) => flat_line_of(alloc, error),
        }
    }
}
