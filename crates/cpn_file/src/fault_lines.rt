//! The error lines of texts that are accepted, and whose value is a fault.

ghost use Rattle.std.specs.Prelude.{◌≡◌, IfOk, string_bytes};
ghost use Rattle.cpn_core.specs.Faults.{fault_view};
ghost use Rattle.cpn_file.specs.FaultLines.{fault_number as number_of_fault, fault_line};

use crate::lines::fault_name;
use crate::pointer_texts::pointer_text;
use crate::text_lines::text_line;
use cpn_core::{EvalFault, Memory};
use cpn_document::Pointer;
use std::alloc::Global;

/// The number of a fault.
fn fault_number(fault: EvalFault) -> u64
    ensures number { result ≡ number_of_fault (fault_view fault) }
{
    match fault {
        EvalFault::Overflow => 1,
        EvalFault::DivideByZero => 2,
        EvalFault::EmptyList => 3,
        EvalFault::NoCase => 4,
        EvalFault::NotInColour => 5,
        EvalFault::BadCoefficient => 6,
        EvalFault::BadDelay => 7,
        EvalFault::TooLarge => 8,
    }
}

/// The line of the text at a pointer that is accepted and has a fault, with its line feed.
///
/// # Errors
///
/// [`Memory`]: memory ran out.
pub fn fault_line_of(alloc: Global, pointer: Pointer, fault: EvalFault) -> Result<String, Memory>
    ensures line { IfOk result (λ line. string_bytes line ≡ fault_line pointer (fault_view fault)) }
{
    let pointer = pointer_text(alloc, pointer)?;
    let number = fault_number(fault);
    let name = fault_name(fault);
    text_line(alloc, pointer.as_str(), "eval", number, name, "")
}
