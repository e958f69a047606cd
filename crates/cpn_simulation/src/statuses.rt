//! How a call of the program ends.

ghost use Rattle.std.specs.Prelude.{◌≡◌};
ghost use Rattle.std.specs.Process.{exit_status};
ghost use Rattle.cpn_simulation.specs.Statuses.{exit_number};

use std::process::ExitCode;

/// How a call of the program ends; its number is the exit status.
#[derive(Clone, Copy, Debug, PartialEq, Eq)]
pub enum Status {
    /// The whole report was written, and the last of its runs ended by no fault.
    Done = 0,
    /// The words are not of the form that is read.
    BadWords = 1,
    /// The source had a fault.
    ReadFault = 2,
    /// The document is no JSON value, or breaks a rule of its form.
    BadDocument = 3,
    /// A text of the document, or the variables of a transition, are not accepted, or an edited initial marking has a fault.
    BadInscription = 4,
    /// The modules of the document make no hierarchy, it has too many instances, an initial marking has a fault or differs from another, or a
    /// monitor or an edit has a name that is none of the net.
    BadNet = 5,
    /// The whole report was written, and the last of its runs ended by the fault of an element's outputs.
    RunFault = 6,
    /// The sink had a fault.
    WriteFault = 7,
    /// Memory ran out.
    Memory = 8,
    /// The document has more than 16,777,216 bytes.
    TooLong = 9,
}

/// The exit code of the program that ends so.
pub fn exit_code(status: Status) -> ExitCode
    ensures number { exit_status result ≡ exit_number status }
{
    ExitCode::from(status as u8)
}
