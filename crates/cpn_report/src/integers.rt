// An integer as it is printed, with ~ in front of a negative one.
ghost use Rattle.std.specs.Prelude.{◌≡◌, ◌++◌, OnOk};
ghost use Rattle.std.specs.String.{string_bytes};
ghost use Rattle.cpn_report.specs.ValueText.{int_text};

use cpn_core::Memory;
use std::fmt::Write;

/// Appends an integer.
pub(crate) fn push_int(out: &mut String, number: i128) -> Result<(), Memory>
    ensures written { OnOk result (string_bytes out.new ≡ string_bytes out.old ++ int_text number) }
{
    if number < 0 {
        let magnitude = number.unsigned_abs();
        write!(out, "~{magnitude}")?;
    } else {
        write!(out, "{number}")?;
    }
    Ok(())
}
