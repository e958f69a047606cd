// What probes said, as it is printed.
ghost use Rattle.std.specs.Prelude.{◌≡◌, ◌<◌, ◌++◌, map, OnOk};
ghost use Rattle.std.specs.List.{flat_map};
ghost use Rattle.std.specs.String.{string_bytes};
ghost use Rattle.cpn_report.specs.Lines.{ended, shown_byte, probe_text};
ghost use Rattle.cpn_report.specs.Report.{probes_texts};

use cpn_core::{Memory, Text};
use std::fmt::Write;

/// Appends a line for each of the texts that probes said, in order, numbered from 0.
pub(crate) fn push_probe_lines(out: &mut String, said: &[Text]) -> Result<(), Memory>
    ensures written { OnOk result (string_bytes out.new ≡ string_bytes out.old ++ flat_map ended (probes_texts 0 said.now)) }
{
    for (number, text) in said.iter().enumerate() {
        push_probe_line(out, number as u64, text.bytes())?;
    }
    Ok(())
}

/// Appends the line of the probe of a number.
#[tactic(auto, unfolding(crate::specs::Lines::probe_text))]
fn push_probe_line(out: &mut String, number: u64, bytes: &[u8]) -> Result<(), Memory>
    ensures written { OnOk result (string_bytes out.new ≡ string_bytes out.old ++ ended (probe_text number bytes.now)) }
{
    write!(out, "probe {number} ")?;
    push_shown(out, bytes)?;
    out.push_str("\n")?;
    Ok(())
}

/// Appends the bytes of a probe's text as they are shown.
fn push_shown(out: &mut String, bytes: &[u8]) -> Result<(), Memory>
    ensures written { OnOk result (string_bytes out.new ≡ string_bytes out.old ++ map shown_byte bytes.now) }
{
    for byte in bytes {
        out.push(shown(*byte) as char)?;
    }
    Ok(())
}

/// A byte as it is shown: `?` for one that is outside 0x20 to 0x7E.
fn shown(byte: u8) -> u8
    ensures shown { result ≡ shown_byte byte }
    ensures ascii { result < 0x80 }
{
    if byte < 0x20 || byte > 0x7E {
        b'?'
    } else {
        byte
    }
}
