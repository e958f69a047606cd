// Asking probes for their reports.
ghost use Rattle.std.specs.Prelude.{IfOk};
ghost use Rattle.cpn_probe.specs.Reported.{AreReports};

use crate::probes::Probe;
use cpn_core::{Memory, Text};
use std::alloc::Global;

/// The report of each probe, in their order.
///
/// # Errors
///
/// `Memory` where memory is wanted.
pub fn report_all<P: Probe>(alloc: Global, probes: &[P]) -> Result<Vec<Text>, Memory>
    ensures { IfOk result (λ texts. AreReports P.Reports probes.now texts.items) }
{
    let mut texts = Vec::with_capacity(alloc, probes.len())?;
    for probe in probes {
        let text = report_of(alloc, probe)?;
        texts.push(text)?;
    }
    Ok(texts)
}

fn report_of<P: Probe>(alloc: Global, probe: &P) -> Result<Text, Memory>
    ensures { IfOk result (P.Reports probe.now) }
{
    let mut text = Text::new(alloc);
    probe.report(&mut text)?;
    Ok(text)
}
