//! What monitors measure, or after which occurrence they stop the run.

ghost use Rattle.std.specs.Prelude.{◌≡◌, ◌<◌, ◌^◌, length};
ghost use Rattle.cpn_core.specs.Nets.{net_view};
ghost use Rattle.cpn_declared.specs.DeclsViews.{decls_view};
ghost use Rattle.cpn_document.specs.Monitors.{count, size, value, stop_count, stop_size};
ghost use Rattle.cpn_document.specs.Views.{kind_view};
ghost use Rattle.cpn_monitor.specs.Views.{bound_view, measure_view};
ghost use Rattle.cpn_typing.specs.Consistency.{IsConsistent};
ghost use Rattle.cpn_typing.specs.Names.{Declared};
ghost use Rattle.cpn_monitor_texts.specs.Answers.{ChecksBy};
ghost use Rattle.cpn_monitor_texts.specs.Checked.{bound_of as bound_in, measure_so};

use crate::names::{NamedNet, known_place, known_transition};
use crate::refusals::MonitorError;
use crate::values::inscription_in_text;
use cpn_document::MonitorKind;
use cpn_monitor::{Bound, Measure};
use cpn_types::Decls;
use std::alloc::Global;

/// The bound on numbers of tokens that is written.
fn bound_of(written: cpn_document::Bound) -> Bound
    ensures bound { bound_view result ≡ bound_in written }
{
    match written {
        cpn_document::Bound::AtLeast => Bound::AtLeast,
        cpn_document::Bound::AtMost => Bound::AtMost,
    }
}

/// What the monitor of a number measures by how often a transition occurs.
fn count_of(net: &NamedNet, number: usize, name: &str) -> Result<Measure, MonitorError>
    requires few { length net.now.transitions.items < 2 ^ 32 }
    ensures reads { (ds : Declared) → ChecksBy measure_view result (measure_so ds (net_view net.now) number (count name.now)) }
{
    let transition = known_transition(net, number, name)?;
    Ok(Measure::Count { transition })
}

/// What it measures by how many tokens a place has.
fn size_of(net: &NamedNet, number: usize, name: &str) -> Result<Measure, MonitorError>
    requires few { length net.now.places.items < 2 ^ 32 }
    ensures reads { (ds : Declared) → ChecksBy measure_view result (measure_so ds (net_view net.now) number (size name.now)) }
{
    let place = known_place(net, number, name)?;
    Ok(Measure::Size { place })
}

/// What it measures by the values of a text at the occurrences of a transition.
fn value_of(
    alloc: Global,
    decls: &Decls,
    net: &NamedNet,
    number: usize,
    name: &str,
    text: &str,
) -> Result<Measure, MonitorError>
    requires consistent { IsConsistent (decls_view decls.now) }
    requires few { length net.now.transitions.items < 2 ^ 32 }
    ensures reads { ChecksBy measure_view result (measure_so (decls_view decls.now) (net_view net.now) number (value name.now text.now)) }
{
    let transition = known_transition(net, number, name)?;
    let vars = net.net().transitions[transition as usize].vars.as_slice();
    let inscription = inscription_in_text(alloc, decls, number, vars, text)?;
    Ok(Measure::Value {
        transition,
        inscription,
    })
}

/// After how many occurrences of a transition it stops the run.
fn stop_count_of(net: &NamedNet, number: usize, name: &str, n: u64) -> Result<Measure, MonitorError>
    requires few { length net.now.transitions.items < 2 ^ 32 }
    ensures reads { (ds : Declared) → ChecksBy measure_view result (measure_so ds (net_view net.now) number (stop_count name.now n)) }
{
    let transition = known_transition(net, number, name)?;
    Ok(Measure::StopCount {
        transition,
        number: n,
    })
}

/// At how many tokens on a place it stops the run.
fn stop_size_of(
    net: &NamedNet,
    number: usize,
    name: &str,
    op: cpn_document::Bound,
    n: u64,
) -> Result<Measure, MonitorError>
    requires few { length net.now.places.items < 2 ^ 32 }
    ensures reads { (ds : Declared) → ChecksBy measure_view result (measure_so ds (net_view net.now) number (stop_size name.now op n)) }
{
    let place = known_place(net, number, name)?;
    let bound = bound_of(op);
    Ok(Measure::StopSize {
        place,
        bound,
        number: n,
    })
}

/// What the monitor of a number measures, or after which occurrence it stops the run.
pub(crate) fn measure_of(
    alloc: Global,
    decls: &Decls,
    net: &NamedNet,
    number: usize,
    kind: &MonitorKind,
) -> Result<Measure, MonitorError>
    requires consistent { IsConsistent (decls_view decls.now) }
    requires few_transitions { length net.now.transitions.items < 2 ^ 32 }
    requires few_places { length net.now.places.items < 2 ^ 32 }
    ensures reads { ChecksBy measure_view result (measure_so (decls_view decls.now) (net_view net.now) number (kind_view kind.now)) }
{
    match kind {
        MonitorKind::Count { transition } => count_of(net, number, transition.as_str()),
        MonitorKind::Size { place } => size_of(net, number, place.as_str()),
        MonitorKind::Value { transition, expr } => {
            value_of(
                alloc,
                decls,
                net,
                number,
                transition.as_str(),
                expr.as_str(),
            )
        }
        MonitorKind::StopCount { transition, n } => {
            stop_count_of(net, number, transition.as_str(), *n)
        }
        MonitorKind::StopSize { place, op, n } => {
            stop_size_of(net, number, place.as_str(), *op, *n)
        }
    }
}
