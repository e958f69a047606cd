//! From the monitors of a document, as they are written, to those of its net.

ghost use Rattle.std.specs.Prelude.{◌<◌, ◌^◌, List, map, length, IfOk};
ghost use Rattle.cpn_core.specs.Inscriptions.{funs_view};
ghost use Rattle.cpn_core.specs.Nets.{net_view};
ghost use Rattle.cpn_declared.specs.DeclsViews.{decls_view};
ghost use Rattle.cpn_definitions.specs.Net.{PlainNet};
ghost use Rattle.cpn_definitions.specs.Sound.{IsSound};
ghost use Rattle.cpn_document.specs.Monitors.{RawMonitor};
ghost use Rattle.cpn_document.specs.Views.{monitor_view};
ghost use Rattle.cpn_monitor.specs.Fitting.{FitNet};
ghost use Rattle.cpn_monitor.specs.Views.{monitor_view as measured_view, monitors_view};
ghost use Rattle.cpn_readings.specs.Relations.{HasOne};
ghost use Rattle.cpn_typing.specs.Consistency.{IsConsistent};
ghost use Rattle.cpn_typing.specs.DeclaresFor.{DeclaresFor};
ghost use Rattle.cpn_typing.specs.Names.{Declared};
ghost use Rattle.cpn_monitor_texts.specs.Accepted.{AreAcceptedMonitors};
ghost use Rattle.cpn_monitor_texts.specs.Answers.{ChecksBy};
ghost use Rattle.cpn_monitor_texts.specs.Checked.{monitor_so, monitors_so};

use crate::measures::measure_of;
use crate::names::NamedNet;
use crate::refusals::MonitorError;
use cpn_core::Net;
use cpn_monitor::{Monitor, Monitors};
use cpn_types::Decls;
use std::alloc::Global;

/// The monitor of a number, under its name.
fn monitor_of(
    alloc: Global,
    decls: &Decls,
    net: &NamedNet,
    number: usize,
    written: &cpn_document::Monitor,
) -> Result<Monitor, MonitorError>
    requires consistent { IsConsistent (decls_view decls.now) }
    requires few_transitions { length net.now.transitions.items < 2 ^ 32 }
    requires few_places { length net.now.places.items < 2 ^ 32 }
    ensures reads { ChecksBy measured_view result (monitor_so (decls_view decls.now) (net_view net.now) number (monitor_view written.now)) }
{
    let measure = measure_of(alloc, decls, net, number, &written.kind)?;
    let name = String::from_str(alloc, written.name.as_str())?;
    Ok(Monitor { name, measure })
}

/// Each of the monitors, in their order.
fn each_monitor(
    alloc: Global,
    decls: &Decls,
    net: &NamedNet,
    written: &[cpn_document::Monitor],
) -> Result<Vec<Monitor>, MonitorError>
    requires consistent { IsConsistent (decls_view decls.now) }
    requires few_transitions { length net.now.transitions.items < 2 ^ 32 }
    requires few_places { length net.now.places.items < 2 ^ 32 }
    ensures reads { ChecksBy (λ monitors. map measured_view monitors.items) result (monitors_so (decls_view decls.now) (net_view net.now) (map monitor_view written.now)) }
{
    let mut monitors = Vec::with_capacity(alloc, written.len())?;
    for (number, monitor) in written.iter().enumerate() {
        monitors.push(monitor_of(alloc, decls, net, number, monitor)?)?;
    }
    Ok(monitors)
}

/// Checks the monitors of a document against its net.
///
/// They are checked one after another, and the first refusal counts. Of each the transition or the place that it names has to be in the
/// net, under its flattened name; a compound place has one name alone. Then the text of a monitor that measures values has to be an
/// inscription of integers; and its variables, in the order in which they stand in it, have to be the transition's.
///
/// # Errors
///
/// - [`MonitorError::UnknownName`]: a monitor names a transition, or a place, that is not in the net.
/// - [`MonitorError::Bad`]: the text of a monitor is not accepted.
/// - [`MonitorError::Memory`]: memory ran out.
pub fn check_monitors(
    alloc: Global,
    decls: &Decls,
    net: &Net,
    written: &[cpn_document::Monitor],
) -> Result<Monitors, MonitorError>
    requires consistent { IsConsistent (decls_view decls.now) }
    requires declares { DeclaresFor (decls_view decls.now) (net_view net.now) }
    requires sound { IsSound (net_view net.now) }
    // What is answered is what the monitors are, or the refusal of the first that is refused.
    ensures reads { ChecksBy monitors_view result (monitors_so (decls_view decls.now) (net_view net.now) (map monitor_view written.now)) }
    // They are at most one thing.
    ensures one { HasOne (monitors_so (decls_view decls.now) (net_view net.now) (map monitor_view written.now)) }
    // They are accepted, and fit the net.
    ensures accepted { IfOk result (λ monitors. AreAcceptedMonitors (decls_view decls.now) (net_view net.now) (monitors_view monitors)) }
    ensures fit { IfOk result (λ monitors. FitNet (net_view net.now) (funs_view monitors.funs.value) (monitors_view monitors)) }
{
    let named = NamedNet::of(alloc, net)?;
    let monitors = each_monitor(alloc, decls, &named, written)?;
    let funs = net.funs.clone()?;
    Ok(Monitors { funs, monitors })
}

/// The law that monitors are at most one thing in a net. A call does nothing: it is there for what it ensures.
pub fn one_check()
    ensures one { (ds : Declared) (n : PlainNet) (monitors : List RawMonitor) → HasOne (monitors_so ds n monitors) }
{}
