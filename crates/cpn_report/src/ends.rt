// The end of a run as it is printed.
ghost use Rattle.std.specs.Prelude.{◌≡◌, ◌++◌, IfOk, OnOk};
ghost use Rattle.std.specs.String.{string_bytes};
ghost use Rattle.cpn_core.specs.Nets.{net_view};
ghost use Rattle.cpn_core.specs.Faults.{fault_view};
ghost use Rattle.cpn_monitor.specs.Views.{values_view};
ghost use Rattle.cpn_runs.specs.Views.{end_view};
ghost use Rattle.cpn_report.specs.Printable.{IsPrintableNet, IsCause};
ghost use Rattle.cpn_report.specs.Lines.{fault_text, cause_text, end_text as text_of_end, ended};

use crate::elements::push_element;
use cpn_core::{EvalFault, Memory, Net};
use cpn_monitor::Values14;
use cpn_runs::End;
use std::alloc::Global;
use std::fmt::Write;

/// The line of the cause of a run's end, without a line feed. A stop is told by the name of its monitor, which the values have. The cause
/// is not want of memory, which has no line.
///
/// `Err` comes for want of memory alone.
pub fn end_text(alloc: Global, net: &Net, values: &Values14, cause: &End) -> Result<String, Memory>
    requires net { IsPrintableNet (net_view net.now) }
    requires cause { IsCause (net_view net.now) (values_view values.now) (end_view cause.now) }
    ensures text { IfOk result (λ text. string_bytes text ≡ text_of_end (net_view net.now) (values_view values.now) (end_view cause.now)) }
{
    let mut out = String::new(alloc);
    push_end(&mut out, net, values, cause)?;
    Ok(out)
}

/// Appends the line of the cause of the run's end.
pub(crate) fn push_end_line(
    out: &mut String,
    net: &Net,
    values: &Values14,
    cause: &End,
) -> Result<(), Memory>
    requires net { IsPrintableNet (net_view net.now) }
    requires cause { IsCause (net_view net.now) (values_view values.now) (end_view cause.now) }
    ensures written { OnOk result (string_bytes out.new ≡ string_bytes out.old ++ ended (text_of_end (net_view net.now) (values_view values.now) (end_view cause.now))) }
{
    push_end(out, net, values, cause)?;
    out.push_str("\n")?;
    Ok(())
}

/// Appends the line of the cause of the run's end, without a line feed.
#[tactic(auto, unfolding(crate::specs::Lines::end_text))]
fn push_end(out: &mut String, net: &Net, values: &Values14, cause: &End) -> Result<(), Memory>
    requires net { IsPrintableNet (net_view net.now) }
    requires cause { IsCause (net_view net.now) (values_view values.now) (end_view cause.now) }
    ensures written { OnOk result (string_bytes out.new ≡ string_bytes out.old ++ text_of_end (net_view net.now) (values_view values.now) (end_view cause.now)) }
{
    out.push_str("end ")?;
    push_cause(out, net, values, cause)?;
    Ok(())
}

/// Appends the cause of a run's end; that of a fault has its number, its name and its element, and that of a stop the name of its
/// monitor.
fn push_cause(out: &mut String, net: &Net, values: &Values14, cause: &End) -> Result<(), Memory>
    requires net { IsPrintableNet (net_view net.now) }
    requires cause { IsCause (net_view net.now) (values_view values.now) (end_view cause.now) }
    ensures written { OnOk result (string_bytes out.new ≡ string_bytes out.old ++ cause_text (net_view net.now) (values_view values.now) (end_view cause.now)) }
{
    match cause {
        End::Fault(element, fault) => {
            let name = fault_name(*fault);
            write!(out, "fault {name} ")?;
            push_element(out, net, element)?;
        }
        End::Stop(monitor) => {
            let value = &values.values[*monitor as usize];
            out.push_str("stop ")?;
            out.push_str(value.name.as_str())?;
        }
        End::Steps => out.push_str("steps")?,
        End::Dead => out.push_str("dead")?,
        End::Until(time) => write!(out, "until {time}")?,
        End::Memory => unreachable!(),
    }
    Ok(())
}

/// The number and the name of the fault.
pub(crate) fn fault_name(fault: EvalFault) -> &'static str
    ensures name { result.now ≡ fault_text (fault_view fault) }
{
    match fault {
        EvalFault::Overflow => "1 overflow",
        EvalFault::DivideByZero => "2 divide_by_zero",
        EvalFault::EmptyList => "3 empty_list",
        EvalFault::NoCase => "4 no_case",
        EvalFault::NotInColour => "5 not_in_colour",
        EvalFault::BadCoefficient => "6 bad_coefficient",
        EvalFault::BadDelay => "7 bad_delay",
        EvalFault::TooLarge => "8 too_large",
    }
}
