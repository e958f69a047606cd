//! Monitors that are told a run, from its start on.

ghost use Rattle.std.specs.Prelude.{◌≡◌, ◌<◌, ◌≤◌, length, map, IfOk, OnOk, OnErr};
ghost use Rattle.std.specs.List.{AllByRecursion};
ghost use Rattle.cpn_core.specs.Inscriptions.{funs_view};
ghost use Rattle.cpn_core.specs.Nets.{net_view};
ghost use Rattle.cpn_definitions.specs.Inscription.{Functions};
ghost use Rattle.cpn_definitions.specs.Marking.{Marking as PlainMarking};
ghost use Rattle.cpn_definitions.specs.Net.{PlainNet};
ghost use Rattle.cpn_definitions.specs.Times.{last_time};
ghost use Rattle.cpn_monitor.specs.Fitting.{IsMeasurable};
ghost use Rattle.cpn_monitor.specs.Kept.{MayClose, values_until};
ghost use Rattle.cpn_monitor.specs.Told.{IsKeptOf, MayBeTold, KeepsTold, StopsTold, AreClosed, MayBeNotedBy, AreNoted, IsFirstStop};
ghost use Rattle.cpn_monitor.specs.MonitorValues.{values_of};
ghost use Rattle.cpn_monitor.specs.Noted.{IsUpTo, MayLook, with_noted, IsLesser};
ghost use Rattle.cpn_monitor.specs.MeasuredRuns.{begun};
ghost use Rattle.cpn_monitor.specs.Views.{measuring_view, monitors_view, noted_view, values_view};

use crate::measuring::Measuring;
use crate::monitors::Monitors;
use crate::noting::Noted;
use crate::values::{MonitorValue, Values14};
use crate::watched::{Watched, places_beside};
use cpn_core::{Memory, Net, Occurrence};
use cpn_tmset::Marking;
use std::alloc::Global;

impl Monitors {
    /// What is measured of a run of a net where nothing has occurred yet, from a marking and a clock of 0 to 2^62 on.
    ///
    /// # Errors
    ///
    /// `Memory` where memory is wanted.
    pub fn start(
        &self,
        alloc: Global,
        net: &Net,
        marking: &Marking,
        clock: u64,
    ) -> Result<Measuring, Memory>
        requires measurable { AllByRecursion (λ monitor. IsMeasurable (net_view net.now) monitor.measure) (monitors_view self.now) }
        requires seen { AllByRecursion (λ monitor. MayLook marking.now monitor.measure) (monitors_view self.now) }
        requires in_time { clock ≤ last_time }
        ensures started { IfOk result (λ measuring. IsKeptOf (net_view net.now) self.now (begun marking.now clock) measuring) }
    {
        let values = self.values_at_start(alloc, marking, clock)?;
        let watched = Watched::of(alloc, net, &self.monitors)?;
        let beside = places_beside(alloc, net, &watched)?;
        Ok(Measuring {
            values,
            watched,
            beside,
            is_quiet: false,
        })
    }

    // The values where nothing has occurred yet.
    fn values_at_start(
        &self,
        alloc: Global,
        marking: &Marking,
        clock: u64,
    ) -> Result<Values14, Memory>
        requires seen { AllByRecursion (λ monitor. MayLook marking.now monitor.measure) (monitors_view self.now) }
        requires in_time { clock ≤ last_time }
        ensures values { IfOk result (λ values. (funs : Functions)
            → values_view values ≡ values_of funs (monitors_view self.now) (begun marking.now clock)) }
    {
        let mut values = Vec::with_capacity(alloc, self.monitors.len())?;
        for monitor in &self.monitors {
            let name = String::from_str(alloc, &monitor.name)?;
            let measured = monitor.measure.at_start(marking, clock);
            values.push(MonitorValue { name, measured })?;
        }
        Ok(Values14 { values })
    }

    /// Notes one occurrence more, after which the marking is `after`, and answers the number of the first monitor that stops the run
    /// after it, if one does.
    ///
    /// # Errors
    ///
    /// `Memory` where memory is wanted; what is measured is then as it was.
    pub fn note(
        &self,
        alloc: Global,
        measuring: &mut Measuring,
        occurrence: &Occurrence,
        after: &Marking,
    ) -> Result<Option<u64>, Memory>
        requires may { MayBeTold self.now measuring.old occurrence.now after.now }
        // It is then of the run with this occurrence as its last one.
        ensures noted { OnOk result ((n : PlainNet) → KeepsTold n self.now occurrence.now after.now measuring.old measuring.new) }
        ensures stop { IfOk result (λ stop. (n : PlainNet) → StopsTold n self.now occurrence.now after.now measuring.old stop) }
        ensures unchanged { OnErr result (measuring.new ≡ measuring.old) }
    {
        let looked_at = measuring.looked_at(alloc, occurrence.element.transition)?;
        let noted = self.all_noted(alloc, &looked_at, &measuring.values, occurrence, after)?;
        measuring.values.replace(&noted);
        let stop = self.first_stop(&looked_at, &measuring.values, occurrence);
        measuring.is_quiet = stop.is_none();
        Ok(stop)
    }

    /// The values of a run that has come to a clock, which is not before the last time told and at most 2^62. It takes no memory.
    pub fn close(&self, measuring: Measuring, clock: u64) -> Values14
        requires may { MayClose (measuring_view measuring) clock }
        ensures until { values_view result ≡ values_until clock (measuring_view measuring).values }
        // So they are those of a run of which that is kept, at the clock.
        ensures closed { AreClosed self.now measuring clock result }
    {
        let mut values = measuring.values;
        values.count_until(clock);
        values
    }

    // What the monitors of some numbers have measured with one occurrence more.
    fn all_noted(
        &self,
        alloc: Global,
        numbers: &[usize],
        values: &Values14,
        occurrence: &Occurrence,
        after: &Marking,
    ) -> Result<Vec<Noted>, Memory>
        requires may { MayBeNotedBy self.now values.now occurrence.now after.now numbers.now }
        ensures noted { IfOk result (λ noted. AreNoted self.now values.now occurrence.now after.now (map noted_view noted.items)) }
        ensures numbers { IfOk result (λ noted. map (λ one. one.number) noted.items ≡ numbers.now) }
    {
        let mut noted = Vec::with_capacity(alloc, numbers.len())?;
        for number in numbers {
            let old = &values.values[*number].measured;
            let measure = &self.monitors[*number].measure;
            let measured = measure.noted(alloc, &self.funs, old, occurrence, after)?;
            noted.push(Noted {
                number: *number,
                measured,
            })?;
        }
        Ok(noted)
    }

    // The first of the monitors of some numbers that stops the run after an occurrence that has been noted.
    fn first_stop(
        &self,
        numbers: &[usize],
        values: &Values14,
        occurrence: &Occurrence,
    ) -> Option<u64>
        requires known { AllByRecursion (λ number. number < length self.now.monitors.items) numbers.now }
        requires many { length values.now.values.items ≡ length self.now.monitors.items }
        ensures first { (after : PlainMarking) → IsFirstStop self.now values.now occurrence.now after numbers.now result }
    {
        let mut first = None;
        for number in numbers {
            let measured = &values.values[*number].measured;
            if self.monitors[*number].measure.stops(measured, occurrence) {
                first = Some(lesser(first, *number as u64));
            }
        }
        first
    }
}

/// The lesser of a number and of one that may be there.
fn lesser(first: Option<u64>, number: u64) -> u64
    ensures lesser { IsLesser first number result }
{
    match first {
        Some(first) => first.min(number),
        None => number,
    }
}

impl Values14 {
    // The last sizes count until a clock.
    fn count_until(&mut self, clock: u64)
        requires up_to { AllByRecursion (λ value. IsUpTo clock value.measured) (values_view self.old) }
        requires in_time { clock ≤ last_time }
        ensures until { values_view self.new ≡ values_until clock (values_view self.old) }
    {
        for number in 0..self.values.len() {
            self.values[number].measured = self.values[number].measured.until(clock);
        }
    }

    // The monitors of these numbers have measured this.
    fn replace(&mut self, noted: &[Noted])
        requires known { AllByRecursion (λ one. one.number < length self.old.values.items) noted.now }
        ensures replaced { values_view self.new ≡ with_noted (map noted_view noted.now) (values_view self.old) }
    {
        for one in noted {
            self.values[one.number].measured = one.measured;
        }
    }
}
