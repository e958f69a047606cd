//! How what was measured goes on: with one occurrence more, and at a later clock.

ghost use Rattle.std.specs.Prelude.{◌≡◌, ◌+◌, ◌<◌, ◌≤◌, ◌^◌, ◌==◌, length, Some, true, IfOk};
ghost use Rattle.cpn_core.specs.Elements.{element_view};
ghost use Rattle.cpn_core.specs.Inscriptions.{expr_view, funs_view};
ghost use Rattle.cpn_core.specs.Views.{value_view};
ghost use Rattle.cpn_definitions.specs.Meaning.{meaning};
ghost use Rattle.cpn_definitions.specs.Outcome.{gives};
ghost use Rattle.cpn_definitions.specs.Times.{last_time};
ghost use Rattle.cpn_monitor.specs.Fitting.{MeansInteger, most_told};
ghost use Rattle.cpn_monitor.specs.MonitorValues.{integer_given};
ghost use Rattle.cpn_monitor.specs.Noted.{one_if, with_more, measured_until, with_size, least_with, greatest_with, with_integer, with_fault, with_value, noted, IsCounted, IsCountedToStop, IsSizedUpTo, IsUpTo, IsValued, MayBeNoted};
ghost use Rattle.cpn_monitor.specs.Views.{measure_view, measured_view, marked_view};

use crate::monitors::Measure;
use crate::values::{Integers, Measured, Sizes};
use cpn_core::{Expr, Funs, Memory, Occurrence, Value};
use cpn_eval::{Refused, eval};
use cpn_tmset::{Marking, TMSet};
use std::alloc::Global;

/// What the monitor of a number has measured with one occurrence more.
#[derive(Clone, Copy, Debug, PartialEq, Eq)]
pub(crate) struct Noted {
    pub(crate) number: usize,
    pub(crate) measured: Measured,
}

impl Sizes {
    /// The last size, which stands until a later time.
    pub(crate) fn until(self, time: u64) -> Sizes
        requires later { self.until ≤ time }
        requires in_time { time ≤ last_time }
        ensures until { measured_view (Measured.Size result) ≡ measured_until time (measured_view (Measured.Size self)) }
    {
        let passed = u128::from(self.last) * u128::from(time - self.until);
        Sizes {
            least: self.least,
            greatest: self.greatest,
            last: self.last,
            sum: self.sum + passed,
            until: time,
        }
    }

    /// One size more, from now on.
    pub(crate) fn with(self, size: u64) -> Sizes
        requires few { size < 2 ^ 48 }
        ensures with { measured_view (Measured.Size result) ≡ with_size size (measured_view (Measured.Size self)) }
    {
        Sizes {
            least: self.least.min(size),
            greatest: self.greatest.max(size),
            last: size,
            sum: self.sum,
            until: self.until,
        }
    }
}

impl Integers {
    /// One value more, or one fault more.
    pub(crate) fn with(self, value: Option<i64>) -> Integers
        requires few { self.count + self.faulted < most_told }
        ensures with { measured_view (Measured.Value result) ≡ with_value value (measured_view (Measured.Value self)) }
    {
        match value {
            Some(value) => self.with_integer(value),
            None => self.with_fault(),
        }
    }

    // One value more.
    fn with_integer(self, value: i64) -> Integers
        requires few { self.count < most_told }
        ensures with { measured_view (Measured.Value result) ≡ with_integer (Some value) (measured_view (Measured.Value self)) }
    {
        let least = least_with(self.least, value);
        let greatest = greatest_with(self.greatest, value);
        Integers {
            count: self.count + 1,
            sum: self.sum + i128::from(value),
            least: Some(least),
            greatest: Some(greatest),
            faulted: self.faulted,
        }
    }

    // One fault more.
    fn with_fault(self) -> Integers
        requires few { self.faulted < most_told }
        ensures with { measured_view (Measured.Value result) ≡ with_fault true (measured_view (Measured.Value self)) }
    {
        Integers {
            count: self.count,
            sum: self.sum,
            least: self.least,
            greatest: self.greatest,
            faulted: self.faulted + 1,
        }
    }
}

/// The least integer with one more.
fn least_with(least: Option<i64>, value: i64) -> i64
    ensures least { Some result ≡ least_with value least }
{
    match least {
        Some(least) => least.min(value),
        None => value,
    }
}

/// The greatest integer with one more.
fn greatest_with(greatest: Option<i64>, value: i64) -> i64
    ensures greatest { Some result ≡ greatest_with value greatest }
{
    match greatest {
        Some(greatest) => greatest.max(value),
        None => value,
    }
}

impl Measured {
    /// What was measured, at a clock that is not before the time up to which it counts.
    pub(crate) fn until(self, clock: u64) -> Measured
        requires up_to { IsUpTo clock (measured_view self) }
        requires in_time { clock ≤ last_time }
        ensures until { measured_view result ≡ measured_until clock (measured_view self) }
    {
        match self {
            Measured::Size(sizes) => Measured::Size(sizes.until(clock)),
            Measured::Count { .. }
            | Measured::Value(_)
            | Measured::StopCount { .. }
            | Measured::StopSize { .. } => self,
        }
    }
}

impl Measure {
    /// What was measured, with one occurrence more, after which the marking is `after`.
    ///
    /// # Errors
    ///
    /// `Memory` where memory is wanted.
    pub(crate) fn noted(
        &self,
        alloc: Global,
        funs: &Funs,
        old: &Measured,
        occurrence: &Occurrence,
        after: &Marking,
    ) -> Result<Measured, Memory>
        requires may { MayBeNoted (funs_view funs.now) (marked_view occurrence.now after.now) (measure_view self.now) (measured_view old.now) }
        ensures noted { IfOk result (λ new. measured_view new ≡ noted (funs_view funs.now) (marked_view occurrence.now after.now) (measure_view self.now) (measured_view old.now)) }
    {
        match self {
            Measure::Count { transition } => Ok(counted(old, *transition, occurrence)),
            Measure::Size { place } => Ok(sized(old, after.place(*place), occurrence.time)),
            Measure::Value {
                transition,
                inscription,
            } => {
                if !occurs(occurrence, *transition) {
                    return Ok(*old);
                }
                let value = integer_at(alloc, funs, inscription, occurrence)?;
                Ok(valued(old, value))
            }
            Measure::StopCount { transition, .. } => {
                Ok(counted_to_stop(old, *transition, occurrence))
            }
            Measure::StopSize { place, .. } => Ok(Measured::StopSize {
                last: after.place(*place).total(),
            }),
        }
    }
}

/// Whether a transition occurs.
fn occurs(occurrence: &Occurrence, transition: u32) -> bool
    ensures { result ≡ (transition == (element_view occurrence.now.element.value).transition) }
{
    transition == occurrence.element.transition
}

/// The occurrences of a transition, with one more.
fn counted(old: &Measured, transition: u32, occurrence: &Occurrence) -> Measured
    requires kind { IsCounted (measured_view old.now) }
    ensures with { measured_view result ≡ with_more (one_if (transition == (element_view occurrence.now.element.value).transition)) (measured_view old.now) }
{
    let Measured::Count { number } = *old else {
        unreachable!()
    };
    let more = u64::from(occurs(occurrence, transition));
    Measured::Count {
        number: number + more,
    }
}

/// The occurrences of a transition up to a stop, with one more.
fn counted_to_stop(old: &Measured, transition: u32, occurrence: &Occurrence) -> Measured
    requires kind { IsCountedToStop (measured_view old.now) }
    ensures with { measured_view result ≡ with_more (one_if (transition == (element_view occurrence.now.element.value).transition)) (measured_view old.now) }
{
    let Measured::StopCount { number } = *old else {
        unreachable!()
    };
    let more = u64::from(occurs(occurrence, transition));
    Measured::StopCount {
        number: number + more,
    }
}

/// The sizes of a place, with that of its tokens from a time on.
fn sized(old: &Measured, tokens: &TMSet, time: u64) -> Measured
    requires kind { IsSizedUpTo time (measured_view old.now) }
    requires in_time { time ≤ last_time }
    requires few { length tokens.now < 2 ^ 48 }
    ensures with { measured_view result ≡ with_size (length tokens.now) (measured_until time (measured_view old.now)) }
{
    let Measured::Size(sizes) = *old else {
        unreachable!()
    };
    Measured::Size(sizes.until(time).with(tokens.total()))
}

/// The values of an inscription, with one more, or with one fault more.
fn valued(old: &Measured, value: Option<i64>) -> Measured
    requires kind { IsValued (measured_view old.now) }
    ensures with { measured_view result ≡ with_value value (measured_view old.now) }
{
    let Measured::Value(integers) = *old else {
        unreachable!()
    };
    Measured::Value(integers.with(value))
}

/// The integer that an inscription means at an occurrence; `None` where it has a fault.
///
/// # Errors
///
/// `Memory` where memory is wanted.
fn integer_at(
    alloc: Global,
    funs: &Funs,
    inscription: &Expr,
    occurrence: &Occurrence,
) -> Result<Option<i64>, Memory>
    requires in_time { occurrence.now.time ≤ last_time }
    requires integer { MeansInteger (meaning (funs_view funs.now) (expr_view inscription.now) (element_view occurrence.now.element.value).binding occurrence.now.time) }
    ensures integer { IfOk result (λ value. value ≡ integer_given (meaning (funs_view funs.now) (expr_view inscription.now) (element_view occurrence.now.element.value).binding occurrence.now.time)) }
{
    let element = &occurrence.element;
    match eval(alloc, funs, inscription, &element.binding, occurrence.time) {
        Ok(value) => Ok(Some(integer_of(&value))),
        Err(Refused::Fault(_)) => Ok(None),
        Err(Refused::Memory) => Err(Memory),
    }
}

/// The integer that a value is.
fn integer_of(value: &Value) -> i64
    requires integer { MeansInteger (gives (value_view value.now)) }
    ensures integer { integer_given (gives (value_view value.now)) ≡ Some result }
{
    let Value::Int(integer) = value else {
        unreachable!()
    };
    *integer
}
