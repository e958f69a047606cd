//! The values of the written initial markings.

ghost use Rattle.std.specs.Prelude.{◌≡◌, ◌<◌, Some, length};
ghost use Rattle.cpn_definitions.specs.Outcome.{faults};
ghost use Rattle.cpn_core.specs.Faults.{fault_view};
ghost use Rattle.cpn_core.specs.Inscriptions.{funs_view};
ghost use Rattle.cpn_core.specs.Nets.{place_view, net_view};
ghost use Rattle.cpn_eval.specs.Terms.{items_view};
ghost use Rattle.cpn_readings.specs.Relations.{RefusesBy};
ghost use Rattle.cpn_accepted.specs.Nets.{IsMeant};
ghost use Rattle.cpn_accepted.specs.Views.{initial_view};
ghost use Rattle.cpn_flat.specs.InitialMarking.{terms_so, value_so, each_value_so, values_so, evaluated, AreMeant, AreAllMeant};
ghost use Rattle.cpn_flat.specs.WrittenViews.{written_view, lists_view};
ghost use Rattle.cpn_flat.specs.Values.{values_view, value_lists_view};
ghost use Rattle.cpn_flat.specs.Answers.{refusal_of, GivesBy};

use crate::refusals::FlatError;
use cpn_core::{ArcExpr, Binding, EvalFault, Funs, Net, Place};
use cpn_eval::{Refused, Terms, eval_mset};
use std::alloc::Global;

/// The refusal of an initial marking at the place, for its fault.
fn faulted(alloc: Global, place: &Place, fault: EvalFault) -> FlatError
    ensures refused { RefusesBy (terms_so (place_view place.now) (faults (fault_view fault))) (refusal_of result) }
{
    match String::from_str(alloc, place.name.as_str()) {
        Ok(name) => FlatError::Init(name, fault),
        Err(_) => FlatError::Memory,
    }
}

/// The value of an initial marking at the place.
fn value_of(
    alloc: Global,
    funs: &Funs,
    place: &Place,
    initial: &ArcExpr,
) -> Result<Terms, FlatError>
    requires meant { IsMeant (funs_view funs.now) (Some (initial_view initial.now)) }
    ensures value { GivesBy items_view result (value_so (funs_view funs.now) (place_view place.now) (initial_view initial.now)) }
{
    let binding = Binding::new(alloc);
    match eval_mset(alloc, funs, initial, &binding, 0) {
        Ok(terms) => Ok(terms),
        Err(refused) => match refused {
            Refused::Memory => Err(FlatError::Memory),
            Refused::Fault(fault) => Err(faulted(alloc, place, fault)),
        },
    }
}

/// The values of the written initial markings at the place.
fn values_of(
    alloc: Global,
    funs: &Funs,
    place: &Place,
    written: &[&ArcExpr],
) -> Result<Vec<Terms>, FlatError>
    requires meant { AreMeant (funs_view funs.now) (written_view written.now) }
    ensures values { GivesBy (λ values. values_view values.items) result (each_value_so (funs_view funs.now) (place_view place.now) (written_view written.now)) }
{
    let mut values = Vec::with_capacity(alloc, written.len())?;
    for initial in written {
        values.push(value_of(alloc, funs, place, initial)?)?;
    }
    Ok(values)
}

/// The values of the written initial markings at the place of the number.
fn values_at(
    alloc: Global,
    net: &Net,
    number: usize,
    written: &[&ArcExpr],
) -> Result<Vec<Terms>, FlatError>
    requires in_range { number < length net.now.places.items }
    requires meant { AreMeant (net_view net.now).functions (written_view written.now) }
    ensures values { GivesBy (λ values. values_view values.items) result (values_so (net_view net.now) number (written_view written.now)) }
{
    let place = &net.places[number];
    values_of(alloc, &net.funs, place, written)
}

/// The values of the initial markings that are written of each compound place.
pub(crate) fn all_values(
    alloc: Global,
    net: &Net,
    written: &[Vec<&ArcExpr>],
) -> Result<Vec<Vec<Terms>>, FlatError>
    requires as_many { length written.now ≡ length net.now.places.items }
    requires meant { AreAllMeant (net_view net.now).functions (lists_view written.now) }
    ensures values { GivesBy (λ values. value_lists_view values.items) result (evaluated (net_view net.now) (lists_view written.now)) }
{
    let mut values = Vec::with_capacity(alloc, written.len())?;
    for (place, initials) in written.iter().enumerate() {
        values.push(values_at(alloc, net, place, initials.as_slice())?)?;
    }
    Ok(values)
}
