//! The work of the transitions of a net.

ghost use Rattle.std.specs.Prelude.{◌≡◌, ℕ, length, map, slice_get, IfOk, IfSome};
ghost use Rattle.cpn_core.specs.Nets.{arc_view, net_view, transition_view};
ghost use Rattle.cpn_definitions.specs.Net.{is_timed};
ghost use Rattle.cpn_jobs.specs.Views.{work_arc_view, work_view};
ghost use Rattle.cpn_jobs.specs.Work.{work_arc, work_by, work_of};

use crate::work::{Work, WorkArc};
use cpn_core::{Memory, Net, PlaceArc, Transition};
use std::alloc::Global;
use std::sync::Arc;

/// The work of each transition of the net, in their order. Inscriptions and functions are the net's own, and shared with it.
///
/// Source: own choice.
///
/// # Errors
///
/// Memory is wanted.
pub fn works_of(alloc: Global, net: &Net) -> Result<Vec<Arc<Work>>, Memory>
    ensures count { IfOk result (λ works. length works.items ≡ length net.now.transitions.items) }
    ensures each { IfOk result (λ works. (t : ℕ) → IfSome (slice_get works.items t) (λ work. work_view work.value ≡ work_of (net_view net.now) t)) }
{
    let mut works = Vec::with_capacity(alloc, net.transitions.len())?;
    for transition in &net.transitions {
        works.push(work_of(alloc, net, transition)?)?;
    }
    Ok(works)
}

fn work_of(alloc: Global, net: &Net, transition: &Transition) -> Result<Arc<Work>, Memory>
    ensures work { IfOk result (λ work. work_view work.value ≡ work_by (net_view net.now) (transition_view transition.now)) }
{
    let delay = transition.shared_delay()?;
    let outputs = work_arcs(alloc, net, &transition.outputs)?;
    let funs = net.funs.clone()?;
    let work = Work {
        funs,
        delay,
        outputs,
    };
    Ok(Arc::new(alloc, work)?)
}

fn work_arcs(alloc: Global, net: &Net, arcs: &[PlaceArc]) -> Result<Vec<WorkArc>, Memory>
    ensures arcs { IfOk result (λ found. map work_arc_view found.items ≡ map (work_arc (net_view net.now)) (map arc_view arcs.now)) }
{
    let mut found = Vec::with_capacity(alloc, arcs.len())?;
    for arc in arcs {
        found.push(work_arc(net, arc)?)?;
    }
    Ok(found)
}

fn work_arc(net: &Net, arc: &PlaceArc) -> Result<WorkArc, Memory>
    ensures arc { IfOk result (λ found. work_arc_view found ≡ work_arc (net_view net.now) (arc_view arc.now)) }
{
    let inscription = arc.inscription.clone()?;
    Ok(WorkArc {
        place: arc.place,
        timed: is_timed(net, arc.place),
        inscription,
    })
}

// Whether the place keeps time stamps; a place past the last one keeps none.
fn is_timed(net: &Net, place: u32) -> bool
    ensures exact { result ≡ is_timed (net_view net.now) place }
{
    match net.places.get(place as usize) {
        None => false,
        Some(place) => place.colour.timed,
    }
}
