//! The plans of the searches of a net, which are made once and serve for each marking.
ghost use Rattle.std.specs.Prelude.{◌≡◌, ◌<◌, map, length, IfOk, OnOk, OnErr};
ghost use Rattle.std.specs.List.{AllByRecursion};
ghost use Rattle.cpn_definitions.specs.Enabled.{Enabled, EnabledOf};
ghost use Rattle.cpn_definitions.specs.Net.{PlainNet};
ghost use Rattle.cpn_definitions.specs.Sound.{IsSound, IsMarking};
ghost use Rattle.cpn_core.specs.Elements.{enabled_view, HasItsNeeds};
ghost use Rattle.cpn_core.specs.Nets.{net_view};
ghost use Rattle.cpn_search.specs.FoundViews.{found_view, AreOf};
ghost use Rattle.cpn_search.specs.PlannedNets.{IsPlan, ArePlansFrom, IsPlanned, IsPlannedBut};

use crate::plan::Plan;
use crate::searching::{push_elements, search_by};
use cpn_core::{EnabledElement, Found, Memory, Net};
use cpn_tmset::Marking;
use std::alloc::Global;

/// The plan of each transition of a net, by its number.
///
/// Source: own choice. The plans hold for every marking, and share the net's inscriptions, so they are made once and kept beside the net.
#[derive(Drop)]
pub struct Plans {
    plans: Vec<Plan>,
}

impl Plans {
    /// The plans of a sound net.
    ///
    /// # Errors
    ///
    /// `Memory` where memory is wanted.
    pub fn of(alloc: Global, net: &Net) -> Result<Plans, Memory>
        requires sound { IsSound (net_view net.now) }
        ensures planned { IfOk result (λ plans. IsPlanned (net_view net.now) plans) }
    {
        let plans = plans_of(alloc, net)?;
        Ok(Plans { plans })
    }

    /// The plan of the transition of a number.
    pub fn plan(&self, t: u32) -> &Plan
        requires in_range { t < length self.now.plans.items }
        ensures plan { (n : PlainNet) → IsPlanned n self.now → IsPlan n t result.now }
    {
        &self.plans[t as usize]
    }

    /// What is enabled of the transition of a number of their net, as `enabled_of` answers it.
    ///
    /// # Errors
    ///
    /// `Memory` where memory is wanted; it leaves nothing behind.
    pub fn enabled_of(
        &self,
        alloc: Global,
        net: &Net,
        marking: &Marking,
        t: u32,
    ) -> Result<Found, Memory>
        requires planned { IsPlanned (net_view net.now) self.now }
        requires sound { IsSound (net_view net.now) }
        requires marking { IsMarking (net_view net.now).places marking.now }
        requires in_range { t < length net.now.transitions.items }
        ensures enabled { IfOk result (λ found. EnabledOf (net_view net.now) marking.now t (map found_view found.items)) }
        ensures elements { IfOk result (λ found. AreOf (net_view net.now) t found.items) }
    {
        let plan = self.plan(t);
        Ok(search_by(alloc, net, marking, t, plan)?.found)
    }

    /// Makes the plan of a transition anew, after which the plans are those of the net; until then they may be wrong for that
    /// transition. A net may be changed so in a transition's guard.
    ///
    /// # Errors
    ///
    /// `Memory` where memory is wanted; the plans are then as they were.
    pub fn renew(&mut self, alloc: Global, net: &Net, t: u32) -> Result<(), Memory>
        requires sound { IsSound (net_view net.now) }
        requires in_range { t < length net.now.transitions.items }
        requires planned { IsPlannedBut t (net_view net.now) self.old }
        ensures planned { OnOk result (IsPlanned (net_view net.now) self.new) }
        ensures unchanged { OnErr result (self.new ≡ self.old) }
    {
        let plan = Plan::of(alloc, net, t)?;
        self.plans[t as usize] = plan;
        Ok(())
    }

    /// The enabled elements of their net, as `enabled` of the net lists them: each binding element that is covered at some time not
    /// before the clock, once, by transition and then by binding, with the least such time and with what it needs.
    ///
    /// # Errors
    ///
    /// `Memory` where memory is wanted; it leaves nothing behind.
    ///
    /// Source: Jensen and Kristensen, chapter 11; the order is our own choice.
    pub fn enabled(
        &self,
        alloc: Global,
        net: &Net,
        marking: &Marking,
        clock: u64,
    ) -> Result<Vec<EnabledElement>, Memory>
        requires planned { IsPlanned (net_view net.now) self.now }
        requires sound { IsSound (net_view net.now) }
        requires marking { IsMarking (net_view net.now).places marking.now }
        ensures enabled { IfOk result (λ listed. Enabled (net_view net.now) marking.now clock (map enabled_view listed.items)) }
        ensures needs { IfOk result (λ listed. AllByRecursion (HasItsNeeds (net_view net.now)) listed.items) }
    {
        let mut listed = Vec::new(alloc);
        for t in 0..self.plans.len() {
            let found = search_by(alloc, net, marking, t as u32, &self.plans[t])?.found;
            push_elements(&mut listed, found, clock)?;
        }
        Ok(listed)
    }
}

/// The plan of each transition, by its number.
fn plans_of(alloc: Global, net: &Net) -> Result<Vec<Plan>, Memory>
    requires sound { IsSound (net_view net.now) }
    ensures plans { IfOk result (λ plans. ArePlansFrom (net_view net.now) 0 plans.items) }
    ensures each { IfOk result (λ plans. length plans.items ≡ length net.now.transitions.items) }
{
    let mut plans = Vec::new(alloc);
    for t in 0..net.transitions.len() as u32 {
        plans.push(Plan::of(alloc, net, t)?)?;
    }
    Ok(plans)
}
