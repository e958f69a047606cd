//! The plan of a search: the stages in which the values of a transition's variables are found.
ghost use Rattle.std.specs.Prelude.{◌≡◌, ◌++◌, ◌<◌, ◌&&◌, not, length, map, IfOk, IfSome, IfNone, MatchOption, slice_get};
ghost use Rattle.std.specs.List.{flat_map, list_all, AllByRecursion};
ghost use Rattle.cpn_definitions.specs.Net.{variable_at, transition_at};
ghost use Rattle.cpn_definitions.specs.Bindable.{AreAll, IsSmall};
ghost use Rattle.cpn_definitions.specs.Sound.{IsSound, IsSoundTransition};
ghost use Rattle.cpn_core.specs.Views.{value_view};
ghost use Rattle.cpn_core.specs.Nets.{arc_view, arcs_view, net_view, transition_view};
ghost use Rattle.cpn_bindable.specs.Equations.{equation_pair, HasItsSources};
ghost use Rattle.cpn_bindable.specs.Known.{carried_variables};
ghost use Rattle.cpn_stages.specs.Stages.{is_among, those_without, equations_in, solves, first_solving, AreStages};
ghost use Rattle.cpn_search.specs.StageViews.{carried_stages, stage_view, stages_view, HasAllValues};
ghost use Rattle.cpn_search.specs.Plans.{AreLeft, HaveColours, IsFirstWithValues, IsNext, AreFurther};

use crate::shared::{SharedEquation, SharedTerm};
use cpn_bindable::{Equation, equations_of, push_carried};
use cpn_core::{Memory, Net, PlaceArc, Transition, Values};
use std::alloc::Global;

/// A stage of a search: what gives some of a transition's variables their values.
#[derive(Drop)]
pub enum Stage {
    /// A binding term of an input arc: the values on the arc's place that the pattern fits.
    Term {
        /// The number of the place.
        place: u32,
        /// The term.
        term: SharedTerm,
    },
    /// An equation of the guard: the value of the inscription, which has no variable but those of the stages before.
    Equation {
        /// The number of the variable.
        variable: u32,
        /// The equation, which has what the guard makes it equal to.
        equation: SharedEquation,
    },
    /// A variable of a small colour set: each value of the colour set.
    Small {
        /// The number of the variable.
        variable: u32,
        /// All values of its colour set, in order.
        values: Values,
    },
}

/// The plan of a search of a transition: its stages, which together give each of its variables a value.
///
/// First come the binding terms, in the order of the input arcs and their texts. As long as a variable has no value, the next
/// stage is the first equation of the guard with such a variable alone on one side, and on the other side only variables that
/// have one; or, where there is none, the first such variable, in declaration order, whose colour set has at most 256 values.
/// A plan shares the inscriptions of its net, so it may be kept beside it.
/// Source: own choice.
#[derive(Drop)]
pub struct Plan {
    /// The stages, in their order.
    pub stages: Vec<Stage>,
}

/// Adds the binding terms of an arc.
#[tactic(auto, using(crate::proofs::SharedParts::term_pushed, crate::proofs::SharedParts::taken_whole))]
fn push_terms(arc: &PlaceArc, stages: &mut Vec<Stage>) -> Result<(), Memory>
    ensures added { IfOk result (λ _. stages_view stages.new.items ≡ stages_view stages.old.items ++ carried_stages (arc_view arc.now)) }
{
    for number in 0..arc.inscription.terms.len() {
        let term = SharedTerm::of(&arc.inscription, number)?;
        stages.push(Stage::Term {
            place: arc.place,
            term,
        })?;
    }
    Ok(())
}

/// The binding terms of the input arcs, in their order.
fn term_stages(alloc: Global, inputs: &[PlaceArc]) -> Result<Vec<Stage>, Memory>
    ensures terms { IfOk result (λ stages. stages_view stages.items ≡ flat_map carried_stages (arcs_view inputs.now)) }
{
    let mut stages = Vec::new(alloc);
    for arc in inputs {
        push_terms(arc, &mut stages)?;
    }
    Ok(stages)
}

/// A variable of a small colour set, and all values of it.
#[derive(Drop)]
struct Small {
    variable: u32,
    values: Values,
}

/// A variable, and the stage that gives it a value.
#[derive(Drop)]
struct Next {
    variable: u32,
    stage: Stage,
}

/// Whether the number is one of them.
#[tactic(auto, using(crate::proofs::PlanSteps::flipped))]
fn is_among(numbers: &[u32], number: u32) -> bool
    ensures exact { result ≡ is_among numbers.now number }
{
    numbers.contains(&number)
}

/// Those of the variables that are none of the others, in their order.
fn without(alloc: Global, others: &[u32], variables: &[u32]) -> Result<Vec<u32>, Memory>
    ensures exact { IfOk result (λ left. left.items ≡ those_without others.now variables.now) }
{
    let mut left = Vec::new(alloc);
    for variable in variables {
        if !is_among(others, *variable) {
            left.push(*variable)?;
        }
    }
    Ok(left)
}

/// The variables of the transition that stand in none of its binding terms.
fn left_by_terms(alloc: Global, transition: &Transition) -> Result<Vec<u32>, Memory>
    ensures exact { IfOk result (λ left. left.items ≡ those_without (carried_variables (arcs_view transition.now.inputs.items)) transition.now.vars.items) }
{
    let mut carried = Vec::new(alloc);
    push_carried(&transition.inputs, &mut carried)?;
    without(alloc, &carried, &transition.vars)
}

/// Whether the variable is one of the transition's, and none that is left.
fn has_value(transition: &Transition, left: &[u32], number: u32) -> bool
    ensures exact { result ≡ (is_among transition.now.vars.items number && not (is_among left.now number)) }
{
    is_among(&transition.vars, number) && !is_among(left, number)
}

/// Whether each of the variables is.
fn have_values(transition: &Transition, left: &[u32], numbers: &[u32]) -> bool
    ensures exact { result ≡ list_all (λ x. is_among transition.now.vars.items x && not (is_among left.now x)) numbers.now }
{
    for number in numbers {
        if !has_value(transition, left, *number) {
            return false;
        }
    }
    true
}

/// Whether the equation gives one of the variables that are left a value.
fn solves(transition: &Transition, left: &[u32], equation: &Equation) -> bool
    requires sources { HasItsSources equation.now }
    ensures exact { result ≡ solves (transition_view transition.now) left.now (equation_pair equation.now) }
{
    is_among(left, equation.variable) && have_values(transition, left, &equation.sources)
}

/// The number of the first of the equations that does.
#[tactic(auto, using(crate::proofs::SolvingEquations::solving_at, crate::proofs::SolvingEquations::passed_over, crate::proofs::SolvingEquations::none_solving, crate::proofs::SolvingEquations::sources_at))]
fn first_solving(transition: &Transition, left: &[u32], equations: &[Equation]) -> Option<usize>
    requires sources { AllByRecursion HasItsSources equations.now }
    ensures within { IfSome result (λ number. number < length equations.now) }
    ensures first { MatchOption result (first_solving (transition_view transition.now) left.now (map equation_pair equations.now) ≡ None) (λ number. first_solving (transition_view transition.now) left.now (map equation_pair equations.now) ≡ slice_get (map equation_pair equations.now) number) }
{
    for number in 0..equations.len() {
        if solves(transition, left, &equations[number]) {
            return Some(number);
        }
    }
    None
}

/// All values of the variable's colour set, if it is small.
fn values_of(alloc: Global, net: &Net, variable: u32) -> Result<Option<Values>, Memory>
    requires declared { variable < length net.now.variables.items }
    ensures small { IfOk result (λ found. IfSome found (λ values. IsSmall (variable_at (net_view net.now) variable).colour)) }
    ensures all { IfOk result (λ found. IfSome found (λ values. AreAll (variable_at (net_view net.now) variable).colour (map value_view values.items))) }
    ensures large { IfOk result (λ found. IfNone found (IsSmall (variable_at (net_view net.now) variable).colour → ⊥)) }
{
    let declared = &net.variables[variable as usize];
    declared.colour.small(alloc)
}

/// The first of the variables whose colour set is small.
fn first_small(alloc: Global, net: &Net, left: &[u32]) -> Result<Option<Small>, Memory>
    requires declared { HaveColours (length net.now.variables.items) left.now }
    ensures first { IfOk result (λ found. IsFirstWithValues (net_view net.now) left.now found) }
{
    for variable in left {
        if let Some(values) = values_of(alloc, net, *variable)? {
            return Ok(Some(Small {
                variable: *variable,
                values,
            }));
        }
    }
    Ok(None)
}

/// The stage of the first variable of a small colour set, where no equation gives one of those that are left a value.
fn small_stage(
    alloc: Global,
    net: &Net,
    transition: &Transition,
    left: &[u32],
) -> Result<Next, Memory>
    requires sound { IsSoundTransition (net_view net.now) (transition_view transition.now) }
    requires left { AreLeft (transition_view transition.now) left.now }
    requires some { 0 < length left.now }
    requires unsolved { first_solving (transition_view transition.now) left.now (equations_in (transition_view transition.now)) ≡ None }
    ensures next { IfOk result (λ next. IsNext (net_view net.now) (transition_view transition.now) left.now next.variable (stage_view next.stage)) }
    ensures values { IfOk result (λ next. HasAllValues (net_view net.now) next.stage) }
{
    match first_small(alloc, net, left)? {
        Some(Small { variable, values }) => Ok(Next {
            variable,
            stage: Stage::Small { variable, values },
        }),
        None => unreachable!(),
    }
}

/// The next stage: the first equation that gives one of the variables that are left a value; or, where there is none, the first
/// of them whose colour set is small, which there is as the transition is sound.
fn next_stage(
    alloc: Global,
    net: &Net,
    transition: &Transition,
    equations: &[Equation],
    left: &[u32],
) -> Result<Next, Memory>
    requires sound { IsSoundTransition (net_view net.now) (transition_view transition.now) }
    requires equations { map equation_pair equations.now ≡ equations_in (transition_view transition.now) }
    requires sources { AllByRecursion HasItsSources equations.now }
    requires left { AreLeft (transition_view transition.now) left.now }
    requires some { 0 < length left.now }
    ensures next { IfOk result (λ next. IsNext (net_view net.now) (transition_view transition.now) left.now next.variable (stage_view next.stage)) }
    ensures values { IfOk result (λ next. HasAllValues (net_view net.now) next.stage) }
{
    match first_solving(transition, left, equations) {
        Some(number) => {
            let variable = equations[number].variable;
            let equation = SharedEquation::of(&transition.guard, number)?;
            Ok(Next {
                variable,
                stage: Stage::Equation { variable, equation },
            })
        }
        None => small_stage(alloc, net, transition, left),
    }
}

/// Adds the further stages for the variables that are left, until none is.
fn push_further(
    alloc: Global,
    net: &Net,
    transition: &Transition,
    equations: &[Equation],
    mut left: Vec<u32>,
    stages: &mut Vec<Stage>,
) -> Result<(), Memory>
    requires sound { IsSoundTransition (net_view net.now) (transition_view transition.now) }
    requires equations { map equation_pair equations.now ≡ equations_in (transition_view transition.now) }
    requires sources { AllByRecursion HasItsSources equations.now }
    requires left { AreLeft (transition_view transition.now) left.items }
    ensures further { IfOk result (λ _. AreFurther (net_view net.now) (transition_view transition.now) left.items (stages_view stages.old.items) (stages_view stages.new.items)) }
    ensures values { IfOk result (λ _. AllByRecursion (HasAllValues (net_view net.now)) stages.old.items → AllByRecursion (HasAllValues (net_view net.now)) stages.new.items) }
{
    while !left.is_empty() {
        let Next { variable, stage } = next_stage(alloc, net, transition, equations, &left)?;
        stages.push(stage)?;
        left = without(alloc, &[variable], &left)?;
    }
    Ok(())
}

impl Plan {
    /// The plan of the transition of a number, in a sound net: the stages that the definition gives
    /// it, where those of small colour sets hold all values.
    ///
    /// # Errors
    ///
    /// [`Memory`]: memory ran out.
    pub fn of(alloc: Global, net: &Net, t: u32) -> Result<Plan, Memory>
        requires sound { IsSound (net_view net.now) }
        requires in_range { t < length net.now.transitions.items }
        ensures stages { IfOk result (λ plan. AreStages (net_view net.now) (transition_at (net_view net.now) t) (stages_view plan.stages.items)) }
        ensures values { IfOk result (λ plan. AllByRecursion (HasAllValues (net_view net.now)) plan.stages.items) }
    {
        let transition = &net.transitions[t as usize];
        let mut stages = term_stages(alloc, &transition.inputs)?;
        let left = left_by_terms(alloc, transition)?;
        let equations = equations_of(alloc, &transition.guard)?;
        push_further(alloc, net, transition, &equations, left, &mut stages)?;
        Ok(Plan { stages })
    }
}
