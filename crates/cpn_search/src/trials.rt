//! What a search tries at its stages.
ghost use Rattle.std.specs.Prelude.{◌≡◌, ◌<◌, ◌≤◌, ◌+◌, ◌++◌, ◌∷◌, [], length, take, drop, IfOk, OnOk, OnErr};
ghost use Rattle.std.specs.List.{AllByRecursion};
ghost use Rattle.cpn_core.specs.Views.{value_view};
ghost use Rattle.cpn_core.specs.Inscriptions.{pattern_view};
ghost use Rattle.cpn_stages.specs.Trials.{tries_of, matching};
ghost use Rattle.cpn_search.specs.ListedTrials.{IsListed, listed_by, listed_in};
ghost use Rattle.cpn_search.specs.StageViews.{stage_view, stages_view};
ghost use Rattle.cpn_search.specs.TrialViews.{trial_view, trials_view};
ghost use Rattle.cpn_search.specs.TriedStages.{IsPlaced, trial_at, trials_at};
ghost use Rattle.cpn_tmset.specs.Listed.{values_of};

use crate::plan::{Plan, Stage};
use cpn_core::{Expr, Memory, Pat, Value};
use cpn_tmset::{Marking, TMSet};
use std::alloc::Global;

/// What is tried at a stage of a search.
#[derive(Drop)]
pub enum Trial<'m, 'p> {
    /// A pattern against the different values of tokens, which are listed when the first partial binding comes to them.
    Unlisted {
        /// The pattern of a binding term.
        pattern: &'p Pat,
        /// The tokens on the place of its arc.
        tokens: &'m TMSet,
    },
    /// A pattern against values, one after another.
    Matching {
        /// The pattern of a binding term.
        pattern: &'p Pat,
        /// The different values on the place of its arc, or one of them.
        values: Vec<&'m Value>,
    },
    /// A variable against the value of an inscription.
    Solving {
        /// The number of the variable.
        variable: u32,
        /// What the guard makes it equal to.
        inscription: &'p Expr,
    },
    /// A variable against values, one after another.
    Choosing {
        /// The number of the variable.
        variable: u32,
        /// All values of its colour set.
        values: &'p [Value],
    },
}

/// A pattern against the different values of tokens, which are listed.
fn matching<'m, 'p>(
    alloc: Global,
    pattern: &'p Pat,
    tokens: &'m TMSet,
) -> Result<Trial<'m, 'p>, Memory>
    ensures same { IfOk result (λ trial. trial_view trial ≡ matching (pattern_view pattern.now) (values_of tokens.now)) }
    ensures listed { IfOk result IsListed }
    ensures work { IfOk result (λ trial. listed_by trial ≡ length (values_of tokens.now)) }
{
    let values = tokens.values(alloc)?;
    Ok(Trial::Matching { pattern, values })
}

impl Trial<'_, '_> {
    /// Lists the values that it tries, if they are not listed.
    pub fn list(&mut self, alloc: Global) -> Result<(), Memory>
        ensures same { trial_view self.new ≡ trial_view self.old }
        ensures listed { OnOk result (IsListed self.new) }
        ensures work { listed_by self.new ≤ listed_by self.old + tries_of (trial_view self.old) }
        ensures kept { OnErr result (self.new ≡ self.old) }
    {
        let trial = match self {
            Trial::Unlisted { pattern, tokens } => matching(alloc, pattern, tokens)?,
            Trial::Matching { .. } => return Ok(()),
            Trial::Solving { .. } => return Ok(()),
            Trial::Choosing { .. } => return Ok(()),
        };
        *self = trial;
        Ok(())
    }

    /// How many tries it makes of a partial binding: the values that are tried, or one.
    pub fn tries(&self) -> usize
        requires listed { IsListed self.now }
        ensures tries { result ≡ tries_of (trial_view self.now) }
    {
        match self {
            Trial::Unlisted { .. } => unreachable!(),
            Trial::Matching { values, .. } => values.len(),
            Trial::Solving { .. } => 1,
            Trial::Choosing { values, .. } => values.len(),
        }
    }
}

/// What is tried at a stage on the tokens of a marking; nothing of it is listed yet.
fn trial_of<'m, 'p>(stage: &'p Stage, marking: &'m Marking) -> Trial<'m, 'p>
    requires placed { IsPlaced (length marking.now) (stage_view stage.now) }
    ensures tried { trial_view result ≡ trial_at marking.now stage.now }
    ensures none_listed { listed_by result ≡ 0 }
{
    match stage {
        Stage::Term { place, term } => {
            let tokens = marking.place(*place);
            let pattern = term.pattern();
            Trial::Unlisted { pattern, tokens }
        }
        Stage::Equation { variable, equation } => Trial::Solving {
            variable: *variable,
            inscription: equation.inscription(),
        },
        Stage::Small { variable, values } => Trial::Choosing {
            variable: *variable,
            values,
        },
    }
}

/// Adds what is tried at each of the stages, on the tokens of a marking; it lists nothing.
fn push_trials<'m, 'p>(
    stages: &'p [Stage],
    marking: &'m Marking,
    trials: &mut Vec<Trial<'m, 'p>>,
) -> Result<(), Memory>
    requires placed { AllByRecursion (IsPlaced (length marking.now)) (stages_view stages.now) }
    ensures added { OnOk result (trials_view trials.new.items ≡ trials_view trials.old.items ++ trials_at marking.now stages.now) }
    ensures none_listed { listed_in trials.new.items ≡ listed_in trials.old.items }
{
    for stage in stages {
        trials.push(trial_of(stage, marking))?;
    }
    Ok(())
}

/// What is tried at each stage of a plan, on the tokens of a marking; nothing is listed yet.
pub fn trials_of<'m, 'p>(
    alloc: Global,
    plan: &'p Plan,
    marking: &'m Marking,
) -> Result<Vec<Trial<'m, 'p>>, Memory>
    requires placed { AllByRecursion (IsPlaced (length marking.now)) (stages_view plan.now.stages.items) }
    ensures tried { IfOk result (λ trials. trials_view trials.items ≡ trials_at marking.now plan.now.stages.items) }
    ensures none_listed { IfOk result (λ trials. listed_in trials.items ≡ 0) }
{
    let mut trials = Vec::new(alloc);
    push_trials(&plan.stages, marking, &mut trials)?;
    Ok(trials)
}

/// What is tried where the pattern comes first, against one value, and then the stages of a plan but that of a number; nothing but
/// the one value is listed yet.
pub fn trials_with<'m, 'p>(
    alloc: Global,
    plan: &'p Plan,
    marking: &'m Marking,
    number: usize,
    pattern: &'p Pat,
    value: &'m Value,
) -> Result<Vec<Trial<'m, 'p>>, Memory>
    requires placed { AllByRecursion (IsPlaced (length marking.now)) (stages_view plan.now.stages.items) }
    requires within { number < length plan.now.stages.items }
    ensures tried { IfOk result (λ trials. trials_view trials.items ≡ matching (pattern_view pattern.now) (value_view value.now ∷ []) ∷ trials_at marking.now (take number plan.now.stages.items ++ drop (number + 1) plan.now.stages.items)) }
    ensures one_listed { IfOk result (λ trials. listed_in trials.items ≡ 1) }
{
    let values = vec![in alloc; value]?;
    let mut trials = vec![in alloc; Trial::Matching { pattern, values }]?;
    push_trials(&plan.stages[..number], marking, &mut trials)?;
    push_trials(&plan.stages[number + 1..], marking, &mut trials)?;
    Ok(trials)
}
