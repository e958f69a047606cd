//! The texts of monitors.

ghost use Rattle.std.specs.Prelude.{◌≡◌, ◌<◌, length, map, slice_index_or, string_bytes, IfOk};
ghost use Rattle.std.specs.List.{AllByRecursion};
ghost use Rattle.cpn_core.specs.Inscriptions.{expr_view};
ghost use Rattle.cpn_core.specs.Nets.{variable_view};
ghost use Rattle.cpn_declared.specs.Answers.{Answers};
ghost use Rattle.cpn_declared.specs.DeclsViews.{decls_view};
ghost use Rattle.cpn_definitions.specs.Bindable.{variables_of};
ghost use Rattle.cpn_definitions.specs.Net.{nothing};
ghost use Rattle.cpn_module_trees.specs.TreesViews.{tree_view};
ghost use Rattle.cpn_trees.specs.ParsedViews.{inscription_view};
ghost use Rattle.cpn_typing.specs.Consistency.{IsConsistent};
ghost use Rattle.cpn_monitor_texts.specs.Answers.{Checks, ChecksBy};
ghost use Rattle.cpn_monitor_texts.specs.Checked.{inscription_so};
ghost use Rattle.cpn_monitor_texts.specs.Texts.{inscription_of as inscription_from};
ghost use Rattle.cpn_monitor_texts.specs.Variables.{over, value_over as value_of_tree};

use crate::refusals::{MonitorError, not_accepted, not_parsed};
use crate::variables::first_outside;
use cpn_core::{Expr, Memory, Variable};
use cpn_module_trees::{Parsing, inscription_in};
use cpn_syntax::Inscription;
use cpn_types::{Decls, TypeError, check_value};
use std::alloc::Global;

/// A copy of the name of the variable of a number.
fn name_of(alloc: Global, variables: &[Variable], number: u32) -> Result<String, Memory>
    requires there { number < length variables.now }
    ensures exact { IfOk result (λ name. string_bytes name ≡ (slice_index_or (map variable_view variables.now) number nothing).name) }
{
    let name = String::from_str(alloc, variables[number as usize].name.as_str())?;
    Ok(name)
}

/// Whether an inscription has no other variables than these.
///
/// # Errors
///
/// - [`TypeError::Unknown`]: the first variable, as they stand in it, that is none of these, by its name.
/// - [`TypeError::Memory`]: memory ran out.
pub fn check_over(alloc: Global, decls: &Decls, vars: &[u32], value: &Expr) -> Result<(), TypeError>
    requires declared { AllByRecursion (λ x. x < length (decls_view decls.now).variables) (variables_of (expr_view value.now)) }
    ensures exact { Answers (λ _. expr_view value.now) result (over (decls_view decls.now) vars.now (expr_view value.now)) }
{
    match first_outside(value, vars) {
        None => Ok(()),
        Some(number) => Err(TypeError::Unknown(name_of(alloc, decls.variables(), number)?)),
    }
}

/// What a monitor measures by a tree, over the variables of a transition.
fn value_over(
    alloc: Global,
    decls: &Decls,
    vars: &[u32],
    tree: &Inscription,
) -> Result<Expr, TypeError>
    requires consistent { IsConsistent (decls_view decls.now) }
    ensures exact { Answers expr_view result (value_of_tree (decls_view decls.now) vars.now (inscription_view tree.now)) }
{
    let value = check_value(alloc, decls, tree)?;
    check_over(alloc, decls, vars, &value)?;
    Ok(value)
}

/// The inscription of the monitor of a number, by what its text is parsed as.
#[tactic(auto, unfolding(crate::specs::Texts::inscription_of))]
fn inscription_of(
    alloc: Global,
    decls: &Decls,
    number: usize,
    vars: &[u32],
    parsing: &Parsing<Inscription>,
) -> Result<Expr, MonitorError>
    requires consistent { IsConsistent (decls_view decls.now) }
    ensures reads { Checks expr_view result (inscription_from (decls_view decls.now) number vars.now (tree_view parsing.now)) }
{
    match parsing {
        Ok(tree) => match value_over(alloc, decls, vars, tree) {
            Ok(value) => Ok(value),
            Err(error) => Err(not_accepted(number, error)),
        },
        Err(error) => Err(not_parsed(number, *error)),
    }
}

/// The inscription that the text of the monitor of a number is, over these variables.
pub(crate) fn inscription_in_text(
    alloc: Global,
    decls: &Decls,
    number: usize,
    vars: &[u32],
    text: &str,
) -> Result<Expr, MonitorError>
    requires consistent { IsConsistent (decls_view decls.now) }
    ensures reads { ChecksBy expr_view result (inscription_so (decls_view decls.now) number vars.now text.now) }
{
    let parsing = inscription_in(alloc, text)?;
    inscription_of(alloc, decls, number, vars, &parsing)
}
