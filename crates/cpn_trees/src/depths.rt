//! Whether trees are deeper than so many levels. No more levels than these are looked at, so a question takes
//! little of the machine's stack, however deep the tree is.

ghost use Rattle.std.specs.Prelude.{◌≡◌, ◌<◌, ◌≤◌, true, false, map};
ghost use Rattle.cpn_trees.specs.AstViews.{ast_view, form_view as plain_form, arm_view, arms_from, local_view, locals_from};
ghost use Rattle.cpn_trees.specs.DeclTrees.{decl_view};
ghost use Rattle.cpn_trees.specs.Depth.{depth, deepest_in, deepest, deepest_arm, deepest_local, pat_depth, deepest_in_pat, deepest_pat, decl_depth};
ghost use Rattle.cpn_trees.specs.PatForms.{pat_form_view};
ghost use Rattle.cpn_trees.specs.PatViews.{pat_view};
ghost use Rattle.cpn_trees.specs.Trees.{asts_from, pats_from};

use crate::declaration_trees::{Decl, DeclForm};
use crate::patterns::{Pat, PatForm};
use crate::trees::{Arm, Ast, Form, LocalValue};

/// Whether a declaration is deeper than so many levels.
pub fn is_declaration_deeper(declaration: &Decl, most: u8) -> bool
    ensures deeper { result ≡ true → most < decl_depth (decl_view declaration.now) }
    ensures within { result ≡ false → decl_depth (decl_view declaration.now) ≤ most }
{
    if most == 0 {
        return true;
    }
    match &declaration.form {
        DeclForm::ColourSet { .. } => false,
        DeclForm::Variables { .. } => false,
        DeclForm::Value { value, .. } => is_deeper(value, most - 1),
        DeclForm::Function { body, .. } => is_deeper(body, most - 1),
    }
}

/// Whether an inscription is deeper than so many levels.
#[cycle(depth)]
pub fn is_deeper(tree: &Ast, most: u8) -> bool
    ensures deeper { result ≡ true → most < depth (ast_view tree.now) }
    ensures within { result ≡ false → depth (ast_view tree.now) ≤ most }
{
    if most == 0 {
        return true;
    }
    is_form_deeper(&tree.form, most - 1)
}

/// Whether one of several inscriptions is deeper than so many levels.
#[cycle(depth)]
pub fn is_any_deeper(trees: &[Ast], most: u8) -> bool
    ensures deeper { result ≡ true → most < deepest (asts_from (map ast_view trees.now)) }
    ensures within { result ≡ false → deepest (asts_from (map ast_view trees.now)) ≤ most }
{
    for tree in trees {
        if is_deeper(tree, most) {
            return true;
        }
    }
    false
}

/// Whether a part of a form is deeper than so many levels.
#[cycle(depth)]
fn is_form_deeper(form: &Form, most: u8) -> bool
    ensures deeper { result ≡ true → most < deepest_in (plain_form form.now) }
    ensures within { result ≡ false → deepest_in (plain_form form.now) ≤ most }
{
    match form {
        Form::Call { arguments, .. } => is_any_deeper(arguments, most),
        Form::Tuple(parts) => is_any_deeper(parts, most),
        Form::List(parts) => is_any_deeper(parts, most),
        Form::Let { values, body } => is_value_deeper(values, most) || is_deeper(body, most),
        Form::Prefix { operand, .. } => is_deeper(operand, most),
        Form::Infix { left, right, .. } => is_deeper(left, most) || is_deeper(right, most),
        Form::Stamped { term, .. } => is_deeper(term, most),
        Form::Sum(parts) => is_any_deeper(parts, most),
        Form::If {
            condition,
            consequence,
            alternative,
        } => {
            is_deeper(condition, most)
                || is_deeper(consequence, most)
                || is_deeper(alternative, most)
        }
        Form::Case { subject, arms } => is_deeper(subject, most) || is_arm_deeper(arms, most),
        Form::Fold {
            list,
            start,
            body,
            ..
        } => is_deeper(list, most) || is_deeper(start, most) || is_deeper(body, most),
        _ => false,
    }
}

/// Whether a pattern or a result of the arms is deeper than so many levels.
#[cycle(depth)]
fn is_arm_deeper(arms: &[Arm], most: u8) -> bool
    ensures deeper { result ≡ true → most < deepest_arm (arms_from (map arm_view arms.now)) }
    ensures within { result ≡ false → deepest_arm (arms_from (map arm_view arms.now)) ≤ most }
{
    for arm in arms {
        if is_pattern_deeper(&arm.pattern, most) || is_deeper(&arm.result, most) {
            return true;
        }
    }
    false
}

/// Whether one of the values is deeper than so many levels.
#[cycle(depth)]
fn is_value_deeper(values: &[LocalValue], most: u8) -> bool
    ensures deeper { result ≡ true → most < deepest_local (locals_from (map local_view values.now)) }
    ensures within { result ≡ false → deepest_local (locals_from (map local_view values.now)) ≤ most }
{
    for local in values {
        if is_deeper(&local.value, most) {
            return true;
        }
    }
    false
}

/// Whether a pattern is deeper than so many levels.
#[cycle(pattern_depth)]
pub fn is_pattern_deeper(pattern: &Pat, most: u8) -> bool
    ensures deeper { result ≡ true → most < pat_depth (pat_view pattern.now) }
    ensures within { result ≡ false → pat_depth (pat_view pattern.now) ≤ most }
{
    if most == 0 {
        return true;
    }
    is_pattern_form_deeper(&pattern.form, most - 1)
}

/// Whether a part of a pattern's form is deeper than so many levels.
#[cycle(pattern_depth)]
fn is_pattern_form_deeper(form: &PatForm, most: u8) -> bool
    ensures deeper { result ≡ true → most < deepest_in_pat (pat_form_view form.now) }
    ensures within { result ≡ false → deepest_in_pat (pat_form_view form.now) ≤ most }
{
    match form {
        PatForm::Call { arguments, .. } => is_any_pattern_deeper(arguments, most),
        PatForm::Tuple(parts) => is_any_pattern_deeper(parts, most),
        PatForm::List(parts) => is_any_pattern_deeper(parts, most),
        PatForm::Cons { head, tail } => {
            is_pattern_deeper(head, most) || is_pattern_deeper(tail, most)
        }
        _ => false,
    }
}

/// Whether one of several patterns is deeper than so many levels.
#[cycle(pattern_depth)]
fn is_any_pattern_deeper(patterns: &[Pat], most: u8) -> bool
    ensures deeper { result ≡ true → most < deepest_pat (pats_from (map pat_view patterns.now)) }
    ensures within { result ≡ false → deepest_pat (pats_from (map pat_view patterns.now)) ≤ most }
{
    for pattern in patterns {
        if is_pattern_deeper(pattern, most) {
            return true;
        }
    }
    false
}
