//! Inscriptions of tokens, form by form.
//!
//! The calls go down the tree, which is at most 64 deep.

ghost use Rattle.std.specs.Prelude.{◌≡◌, map, IfOk};
ghost use Rattle.cpn_definitions.specs.Inscription.{inscriptions_from, arc_arms_from};
ghost use Rattle.cpn_core.specs.Inscriptions.{multiset_view, arc_arm_view};
ghost use Rattle.cpn_trees.specs.Trees.{asts_from, infixed, if_else, case_of, let_in};
ghost use Rattle.cpn_trees.specs.Trees as trees;
ghost use Rattle.cpn_trees.specs.AstViews.{ast_view, arm_view, local_view, arms_from, locals_from};
ghost use Rattle.cpn_trees.specs.declared.operators.Infix.TheVariants as signs;
ghost use Rattle.cpn_trees.specs.PatViews.{pat_view};
ghost use Rattle.cpn_typing.specs.Multisets.{marked, marked_form, marked_each, marked_arms};
ghost use Rattle.cpn_declared.specs.Answers.{Answers};
ghost use Rattle.cpn_forms.specs.ScopeViews.{scope_view};
ghost use Rattle.cpn_declared.specs.TypeViews.{ty_view};
ghost use Rattle.cpn_types.specs.Sites.{site_view, arm_at};

use crate::site_parts::{bound_by, is_later, is_times};
use crate::sites::{Site, at_time, delayed};
use cpn_core::{MArm, MExpr, MExprs};
use cpn_declared::{Ty, TypeError};
use cpn_forms::{Local, TypedPattern, check_pattern};
use cpn_trees::{Arm, Ast, Form, LocalValue};

impl Site<'_> {
    /// The inscription of tokens of a tree among its locals. The locals are as they were.
    #[cycle(multiset)]
    pub(crate) fn tokens<'t>(
        &self,
        tree: &'t Ast,
        scope: &mut Vec<Local<'t>>,
    ) -> Result<MExpr, TypeError>
        ensures exact { Answers multiset_view result (marked (site_view self.now) (ast_view tree.now) (scope_view scope.old.items)) }
        ensures locals { IfOk result (λ _. scope.new.items ≡ scope.old.items) }
    {
        match &tree.form {
            Form::Empty => Ok(MExpr::Empty),
            Form::Infix {
                operator,
                sign,
                left,
                right,
            } => {
                if is_times(*operator) {
                    return self.many(left, right, scope);
                }
                if is_later(*operator) {
                    return self.later(left, *sign, right, scope);
                }
                self.one(tree, scope)
            }
            Form::Stamped { term, sign, stamp } => self.stamped(term, *sign, *stamp, scope),
            Form::Sum(parts) => {
                let parts = self.parts(parts, scope)?;
                Ok(MExpr::Sum(parts))
            }
            Form::If {
                condition,
                consequence,
                alternative,
            } => self.branches(condition, consequence, alternative, scope),
            Form::Case { subject, arms } => self.case(arms, subject, scope),
            Form::Let { values, body } => self.with_values(body, values, scope),
            Form::Number(_) => self.one(tree, scope),
            Form::Text(_) => self.one(tree, scope),
            Form::Truth(_) => self.one(tree, scope),
            Form::Time => self.one(tree, scope),
            Form::Name(_) => self.one(tree, scope),
            Form::Call {
                function: _,
                arguments: _,
            } => self.one(tree, scope),
            Form::Unit => self.one(tree, scope),
            Form::Tuple(_) => self.one(tree, scope),
            Form::List(_) => self.one(tree, scope),
            Form::Prefix {
                operator: _,
                operand: _,
            } => self.one(tree, scope),
            Form::Fold {
                item: _,
                sum: _,
                list: _,
                start: _,
                body: _,
            } => self.one(tree, scope),
        }
    }

    /// The same, in a box.
    #[cycle(multiset)]
    fn boxed<'t>(&self, tree: &'t Ast, scope: &mut Vec<Local<'t>>) -> Result<Box<MExpr>, TypeError>
        ensures exact { Answers (λ tokens. multiset_view tokens.value) result (marked (site_view self.now) (ast_view tree.now) (scope_view scope.old.items)) }
        ensures locals { IfOk result (λ _. scope.new.items ≡ scope.old.items) }
    {
        let tokens = self.tokens(tree, scope)?;
        let tokens = Box::new(self.alloc, tokens)?;
        Ok(tokens)
    }

    /// Tokens with a delay.
    #[cycle(multiset)]
    fn later<'t>(
        &self,
        tokens: &'t Ast,
        sign: usize,
        delay: &'t Ast,
        scope: &mut Vec<Local<'t>>,
    ) -> Result<MExpr, TypeError>
        ensures exact { Answers multiset_view result (marked_form (site_view self.now) (infixed signs.Later sign (ast_view tokens.now) (ast_view delay.now)) 0 (scope_view scope.old.items)) }
        ensures locals { IfOk result (λ _. scope.new.items ≡ scope.old.items) }
    {
        let tokens = self.boxed(tokens, scope)?;
        let delay = self.value(delay, scope, Some(&Ty::Int))?;
        delayed(self.side, self.timed, sign, tokens, delay)
    }

    /// `if`: a truth value, and the tokens where it is true and where it is false.
    #[cycle(multiset)]
    fn branches<'t>(
        &self,
        condition: &'t Ast,
        consequence: &'t Ast,
        alternative: &'t Ast,
        scope: &mut Vec<Local<'t>>,
    ) -> Result<MExpr, TypeError>
        ensures exact { Answers multiset_view result (marked_form (site_view self.now) (if_else (ast_view condition.now) (ast_view consequence.now) (ast_view alternative.now)) 0 (scope_view scope.old.items)) }
        ensures locals { IfOk result (λ _. scope.new.items ≡ scope.old.items) }
    {
        let test = self.value(condition, scope, Some(&Ty::Bool))?;
        let first = self.boxed(consequence, scope)?;
        let second = self.boxed(alternative, scope)?;
        Ok(MExpr::If(test.expr, first, second))
    }

    /// Tokens with a time stamp.
    #[cycle(multiset)]
    fn stamped<'t>(
        &self,
        tokens: &'t Ast,
        sign: usize,
        stamp: i64,
        scope: &mut Vec<Local<'t>>,
    ) -> Result<MExpr, TypeError>
        ensures exact { Answers multiset_view result (marked_form (site_view self.now) (trees.stamped (ast_view tokens.now) sign stamp) 0 (scope_view scope.old.items)) }
        ensures locals { IfOk result (λ _. scope.new.items ≡ scope.old.items) }
    {
        let tokens = self.boxed(tokens, scope)?;
        at_time(self.side, self.timed, sign, tokens, stamp)
    }

    /// The parts of a sum, from left to right.
    #[cycle(multiset)]
    fn parts<'t>(&self, trees: &'t [Ast], scope: &mut Vec<Local<'t>>) -> Result<MExprs, TypeError>
        ensures exact { Answers (λ parts. inscriptions_from (map multiset_view parts.items)) result (marked_each (site_view self.now) (asts_from (map ast_view trees.now)) (scope_view scope.old.items)) }
        ensures locals { IfOk result (λ _. scope.new.items ≡ scope.old.items) }
    {
        let mut parts = Vec::new(self.alloc);
        for tree in trees {
            let part = self.tokens(tree, scope)?;
            parts.push(part)?;
        }
        Ok(parts)
    }

    /// An arm of a `case` over a subject of a type.
    #[cycle(multiset)]
    fn arm<'t>(
        &self,
        arm: &'t Arm,
        scope: &mut Vec<Local<'t>>,
        subject: &Ty,
    ) -> Result<MArm, TypeError>
        ensures exact { Answers arc_arm_view result (arm_at (site_view self.now) (pat_view arm.now.pattern) (ast_view arm.now.result) (scope_view scope.old.items) (ty_view subject.now)) }
        ensures locals { IfOk result (λ _. scope.new.items ≡ scope.old.items) }
    {
        let TypedPattern {
            pattern,
            mut locals,
        } = check_pattern(self.alloc, self.decls, &arm.pattern, scope, subject)?;
        let depth = scope.len();
        scope.append(&mut locals)?;
        let result = self.tokens(&arm.result, scope)?;
        scope.truncate(depth);
        Ok(MArm {
            pat: pattern,
            result,
        })
    }

    /// The arms of a `case` over a subject of a type.
    #[cycle(multiset)]
    fn arms<'t>(
        &self,
        arms: &'t [Arm],
        scope: &mut Vec<Local<'t>>,
        subject: &Ty,
    ) -> Result<Vec<MArm>, TypeError>
        ensures exact { Answers (λ made. arc_arms_from (map arc_arm_view made.items)) result (marked_arms (site_view self.now) (arms_from (map arm_view arms.now)) (scope_view scope.old.items) (ty_view subject.now)) }
        ensures locals { IfOk result (λ _. scope.new.items ≡ scope.old.items) }
    {
        let mut made = Vec::new(self.alloc);
        for arm in arms {
            let result = self.arm(arm, scope, subject)?;
            made.push(result)?;
        }
        Ok(made)
    }

    /// `case`: a subject, and tokens for each arm.
    #[cycle(multiset)]
    fn case<'t>(
        &self,
        arms: &'t [Arm],
        subject: &'t Ast,
        scope: &mut Vec<Local<'t>>,
    ) -> Result<MExpr, TypeError>
        ensures exact { Answers multiset_view result (marked_form (site_view self.now) (case_of (ast_view subject.now) (arms_from (map arm_view arms.now))) 0 (scope_view scope.old.items)) }
        ensures locals { IfOk result (λ _. scope.new.items ≡ scope.old.items) }
    {
        let subject = self.value(subject, scope, None)?;
        let arms = self.arms(arms, scope, &subject.ty)?;
        Ok(MExpr::Case(subject.expr, arms))
    }

    /// `let`: the values, each seen by those behind it, and tokens in their scope.
    #[cycle(multiset)]
    fn with_values<'t>(
        &self,
        body: &'t Ast,
        values: &'t [LocalValue],
        scope: &mut Vec<Local<'t>>,
    ) -> Result<MExpr, TypeError>
        ensures exact { Answers multiset_view result (marked_form (site_view self.now) (let_in (locals_from (map local_view values.now)) (ast_view body.now)) 0 (scope_view scope.old.items)) }
        ensures locals { IfOk result (λ _. scope.new.items ≡ scope.old.items) }
    {
        let depth = scope.len();
        let values = self.let_values(values, scope)?;
        let tokens = self.tokens(body, scope)?;
        scope.truncate(depth);
        let tokens = bound_by(self.alloc, values, tokens)?;
        Ok(tokens)
    }
}
