//! The parts of an inscription of tokens that have no inscription of tokens in them.

ghost use Rattle.std.specs.Prelude.{◌≡◌, map, take, length, IfOk};
ghost use Rattle.std.specs.Option.{option_map};
ghost use Rattle.cpn_core.specs.Inscriptions.{expr_view, multiset_view};
ghost use Rattle.cpn_trees.specs.AstViews.{ast_view, local_view, locals_from};
ghost use Rattle.cpn_typing.specs.Multisets.{marked_let};
ghost use Rattle.cpn_declared.specs.Answers.{Answers};
ghost use Rattle.cpn_forms.specs.ScopeViews.{scope_view};
ghost use Rattle.cpn_declared.specs.TypeViews.{ty_view};
ghost use Rattle.cpn_forms.specs.TypedViews.{typed_view};
ghost use Rattle.cpn_types.specs.Sites as sites;
ghost use Rattle.cpn_types.specs.Sites.{site_view, value_at, one_token, many_tokens, all_bound, LetAnswers};

use crate::expressions::check_expr;
use crate::sites::{Site, inside};
use cpn_core::{Exprs, MExpr, Memory};
use cpn_declared::{Ty, TypeError};
use cpn_forms::{Local, Typed};
use cpn_trees::{Ast, Infix, LocalValue};
use std::alloc::Global;

/// Whether the operator is a backtick.
pub(crate) fn is_times(operator: Infix) -> bool
    ensures exact { result ≡ sites.is_times operator }
{
    match operator {
        Infix::Times => true,
        _ => false,
    }
}

/// Whether the operator is `@+`.
pub(crate) fn is_later(operator: Infix) -> bool
    ensures exact { result ≡ sites.is_later operator }
{
    match operator {
        Infix::Later => true,
        _ => false,
    }
}

/// Values around an inscription of tokens, the first outermost.
pub(crate) fn bound_by(alloc: Global, mut values: Exprs, mut tokens: MExpr) -> Result<MExpr, Memory>
    ensures exact { IfOk result (λ m. multiset_view m ≡ all_bound (map expr_view values.items) (multiset_view tokens)) }
{
    while let Some(value) = values.pop() {
        tokens = MExpr::Let(value, Box::new(alloc, tokens)?);
    }
    Ok(tokens)
}

impl Site<'_> {
    /// The typed inscription of a value inside the inscription.
    pub(crate) fn value<'t>(
        &self,
        tree: &'t Ast,
        scope: &mut Vec<Local<'t>>,
        wanted: Option<&Ty>,
    ) -> Result<Typed, TypeError>
        ensures exact { Answers typed_view result (value_at (site_view self.now) (ast_view tree.now) (scope_view scope.old.items) (option_map (λ ty. ty_view ty.now) wanted.entry)) }
        ensures locals { scope.new.items ≡ scope.old.items }
    {
        check_expr(
            self.alloc,
            self.decls,
            inside(self.side),
            tree,
            scope,
            wanted,
        )
    }

    /// One token of a value.
    pub(crate) fn one<'t>(
        &self,
        tree: &'t Ast,
        scope: &mut Vec<Local<'t>>,
    ) -> Result<MExpr, TypeError>
        ensures exact { Answers multiset_view result (one_token (site_view self.now) (ast_view tree.now) (scope_view scope.old.items)) }
        ensures locals { scope.new.items ≡ scope.old.items }
    {
        let token = self.value(tree, scope, Some(self.ty))?;
        Ok(MExpr::One(token.expr))
    }

    /// So many tokens of a value.
    pub(crate) fn many<'t>(
        &self,
        count: &'t Ast,
        tree: &'t Ast,
        scope: &mut Vec<Local<'t>>,
    ) -> Result<MExpr, TypeError>
        ensures exact { Answers multiset_view result (many_tokens (site_view self.now) (ast_view count.now) (ast_view tree.now) (scope_view scope.old.items)) }
        ensures locals { scope.new.items ≡ scope.old.items }
    {
        let count = self.value(count, scope, Some(&Ty::Int))?;
        let token = self.value(tree, scope, Some(self.ty))?;
        Ok(MExpr::Times(count.expr, token.expr))
    }

    /// The values of a `let`, which are left in the scope.
    pub(crate) fn let_values<'t>(
        &self,
        values: &'t [LocalValue],
        scope: &mut Vec<Local<'t>>,
    ) -> Result<Exprs, TypeError>
        ensures exact { LetAnswers result (scope_view scope.new.items) (marked_let (site_view self.now) (locals_from (map local_view values.now)) (scope_view scope.old.items)) }
        ensures outer { IfOk result (λ _. take (length scope.old.items) scope.new.items ≡ scope.old.items) }
    {
        let mut exprs = Vec::new(self.alloc);
        for local in values {
            let value = self.value(&local.value, scope, None)?;
            exprs.push(value.expr)?;
            scope.push(Local {
                name: local.name.as_str(),
                ty: value.ty,
            })?;
        }
        Ok(exprs)
    }
}
