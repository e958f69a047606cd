//! Inscriptions of one value.

ghost use Rattle.std.specs.Prelude.{◌≡◌, option_map};
ghost use Rattle.cpn_trees.specs.AstViews.{ast_view};
ghost use Rattle.cpn_typing.specs.Expressions.{typed};
ghost use Rattle.cpn_declared.specs.Answers.{Answers};
ghost use Rattle.cpn_declared.specs.DeclsViews.{decls_view};
ghost use Rattle.cpn_forms.specs.ScopeViews.{scope_view};
ghost use Rattle.cpn_forms.specs.ContextViews.{context_view};
ghost use Rattle.cpn_declared.specs.TypeViews.{ty_view};
ghost use Rattle.cpn_forms.specs.TypedViews.{typed_view};

use crate::surroundings::Surroundings;
use cpn_declared::{Decls, Ty, TypeError};
use cpn_forms::{Context, Local, Typed};
use cpn_trees::Ast;
use std::alloc::Global;

/// The typed inscription of a tree among its locals, at a wanted type or with none. The locals are as they
/// were, whatever is answered.
pub(crate) fn check_expr<'t>(
    alloc: Global,
    decls: &Decls,
    context: Context,
    tree: &'t Ast,
    scope: &mut Vec<Local<'t>>,
    wanted: Option<&Ty>,
) -> Result<Typed, TypeError>
    ensures exact { Answers typed_view result (typed (decls_view decls.now) (context_view context) (ast_view tree.now) (scope_view scope.old.items) (option_map (λ ty. ty_view ty.now) wanted.entry)) }
    ensures locals { scope.new.items ≡ scope.old.items }
{
    let around = Surroundings {
        alloc,
        decls,
        context,
    };
    around.typed(tree, scope, wanted)
}
