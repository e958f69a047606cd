//! What the parsers hand out: trees with what is true of each of them.

ghost use Rattle.std.specs.Prelude.{◌≡◌, ◌≤◌, true};
ghost use Rattle.cpn_trees.specs.AstViews.{ast_view, asts_view};
ghost use Rattle.cpn_trees.specs.DeclTrees.{decl_view};
ghost use Rattle.cpn_trees.specs.Depth.{depth, deepest, decl_depth};
ghost use Rattle.cpn_trees.specs.Shapes.{is_shaped, is_guard_shaped, is_decl_shaped};

use crate::declaration_trees::Decl;
use crate::trees::{Ast, Asts};

/// An inscription that was read. Its tree is at most 64 deep, and each form in it has as many parts as the grammar
/// gives it: a tuple and a sum two, a call an argument, a `let` a value and a `case` an arm, at least.
#[derive(Drop)]
pub struct Inscription {
    /// Its tree.
    pub tree: Ast,
    pub ghost shallow: { depth (ast_view tree) ≤ 64 },
    pub ghost shaped: { is_shaped (ast_view tree) ≡ true },
}

/// A guard that was read: its conjuncts, at least one, of which each is as the tree of an [`Inscription`].
#[derive(Drop)]
pub struct Guard {
    /// The conjuncts.
    pub conjuncts: Asts,
    pub ghost shallow: { deepest (asts_view conjuncts) ≤ 64 },
    pub ghost shaped: { is_guard_shaped (asts_view conjuncts) ≡ true },
}

/// A declaration that was read. It is at most 64 deep, with its inscription one level below it, and each form in
/// it has as many parts as the grammar gives it: variables, constants and a union one, a product two, and a
/// function a parameter, at least.
#[derive(Drop)]
pub struct Declaration {
    /// Its tree.
    pub tree: Decl,
    pub ghost shallow: { decl_depth (decl_view tree) ≤ 64 },
    pub ghost shaped: { is_decl_shaped (decl_view tree) ≡ true },
}
