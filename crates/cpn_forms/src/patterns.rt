//! The patterns of a `case`: each is checked against the type of what it has to match, from the outside inwards, and binds
//! locals from left to right.

ghost use Rattle.std.specs.Prelude.{◌≡◌, ℕ, map, IfOk, MatchOption};
ghost use Rattle.cpn_definitions.specs.Inscription.{cons_pattern};
ghost use Rattle.cpn_trees.specs.PatViews.{pat_view};
ghost use Rattle.cpn_trees.specs.Trees.{pats_from};
ghost use Rattle.cpn_core.specs.Inscriptions.{pattern_view};
ghost use Rattle.cpn_typing.specs.Names.{Name, Declared, found, is_local as has_local, unknown};
ghost use Rattle.cpn_typing.specs.PatternRules.{typed_pattern, bound_by, bound_by_parts, bound_by_items, binding, holding, name_pattern, tuple_rule, constructor_named as named_constructor, constructor_of, refuses, first_at as first_offset};
ghost use Rattle.cpn_typing.specs.Types.{PlainTy, same_type, union as of_union};
ghost use Rattle.cpn_declared.specs.Answers.{Answers};
ghost use Rattle.cpn_declared.specs.DeclsViews.{decls_view};
ghost use Rattle.cpn_forms.specs.LookupViews.{found_view};
ghost use Rattle.cpn_forms.specs.ScopeViews.{scope_view};
ghost use Rattle.cpn_declared.specs.TypeViews.{ty_view, tys_view};
ghost use Rattle.cpn_forms.specs.BoundViews.{around_view, around_in, bound_view, all_bound_view, argument_in, TakenAs};

use crate::lookups::{Found, find};
use crate::scopes::{Local, is_local};
use cpn_core::{Memory, Pat, Pats, Text, Value};
use cpn_declared::{Decls, Meaning, Ty, TypeError};
use cpn_trees::PatForm;
use std::alloc::Global;

/// A typed pattern with the locals that it binds, from left to right.
#[derive(Drop)]
pub struct TypedPattern<'t> {
    /// The pattern.
    pub pattern: Pat,
    /// The locals.
    pub locals: Vec<Local<'t>>,
}

/// A constructor that takes an argument.
#[derive(Clone, Copy)]
pub(crate) struct Taken<'d> {
    /// Its position in its union.
    pub(crate) position: u32,
    /// The type of its argument.
    pub(crate) argument: &'d Ty,
}

/// The typed pattern of a tree among the locals there, against the type of what it has to match.
///
/// # Errors
///
/// The first reason from left to right: [`TypeError::Unknown`] at a constructor that is not there, [`TypeError::Duplicate`] at a local
/// that the pattern has already, [`TypeError::Mismatch`] where the pattern is not of the type; [`TypeError::Memory`].
pub fn check_pattern<'t>(
    alloc: Global,
    decls: &Decls,
    tree: &'t cpn_trees::Pat,
    scope: &[Local<'_>],
    ty: &Ty,
) -> Result<TypedPattern<'t>, TypeError>
    ensures exact { Answers (λ p. bound_view p.locals.items p.pattern) result (typed_pattern (decls_view decls.now) (pat_view tree.now) (scope_view scope.now) (ty_view ty.now)) }
{
    let mut locals = Vec::new(alloc);
    let pattern = bind(alloc, decls, tree, scope, ty, &mut locals)?;
    Ok(TypedPattern { pattern, locals })
}

/// A pattern that binds nothing behind the locals that were bound before it, if it is of the type of what it has to match.
fn hold(
    own: &Ty,
    ty: &Ty,
    at: usize,
    pattern: Pat,
    _bound: &Vec<Local<'_>>,
) -> Result<Pat, TypeError>
    ensures exact { Answers (bound_view _bound.now.items) result (holding (same_type (ty_view own.now) (ty_view ty.now)) at (pattern_view pattern) (scope_view _bound.now.items)) }
{
    if own.is_same(ty) {
        return Ok(pattern);
    }
    Err(TypeError::Mismatch(at))
}

/// A new local, which the pattern has not bound yet.
#[tactic(auto, using(crate::proofs::PatternFronts::scope_length))]
fn bind_local<'t>(
    alloc: Global,
    name: &'t str,
    scope: &[Local<'_>],
    ty: &Ty,
    bound: &mut Vec<Local<'t>>,
) -> Result<Pat, TypeError>
    ensures exact { (ds : Declared) → Answers (bound_view bound.new.items) result (binding (has_local name.now (scope_view bound.old.items)) (around_in ds scope.now) name.now (ty_view ty.now) (scope_view bound.old.items)) }
{
    if is_local(bound, name) {
        return Err(TypeError::Duplicate(String::from_str(alloc, name)?));
    }
    let Some(number) = scope.len().checked_add(bound.len()) else {
        return Err(TypeError::Memory);
    };
    let Ok(number) = u32::try_from(number) else {
        return Err(TypeError::Memory);
    };
    bound.push(Local {
        name,
        ty: ty.copy()?,
    })?;
    Ok(Pat::Var(number))
}

/// A lone name: a constant or a constructor, or a local that the pattern binds.
fn bind_name<'t>(
    alloc: Global,
    decls: &Decls,
    name: &'t str,
    at: usize,
    scope: &[Local<'_>],
    ty: &Ty,
    bound: &mut Vec<Local<'t>>,
) -> Result<Pat, TypeError>
    ensures exact { Answers (bound_view bound.new.items) result (name_pattern (found name.now (scope_view scope.now) (decls_view decls.now)) (around_view decls.now scope.now) at name.now (ty_view ty.now) (scope_view bound.old.items)) }
{
    match find(name, scope, decls) {
        Found::Local(_, _) => bind_local(alloc, name, scope, ty, bound),
        Found::Predeclared(_) => bind_local(alloc, name, scope, ty, bound),
        Found::Declared(meaning) => match meaning {
            Meaning::Variable { number: _, ty: _ } => bind_local(alloc, name, scope, ty, bound),
            Meaning::Constant {
                enumeration,
                position,
            } => hold(
                &Ty::Enum(*enumeration),
                ty,
                at,
                Pat::Lit(Value::Enum(*position)),
                bound,
            ),
            Meaning::Constructor {
                union,
                position,
                argument,
            } => match argument {
                None => hold(&Ty::Union(*union), ty, at, Pat::Con(*position, None), bound),
                Some(_) => Err(TypeError::Unknown(String::from_str(alloc, name)?)),
            },
            Meaning::Function {
                number: _,
                parameters: _,
                result: _,
            } => bind_local(alloc, name, scope, ty, bound),
        },
        Found::Nothing => bind_local(alloc, name, scope, ty, bound),
    }
}

/// The constructor that takes an argument, with the number of its union, if the name means one.
fn constructor_meant<'d>(meant: Found<'_, 'd>) -> Option<(u32, Taken<'d>)>
    ensures exact { (n : Name) (at : ℕ) (t : PlainTy)
        → MatchOption result (named_constructor (found_view meant.entry) n at t ≡ refuses (unknown n))
        (λ c. named_constructor (found_view meant.entry) n at t ≡ constructor_of (same_type (of_union c.0) t) at c.1.position (ty_view c.1.argument.now)) }
{
    match meant {
        Found::Declared(meaning) => match meaning {
            Meaning::Constructor {
                union,
                position,
                argument,
            } => match argument {
                Some(argument) => Some((
                    *union,
                    Taken {
                        position: *position,
                        argument,
                    },
                )),
                None => None,
            },
            Meaning::Variable { number: _, ty: _ } => None,
            Meaning::Constant {
                enumeration: _,
                position: _,
            } => None,
            Meaning::Function {
                number: _,
                parameters: _,
                result: _,
            } => None,
        },
        Found::Local(_, _) => None,
        Found::Predeclared(_) => None,
        Found::Nothing => None,
    }
}

/// The constructor of the type, in front of a parenthesis.
fn constructor_named<'d>(
    alloc: Global,
    decls: &'d Decls,
    name: &str,
    at: usize,
    scope: &[Local<'_>],
    ty: &Ty,
) -> Result<Taken<'d>, TypeError>
    ensures exact { TakenAs result (named_constructor (found name.now (scope_view scope.now) (decls_view decls.now)) name.now at (ty_view ty.now)) }
{
    match constructor_meant(find(name, scope, decls)) {
        Some((union, taken)) => take_constructor(union, taken, at, ty),
        None => Err(TypeError::Unknown(String::from_str(alloc, name)?)),
    }
}

/// A constructor of a union, if that is the type.
fn take_constructor<'d>(
    union: u32,
    taken: Taken<'d>,
    at: usize,
    ty: &Ty,
) -> Result<Taken<'d>, TypeError>
    ensures exact { TakenAs result (constructor_of (same_type (of_union union) (ty_view ty.now)) at taken.entry.position (ty_view taken.entry.argument.now)) }
{
    let own = Ty::Union(union);
    if own.is_same(ty) {
        return Ok(taken);
    }
    Err(TypeError::Mismatch(at))
}

/// The offset of the first of several.
#[tactic(auto, using(crate::proofs::PatternFronts::first_is, crate::proofs::PatternFronts::none_first))]
fn first_at(patterns: &[cpn_trees::Pat], at: usize) -> usize
    ensures exact { result ≡ first_offset at (pats_from (map pat_view patterns.now)) }
{
    if patterns.is_empty() {
        return at;
    }
    patterns[0].at
}

/// A list of a head and a tail.
fn in_front(alloc: Global, head: Pat, tail: Pat) -> Result<Pat, Memory>
    ensures exact { IfOk result (λ pattern. pattern_view pattern ≡ cons_pattern (pattern_view head) (pattern_view tail)) }
{
    let head = Box::new(alloc, head)?;
    let tail = Box::new(alloc, tail)?;
    Ok(Pat::Cons(head, tail))
}

/// A pattern, behind the locals that were bound before it.
#[cycle(bind)]
#[tactic(auto, using(cpn_core::proofs::InscriptionLevels::view_con_pattern))]
fn bind<'t>(
    alloc: Global,
    decls: &Decls,
    tree: &'t cpn_trees::Pat,
    scope: &[Local<'_>],
    ty: &Ty,
    bound: &mut Vec<Local<'t>>,
) -> Result<Pat, TypeError>
    ensures exact { Answers (bound_view bound.new.items) result (bound_by (around_view decls.now scope.now) (pat_view tree.now) (ty_view ty.now) (scope_view bound.old.items)) }
{
    let at = tree.at;
    match &tree.form {
        PatForm::Any => Ok(Pat::Any),
        PatForm::Name(name) => bind_name(alloc, decls, name, at, scope, ty, bound),
        PatForm::Number(number) => hold(&Ty::Int, ty, at, Pat::Lit(Value::Int(*number)), bound),
        PatForm::Text(text) => {
            let mut bytes = Text::new(alloc);
            bytes.push(text.as_bytes())?;
            hold(&Ty::Text, ty, at, Pat::Lit(Value::Text(bytes)), bound)
        }
        PatForm::Truth(truth) => hold(&Ty::Bool, ty, at, Pat::Lit(Value::Bool(*truth)), bound),
        PatForm::Unit => hold(&Ty::Unit, ty, at, Pat::Lit(Value::Unit), bound),
        PatForm::Call {
            constructor,
            arguments,
        } => {
            let taken = constructor_named(alloc, decls, constructor, at, scope, ty)?;
            let inside = bind_argument(alloc, decls, arguments, at, scope, taken.argument, bound)?;
            let inside = Box::new(alloc, inside)?;
            Ok(Pat::Con(taken.position, Some(inside)))
        }
        PatForm::Tuple(parts) => bind_tuple(alloc, decls, parts, at, scope, ty, bound),
        PatForm::List(items) => match ty {
            Ty::List(item) => {
                let items = bind_items(alloc, decls, items, scope, item, bound)?;
                Ok(Pat::List(items))
            }
            Ty::Unit | Ty::Bool | Ty::Int | Ty::Text | Ty::Enum(_) | Ty::Tuple(_) | Ty::Union(_) =>
                Err(TypeError::Mismatch(at)),
        },
        PatForm::Cons { head, tail } => match ty {
            Ty::List(item) => {
                let head = bind(alloc, decls, head, scope, item, bound)?;
                let tail = bind(alloc, decls, tail, scope, ty, bound)?;
                let pattern = in_front(alloc, head, tail)?;
                Ok(pattern)
            }
            Ty::Unit | Ty::Bool | Ty::Int | Ty::Text | Ty::Enum(_) | Ty::Tuple(_) | Ty::Union(_) =>
                Err(TypeError::Mismatch(at)),
        },
    }
}

/// The argument of a constructor: one part is the argument, several are the parts of a tuple.
#[cycle(bind)]
#[tactic(auto, using(crate::proofs::PatternFronts::one_argument, crate::proofs::PatternFronts::not_one_argument))]
fn bind_argument<'t>(
    alloc: Global,
    decls: &Decls,
    arguments: &'t [cpn_trees::Pat],
    at: usize,
    scope: &[Local<'_>],
    ty: &Ty,
    bound: &mut Vec<Local<'t>>,
) -> Result<Pat, TypeError>
    ensures exact { Answers (bound_view bound.new.items) result (argument_in (around_view decls.now scope.now) (pats_from (map pat_view arguments.now)) at (scope_view bound.old.items) (ty_view ty.now)) }
{
    if arguments.len() == 1 {
        return bind(alloc, decls, &arguments[0], scope, ty, bound);
    }
    bind_tuple(
        alloc,
        decls,
        arguments,
        first_at(arguments, at),
        scope,
        ty,
        bound,
    )
}

/// A tuple, by its parts.
#[cycle(bind)]
fn bind_tuple<'t>(
    alloc: Global,
    decls: &Decls,
    parts: &'t [cpn_trees::Pat],
    at: usize,
    scope: &[Local<'_>],
    ty: &Ty,
    bound: &mut Vec<Local<'t>>,
) -> Result<Pat, TypeError>
    ensures exact { Answers (bound_view bound.new.items) result (tuple_rule (ty_view ty.now) at (λ ts. bound_by_parts (around_view decls.now scope.now) (pats_from (map pat_view parts.now)) at ts (scope_view bound.old.items))) }
{
    match ty {
        Ty::Tuple(types) => {
            let parts = bind_parts(alloc, decls, parts, at, scope, types, bound)?;
            Ok(Pat::Tuple(parts))
        }
        Ty::Unit | Ty::Bool | Ty::Int | Ty::Text | Ty::Enum(_) | Ty::Union(_) | Ty::List(_) => Err(
            TypeError::Mismatch(at),
        ),
    }
}

/// The parts, each against its own type; where there are too many or too few, the whole is refused.
#[cycle(bind)]
fn bind_parts<'t>(
    alloc: Global,
    decls: &Decls,
    parts: &'t [cpn_trees::Pat],
    at: usize,
    scope: &[Local<'_>],
    types: &[Ty],
    bound: &mut Vec<Local<'t>>,
) -> Result<Pats, TypeError>
    ensures exact { Answers (λ ps. all_bound_view bound.new.items ps.items) result (bound_by_parts (around_view decls.now scope.now) (pats_from (map pat_view parts.now)) at (tys_view types.now) (scope_view bound.old.items)) }
{
    let mut patterns = Vec::new(alloc);
    for i in 0..parts.len().min(types.len()) {
        let pattern = bind(alloc, decls, &parts[i], scope, &types[i], bound)?;
        patterns.push(pattern)?;
    }
    if parts.len() == types.len() {
        return Ok(patterns);
    }
    Err(TypeError::Mismatch(at))
}

/// The items of a list, all against one type.
#[cycle(bind)]
fn bind_items<'t>(
    alloc: Global,
    decls: &Decls,
    items: &'t [cpn_trees::Pat],
    scope: &[Local<'_>],
    ty: &Ty,
    bound: &mut Vec<Local<'t>>,
) -> Result<Pats, TypeError>
    ensures exact { Answers (λ ps. all_bound_view bound.new.items ps.items) result (bound_by_items (around_view decls.now scope.now) (pats_from (map pat_view items.now)) (ty_view ty.now) (scope_view bound.old.items)) }
{
    let mut patterns = Vec::new(alloc);
    for item in items {
        let pattern = bind(alloc, decls, item, scope, ty, bound)?;
        patterns.push(pattern)?;
    }
    Ok(patterns)
}
