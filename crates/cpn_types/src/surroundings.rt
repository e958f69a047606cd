//! Inscriptions of one value, form by form: a tree is checked against a wanted type where its context gives one, else its type
//! is found.
//!
//! The calls go down the tree, which is at most 64 deep. What is not recursive stands elsewhere, so that each of them takes
//! little of the machine's stack.

ghost use Rattle.std.specs.Prelude.{◌≡◌, ◌≤◌, ◌++◌, Some, map, drop, take, length, string_bytes, option_map};
ghost use Rattle.cpn_trees.specs.AstViews.{ast_view, form_view, arm_view, local_view, arms_from, locals_from};
ghost use Rattle.cpn_trees.specs.Trees.{asts_from, case_of};
ghost use Rattle.cpn_typing.specs.Names.{found};
ghost use Rattle.cpn_typing.specs.Expressions.{typed_parts, typed_items, typed_arms, typed_form, typed_let};
ghost use Rattle.cpn_typing.specs.Rules.{part, item_of as item_type, prefix_rule, if_rule, sides, any_type, fold_rule, call_rule, called_as, argument_rule, first_wanted};
ghost use Rattle.cpn_declared.specs.Answers.{Answers};
ghost use Rattle.cpn_declared.specs.DeclsViews.{decls_view};
ghost use Rattle.cpn_forms.specs.ScopeViews.{scope_view};
ghost use Rattle.cpn_forms.specs.ContextViews.{context_view};
ghost use Rattle.cpn_declared.specs.TypeViews.{ty_view, tys_view};
ghost use Rattle.cpn_forms.specs.TypedViews.{typed_view};
ghost use Rattle.cpn_forms.specs.FormViews.{arms_view, branches_view, items_view, parts_view, sides_view, spot_view, wanted_view};
ghost use Rattle.cpn_forms.specs.Operators.{from_sides, in_turn};
ghost use Rattle.cpn_forms.specs.Calls.{from_arguments};
ghost use Rattle.cpn_core.specs.Inscriptions.{expr_view};
ghost use Rattle.cpn_types.specs.Around.{typed_in, arguments_in, body_in, typed_then};

use cpn_core::{Expr, Value};
use cpn_declared::{Decls, Ty, TypeError};
use cpn_forms::{
    Arms, Branches, Called, Context, Items, Local, Parts, Predeclared, Sides, Spot, Typed,
    check_name, check_pattern, check_side, check_time, chosen, constructed, copy_wanted,
    find_called, first_wanted_by, folded, function_called, is_right_first, item_of, item_wanted,
    lent, listed, meets, nested, operand_makes, operand_wanted, operation_makes, other_wanted,
    others_wanted_by, parts_wanted, selected, side_wanted, sides_make, text_literal, tuple_made,
    tupled, two_locals, waits,
};
use cpn_trees::{Ast, Asts, Form, Infix, LocalValue, Prefix};
use std::alloc::Global;

/// What is around an inscription: what is declared, and its context.
#[derive(Clone, Copy)]
pub(crate) struct Surroundings<'d> {
    /// Where memory comes from.
    pub(crate) alloc: Global,
    /// What is declared.
    pub(crate) decls: &'d Decls,
    /// The context of the inscription.
    pub(crate) context: Context,
}

/// The type that is wanted of the part at an index, if there is one.
#[tactic(auto, using(crate::proofs::Fronts::wanted_there, crate::proofs::Fronts::none_wanted))]
fn wanted_at(wanted: &[Ty], index: usize) -> Option<&Ty>
    ensures exact { wanted_view result ≡ first_wanted (tys_view (drop index wanted.now)) }
{
    if index < wanted.len() {
        Some(&wanted[index])
    } else {
        None
    }
}

/// The type of a list's items, a copy of its own.
fn copied_item(ty: &Ty, at: usize) -> Result<Ty, TypeError>
    ensures exact { Answers ty_view result (item_type (ty_view ty.now) at) }
{
    let item = item_of(ty, at)?;
    Ok(item.copy()?)
}

impl Surroundings<'_> {
    /// The typed inscription of a tree among its locals.
    #[cycle(check)]
    pub(crate) fn typed<'t>(
        &self,
        tree: &'t Ast,
        scope: &mut Vec<Local<'t>>,
        wanted: Option<&Ty>,
    ) -> Result<Typed, TypeError>
        ensures exact { Answers typed_view result (typed_in self.now tree.now scope.old.items (wanted_view wanted.entry)) }
        ensures locals { scope.new.items ≡ scope.old.items }
    {
        self.form(&tree.form, tree.at, scope, wanted)
    }

    /// One form.
    #[cycle(check)]
    fn form<'t>(
        &self,
        form: &'t Form,
        at: usize,
        scope: &mut Vec<Local<'t>>,
        wanted: Option<&Ty>,
    ) -> Result<Typed, TypeError>
        ensures exact { Answers typed_view result (typed_form (decls_view self.now.decls.now) (context_view self.now.context) (form_view form.now) at (scope_view scope.old.items) (wanted_view wanted.entry)) }
        ensures locals { scope.new.items ≡ scope.old.items }
    {
        let spot = Spot {
            context: self.context,
            at,
            wanted,
        };
        match form {
            Form::Number(number) => { meets(wanted, at, Expr::Lit(Value::Int(*number)), Ty::Int) }
            Form::Text(text) => text_literal(self.alloc, text, spot),
            Form::Truth(truth) => meets(wanted, at, Expr::Lit(Value::Bool(*truth)), Ty::Bool),
            Form::Empty => Err(TypeError::Mismatch(at)),
            Form::Time => check_time(spot),
            Form::Name(name) => check_name(self.alloc, self.decls, name, scope, spot),
            Form::Call {
                function,
                arguments,
            } => self.call(function, arguments, scope, spot),
            Form::Unit => meets(wanted, at, Expr::Lit(Value::Unit), Ty::Unit),
            Form::Tuple(parts) => {
                let parts = self.parts(parts, 0, scope, parts_wanted(wanted))?;
                tupled(parts, spot)
            }
            Form::List(items) => {
                let items = self.items(items, scope, item_wanted(wanted))?;
                listed(self.alloc, items, spot)
            }
            Form::Let { values, body } => self.with_values(values, body, scope, wanted),
            Form::Prefix { operator, operand } => self.prefix(*operator, operand, scope, spot),
            Form::Infix {
                operator,
                sign,
                left,
                right,
            } => self.infix(*operator, *sign, left, right, scope, spot),
            Form::Stamped {
                term,
                sign,
                stamp: _,
            } => {
                let _term = self.typed(term, scope, None)?;
                Err(self.context.misplaced_stamp(at, *sign))
            }
            Form::Sum(parts) => {
                let _parts = self.parts(parts, 0, scope, &[])?;
                Err(TypeError::Mismatch(at))
            }
            Form::If {
                condition,
                consequence,
                alternative,
            } => self.branches(condition, consequence, alternative, scope, wanted),
            Form::Case { subject, arms } => self.case(subject, arms, scope, spot),
            Form::Fold {
                item,
                sum,
                list,
                start,
                body,
            } => self.fold(item, sum, list, start, body, scope, wanted),
        }
    }

    /// The parts from an index on, with the types that are wanted of each.
    #[cycle(check)]
    fn parts<'t>(
        &self,
        parts: &'t [Ast],
        from: usize,
        scope: &mut Vec<Local<'t>>,
        wanted: &[Ty],
    ) -> Result<Parts, TypeError>
        ensures exact { Answers parts_view result (typed_parts (decls_view self.now.decls.now) (context_view self.now.context) (asts_from (map ast_view (drop from parts.now))) (scope_view scope.old.items) (tys_view wanted.now)) }
        ensures locals { scope.new.items ≡ scope.old.items }
    {
        let mut exprs = Vec::new(self.alloc);
        let mut types = Vec::new(self.alloc);
        for index in from..parts.len() {
            let typed = self.typed(&parts[index], scope, wanted_at(wanted, index - from))?;
            exprs.push(typed.expr)?;
            types.push(typed.ty)?;
        }
        Ok(Parts { exprs, types })
    }

    /// The items of a list: the type of the first is wanted of those behind it.
    #[cycle(check)]
    fn items<'t>(
        &self,
        items: &'t [Ast],
        scope: &mut Vec<Local<'t>>,
        wanted: Option<&Ty>,
    ) -> Result<Items, TypeError>
        ensures exact { Answers items_view result (typed_items (decls_view self.now.decls.now) (context_view self.now.context) (asts_from (map ast_view items.now)) (scope_view scope.old.items) (wanted_view wanted.entry)) }
        ensures locals { scope.new.items ≡ scope.old.items }
    {
        let mut ty = copy_wanted(wanted)?;
        let mut exprs = Vec::new(self.alloc);
        for tree in items {
            let typed = self.typed(tree, scope, lent(&ty))?;
            exprs.push(typed.expr)?;
            ty = Some(typed.ty);
        }
        Ok(Items { exprs, ty })
    }

    /// An operator in front of its operand.
    #[cycle(check)]
    fn prefix<'t>(
        &self,
        operator: Prefix,
        operand: &'t Ast,
        scope: &mut Vec<Local<'t>>,
        spot: Spot<'_>,
    ) -> Result<Typed, TypeError>
        ensures exact { Answers typed_view result (prefix_rule operator (spot_view spot.entry) (part (ast_view operand.now) (typed_in self.now operand.now scope.old.items))) }
        ensures locals { scope.new.items ≡ scope.old.items }
    {
        let wanted = operand_wanted(operator);
        let typed = self.typed(operand, scope, lent(&wanted))?;
        operand_makes(self.alloc, operator, spot, operand.at, typed)
    }

    /// An operator between its operands.
    #[cycle(check)]
    fn infix<'t>(
        &self,
        operator: Infix,
        sign: usize,
        left: &'t Ast,
        right: &'t Ast,
        scope: &mut Vec<Local<'t>>,
        spot: Spot<'_>,
    ) -> Result<Typed, TypeError>
        ensures exact { Answers typed_view result (from_sides operator (spot_view spot.entry) sign (part (ast_view left.now) (typed_in self.now left.now scope.old.items)) (part (ast_view right.now) (typed_in self.now right.now scope.old.items))) }
        ensures locals { scope.new.items ≡ scope.old.items }
    {
        let wanted = side_wanted(operator, spot.wanted)?;
        if is_right_first(operator, spot.wanted, waits(left, right)) {
            let sides = self.operands(operator, right, left, scope, lent(&wanted))?;
            return sides_make(self.alloc, operator, spot, sign, sides.turned());
        }
        let sides = self.operands(operator, left, right, scope, lent(&wanted))?;
        sides_make(self.alloc, operator, spot, sign, sides)
    }

    /// Two operands in the order in which they are checked: the one that comes first has a type that the operator takes, and the
    /// other one has the type that is wanted beside it.
    #[cycle(check)]
    fn operands<'t>(
        &self,
        operator: Infix,
        former: &'t Ast,
        latter: &'t Ast,
        scope: &mut Vec<Local<'t>>,
        wanted: Option<&Ty>,
    ) -> Result<Sides, TypeError>
        ensures exact { Answers sides_view result (in_turn operator (wanted_view wanted.entry) (part (ast_view former.now) (typed_in self.now former.now scope.old.items)) (part (ast_view latter.now) (typed_in self.now latter.now scope.old.items))) }
        ensures locals { scope.new.items ≡ scope.old.items }
    {
        let first = self.typed(former, scope, wanted)?;
        check_side(operator, &first.ty, former.at)?;
        let other = other_wanted(self.alloc, operator, &first.ty)?;
        let last = self.typed(latter, scope, lent(&other))?;
        Ok(Sides::of(first, last))
    }

    /// `if`: a truth value, and two parts of one type.
    #[cycle(check)]
    fn branches<'t>(
        &self,
        condition: &'t Ast,
        left: &'t Ast,
        right: &'t Ast,
        scope: &mut Vec<Local<'t>>,
        wanted: Option<&Ty>,
    ) -> Result<Typed, TypeError>
        ensures exact { Answers typed_view result (if_rule (wanted_view wanted.entry) (part (ast_view condition.now) (typed_in self.now condition.now scope.old.items)) (part (ast_view left.now) (typed_in self.now left.now scope.old.items)) (part (ast_view right.now) (typed_in self.now right.now scope.old.items))) }
        ensures locals { scope.new.items ≡ scope.old.items }
    {
        let test = self.typed(condition, scope, Some(&Ty::Bool))?;
        let sides = self.sides(left, right, scope, wanted)?;
        chosen(self.alloc, test, sides)
    }

    /// Two parts of one type: the left one first, and the right one at its type; or the other way round where no type is wanted
    /// and the left one alone is `[]`.
    #[cycle(check)]
    fn sides<'t>(
        &self,
        left: &'t Ast,
        right: &'t Ast,
        scope: &mut Vec<Local<'t>>,
        wanted: Option<&Ty>,
    ) -> Result<Branches, TypeError>
        ensures exact { Answers branches_view result (sides any_type (wanted_view wanted.entry) (part (ast_view left.now) (typed_in self.now left.now scope.old.items)) (part (ast_view right.now) (typed_in self.now right.now scope.old.items))) }
        ensures locals { scope.new.items ≡ scope.old.items }
    {
        if wanted.is_none() && waits(left, right) {
            let second = self.typed(right, scope, None)?;
            let first = self.typed(left, scope, Some(&second.ty))?;
            return Ok(Branches::of(second, first).turned());
        }
        let first = self.typed(left, scope, wanted)?;
        let second = self.typed(right, scope, Some(&first.ty))?;
        Ok(Branches::of(first, second))
    }

    /// `case`: a subject, and arms of one type.
    #[cycle(check)]
    fn case<'t>(
        &self,
        subject: &'t Ast,
        arms: &'t [cpn_trees::Arm],
        scope: &mut Vec<Local<'t>>,
        spot: Spot<'_>,
    ) -> Result<Typed, TypeError>
        ensures exact { Answers typed_view result (typed_form (decls_view self.now.decls.now) (context_view self.now.context) (case_of (ast_view subject.now) (arms_from (map arm_view arms.now))) spot.entry.at (scope_view scope.old.items) (wanted_view spot.entry.wanted)) }
        ensures locals { scope.new.items ≡ scope.old.items }
    {
        let subject = self.typed(subject, scope, None)?;
        let arms = self.arms(arms, scope, &subject.ty, spot.wanted)?;
        selected(self.alloc, spot.at, subject, arms)
    }

    /// The arms of a `case` over a subject of a type: the type of the first result is wanted of those behind it.
    #[cycle(check)]
    fn arms<'t>(
        &self,
        arms: &'t [cpn_trees::Arm],
        scope: &mut Vec<Local<'t>>,
        subject: &Ty,
        wanted: Option<&Ty>,
    ) -> Result<Arms, TypeError>
        ensures exact { Answers arms_view result (typed_arms (decls_view self.now.decls.now) (context_view self.now.context) (arms_from (map arm_view arms.now)) (scope_view scope.old.items) (ty_view subject.now) (wanted_view wanted.entry)) }
        ensures locals { scope.new.items ≡ scope.old.items }
    {
        let mut ty = copy_wanted(wanted)?;
        let mut typed_arms = Vec::new(self.alloc);
        for arm in arms {
            let pattern = check_pattern(self.alloc, self.decls, &arm.pattern, scope, subject)?;
            let result = self.inside(&arm.result, pattern.locals, scope, lent(&ty))?;
            typed_arms.push(cpn_core::Arm {
                pat: pattern.pattern,
                result: result.expr,
            })?;
            ty = Some(result.ty);
        }
        Ok(Arms {
            arms: typed_arms,
            ty,
        })
    }

    /// The same among more locals, which are gone afterwards.
    #[cycle(check)]
    fn inside<'t>(
        &self,
        tree: &'t Ast,
        locals: Vec<Local<'t>>,
        scope: &mut Vec<Local<'t>>,
        wanted: Option<&Ty>,
    ) -> Result<Typed, TypeError>
        ensures exact { Answers typed_view result (typed_then self.now tree.now (wanted_view wanted.entry) (scope_view scope.old.items ++ scope_view locals.entry.items)) }
        ensures locals { scope.new.items ≡ scope.old.items }
    {
        let depth = scope.len();
        let mut locals = locals;
        scope.append(&mut locals)?;
        let typed = self.typed(tree, scope, wanted);
        scope.truncate(depth);
        typed
    }

    /// `let`: the values, each seen by those behind it, and what follows in their scope.
    #[cycle(check)]
    fn with_values<'t>(
        &self,
        values: &'t [LocalValue],
        body: &'t Ast,
        scope: &mut Vec<Local<'t>>,
        wanted: Option<&Ty>,
    ) -> Result<Typed, TypeError>
        ensures exact { Answers typed_view result (typed_let (decls_view self.now.decls.now) (context_view self.now.context) (locals_from (map local_view values.now)) (scope_view scope.old.items) (typed_then self.now body.now (wanted_view wanted.entry))) }
        ensures locals { scope.new.items ≡ scope.old.items }
    {
        let depth = scope.len();
        let typed = self.among_values(values, body, scope, wanted);
        scope.truncate(depth);
        typed
    }

    /// The same, with the values left in the scope.
    #[cycle(check)]
    fn among_values<'t>(
        &self,
        values: &'t [LocalValue],
        body: &'t Ast,
        scope: &mut Vec<Local<'t>>,
        wanted: Option<&Ty>,
    ) -> Result<Typed, TypeError>
        ensures exact { Answers typed_view result (typed_let (decls_view self.now.decls.now) (context_view self.now.context) (locals_from (map local_view values.now)) (scope_view scope.old.items) (typed_then self.now body.now (wanted_view wanted.entry))) }
        ensures further { length scope.old.items ≤ length scope.new.items }
        ensures outer { take (length scope.old.items) scope.new.items ≡ scope.old.items }
    {
        let mut exprs = Vec::new(self.alloc);
        for local in values {
            let typed = self.typed(&local.value, scope, None)?;
            exprs.push(typed.expr)?;
            scope.push(Local {
                name: local.name.as_str(),
                ty: typed.ty,
            })?;
        }
        let body = self.typed(body, scope, wanted)?;
        nested(self.alloc, exprs, body)
    }

    /// `foldl`: a list, a start, and a body of the start's type over an item and what has been made so far.
    #[cycle(check)]
    fn fold<'t>(
        &self,
        item: &'t str,
        total: &'t str,
        list: &'t Ast,
        start: &'t Ast,
        body: &'t Ast,
        scope: &mut Vec<Local<'t>>,
        wanted: Option<&Ty>,
    ) -> Result<Typed, TypeError>
        ensures exact { Answers typed_view result (fold_rule (wanted_view wanted.entry) (part (ast_view list.now) (typed_in self.now list.now scope.old.items)) (part (ast_view start.now) (typed_in self.now start.now scope.old.items)) (body_in self.now item.now total.now body.now scope.old.items)) }
        ensures locals { scope.new.items ≡ scope.old.items }
    {
        let list_typed = self.typed(list, scope, None)?;
        let item_type = copied_item(&list_typed.ty, list.at)?;
        let start = self.typed(start, scope, wanted)?;
        let body = self.fold_body(body, item, item_type, total, &start.ty, scope)?;
        folded(self.alloc, list_typed, start, body)
    }

    /// The body of a `foldl`, among an item and what has been made so far.
    #[cycle(check)]
    fn fold_body<'t>(
        &self,
        body: &'t Ast,
        item: &'t str,
        item_type: Ty,
        total: &'t str,
        total_type: &Ty,
        scope: &mut Vec<Local<'t>>,
    ) -> Result<Typed, TypeError>
        ensures exact { Answers typed_view result (body_in self.now item.now total.now body.now scope.old.items (ty_view item_type) (ty_view total_type.now) (Some (ty_view total_type.now))) }
        ensures locals { scope.new.items ≡ scope.old.items }
    {
        let locals = two_locals(self.alloc, item, item_type, total, total_type)?;
        self.inside(body, locals, scope, Some(total_type))
    }

    /// A call. What the name means comes before the arguments.
    #[cycle(check)]
    fn call<'t>(
        &self,
        name: &str,
        arguments: &'t Asts,
        scope: &mut Vec<Local<'t>>,
        spot: Spot<'_>,
    ) -> Result<Typed, TypeError>
        ensures exact { Answers typed_view result (call_rule (called_as (found name.now (scope_view scope.old.items) (decls_view self.now.decls.now))) (spot_view spot.entry) name.now (asts_from (map ast_view arguments.now.items)) (arguments_in self.now arguments.now.items spot.entry.at scope.old.items)) }
        ensures locals { scope.new.items ≡ scope.old.items }
    {
        match find_called(name, scope, self.decls) {
            Called::Predeclared(function) => { self.predeclared(function, arguments, scope, spot) }
            Called::Constructor {
                union,
                position,
                argument,
            } => {
                let argument = self.argument(arguments, argument, scope, spot.at)?;
                constructed(self.alloc, union, position, argument, spot)
            }
            Called::Function {
                number,
                parameters,
                result: given,
            } => {
                if arguments.is_empty() {
                    return Err(TypeError::Mismatch(spot.at));
                }
                let arguments = self.parts(arguments, 0, scope, parameters)?;
                function_called(number, parameters, given, arguments, spot)
            }
            Called::Nothing => Err(TypeError::Unknown(String::from_str(self.alloc, name)?)),
        }
    }

    /// A call of a predeclared function.
    #[tactic(auto, using(crate::proofs::CallFronts::first_is, crate::proofs::CallFronts::offset_is, crate::proofs::CallFronts::rest_is, crate::proofs::CallFronts::none_first))]
    #[cycle(check)]
    fn predeclared<'t>(
        &self,
        function: Predeclared,
        arguments: &'t Asts,
        scope: &mut Vec<Local<'t>>,
        spot: Spot<'_>,
    ) -> Result<Typed, TypeError>
        ensures exact { Answers typed_view result (from_arguments function (spot_view spot.entry) (arguments_in self.now arguments.now.items spot.entry.at scope.old.items)) }
        ensures locals { scope.new.items ≡ scope.old.items }
    {
        if arguments.is_empty() {
            return Err(TypeError::Mismatch(spot.at));
        }
        let wanted = first_wanted_by(function);
        let first = self.typed(&arguments[0], scope, lent(&wanted))?;
        let others = others_wanted_by(self.alloc, function, &first.ty, arguments[0].at)?;
        let rest = self.parts(arguments, 1, scope, &others)?;
        operation_makes(function, spot, first, &others, rest)
    }

    /// The argument of a constructor: one part is the argument, several are the parts of a tuple.
    #[cycle(check)]
    fn argument<'t>(
        &self,
        arguments: &'t Asts,
        wanted: &Ty,
        scope: &mut Vec<Local<'t>>,
        at: usize,
    ) -> Result<Expr, TypeError>
        ensures exact { Answers expr_view result (argument_rule (asts_from (map ast_view arguments.now.items)) (ty_view wanted.now) (arguments_in self.now arguments.now.items at scope.old.items)) }
        ensures locals { scope.new.items ≡ scope.old.items }
    {
        if arguments.is_empty() {
            return Err(TypeError::Mismatch(at));
        }
        if arguments.len() < 2 {
            let argument = self.typed(&arguments[0], scope, Some(wanted))?;
            return Ok(argument.expr);
        }
        let first = arguments[0].at;
        let parts = self.parts(arguments, 0, scope, parts_wanted(Some(wanted)))?;
        tuple_made(wanted, first, parts)
    }
}
