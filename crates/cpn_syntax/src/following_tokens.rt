//! How the reading goes on behind a part of an inscription.

ghost use Rattle.std.specs.Prelude.{◌≡◌, ◌≢◌, ℤ, IfOk, IfErr, IfSome, None, [], ◌∷◌, ◌++◌, map, min, string_bytes};
ghost use Rattle.cpn_syntax.specs.Texts.{Text, Is, IsNumber};
ghost use Rattle.cpn_syntax.specs.Faults.{fault_at};
ghost use Rattle.cpn_syntax.specs.Unread.{unread, Reads, Begins};
ghost use Rattle.cpn_trees.specs.Trees.{ast, stamped};
ghost use Rattle.cpn_trees.specs.PatViews.{pat_view};
ghost use Rattle.cpn_trees.specs.AstViews.{ast_view, form_view, arm_view, local_view};
ghost use Rattle.cpn_lex.specs.Token.{PlainToken};
ghost use Rattle.cpn_syntax.specs.OpenForms.{Opens, wants, condition, consequence, alternative, subject, arm, fold_list, fold_start, fold_body, terms, behind, front, group, items, arguments, local, body};
ghost use Rattle.cpn_syntax.specs.OpenViews.{open_view, fold_view, opens_view, part_state};
ghost use Rattle.cpn_syntax.specs.ReadForms.{have};
ghost use Rattle.cpn_syntax.specs.Steps.{BreaksOff, ComesOn, StepIs, Closed, Unclosed, next_state, with_term};
ghost use Rattle.cpn_syntax.specs.Joints.{joint_sign, joint_left, joint_precedence, IsJoined, NothingJoins};
ghost use Rattle.cpn_syntax.specs.declared.following_tokens.Joint.{Joint};
ghost use Rattle.cpn_syntax.specs.declared.refusals.SyntaxError.TheVariants as errors;

use crate::open_forms::{Next, Open, OpenFold, OpenForms, Part};
use crate::operators::{infix_of, left_of, precedence_of};
use crate::pattern_parser::pattern;
use crate::readers::Reader;
use crate::refusals::SyntaxError;
use cpn_lex::Symbol;
use cpn_trees::{Arm, Ast, Asts, Form, Infix, LocalValue, Pat, Prefix};
use std::alloc::{AllocError, Global};

/// How the reading went on behind a part.
#[derive(Drop)]
pub enum Step {
    /// A larger part was read, or a form wants its next part.
    Next(Next),
    /// No form is open, and nothing goes on behind the part.
    Whole(Ast),
}

/// What may take the part before it as its left operand.
#[derive(Clone, Copy)]
enum Joint {
    /// An infix operator.
    Infix(Infix),
    /// `@`, in front of a time stamp.
    Stamp,
    /// `++`, between the terms of a sum.
    Term,
}

impl Joint {
    /// How tightly the part on its left has to bind.
    fn left(self) -> u8
        ensures { result ≡ joint_left self }
    {
        match self {
            Joint::Infix(operator) => left_of(operator),
            Joint::Stamp => 4,
            Joint::Term => 3,
        }
    }

    /// The most that a part may be wanted to bind where it stands in that part.
    fn precedence(self) -> u8
        ensures { result ≡ joint_precedence self }
    {
        match self {
            Joint::Infix(operator) => precedence_of(operator),
            Joint::Stamp | Joint::Term => 3,
        }
    }
}

/// What the symbol joins a part with.
fn joint_of(symbol: Symbol) -> Option<Joint>
    ensures some { IfSome result (λ j. symbol ≡ joint_sign j) }
    ensures none { result ≡ None → (j : Joint) → symbol ≡ joint_sign j → ⊥ }
{
    match symbol {
        Symbol::At => Some(Joint::Stamp),
        Symbol::DoublePlus => Some(Joint::Term),
        _ => match infix_of(symbol) {
            Some(operator) => Some(Joint::Infix(operator)),
            None => None,
        },
    }
}

/// A sign that takes the part before it as its left operand.
#[derive(Clone, Copy)]
struct Joined {
    /// What it joins the part with.
    joint: Joint,
    /// The offset of the sign.
    sign: usize,
}

/// Reads the sign that takes the part before it as its left operand: the part binds so tightly, and stands
/// in one that has to bind so tightly at least.
fn accept_joint(reader: &mut Reader, least: u8, precedence: u8) -> Option<Joined>
    ensures some { IfSome result (λ j. IsJoined precedence least j.joint × Reads (λ t. Is (joint_sign j.joint) t × (j.sign ≡ t.at)) (unread reader.old) (unread reader.new)) }
    ensures none { result ≡ None → (unread reader.new ≡ unread reader.old) × NothingJoins precedence least (unread reader.old) }
{
    let symbol = reader.peek_symbol()?;
    let joint = joint_of(symbol)?;
    if joint.left() > precedence || joint.precedence() < least {
        return None;
    }
    let token = reader.next()?;
    let sign = token.at;
    Some(Joined { joint, sign })
}

/// Goes on behind a part: with an operator that takes it as its left operand, or else with the innermost form.
pub fn go_on(
    alloc: Global,
    reader: &mut Reader,
    open: &mut OpenForms,
    part: Part,
) -> Result<Step, SyntaxError>
    ensures next { IfOk result (λ s. StepIs part (opens_view «open».old) (unread reader.old) s (opens_view «open».new) (unread reader.new)) }
    ensures stops { IfErr result (λ e. e ≢ errors.Memory → BreaksOff (part_state part (opens_view «open».old)) (unread reader.old) e) }
{
    match accept_joint(reader, open.wanted(), part.precedence) {
        Some(joined) => Ok(Step::Next(join(alloc, reader, open, joined, part)?)),
        None => match open.pop() {
            Some(form) => Ok(Step::Next(close(alloc, reader, form, part)?)),
            None => Ok(Step::Whole(part.tree)),
        },
    }
}

/// Goes on behind a part and the sign that takes it as its left operand.
fn join(
    alloc: Global,
    reader: &mut Reader,
    open: &mut OpenForms,
    joined: Joined,
    part: Part,
) -> Result<Next, SyntaxError>
    ensures next { IfOk result (λ n. (t : PlainToken) → IsJoined part.precedence (wants (opens_view «open».old)) joined.joint → Is (joint_sign joined.joint) t → joined.sign ≡ t.at
        → ComesOn (part_state part (opens_view «open».old)) (t ∷ unread reader.old) (next_state n (opens_view «open».new)) (unread reader.new)) }
    ensures stops { IfErr result (λ e. e ≢ errors.Memory → (t : PlainToken) → IsJoined part.precedence (wants (opens_view «open».old)) joined.joint → Is (joint_sign joined.joint) t → joined.sign ≡ t.at
        → BreaksOff (part_state part (opens_view «open».old)) (t ∷ unread reader.old) e) }
{
    let sign = joined.sign;
    match joined.joint {
        Joint::Infix(operator) => Ok(Next::Form(behind(operator, sign, part))),
        Joint::Stamp => Ok(Next::Part(stamp(alloc, reader, sign, part)?)),
        Joint::Term => Ok(Next::Form(add_term(alloc, open, part)?)),
    }
}

/// An operator behind its left operand.
fn behind(operator: Infix, sign: usize, part: Part) -> Open
    ensures { open_view result ≡ behind part.start operator sign (ast_view part.tree) }
{
    Open::Behind {
        at: part.start,
        operator,
        sign,
        left: part.tree,
    }
}

/// The number of a time stamp behind `@`, which stands at the offset.
fn stamp(alloc: Global, reader: &mut Reader, sign: usize, part: Part) -> Result<Part, SyntaxError>
    ensures stamped { IfOk result (λ p. (z : ℤ) × Reads (IsNumber z) (unread reader.old) (unread reader.new) × ((st : Opens) → part_state p st ≡ have part.start 3 (ast part.start (stamped (ast_view part.tree) sign z)) st)) }
    ensures refused { IfErr result (λ e. e ≢ errors.Memory → (e ≡ fault_at (unread reader.old)) × ((z : ℤ) → Begins (IsNumber z) (unread reader.old) → ⊥)) }
{
    let stamp = reader.take_number()?;
    let term = Box::new(alloc, part.tree)?;
    Ok(whole(part.start, 3, Form::Stamped { term, sign, stamp }))
}

/// The sum of the innermost form with a further term, or else a sum inside that form with its first one.
fn add_term(alloc: Global, open: &mut OpenForms, part: Part) -> Result<Open, AllocError>
    ensures { IfOk result (λ form. open_view form ∷ opens_view «open».new ≡ with_term part.start (ast_view part.tree) (opens_view «open».old)) }
{
    match open.pop() {
        Some(Open::Terms { at, parts }) => {
            let parts = with(parts, part.tree)?;
            Ok(Open::Terms { at, parts })
        }
        Some(form) => {
            open.push(form)?;
            first_term(alloc, part)
        }
        None => first_term(alloc, part),
    }
}

/// A sum with its first term.
fn first_term(alloc: Global, part: Part) -> Result<Open, AllocError>
    ensures { IfOk result (λ form. open_view form ≡ terms part.start (ast_view part.tree ∷ [])) }
{
    let at = part.start;
    let parts = with(Vec::new(alloc), part.tree)?;
    Ok(Open::Terms { at, parts })
}

/// A part that begins at an offset and binds so tightly.
fn whole(at: usize, precedence: u8, form: Form) -> Part
    ensures { (st : Opens) → part_state result st ≡ have at precedence (ast at (form_view form)) st }
{
    Part {
        start: at,
        precedence,
        tree: Ast { at, form },
    }
}

/// The parts with one more.
fn with(parts: Asts, tree: Ast) -> Result<Asts, AllocError>
    ensures { IfOk result (λ more. map ast_view more.items ≡ map ast_view parts.items ++ ast_view tree ∷ []) }
{
    let mut parts = parts;
    parts.push(tree)?;
    Ok(parts)
}

/// The arms with one more.
fn with_arm(arms: Vec<Arm>, pattern: Pat, tree: Ast) -> Result<Vec<Arm>, AllocError>
    ensures { IfOk result (λ more. map arm_view more.items ≡ map arm_view arms.items ++ (pat_view pattern, ast_view tree) ∷ []) }
{
    let mut arms = arms;
    arms.push(Arm {
        pattern,
        result: tree,
    })?;
    Ok(arms)
}

/// The values with one more.
fn with_value(
    values: Vec<LocalValue>,
    name: String,
    value: Ast,
) -> Result<Vec<LocalValue>, AllocError>
    ensures { IfOk result (λ more. map local_view more.items ≡ map local_view values.items ++ (string_bytes name, ast_view value) ∷ []) }
{
    let mut values = values;
    values.push(LocalValue { name, value })?;
    Ok(values)
}

/// Completes the form behind its last part, or goes on with it.
fn close(alloc: Global, reader: &mut Reader, form: Open, part: Part) -> Result<Next, SyntaxError>
    ensures closed { IfOk result (λ n. Closed part (open_view form) (unread reader.old) n (unread reader.new)) }
    ensures stops { IfErr result (λ e. Unclosed part (open_view form) (unread reader.old) e) }
{
    match form {
        Open::Behind {
            at,
            operator,
            sign,
            left,
        } => end_operand(alloc, at, operator, sign, left, part),
        Open::Front { at, operator } => end_prefix(alloc, at, operator, part),
        Open::Terms { at, parts } => end_sum(at, parts, part),
        Open::Condition { at } => take_then(reader, at, part),
        Open::Consequence { at, condition } => take_else(reader, at, condition, part),
        Open::Alternative {
            at,
            condition,
            consequence,
        } => end_if(alloc, at, condition, consequence, part),
        Open::Subject { at } => take_of(alloc, reader, at, part),
        Open::Arm {
            at,
            subject,
            arms,
            pattern,
        } => close_arm(alloc, reader, at, subject, arms, pattern, part),
        Open::Fold { at, fold } => close_fold(alloc, reader, at, fold, part),
        Open::Group { at, parts } => close_group(reader, at, parts, part),
        Open::Items { at, parts } => close_items(reader, at, parts, part),
        Open::Arguments {
            at,
            function,
            parts,
        } => close_call(reader, at, function, parts, part),
        Open::Local { at, values, name } => close_local(alloc, reader, at, values, name, part),
        Open::Body { at, values } => take_end(alloc, reader, at, values, part),
    }
}

/// An infix operator with its operands.
fn end_operand(
    alloc: Global,
    at: usize,
    operator: Infix,
    sign: usize,
    left: Ast,
    part: Part,
) -> Result<Next, SyntaxError>
    ensures closed { (text : Text) → IfOk result (λ n. Closed part (behind at operator sign (ast_view left)) text n text) }
    ensures stops { (text : Text) → IfErr result (λ e. Unclosed part (behind at operator sign (ast_view left)) text e) }
{
    let left = Box::new(alloc, left)?;
    let right = Box::new(alloc, part.tree)?;
    Ok(Next::Part(whole(
        at,
        precedence_of(operator),
        Form::Infix {
            operator,
            sign,
            left,
            right,
        },
    )))
}

/// A prefix operator with its operand.
fn end_prefix(alloc: Global, at: usize, operator: Prefix, part: Part) -> Result<Next, SyntaxError>
    ensures closed { (text : Text) → IfOk result (λ n. Closed part (front at operator) text n text) }
    ensures stops { (text : Text) → IfErr result (λ e. Unclosed part (front at operator) text e) }
{
    let operand = Box::new(alloc, part.tree)?;
    Ok(Next::Part(whole(at, 11, Form::Prefix { operator, operand })))
}

/// A sum with its last term.
fn end_sum(at: usize, parts: Asts, part: Part) -> Result<Next, SyntaxError>
    ensures closed { (text : Text) → IfOk result (λ n. Closed part (terms at (map ast_view parts.items)) text n text) }
    ensures stops { (text : Text) → IfErr result (λ e. Unclosed part (terms at (map ast_view parts.items)) text e) }
{
    let parts = with(parts, part.tree)?;
    Ok(Next::Part(whole(at, 2, Form::Sum(parts))))
}

/// `if` with its three parts.
fn end_if(
    alloc: Global,
    at: usize,
    condition: Ast,
    consequence: Ast,
    part: Part,
) -> Result<Next, SyntaxError>
    ensures closed { (text : Text) → IfOk result (λ n. Closed part (alternative at (ast_view condition) (ast_view consequence)) text n text) }
    ensures stops { (text : Text) → IfErr result (λ e. Unclosed part (alternative at (ast_view condition) (ast_view consequence)) text e) }
{
    let precedence = loosest(part.precedence);
    let condition = Box::new(alloc, condition)?;
    let consequence = Box::new(alloc, consequence)?;
    let alternative = Box::new(alloc, part.tree)?;
    Ok(Next::Part(whole(
        at,
        precedence,
        Form::If {
            condition,
            consequence,
            alternative,
        },
    )))
}

/// `foldl` with its parts.
fn end_fold(
    alloc: Global,
    at: usize,
    item: String,
    sum: String,
    list: Ast,
    start: Ast,
    part: Part,
) -> Result<Next, SyntaxError>
    ensures closed { (text : Text) → IfOk result (λ n. Closed part (fold_body at (string_bytes item) (string_bytes sum) (ast_view list) (ast_view start)) text n text) }
    ensures stops { (text : Text) → IfErr result (λ e. Unclosed part (fold_body at (string_bytes item) (string_bytes sum) (ast_view list) (ast_view start)) text e) }
{
    let precedence = loosest(part.precedence);
    let list = Box::new(alloc, list)?;
    let start = Box::new(alloc, start)?;
    let body = Box::new(alloc, part.tree)?;
    Ok(Next::Part(whole(
        at,
        precedence,
        Form::Fold {
            item,
            sum,
            list,
            start,
            body,
        },
    )))
}

/// How tightly a form binds whose last part reaches as far as it can.
fn loosest(precedence: u8) -> u8
    ensures { result ≡ min precedence 1 }
{
    if precedence == 0 { 0 } else { 1 }
}

/// `then` behind the condition.
fn take_then(reader: &mut Reader, at: usize, part: Part) -> Result<Next, SyntaxError>
    ensures closed { IfOk result (λ n. Closed part (condition at) (unread reader.old) n (unread reader.new)) }
    ensures stops { IfErr result (λ e. Unclosed part (condition at) (unread reader.old) e) }
{
    reader.take(Symbol::Then)?;
    Ok(Next::Form(Open::Consequence {
        at,
        condition: part.tree,
    }))
}

/// `else` behind what counts where the condition is true.
fn take_else(
    reader: &mut Reader,
    at: usize,
    condition: Ast,
    part: Part,
) -> Result<Next, SyntaxError>
    ensures closed { IfOk result (λ n. Closed part (consequence at (ast_view condition)) (unread reader.old) n (unread reader.new)) }
    ensures stops { IfErr result (λ e. Unclosed part (consequence at (ast_view condition)) (unread reader.old) e) }
{
    reader.take(Symbol::Else)?;
    Ok(Next::Form(Open::Alternative {
        at,
        condition,
        consequence: part.tree,
    }))
}

/// Completes a `foldl` behind its last part, or goes on with it.
fn close_fold(
    alloc: Global,
    reader: &mut Reader,
    at: usize,
    fold: OpenFold,
    part: Part,
) -> Result<Next, SyntaxError>
    ensures closed { IfOk result (λ n. Closed part (fold_view at fold) (unread reader.old) n (unread reader.new)) }
    ensures stops { IfErr result (λ e. Unclosed part (fold_view at fold) (unread reader.old) e) }
{
    match fold {
        OpenFold::List { item, sum } => take_from(reader, at, item, sum, part),
        OpenFold::Start { item, sum, list } => take_do(reader, at, item, sum, list, part),
        OpenFold::Body {
            item,
            sum,
            list,
            start,
        } => end_fold(alloc, at, item, sum, list, start, part),
    }
}

/// `from` behind the list.
fn take_from(
    reader: &mut Reader,
    at: usize,
    item: String,
    sum: String,
    part: Part,
) -> Result<Next, SyntaxError>
    ensures closed { IfOk result (λ n. Closed part (fold_list at (string_bytes item) (string_bytes sum)) (unread reader.old) n (unread reader.new)) }
    ensures stops { IfErr result (λ e. Unclosed part (fold_list at (string_bytes item) (string_bytes sum)) (unread reader.old) e) }
{
    reader.take(Symbol::From)?;
    let list = part.tree;
    let fold = OpenFold::Start { item, sum, list };
    Ok(Next::Form(Open::Fold { at, fold }))
}

/// `do` behind what stands for the sum before the first item.
fn take_do(
    reader: &mut Reader,
    at: usize,
    item: String,
    sum: String,
    list: Ast,
    part: Part,
) -> Result<Next, SyntaxError>
    ensures closed { IfOk result (λ n. Closed part (fold_start at (string_bytes item) (string_bytes sum) (ast_view list)) (unread reader.old) n (unread reader.new)) }
    ensures stops { IfErr result (λ e. Unclosed part (fold_start at (string_bytes item) (string_bytes sum) (ast_view list)) (unread reader.old) e) }
{
    reader.take(Symbol::Do)?;
    let fold = OpenFold::Body {
        item,
        sum,
        list,
        start: part.tree,
    };
    Ok(Next::Form(Open::Fold { at, fold }))
}

/// `end` behind the body of a `let`.
fn take_end(
    alloc: Global,
    reader: &mut Reader,
    at: usize,
    values: Vec<LocalValue>,
    part: Part,
) -> Result<Next, SyntaxError>
    ensures closed { IfOk result (λ n. Closed part (body at (map local_view values.items)) (unread reader.old) n (unread reader.new)) }
    ensures stops { IfErr result (λ e. Unclosed part (body at (map local_view values.items)) (unread reader.old) e) }
{
    reader.take(Symbol::End)?;
    let body = Box::new(alloc, part.tree)?;
    Ok(Next::Part(whole(at, 11, Form::Let { values, body })))
}

/// `of` behind what is matched, and the pattern of the first arm.
fn take_of(alloc: Global, reader: &mut Reader, at: usize, part: Part) -> Result<Next, SyntaxError>
    ensures closed { IfOk result (λ n. Closed part (subject at) (unread reader.old) n (unread reader.new)) }
    ensures stops { IfErr result (λ e. Unclosed part (subject at) (unread reader.old) e) }
{
    reader.take(Symbol::Of)?;
    let pattern = pattern(alloc, reader)?;
    Ok(Next::Form(Open::Arm {
        at,
        subject: part.tree,
        arms: Vec::new(alloc),
        pattern,
    }))
}

/// The next arm behind a bar, or the whole `case`.
fn close_arm(
    alloc: Global,
    reader: &mut Reader,
    at: usize,
    subject: Ast,
    arms: Vec<Arm>,
    arm_pattern: Pat,
    part: Part,
) -> Result<Next, SyntaxError>
    ensures closed { IfOk result (λ n. Closed part (arm at (ast_view subject) (map arm_view arms.items) (pat_view arm_pattern)) (unread reader.old) n (unread reader.new)) }
    ensures stops { IfErr result (λ e. Unclosed part (arm at (ast_view subject) (map arm_view arms.items) (pat_view arm_pattern)) (unread reader.old) e) }
{
    let arms = with_arm(arms, arm_pattern, part.tree)?;
    if 1 <= part.precedence && reader.accept(Symbol::Bar) {
        let pattern = pattern(alloc, reader)?;
        return Ok(Next::Form(Open::Arm {
            at,
            subject,
            arms,
            pattern,
        }));
    }
    let subject = Box::new(alloc, subject)?;
    Ok(Next::Part(whole(at, 0, Form::Case { subject, arms })))
}

/// The next part behind a comma, or the whole group or tuple.
fn close_group(reader: &mut Reader, at: usize, parts: Asts, part: Part) -> Result<Next, SyntaxError>
    ensures closed { IfOk result (λ n. Closed part (group at (map ast_view parts.items)) (unread reader.old) n (unread reader.new)) }
    ensures stops { IfErr result (λ e. Unclosed part (group at (map ast_view parts.items)) (unread reader.old) e) }
{
    if reader.accept(Symbol::Comma) {
        let parts = with(parts, part.tree)?;
        return Ok(Next::Form(Open::Group { at, parts }));
    }
    reader.take(Symbol::CloseParenthesis)?;
    if parts.is_empty() {
        return Ok(Next::Part(Part {
            start: at,
            precedence: 11,
            tree: part.tree,
        }));
    }
    let parts = with(parts, part.tree)?;
    Ok(Next::Part(whole(at, 11, Form::Tuple(parts))))
}

/// The next item behind a comma, or the whole list.
fn close_items(reader: &mut Reader, at: usize, parts: Asts, part: Part) -> Result<Next, SyntaxError>
    ensures closed { IfOk result (λ n. Closed part (items at (map ast_view parts.items)) (unread reader.old) n (unread reader.new)) }
    ensures stops { IfErr result (λ e. Unclosed part (items at (map ast_view parts.items)) (unread reader.old) e) }
{
    let parts = with(parts, part.tree)?;
    if reader.accept(Symbol::Comma) {
        return Ok(Next::Form(Open::Items { at, parts }));
    }
    reader.take(Symbol::CloseBracket)?;
    Ok(Next::Part(whole(at, 11, Form::List(parts))))
}

/// The next argument behind a comma, or the whole call.
fn close_call(
    reader: &mut Reader,
    at: usize,
    function: String,
    parts: Asts,
    part: Part,
) -> Result<Next, SyntaxError>
    ensures closed { IfOk result (λ n. Closed part (arguments at (string_bytes function) (map ast_view parts.items)) (unread reader.old) n (unread reader.new)) }
    ensures stops { IfErr result (λ e. Unclosed part (arguments at (string_bytes function) (map ast_view parts.items)) (unread reader.old) e) }
{
    let arguments = with(parts, part.tree)?;
    if reader.accept(Symbol::Comma) {
        return Ok(Next::Form(Open::Arguments {
            at,
            function,
            parts: arguments,
        }));
    }
    reader.take(Symbol::CloseParenthesis)?;
    Ok(Next::Part(whole(
        at,
        11,
        Form::Call {
            function,
            arguments,
        },
    )))
}

/// The next value of a `let`, or its body behind `in`.
fn close_local(
    alloc: Global,
    reader: &mut Reader,
    at: usize,
    values: Vec<LocalValue>,
    name: String,
    part: Part,
) -> Result<Next, SyntaxError>
    ensures closed { IfOk result (λ n. Closed part (local at (map local_view values.items) (string_bytes name)) (unread reader.old) n (unread reader.new)) }
    ensures stops { IfErr result (λ e. Unclosed part (local at (map local_view values.items) (string_bytes name)) (unread reader.old) e) }
{
    let values = with_value(values, name, part.tree)?;
    if reader.accept(Symbol::In) {
        return Ok(Next::Form(Open::Body { at, values }));
    }
    reader.take(Symbol::Val)?;
    let name = reader.take_name(alloc)?;
    reader.take(Symbol::Equal)?;
    Ok(Next::Form(Open::Local { at, values, name }))
}
