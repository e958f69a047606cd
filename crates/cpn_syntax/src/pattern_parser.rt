//! The parser of patterns: a loop over the forms that are open.

ghost use Rattle.std.specs.Prelude.{◌≡◌, ◌≢◌, ◌≤◌, true, false, IfOk, IfErr, [], ◌∷◌, string_bytes};
ghost use Rattle.cpn_lex.specs.Token.{PlainToken};
ghost use Rattle.cpn_syntax.specs.declared.refusals.SyntaxError.TheVariants as errors;
ghost use Rattle.cpn_syntax.specs.Texts.{Is, IsName};
ghost use Rattle.cpn_lex.specs.declared.symbols.Symbol.TheVariants as sign;
ghost use Rattle.cpn_syntax.specs.Unread.{unread, Reads, Begins};
ghost use Rattle.cpn_trees.specs.Trees.{pat, pat_cons};
ghost use Rattle.cpn_syntax.specs.OpenPatterns.{inside, OpenPats};
ghost use Rattle.cpn_syntax.specs.ReadPatterns.{wanting, having, whole};
ghost use Rattle.cpn_trees.specs.PatForms.{pat_form_view};
ghost use Rattle.cpn_trees.specs.PatViews.{pat_view};
ghost use Rattle.cpn_syntax.specs.OpenPatViews.{parts_view, bracket_view, opens_view};
ghost use Rattle.cpn_syntax.specs.PatternReadings.{IsReadAsPattern, BreaksOffInPattern};
ghost use Rattle.cpn_syntax.specs.PatternSteps.{part_state, step_state, PatComes, PatBreaksOff};

use crate::open_patterns::{Bracket, OpenPattern, OpenPatterns, with_last};
use crate::readers::Reader;
use crate::refusals::SyntaxError;
use cpn_lex::{Kind, Symbol};
use cpn_trees::{Pat, PatForm, Pats};
use std::alloc::Global;

/// A part of a pattern that was read.
#[derive(Drop)]
struct Part {
    /// The offset of its first token.
    at: usize,
    /// How tightly it binds: 1 where `::` may take it as its item, else 0.
    precedence: u8,
    /// Its tree.
    tree: Pat,
}

/// How far the reading has come.
#[derive(Drop)]
enum Step {
    /// A part is to be read next.
    Wants,
    /// A part was read.
    Has(Part),
    /// The part that was read is the whole pattern.
    Whole(Pat),
}

/// Reads a pattern and the arrow behind it.
pub fn pattern(alloc: Global, reader: &mut Reader) -> Result<Pat, SyntaxError>
    ensures read { IfOk result (λ p. IsReadAsPattern (unread reader.old) (unread reader.new) (pat_view p)) }
    ensures stops { IfErr result (λ e. e ≢ errors.Memory → BreaksOffInPattern (unread reader.old) e) }
{
    let tree = whole_pattern(alloc, reader)?;
    reader.take(Symbol::Arrow)?;
    Ok(tree)
}

/// Reads a pattern, as far as the tokens may belong to it.
fn whole_pattern(alloc: Global, reader: &mut Reader) -> Result<Pat, SyntaxError>
    ensures comes { IfOk result (λ p. PatComes (wanting []) (unread reader.old) (whole (pat_view p)) (unread reader.new)) }
    ensures stops { IfErr result (λ e. e ≢ errors.Memory → PatBreaksOff (wanting []) (unread reader.old) e) }
{
    let mut forms = OpenPatterns::new(alloc);
    let mut step = Step::Wants;
    loop {
        step = match step {
            Step::Wants => begin(alloc, reader, &mut forms)?,
            Step::Has(part) => go_on(alloc, reader, &mut forms, part)?,
            Step::Whole(tree) => return Ok(tree),
        };
    }
}

/// Reads what begins a part: the whole of it, or a bracket's opening.
fn begin(alloc: Global, reader: &mut Reader, forms: &mut OpenPatterns) -> Result<Step, SyntaxError>
    ensures comes { IfOk result (λ step. PatComes (wanting (opens_view forms.old)) (unread reader.old) (step_state step (opens_view forms.new)) (unread reader.new)) }
    ensures stops { IfErr result (λ e. e ≢ errors.Memory → PatBreaksOff (wanting (opens_view forms.old)) (unread reader.old) e) }
{
    let Some(token) = reader.next() else {
        return Err(SyntaxError::EndOfText);
    };
    match &token.kind {
        Kind::Name(name) => {
            let name = String::from_str(alloc, name.as_str())?;
            begin_name(alloc, token.at, name, reader, forms)
        }
        Kind::Number(number) => Ok(simple(token.at, PatForm::Number(*number))),
        Kind::Text(text) => {
            let text = String::from_str(alloc, text.as_str())?;
            Ok(simple(token.at, PatForm::Text(text)))
        }
        Kind::Symbol(symbol) => begin_sign(alloc, token.at, *symbol, reader, forms),
    }
}

/// Reads what stands behind a name that begins a part.
fn begin_name(
    alloc: Global,
    at: usize,
    name: String,
    reader: &mut Reader,
    forms: &mut OpenPatterns,
) -> Result<Step, SyntaxError>
    ensures comes { IfOk result (λ step. (t : PlainToken) → IsName (string_bytes name) t → at ≡ t.at
        → PatComes (wanting (opens_view forms.old)) (t ∷ unread reader.old) (step_state step (opens_view forms.new)) (unread reader.new)) }
    ensures memory { IfErr result (λ e. e ≡ errors.Memory) }
{
    if !reader.accept(Symbol::OpenParenthesis) {
        return Ok(simple(at, PatForm::Name(name)));
    }
    forms.push_bracket(alloc, at, Bracket::Call(name))?;
    Ok(Step::Wants)
}

/// Reads what stands behind a sign that begins a part.
fn begin_sign(
    alloc: Global,
    at: usize,
    symbol: Symbol,
    reader: &mut Reader,
    forms: &mut OpenPatterns,
) -> Result<Step, SyntaxError>
    ensures comes { IfOk result (λ step. (t : PlainToken) → Is symbol t → at ≡ t.at
        → PatComes (wanting (opens_view forms.old)) (t ∷ unread reader.old) (step_state step (opens_view forms.new)) (unread reader.new)) }
    ensures stops { IfErr result (λ e. e ≢ errors.Memory → (t : PlainToken) → Is symbol t → at ≡ t.at
        → PatBreaksOff (wanting (opens_view forms.old)) (t ∷ unread reader.old) e) }
{
    match symbol {
        Symbol::Underscore => Ok(simple(at, PatForm::Any)),
        Symbol::True => Ok(simple(at, PatForm::Truth(true))),
        Symbol::False => Ok(simple(at, PatForm::Truth(false))),
        Symbol::OpenParenthesis => {
            if reader.accept(Symbol::CloseParenthesis) {
                return Ok(simple(at, PatForm::Unit));
            }
            forms.push_bracket(alloc, at, Bracket::Round)?;
            Ok(Step::Wants)
        }
        Symbol::OpenBracket => {
            if reader.accept(Symbol::CloseBracket) {
                return Ok(simple(at, PatForm::List(Vec::new(alloc))));
            }
            forms.push_bracket(alloc, at, Bracket::Square)?;
            Ok(Step::Wants)
        }
        _ => Err(SyntaxError::Unexpected(at)),
    }
}

/// A part with no patterns in it.
fn simple(at: usize, form: PatForm) -> Step
    ensures { (st : OpenPats) → step_state result st ≡ having at 1 (pat at (pat_form_view form)) st }
{
    Step::Has(Part {
        at,
        precedence: 1,
        tree: Pat { at, form },
    })
}

/// Goes on behind a part: with `::`, or with the innermost form.
fn go_on(
    alloc: Global,
    reader: &mut Reader,
    forms: &mut OpenPatterns,
    part: Part,
) -> Result<Step, SyntaxError>
    ensures comes { IfOk result (λ step. PatComes (part_state part (opens_view forms.old)) (unread reader.old) (step_state step (opens_view forms.new)) (unread reader.new)) }
    ensures stops { IfErr result (λ e. e ≢ errors.Memory → PatBreaksOff (part_state part (opens_view forms.old)) (unread reader.old) e) }
{
    if accept_cons(reader, part.precedence) {
        forms.push(OpenPattern::Behind {
            at: part.at,
            head: part.tree,
        })?;
        return Ok(Step::Wants);
    }
    match forms.pop() {
        None => Ok(Step::Whole(part.tree)),
        Some(OpenPattern::Behind { at, head }) => {
            let tree = cons(alloc, at, head, part.tree)?;
            Ok(Step::Has(Part {
                at,
                precedence: 0,
                tree,
            }))
        }
        Some(OpenPattern::Inside { bracket, at, parts }) => go_on_inside(
            reader, forms, bracket, at, parts, part,
        ),
    }
}

/// Whether `::` is next and takes a part that binds so tightly, and reads it if so.
fn accept_cons(reader: &mut Reader, precedence: u8) -> bool
    ensures yes { result ≡ true → (1 ≤ precedence) × Reads (Is sign.DoubleColon) (unread reader.old) (unread reader.new) }
    ensures no { result ≡ false → (unread reader.new ≡ unread reader.old) × (1 ≤ precedence → Begins (Is sign.DoubleColon) (unread reader.old) → ⊥) }
{
    precedence >= 1 && reader.accept(Symbol::DoubleColon)
}

/// The pattern of an item in front of a list.
fn cons(alloc: Global, at: usize, head: Pat, tail: Pat) -> Result<Pat, SyntaxError>
    ensures tree { IfOk result (λ tree. pat_view tree ≡ pat at (pat_cons (pat_view head) (pat_view tail))) }
    ensures memory { IfErr result (λ e. e ≡ errors.Memory) }
{
    let head = Box::new(alloc, head)?;
    let tail = Box::new(alloc, tail)?;
    Ok(Pat {
        at,
        form: PatForm::Cons { head, tail },
    })
}

/// Goes on with a bracket behind a part in it that no `::` takes: to its next part, or to its end.
fn go_on_inside(
    reader: &mut Reader,
    forms: &mut OpenPatterns,
    bracket: Bracket,
    at: usize,
    parts: Pats,
    part: Part,
) -> Result<Step, SyntaxError>
    ensures comes { IfOk result (λ step. PatComes (having part.at 0 (pat_view part.tree) (inside (bracket_view bracket) at (parts_view parts) ∷ opens_view forms.old)) (unread reader.old)
        (step_state step (opens_view forms.new)) (unread reader.new)) }
    ensures stops { IfErr result (λ e. e ≢ errors.Memory → PatBreaksOff (having part.at 0 (pat_view part.tree) (inside (bracket_view bracket) at (parts_view parts) ∷ opens_view forms.old)) (unread reader.old) e) }
{
    if reader.accept(Symbol::Comma) {
        let parts = with_last(parts, part.tree)?;
        forms.push(OpenPattern::Inside { bracket, at, parts })?;
        return Ok(Step::Wants);
    }
    reader.take(bracket.closing())?;
    let tree = bracket.around(at, parts, part.tree)?;
    Ok(Step::Has(Part {
        at,
        precedence: 1,
        tree,
    }))
}
