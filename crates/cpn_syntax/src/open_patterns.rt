//! The forms that are open while a pattern is read.

ghost use Rattle.std.specs.Prelude.{◌≡◌, IfOk, IfErr, [], ◌∷◌, ◌++◌, MatchOption};
ghost use Rattle.cpn_syntax.specs.declared.refusals.SyntaxError.TheVariants as errors;
ghost use Rattle.cpn_trees.specs.Trees.{pats_from};
ghost use Rattle.cpn_trees.specs.PatViews.{pat_view};
ghost use Rattle.cpn_syntax.specs.OpenPatterns.{inside, closing, bracketed};
ghost use Rattle.cpn_syntax.specs.OpenPatViews.{parts_view, bracket_view, open_view, opens_view};

use crate::refusals::SyntaxError;
use cpn_lex::Symbol;
use cpn_trees::{Pat, PatForm, Pats};
use std::alloc::Global;

/// What patterns with commas between them stand in.
#[derive(Drop)]
pub enum Bracket {
    /// `( )`, a group around one pattern, or a tuple.
    Round,
    /// `[ ]`, a list.
    Square,
    /// `N ( )`, a constructor of this name with its arguments.
    Call(String),
}

impl Bracket {
    /// The sign that closes it.
    pub fn closing(&self) -> Symbol
        ensures { result ≡ closing (bracket_view self.now) }
    {
        match self {
            Bracket::Round => Symbol::CloseParenthesis,
            Bracket::Square => Symbol::CloseBracket,
            Bracket::Call(_) => Symbol::CloseParenthesis,
        }
    }

    /// The pattern that it is around these parts and a last one, from the offset of its first token on.
    pub fn around(self, at: usize, parts: Pats, last: Pat) -> Result<Pat, SyntaxError>
        ensures tree { IfOk result (λ tree. pat_view tree ≡ bracketed (bracket_view self) at (pats_from (parts_view parts ++ pat_view last ∷ []))) }
        ensures memory { IfErr result (λ e. e ≡ errors.Memory) }
    {
        let form = match self {
            Bracket::Round => {
                if parts.is_empty() {
                    return Ok(last);
                }
                PatForm::Tuple(with_last(parts, last)?)
            }
            Bracket::Square => PatForm::List(with_last(parts, last)?),
            Bracket::Call(constructor) => PatForm::Call {
                constructor,
                arguments: with_last(parts, last)?,
            },
        };
        Ok(Pat { at, form })
    }
}

/// The patterns with one more behind them.
pub fn with_last(parts: Pats, last: Pat) -> Result<Pats, SyntaxError>
    ensures parts { IfOk result (λ all. parts_view all ≡ parts_view parts ++ pat_view last ∷ []) }
    ensures memory { IfErr result (λ e. e ≡ errors.Memory) }
{
    let mut all = parts;
    all.push(last)?;
    Ok(all)
}

/// A form that is open: what stands left of the part that is read next.
#[derive(Drop)]
pub enum OpenPattern {
    /// `::` behind its item in front.
    Behind {
        /// The offset of the first token.
        at: usize,
        /// The item in front.
        head: Pat,
    },
    /// A bracket, and patterns with a comma behind each.
    Inside {
        /// The bracket.
        bracket: Bracket,
        /// The offset of the first token.
        at: usize,
        /// The patterns.
        parts: Pats,
    },
}

/// The forms that are open.
#[derive(Drop)]
pub struct OpenPatterns {
    forms: Vec<OpenPattern>,
}

impl OpenPatterns {
    /// No form is open.
    pub fn new(alloc: Global) -> OpenPatterns
        ensures { opens_view result ≡ [] }
    {
        OpenPatterns {
            forms: Vec::new(alloc),
        }
    }

    /// Opens a form inside the others.
    pub fn push(&mut self, form: OpenPattern) -> Result<(), SyntaxError>
        ensures opened { IfOk result (λ _. opens_view self.new ≡ open_view form ∷ opens_view self.old) }
        ensures memory { IfErr result (λ e. e ≡ errors.Memory) }
    {
        self.forms.push(form)?;
        Ok(())
    }

    /// Opens a bracket with no part in it inside the others.
    pub fn push_bracket(
        &mut self,
        alloc: Global,
        at: usize,
        bracket: Bracket,
    ) -> Result<(), SyntaxError>
        ensures opened { IfOk result (λ _. opens_view self.new ≡ inside (bracket_view bracket) at [] ∷ opens_view self.old) }
        ensures memory { IfErr result (λ e. e ≡ errors.Memory) }
    {
        self.push(OpenPattern::Inside {
            bracket,
            at,
            parts: Vec::new(alloc),
        })
    }

    /// Takes the innermost form away, to go on with it or to complete it.
    pub fn pop(&mut self) -> Option<OpenPattern>
        ensures { MatchOption result ((opens_view self.old ≡ []) × (opens_view self.new ≡ [])) (λ form. opens_view self.old ≡ open_view form ∷ opens_view self.new) }
    {
        self.forms.pop()
    }
}
