//! The tokens that are not read yet.

ghost use Rattle.std.specs.Prelude.{◌≡◌, ◌≢◌, ℕ, ℤ, List, IfOk, IfErr, [], ◌∷◌, None, IfSome, true, false, string_bytes};
ghost use Rattle.cpn_lex.specs.Token.{tokens_view, kind_view, token_view};
ghost use Rattle.cpn_syntax.specs.Texts.{Is, IsName, IsNumber};
ghost use Rattle.cpn_syntax.specs.Faults.{fault_at};
ghost use Rattle.cpn_syntax.specs.Unread.{unread, Reads, Begins};
ghost use Rattle.cpn_syntax.specs.declared.refusals.SyntaxError.TheVariants as errors;

use crate::refusals::SyntaxError;
use cpn_lex::{Kind, Symbol, Token};
use std::alloc::Global;

/// The tokens that are not read yet.
#[derive(Drop)]
pub struct Reader<'t> {
    rest: &'t [Token],
}

impl<'t> Reader<'t> {
    /// A reader of all the tokens.
    pub fn new(tokens: &'t [Token]) -> Reader<'t>
        ensures { unread result ≡ tokens_view tokens.now }
    {
        Reader { rest: tokens }
    }

    /// The next symbol, if a symbol is next. Nothing is read.
    pub fn peek_symbol(&self) -> Option<Symbol>
        ensures some { IfSome result (λ s. Begins (Is s) (unread self.now)) }
        ensures none { result ≡ None → (s : Symbol) → Begins (Is s) (unread self.now) → ⊥ }
    {
        match self.rest.first() {
            Some(token) => symbol_of(token),
            None => None,
        }
    }

    /// Reads the next token; `None` at the end of the text.
    pub fn next(&mut self) -> Option<&'t Token>
        ensures some { IfSome result (λ t. unread self.old ≡ token_view t.now ∷ unread self.new) }
        ensures none { result ≡ None → unread self.old ≡ [] }
    {
        match self.rest.split_first() {
            Some((token, rest)) => {
                self.rest = rest;
                Some(token)
            }
            None => None,
        }
    }

    /// Reads the symbol if it is next, and says whether it was.
    pub fn accept(&mut self, symbol: Symbol) -> bool
        ensures yes { result ≡ true → Reads (Is symbol) (unread self.old) (unread self.new) }
        ensures no { result ≡ false → (unread self.new ≡ unread self.old) × (Begins (Is symbol) (unread self.old) → ⊥) }
    {
        match self.rest.split_first() {
            Some((token, rest)) => {
                if !is_symbol(token, symbol) {
                    return false;
                }
                self.rest = rest;
                true
            }
            None => false,
        }
    }

    /// Reads the symbol, and gives the offset of its token.
    pub fn take(&mut self, symbol: Symbol) -> Result<usize, SyntaxError>
        ensures taken { IfOk result (λ at. Reads (λ t. Is symbol t × (at ≡ t.at)) (unread self.old) (unread self.new)) }
        ensures refused { IfErr result (λ e. (e ≡ fault_at (unread self.old)) × (Begins (Is symbol) (unread self.old) → ⊥)) }
    {
        match self.rest.split_first() {
            Some((token, rest)) => {
                let at = token.at;
                if !is_symbol(token, symbol) {
                    return Err(SyntaxError::Unexpected(at));
                }
                self.rest = rest;
                Ok(at)
            }
            None => Err(SyntaxError::EndOfText),
        }
    }

    /// Reads a name.
    pub fn take_name(&mut self, alloc: Global) -> Result<String, SyntaxError>
        ensures taken { IfOk result (λ name. Reads (IsName (string_bytes name)) (unread self.old) (unread self.new)) }
        ensures refused { IfErr result (λ e. e ≢ errors.Memory → (e ≡ fault_at (unread self.old)) × ((name : List ℕ) → Begins (IsName name) (unread self.old) → ⊥)) }
    {
        match self.rest.split_first() {
            Some((token, rest)) => match &token.kind {
                Kind::Name(name) => {
                    let name = String::from_str(alloc, name.as_str())?;
                    self.rest = rest;
                    Ok(name)
                }
                _ => Err(SyntaxError::Unexpected(token.at)),
            },
            None => Err(SyntaxError::EndOfText),
        }
    }

    /// Reads a number.
    pub fn take_number(&mut self) -> Result<i64, SyntaxError>
        ensures taken { IfOk result (λ z. Reads (IsNumber z) (unread self.old) (unread self.new)) }
        ensures refused { IfErr result (λ e. (e ≡ fault_at (unread self.old)) × ((z : ℤ) → Begins (IsNumber z) (unread self.old) → ⊥)) }
    {
        match self.rest.split_first() {
            Some((token, rest)) => match &token.kind {
                Kind::Number(number) => {
                    let number = *number;
                    self.rest = rest;
                    Ok(number)
                }
                _ => Err(SyntaxError::Unexpected(token.at)),
            },
            None => Err(SyntaxError::EndOfText),
        }
    }
}

/// Whether the token is the symbol.
fn is_symbol(token: &Token, symbol: Symbol) -> bool
    ensures yes { result ≡ true → Is symbol (token_view token.now) }
    ensures no { result ≡ false → Is symbol (token_view token.now) → ⊥ }
{
    match token.kind {
        Kind::Symbol(found) => found == symbol,
        _ => false,
    }
}

/// The symbol that the token is, if it is one.
fn symbol_of(token: &Token) -> Option<Symbol>
    ensures some { IfSome result (λ s. Is s (token_view token.now)) }
    ensures none { result ≡ None → (s : Symbol) → Is s (token_view token.now) → ⊥ }
{
    match token.kind {
        Kind::Symbol(symbol) => Some(symbol),
        _ => None,
    }
}
