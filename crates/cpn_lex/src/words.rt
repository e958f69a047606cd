//! The reserved words.

ghost use Rattle.std.specs.Prelude.{◌≡◌};
ghost use Rattle.cpn_lex.specs.Symbols.{words};
ghost use Rattle.cpn_lex.specs.Lookup.{symbol_in};

use crate::symbols::Symbol;

/// The reserved word that a name is, if it is one.
#[tactic(auto, unfolding(crate::specs::Lookup::symbol_in))]
pub(crate) fn word_of(name: &str) -> Option<Symbol>
    ensures { result ≡ symbol_in words name.now }
{
    match name {
        "colset" => Some(Symbol::Colset),
        "var" => Some(Symbol::Var),
        "val" => Some(Symbol::Val),
        "fun" => Some(Symbol::Fun),
        "with" => Some(Symbol::With),
        "product" => Some(Symbol::Product),
        "list" => Some(Symbol::List),
        "union" => Some(Symbol::Union),
        "timed" => Some(Symbol::Timed),
        "unit" => Some(Symbol::Unit),
        "bool" => Some(Symbol::Bool),
        "int" => Some(Symbol::Int),
        "string" => Some(Symbol::String),
        "if" => Some(Symbol::If),
        "then" => Some(Symbol::Then),
        "else" => Some(Symbol::Else),
        "case" => Some(Symbol::Case),
        "of" => Some(Symbol::Of),
        "let" => Some(Symbol::Let),
        "in" => Some(Symbol::In),
        "end" => Some(Symbol::End),
        "foldl" => Some(Symbol::Foldl),
        "over" => Some(Symbol::Over),
        "from" => Some(Symbol::From),
        "do" => Some(Symbol::Do),
        "andalso" => Some(Symbol::Andalso),
        "orelse" => Some(Symbol::Orelse),
        "not" => Some(Symbol::Not),
        "div" => Some(Symbol::Div),
        "mod" => Some(Symbol::Mod),
        "true" => Some(Symbol::True),
        "false" => Some(Symbol::False),
        "empty" => Some(Symbol::Empty),
        "time" => Some(Symbol::Time),
        _ => None,
    }
}
