//! What writes an infix operator, and how tightly each of them binds.

ghost use Rattle.std.specs.Prelude.{◌≡◌, IfSome, None};
ghost use Rattle.cpn_syntax.specs.Inscriptions.{sign_of, precedence, left, right};

use cpn_lex::Symbol;
use cpn_trees::Infix;

/// How tightly the operator and its operands bind: 3 for `@+` to 10 for `*`.
pub(crate) fn precedence_of(operator: Infix) -> u8
    ensures { result ≡ precedence operator }
{
    match operator {
        Infix::Later => 3,
        Infix::Times => 4,
        Infix::Orelse => 5,
        Infix::Andalso => 6,
        Infix::Equal
        | Infix::NotEqual
        | Infix::Less
        | Infix::LessOrEqual
        | Infix::Greater
        | Infix::GreaterOrEqual => 7,
        Infix::Cons | Infix::Append => 8,
        Infix::Add | Infix::Subtract | Infix::Concatenate => 9,
        Infix::Multiply | Infix::Div | Infix::Mod => 10,
    }
}

/// How tightly the operand on its left has to bind.
pub(crate) fn left_of(operator: Infix) -> u8
    ensures { result ≡ left operator }
{
    match operator {
        Infix::Later => 4,
        Infix::Times | Infix::Orelse => 5,
        Infix::Andalso => 6,
        Infix::Equal
        | Infix::NotEqual
        | Infix::Less
        | Infix::LessOrEqual
        | Infix::Greater
        | Infix::GreaterOrEqual => 8,
        Infix::Cons | Infix::Append | Infix::Add | Infix::Subtract | Infix::Concatenate => 9,
        Infix::Multiply | Infix::Div | Infix::Mod => 10,
    }
}

/// How tightly the operand on its right has to bind.
pub(crate) fn right_of(operator: Infix) -> u8
    ensures { result ≡ right operator }
{
    match operator {
        Infix::Later | Infix::Times => 5,
        Infix::Orelse => 6,
        Infix::Andalso => 7,
        Infix::Equal
        | Infix::NotEqual
        | Infix::Less
        | Infix::LessOrEqual
        | Infix::Greater
        | Infix::GreaterOrEqual
        | Infix::Cons
        | Infix::Append => 8,
        Infix::Add | Infix::Subtract | Infix::Concatenate => 10,
        Infix::Multiply | Infix::Div | Infix::Mod => 11,
    }
}

/// The infix operator that the symbol writes; `None` where it writes none.
pub(crate) fn infix_of(symbol: Symbol) -> Option<Infix>
    ensures some { IfSome result (λ o. symbol ≡ sign_of o) }
    ensures none { result ≡ None → (o : Infix) → symbol ≡ sign_of o → ⊥ }
{
    match symbol {
        Symbol::AtPlus => Some(Infix::Later),
        Symbol::Backtick => Some(Infix::Times),
        Symbol::Orelse => Some(Infix::Orelse),
        Symbol::Andalso => Some(Infix::Andalso),
        Symbol::Equal => Some(Infix::Equal),
        Symbol::NotEqual => Some(Infix::NotEqual),
        Symbol::Less => Some(Infix::Less),
        Symbol::LessOrEqual => Some(Infix::LessOrEqual),
        Symbol::Greater => Some(Infix::Greater),
        Symbol::GreaterOrEqual => Some(Infix::GreaterOrEqual),
        Symbol::DoubleColon => Some(Infix::Cons),
        Symbol::DoubleCaret => Some(Infix::Append),
        Symbol::Plus => Some(Infix::Add),
        Symbol::Minus => Some(Infix::Subtract),
        Symbol::Caret => Some(Infix::Concatenate),
        Symbol::Star => Some(Infix::Multiply),
        Symbol::Div => Some(Infix::Div),
        Symbol::Mod => Some(Infix::Mod),
        _ => None,
    }
}
