//! What the check of what a monitor measures says.

use cpn_lex::{Tokens, lex};
use cpn_syntax::{parse_decl, parse_expr};
use cpn_types::{Decls, check_value, declare};
use std::alloc::{AllocError, Global};

/// Writes that the tokens are accepted as a value over the declarations, or why they are not.
pub fn tell_value(
    out: &mut String,
    alloc: Global,
    declarations: &[String],
    tokens: &Tokens,
) -> Result<(), AllocError> {
    let mut decls = Decls::new(alloc);
    for text in declarations {
        if !is_declared(alloc, &mut decls, text) {
            return write!(out, "not declared: {text}");
        }
    }
    match parse_expr(alloc, tokens) {
        Ok(written) => match check_value(alloc, &decls, &written) {
            Ok(_) => out.push_str("accepted"),
            Err(error) => write!(out, "{error:?}"),
        },
        Err(error) => write!(out, "{error:?}"),
    }
}

/// Declares the text, and says whether it is accepted.
fn is_declared(alloc: Global, decls: &mut Decls, text: &str) -> bool {
    let Ok(tokens) = lex(alloc, text.as_bytes()) else {
        return false;
    };
    match parse_decl(alloc, &tokens) {
        Ok(declaration) => declare(alloc, decls, &declaration).is_ok(),
        Err(_) => false,
    }
}
