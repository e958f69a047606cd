//! Whether two nets have the same functions.

ghost use Rattle.std.specs.Prelude.{◌≡◌, ◌↔◌, IsTrue, map};
ghost use Rattle.cpn_core.specs.Inscriptions.{function_view, funs_view};
ghost use Rattle.cpn_same.specs.SameInscriptions.{same_function, same_functions};

use crate::same_inscriptions::same_expr;
use cpn_core::{Function, Funs};

/// Whether both are the same functions in the same order, each of as many parameters and with the same body.
///
/// Source: own choice.
pub fn same_funs(funs: &Funs, other: &Funs) -> bool
    ensures exact { result ≡ same_functions (funs_view funs.now) (funs_view other.now) }
    ensures same { IsTrue result ↔ (funs_view funs.now ≡ funs_view other.now) }
{
    same_each(&funs.functions, &other.functions)
}

#[tactic(auto, using(crate::proofs::Rows::functions_more, crate::proofs::Rows::functions_end))]
fn same_each(functions: &Vec<Function>, others: &Vec<Function>) -> bool
    ensures exact { result ≡ same_functions (map function_view functions.now.items) (map function_view others.now.items) }
{
    let shorter = functions.len().min(others.len());
    for i in 0..shorter {
        if !same_function(&functions[i], &others[i]) {
            return false;
        }
    }
    functions.len() == others.len()
}

fn same_function(function: &Function, other: &Function) -> bool
    ensures exact { result ≡ same_function (function_view function.now) (function_view other.now) }
{
    function.parameters == other.parameters && same_expr(&function.body, &other.body)
}
