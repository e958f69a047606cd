//! The JSON value of a document.

ghost use Rattle.std.specs.Prelude.{◌≡◌, None, IfOk, IfErr, IfSome};
ghost use Rattle.serde_json.specs.View.{view};
ghost use Rattle.cpn_document.specs.Refusals.{not_json};
ghost use Rattle.cpn_document.specs.Json.{IsJson, HasJson};
ghost use Rattle.cpn_document.specs.Answers.{refusal_of};

use crate::refusals::DocError;
use serde_json::Value;
use std::alloc::Global;

/// The JSON value that the bytes are; it is at most 127 levels deep.
///
/// # Errors
///
/// - [`DocError::NotJson`]: they are no JSON value.
/// - [`DocError::Memory`]: memory ran out.
pub(crate) fn value_of(alloc: Global, bytes: &[u8]) -> Result<Value, DocError>
    ensures json { IfOk result (λ value. IsJson bytes.now (view value)) }
    ensures refuses { IfErr result (λ e. IfSome (refusal_of e) (λ refusal. refusal ≡ not_json)) }
    // Where they are refused, no value is theirs.
    ensures no_value { IfErr result (λ e. IfSome (refusal_of e) (λ _. HasJson bytes.now None)) }
{
    match Value::from_slice(alloc, bytes) {
        Ok(value) => Ok(value),
        Err(error) => {
            if error.is_memory() {
                Err(DocError::Memory)
            } else {
                Err(DocError::NotJson)
            }
        }
    }
}
