//! A space before a text, where there is one.

ghost use Rattle.std.specs.Prelude.{◌≡◌, ◌++◌, IfOk, string_bytes};
ghost use Rattle.cpn_file.specs.Spaces.{with_space};

use cpn_core::Memory;
use std::alloc::Global;

/// What stands before a text: a space, or nothing where the text is empty.
fn space_before(text: &str) -> &'static str
    ensures space { result.now ++ text.now ≡ with_space text.now }
{
    if text.is_empty() {
        return "";
    }
    " "
}

/// A text with a space before it, or the empty text.
pub(crate) fn spaced(alloc: Global, text: &str) -> Result<String, Memory>
    ensures spaced { IfOk result (λ spaced. string_bytes spaced ≡ with_space text.now) }
{
    let space = space_before(text);
    let spaced = format!(in alloc; "{space}{text}")?;
    Ok(spaced)
}
