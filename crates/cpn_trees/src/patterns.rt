//! The trees of the patterns of a `case`. They are let go as those of inscriptions are.

ghost use Rattle.std.specs.Prelude.{◌<◌, length};

use crate::depths::is_pattern_deeper;

/// The most levels of a part that is let go with calls inside one another.
const FEW_LEVELS: u8 = 64;

/// Several patterns, from left to right.
pub type Pats = Vec<Pat>;

/// A pattern, with the offset of its first token. Parentheses around one pattern add nothing to its tree.
#[cycle(pattern)]
pub struct Pat {
    /// The offset of its first token in the text.
    pub at: usize,
    /// What is written there.
    pub form: PatForm,
}

/// What a pattern is: one form for each line of the grammar.
#[derive(Drop)]
#[cycle(pattern)]
pub enum PatForm {
    /// `_`, which any value matches.
    Any,
    /// A name: a constant, a constructor, or a local that the pattern binds.
    Name(String),
    /// A number.
    Number(i64),
    /// A string, as the bytes that it means.
    Text(String),
    /// `true` or `false`.
    Truth(bool),
    /// A constructor with its argument, or with several that make a tuple.
    Call {
        /// The constructor's name.
        constructor: String,
        /// Its arguments, at least one.
        arguments: Pats,
    },
    /// `()`
    Unit,
    /// A tuple of at least two patterns.
    Tuple(Pats),
    /// A list, `[]` among them.
    List(Pats),
    /// `::`, an item in front of a list.
    Cons {
        /// The item.
        head: Box<Pat>,
        /// The list behind it.
        tail: Box<Pat>,
    },
}

impl Drop for Pat {
    #[cycle(pattern)]
    #[tactic(auto, using(crate::proofs::Sizes::most_left))]
    fn drop(mut self) {
        loop {
            match self {
                Pat { at: _, form } => match form {
                    PatForm::Name(_name) => return,
                    PatForm::Text(_text) => return,
                    PatForm::Call {
                        constructor: _constructor,
                        arguments: mut parts,
                    } => {
                        if parts.is_empty() {
                            return;
                        }
                        let index = deep_pattern(&parts);
                        self = parts.remove(index);
                    }
                    PatForm::Tuple(mut parts) | PatForm::List(mut parts) => {
                        if parts.is_empty() {
                            return;
                        }
                        let index = deep_pattern(&parts);
                        self = parts.remove(index);
                    }
                    PatForm::Cons { head, tail } => {
                        if is_pattern_deeper(&tail, FEW_LEVELS) {
                            self = Box::into_inner(tail);
                        } else {
                            self = Box::into_inner(head);
                        }
                    }
                    PatForm::Any | PatForm::Number(_) | PatForm::Truth(_) | PatForm::Unit => return,
                },
            }
        }
    }
}

/// The index of the first deep pattern, or 0.
fn deep_pattern(patterns: &[Pat]) -> usize
    requires { 0 < length patterns.now }
    ensures { result < length patterns.now }
{
    match patterns
        .iter()
        .position(|pattern| is_pattern_deeper(pattern, FEW_LEVELS))
    {
        Some(index) => index,
        None => 0,
    }
}
