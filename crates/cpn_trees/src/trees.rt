//! The trees of inscriptions.
//!
//! A tree is let go in a loop down a deep part, so that it takes little of the machine's stack, however deep it
//! is. Only where several parts of a form are deep, the others are let go inside the loop of one.

ghost use Rattle.std.specs.Prelude.{◌≡◌, ◌<◌, length};

use crate::depths::is_deeper;
use crate::operators::{Infix, Prefix};
use crate::patterns::Pat;

/// The most levels of a part that is let go with calls inside one another.
const FEW_LEVELS: u8 = 64;

/// Several inscriptions, from left to right.
pub type Asts = Vec<Ast>;

/// The tree of an inscription, with the offset of its first token. Parentheses around one inscription add
/// nothing to its tree.
#[cycle(tree)]
pub struct Ast {
    /// The offset of its first token in the text.
    pub at: usize,
    /// What is written there.
    pub form: Form,
}

impl Ast {
    /// The offset of its first token, and what is written there.
    pub fn into_parts(self) -> (usize, Form)
        ensures parts { self ≡ record { at = result.0; form = result.1 } }
    {
        let Self { at, form } = self;
        (at, form)
    }
}

/// What an inscription is: one form for each line of the grammar. Source: the inscriptions of CPN ML, in a
/// first-order profile.
#[derive(Drop)]
#[cycle(tree)]
pub enum Form {
    /// A number.
    Number(i64),
    /// A string, as the bytes that it means.
    Text(String),
    /// `true` or `false`.
    Truth(bool),
    /// `empty`, the multiset without tokens.
    Empty,
    /// `time`, the clock.
    Time,
    /// A name alone.
    Name(String),
    /// A function or a constructor with its arguments.
    Call {
        /// The name in front of the parenthesis.
        function: String,
        /// The arguments, at least one.
        arguments: Asts,
    },
    /// `()`
    Unit,
    /// A tuple of at least two parts.
    Tuple(Asts),
    /// A list, `[]` among them.
    List(Asts),
    /// `let val N = e .. in e end`
    Let {
        /// The values with their names, at least one.
        values: Vec<LocalValue>,
        /// The inscription in which the names stand for the values.
        body: Box<Ast>,
    },
    /// An operator in front of its operand.
    Prefix {
        /// The operator.
        operator: Prefix,
        /// Its operand.
        operand: Box<Ast>,
    },
    /// An operator between its operands.
    Infix {
        /// The operator.
        operator: Infix,
        /// The offset of its sign in the text.
        sign: usize,
        /// The operand on its left.
        left: Box<Ast>,
        /// The operand on its right.
        right: Box<Ast>,
    },
    /// `@` and a number, a token with its time stamp.
    Stamped {
        /// The token.
        term: Box<Ast>,
        /// The offset of the `@` in the text.
        sign: usize,
        /// Its time stamp.
        stamp: i64,
    },
    /// A multiset sum, `++`, of at least two parts.
    Sum(Asts),
    /// `if e then e else e`
    If {
        /// The condition.
        condition: Box<Ast>,
        /// What counts where it is true.
        consequence: Box<Ast>,
        /// What counts where it is false.
        alternative: Box<Ast>,
    },
    /// `case e of pat => e | ..`
    Case {
        /// What is matched.
        subject: Box<Ast>,
        /// The arms in order, at least one.
        arms: Vec<Arm>,
    },
    /// `foldl N , N over e from e do e`
    Fold {
        /// The name of an item in the body.
        item: String,
        /// The name of what the items before it gave.
        sum: String,
        /// The list.
        list: Box<Ast>,
        /// What stands for the sum before the first item.
        start: Box<Ast>,
        /// What the sum is after an item.
        body: Box<Ast>,
    },
}

/// An arm of a `case`.
#[derive(Drop)]
#[cycle(tree)]
pub struct Arm {
    /// What the subject has to match.
    pub pattern: Pat,
    /// What counts where it does.
    pub result: Ast,
}

/// A value of a `let` with its name.
#[derive(Drop)]
#[cycle(tree)]
pub struct LocalValue {
    /// The name.
    pub name: String,
    /// The value.
    pub value: Ast,
}

impl Drop for Ast {
    #[cycle(tree)]
    #[tactic(auto, using(crate::proofs::Sizes::most_left))]
    fn drop(mut self) {
        loop {
            match self {
                Ast { at: _, form } => match form {
                    Form::Name(_name) => return,
                    Form::Text(_text) => return,
                    Form::Prefix {
                        operator: _,
                        operand,
                    } => self = Box::into_inner(operand),
                    Form::Stamped {
                        term,
                        sign: _,
                        stamp: _,
                    } => self = Box::into_inner(term),
                    Form::Infix {
                        operator: _,
                        sign: _,
                        left,
                        right,
                    } => {
                        if is_deeper(&right, FEW_LEVELS) {
                            self = Box::into_inner(right);
                        } else {
                            self = Box::into_inner(left);
                        }
                    }
                    Form::Call {
                        function: _function,
                        arguments: mut parts,
                    } => {
                        if parts.is_empty() {
                            return;
                        }
                        let index = deep_part(&parts);
                        self = parts.remove(index);
                    }
                    Form::Tuple(mut parts) | Form::List(mut parts) | Form::Sum(mut parts) => {
                        if parts.is_empty() {
                            return;
                        }
                        let index = deep_part(&parts);
                        self = parts.remove(index);
                    }
                    Form::Let { mut values, body } => {
                        if values.is_empty() || is_deeper(&body, FEW_LEVELS) {
                            self = Box::into_inner(body);
                        } else {
                            let index = deep_value(&values);
                            let LocalValue { name: _name, value } = values.remove(index);
                            self = value;
                        }
                    }
                    Form::Case { subject, mut arms } => {
                        if arms.is_empty() || is_deeper(&subject, FEW_LEVELS) {
                            self = Box::into_inner(subject);
                        } else {
                            let index = deep_arm(&arms);
                            let Arm {
                                pattern: _pattern,
                                result,
                            } = arms.remove(index);
                            self = result;
                        }
                    }
                    Form::If {
                        condition,
                        consequence,
                        alternative,
                    } => {
                        if is_deeper(&alternative, FEW_LEVELS) {
                            self = Box::into_inner(alternative);
                        } else if is_deeper(&consequence, FEW_LEVELS) {
                            self = Box::into_inner(consequence);
                        } else {
                            self = Box::into_inner(condition);
                        }
                    }
                    Form::Fold {
                        item: _item,
                        sum: _sum,
                        list,
                        start,
                        body,
                    } => {
                        if is_deeper(&body, FEW_LEVELS) {
                            self = Box::into_inner(body);
                        } else if is_deeper(&start, FEW_LEVELS) {
                            self = Box::into_inner(start);
                        } else {
                            self = Box::into_inner(list);
                        }
                    }
                    Form::Number(_) | Form::Truth(_) | Form::Empty | Form::Time | Form::Unit => {
                        return;
                    }
                },
            }
        }
    }
}

/// The index of the first deep part, or 0.
fn deep_part(parts: &[Ast]) -> usize
    requires { 0 < length parts.now }
    ensures { result < length parts.now }
{
    match parts.iter().position(|part| is_deeper(part, FEW_LEVELS)) {
        Some(index) => index,
        None => 0,
    }
}

/// The index of the first deep value, or 0.
fn deep_value(values: &[LocalValue]) -> usize
    requires { 0 < length values.now }
    ensures { result < length values.now }
{
    match values
        .iter()
        .position(|local| is_deeper(&local.value, FEW_LEVELS))
    {
        Some(index) => index,
        None => 0,
    }
}

/// The index of the first arm with a deep result, or 0.
fn deep_arm(arms: &[Arm]) -> usize
    requires { 0 < length arms.now }
    ensures { result < length arms.now }
{
    match arms
        .iter()
        .position(|arm| is_deeper(&arm.result, FEW_LEVELS))
    {
        Some(index) => index,
        None => 0,
    }
}
