//! What is left to do in the middle of an evaluation.

use crate::held::Held;
use cpn_core::{Arm, Binding, Expr, Funs, Op, Value};
use std::alloc::Global;
use std::collections::VecDeque;

/// Where an inscription is evaluated.
#[derive(Clone, Copy)]
pub struct World<'w> {
    /// The functions that may be called.
    pub funs: &'w Funs,
    /// The values of the variables.
    pub binding: &'w Binding,
    /// The time.
    pub time: u64,
}

/// What is done with the values of several parts.
#[derive(Clone, Copy)]
pub enum Head {
    /// An operation on operands.
    Op(Op),
    /// They are the items of a tuple.
    Tuple,
    /// They are the items of a list.
    List,
    /// They are the arguments of the function of a number.
    Call(u32),
}

/// What waits for a value.
#[derive(Drop)]
pub enum Frame<'w> {
    /// The parts before the value, and those behind it.
    Parts(Head, Vec<Held>, &'w [Expr]),
    /// An operation, and the value of its first operand, which stands somewhere.
    Beside(Op, &'w Value),
    /// An operation, and the number of the local that is its first operand.
    BesideLocal(Op, u32),
    /// The constructor of a position, to be applied to the value.
    Argument(u32),
    /// What is evaluated where the value is true.
    Also(&'w Expr),
    /// What is evaluated where the value is false.
    Otherwise(&'w Expr),
    /// What is evaluated where the value is true, and where it is false.
    Branches(&'w Expr, &'w Expr),
    /// What has the value as its next local.
    Body(&'w Expr),
    /// How many locals stay.
    Forget(usize),
    /// The arms, one of which the value may fit.
    Arms(&'w [Arm]),
    /// The start and the body of a fold over the value.
    Start(&'w Expr, &'w Expr),
    /// The items of a fold that are left, and its body.
    Items(VecDeque<Value>, &'w Expr),
    /// The caller of a function: the functions that it may call, and its locals.
    Caller(usize, Vec<Held>),
}

/// What is at hand.
#[derive(Drop)]
pub enum Now<'w> {
    /// An inscription that is not begun.
    Open(&'w Expr),
    /// A value.
    Given(Held),
}

/// What comes of a turn.
#[derive(Drop)]
pub enum Turn<'w> {
    /// The evaluation goes on.
    On(Now<'w>),
    /// It ends with a value.
    End(Held),
}

/// An evaluation.
#[derive(Drop)]
pub struct Machine<'w> {
    /// Where memory is taken from.
    pub alloc: Global,
    /// How many functions may be called.
    pub visible: usize,
    /// The values of the locals.
    pub locals: Vec<Held>,
    /// What waits, the last one first.
    pub frames: Vec<Frame<'w>>,
}
