//! Inscriptions, once they are typed: of guards and delays, and of arcs and initial markings.
//!
//! Locals are numbered from 0, from the outermost binder inwards, those of one binder from left to right; the
//! parameters of a function come first. Source: our own profile of CPN ML.

ghost use Rattle.std.specs.Prelude.{◌≡◌, IfOk};
ghost use Rattle.cpn_core.specs.Inscriptions.{function_view, funs_view};

use crate::colours::Colour;
use crate::values::Value;
use cpn_memory::Memory;
use std::alloc::Global;
use std::sync::Arc;

/// What is done with the values of operands.
#[derive(Clone, Copy, Debug, PartialEq, Eq)]
pub enum Op {
    /// The sum of two integers, `+`.
    Add,
    /// The difference of two integers, `-`.
    Sub,
    /// The product of two integers, `*`.
    Mul,
    /// The quotient of two integers, rounded towards minus infinity, `div`.
    Div,
    /// What is left of that quotient, with the divisor's sign, `mod`.
    Mod,
    /// An integer with the other sign, `~`.
    Neg,
    /// Two strings as one, `^`.
    Cat,
    /// Whether two values are the same, `=`.
    Eq,
    /// Whether two values differ, `<>`.
    Ne,
    /// Whether the first of two integers or strings comes before the second, `<`.
    Lt,
    /// Whether the second does not come before the first, `<=`.
    Le,
    /// Whether the second comes before the first, `>`.
    Gt,
    /// Whether the first does not come before the second, `>=`.
    Ge,
    /// The other truth value, `not`.
    Not,
    /// A list with an item before it, `::`.
    Cons,
    /// Two lists as one, `^^`.
    Append,
    /// The first item of a list, `hd`.
    Head,
    /// A list without its first item, `tl`.
    Tail,
    /// How many items a list has, `length`.
    Length,
    /// A list backwards, `rev`.
    Rev,
    /// Whether a list has an item, `mem`.
    Mem,
    /// How many bytes a string has, `size`.
    Size,
    /// The component of a tuple at a position from 1, `#k`.
    Nth(u32),
}

/// Several patterns, one after another.
pub type Pats = Vec<Pat>;

/// A pattern of an arm of a `case`, or of a binding term.
#[derive(Drop)]
pub enum Pat {
    /// Fits each value.
    Any,
    /// Fits each value, and binds it: in a binding term to the variable of this number, in an arm as the local of this
    /// number.
    Var(u32),
    /// Fits the value itself.
    Lit(Value),
    /// Fits a tuple whose components fit, one for one.
    Tuple(Pats),
    /// Fits a list whose items fit, one for one.
    List(Pats),
    /// Fits a list whose first item and whose rest fit.
    Cons(Box<Pat>, Box<Pat>),
    /// Fits the constructor of a position without its argument, or with one that fits.
    Con(u32, Option<Box<Pat>>),
}

/// Several inscriptions, one after another.
pub type Exprs = Vec<Expr>;

/// An inscription whose meaning is a value.
#[cycle(expr)]
pub enum Expr {
    /// A literal, which means itself.
    Lit(Value),
    /// The variable of a number, which means the value that it is bound to.
    Var(u32),
    /// The local of a number.
    Local(u32),
    /// The time, `time`: the clock at which an element occurs.
    Time,
    /// An operation on the values of its operands.
    Op(Op, Exprs),
    /// `andalso`: the second is evaluated only where the first is true.
    And(Box<Expr>, Box<Expr>),
    /// `orelse`: the second is evaluated only where the first is false.
    Or(Box<Expr>, Box<Expr>),
    /// `if`: the condition, and what is evaluated where it is true and where it is false.
    If(Box<Expr>, Box<Expr>, Box<Expr>),
    /// `case`: the first arm whose pattern fits the value of the first part.
    Case(Box<Expr>, Vec<Arm>),
    /// `let`: the value of the first part is the next local of the second.
    Let(Box<Expr>, Box<Expr>),
    /// `foldl`: for each item of a list, from left to right.
    Fold {
        /// The list.
        list: Box<Expr>,
        /// What is made before the first item.
        start: Box<Expr>,
        /// What is made at an item; the next two locals are the item and what was made before it.
        body: Box<Expr>,
    },
    /// A tuple of the values of its parts.
    Tuple(Exprs),
    /// A list of the values of its parts.
    List(Exprs),
    /// The constructor of a position, without its argument or with it.
    Con(u32, Option<Box<Expr>>),
    /// A call of the function of a number.
    Call(u32, Exprs),
}

// Written out, so that whoever lets an inscription go calls this, and does not spell out its forms.
impl Drop for Expr {
    #[cycle(expr)]
    fn drop(self) {
        match self {
            Expr::Lit(_value) => {}
            Expr::Var(_number) => {}
            Expr::Local(_number) => {}
            Expr::Time => {}
            Expr::Op(_operation, _operands) => {}
            Expr::And(_left, _right) => {}
            Expr::Or(_left, _right) => {}
            Expr::If(_condition, _consequence, _alternative) => {}
            Expr::Case(_subject, _arms) => {}
            Expr::Let(_value, _body) => {}
            Expr::Fold {
                list: _list,
                start: _start,
                body: _body,
            } => {}
            Expr::Tuple(_parts) => {}
            Expr::List(_items) => {}
            Expr::Con(_position, _argument) => {}
            Expr::Call(_function, _arguments) => {}
        }
    }
}

/// An arm of a `case`.
#[derive(Drop)]
#[cycle(expr)]
pub struct Arm {
    /// What the value has to fit.
    pub pat: Pat,
    /// What is evaluated where it does; the next locals are the values that the pattern binds, from left to right.
    pub result: Expr,
}

/// A function that inscriptions may call; a `val` is one without parameters.
#[derive(Drop)]
pub struct Function {
    /// How many parameters it has.
    pub parameters: u32,
    /// Its body, in which it may call the functions before it. It may be shared.
    pub body: Arc<Expr>,
}

impl Function {
    /// The same function, which shares the body.
    ///
    /// # Errors
    ///
    /// Memory is wanted.
    pub fn share(&self) -> Result<Function, Memory>
        ensures same { IfOk result (λ shared. function_view shared ≡ function_view self.now) }
    {
        let body = self.body.clone()?;
        Ok(Function {
            parameters: self.parameters,
            body,
        })
    }
}

/// The functions of a net; a function's number is its position.
#[derive(Drop)]
pub struct Funs {
    /// The functions, in the order of their declarations.
    pub functions: Vec<Function>,
}

impl Funs {
    /// The same functions, which share their bodies.
    ///
    /// # Errors
    ///
    /// Memory is wanted.
    pub fn share(&self, alloc: Global) -> Result<Funs, Memory>
        ensures same { IfOk result (λ shared. funs_view shared ≡ funs_view self.now) }
    {
        let mut functions = Vec::with_capacity(alloc, self.functions.len())?;
        for function in &self.functions {
            functions.push(function.share()?)?;
        }
        Ok(Funs { functions })
    }
}

/// The guard of a transition: each conjunct means true. A missing guard has no conjunct.
#[derive(Drop)]
pub struct Guard {
    /// The conjuncts.
    pub conjuncts: Exprs,
}

/// Several inscriptions of an arc, one after another.
pub type MExprs = Vec<MExpr>;

/// An inscription of an arc or an initial marking, whose value is a multiset of tokens.
#[cycle(tokens)]
pub enum MExpr {
    /// `empty`: no token.
    Empty,
    /// One token of a value.
    One(Expr),
    /// A coefficient, a backtick and a value: so many tokens.
    Times(Expr, Expr),
    /// A sum of its parts.
    Sum(MExprs),
    /// `@+`: tokens with a delay.
    Later(Box<MExpr>, Expr),
    /// `@`: tokens with a time stamp, in an initial marking.
    At(Box<MExpr>, i64),
    /// `if`: the condition, and the tokens where it is true and where it is false.
    If(Expr, Box<MExpr>, Box<MExpr>),
    /// `case`: the first arm whose pattern fits the value of the first part.
    Case(Expr, Vec<MArm>),
    /// `let`: the value of the first part is the next local of the second.
    Let(Expr, Box<MExpr>),
}

// Written out, as that of `Expr`.
impl Drop for MExpr {
    #[cycle(tokens)]
    fn drop(self) {
        match self {
            MExpr::Empty => {}
            MExpr::One(_value) => {}
            MExpr::Times(_count, _value) => {}
            MExpr::Sum(_parts) => {}
            MExpr::Later(_tokens, _delay) => {}
            MExpr::At(_tokens, _stamp) => {}
            MExpr::If(_condition, _first, _second) => {}
            MExpr::Case(_subject, _arms) => {}
            MExpr::Let(_value, _tokens) => {}
        }
    }
}

/// An arm of a `case` over tokens.
#[derive(Drop)]
#[cycle(tokens)]
pub struct MArm {
    /// What the value has to fit.
    pub pat: Pat,
    /// The tokens where it does; the next locals are the values that the pattern binds, from left to right.
    pub result: MExpr,
}

/// A binding term of an input arc: so many tokens that a pattern fits.
#[derive(Drop)]
pub struct BindingTerm {
    /// The number of tokens, at least 1.
    pub count: u64,
    /// What their values are.
    pub pattern: Pat,
}

/// The inscription of an arc, for the colour set of its place.
#[derive(Drop)]
pub struct ArcExpr {
    /// The colour set of the arc's place.
    pub colour: Colour,
    /// The inscription.
    pub expr: MExpr,
    /// The binding terms of the inscription, where the arc is an input arc.
    pub terms: Vec<BindingTerm>,
}
