//! The forms that are open while an inscription is read.

ghost use Rattle.std.specs.Prelude.{◌≡◌, IfOk, IfSome, OnOk, [], ◌∷◌, None};
ghost use Rattle.cpn_syntax.specs.OpenForms.{wanted, wants};
ghost use Rattle.cpn_syntax.specs.OpenViews.{open_view, opens_view};

use crate::operators::right_of;
use cpn_trees::{Arm, Ast, Asts, Infix, LocalValue, Pat, Prefix};
use std::alloc::{AllocError, Global};

/// A `foldl` that is open: what stands left of the part that is read next.
#[derive(Drop)]
pub enum OpenFold {
    /// `foldl N , N over` _
    List {
        /// The name of an item.
        item: String,
        /// The name of the sum.
        sum: String,
    },
    /// `foldl N , N over e from` _
    Start {
        /// The name of an item.
        item: String,
        /// The name of the sum.
        sum: String,
        /// The list.
        list: Ast,
    },
    /// `foldl N , N over e from e do` _
    Body {
        /// The name of an item.
        item: String,
        /// The name of the sum.
        sum: String,
        /// The list.
        list: Ast,
        /// What stands for the sum before the first item.
        start: Ast,
    },
}

/// A form that is open: what stands left of the part that is read next, with the offset of its first token.
#[derive(Drop)]
pub enum Open {
    /// `if` _
    Condition {
        /// The offset of the form.
        at: usize,
    },
    /// `if e then` _
    Consequence {
        /// The offset of the form.
        at: usize,
        /// The condition.
        condition: Ast,
    },
    /// `if e then e else` _
    Alternative {
        /// The offset of the form.
        at: usize,
        /// The condition.
        condition: Ast,
        /// What counts where it is true.
        consequence: Ast,
    },
    /// `case` _
    Subject {
        /// The offset of the form.
        at: usize,
    },
    /// `case e of {pat => e |} pat =>` _
    Arm {
        /// The offset of the form.
        at: usize,
        /// What is matched.
        subject: Ast,
        /// The arms before this one.
        arms: Vec<Arm>,
        /// The pattern of this arm.
        pattern: Pat,
    },
    /// `foldl N , N over` _, or further on in it
    Fold {
        /// The offset of the form.
        at: usize,
        /// What was read of it.
        fold: OpenFold,
    },
    /// terms of a sum, each with `++` behind it
    Terms {
        /// The offset of the first term.
        at: usize,
        /// The terms, at least one.
        parts: Asts,
    },
    /// an operator behind its left operand
    Behind {
        /// The offset of the left operand.
        at: usize,
        /// The operator.
        operator: Infix,
        /// The offset of its sign.
        sign: usize,
        /// Its left operand.
        left: Ast,
    },
    /// an operator in front of its operand
    Front {
        /// The offset of the operator.
        at: usize,
        /// The operator.
        operator: Prefix,
    },
    /// `( {e ,}` _
    Group {
        /// The offset of the parenthesis.
        at: usize,
        /// The parts before this one.
        parts: Asts,
    },
    /// `[ {e ,}` _
    Items {
        /// The offset of the bracket.
        at: usize,
        /// The items before this one.
        parts: Asts,
    },
    /// `N ( {e ,}` _
    Arguments {
        /// The offset of the name.
        at: usize,
        /// The name.
        function: String,
        /// The arguments before this one.
        parts: Asts,
    },
    /// `let {val N = e} val N =` _
    Local {
        /// The offset of the form.
        at: usize,
        /// The values before this one, with their names.
        values: Vec<LocalValue>,
        /// The name of this one.
        name: String,
    },
    /// `let val N = e {val N = e} in` _
    Body {
        /// The offset of the form.
        at: usize,
        /// The values with their names.
        values: Vec<LocalValue>,
    },
}

impl Open {
    /// How tightly the part that is read next has to bind.
    pub fn wanted(&self) -> u8
        ensures { result ≡ wanted (open_view self.now) }
    {
        match self {
            Open::Terms { .. } => 3,
            Open::Behind { operator, .. } => right_of(*operator),
            Open::Front { .. } => 11,
            _ => 0,
        }
    }
}

/// The forms that are open, each inside the one before it.
#[derive(Drop)]
pub struct OpenForms {
    forms: Vec<Open>,
}

impl OpenForms {
    /// No form is open.
    pub fn new(alloc: Global) -> OpenForms
        ensures { opens_view result ≡ [] }
    {
        OpenForms {
            forms: Vec::new(alloc),
        }
    }

    /// How tightly the part that is read next has to bind.
    pub fn wanted(&self) -> u8
        ensures { result ≡ wants (opens_view self.now) }
    {
        match self.forms.last() {
            Some(form) => form.wanted(),
            None => 0,
        }
    }

    /// Opens a form inside the others.
    pub fn push(&mut self, form: Open) -> Result<(), AllocError>
        ensures { OnOk result (opens_view self.new ≡ open_view form ∷ opens_view self.old) }
    {
        self.forms.push(form)?;
        Ok(())
    }

    /// Takes the innermost form away; `None` where no form is open.
    pub fn pop(&mut self) -> Option<Open>
        ensures some { IfSome result (λ form. opens_view self.old ≡ open_view form ∷ opens_view self.new) }
        ensures none { result ≡ None → (opens_view self.old ≡ []) × (opens_view self.new ≡ []) }
    {
        self.forms.pop()
    }
}

/// A part of an inscription that was read.
#[derive(Drop)]
pub struct Part {
    /// The offset of its first token, which may be a parenthesis around its tree.
    pub start: usize,
    /// How tightly it binds, 0 to 11.
    pub precedence: u8,
    /// Its tree.
    pub tree: Ast,
}

/// Where the reading stands: a part was read, or a form was opened whose next part is read next.
#[derive(Drop)]
pub enum Next {
    /// A part was read.
    Part(Part),
    /// A form was opened.
    Form(Open),
}
