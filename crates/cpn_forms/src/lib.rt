//! The forms of an inscription of one value, each by itself: what it wants of its parts where these wait for a type, and what
//! it is made of them, or why it is refused; with what names mean where they stand, and the patterns of a `case`.
//!
//! The crate goes down no tree but that of a pattern: how the parts of a form are checked is not its matter.
#![tactic(auto)]

mod calls;
mod contexts;
mod forms;
mod leaves;
mod lookups;
mod made;
mod misplaced;
mod operators;
mod patterns;
mod scopes;
mod typed;

pub use calls::{
    Called, constructed, find_called, first_wanted_by, function_called, item_of, operation_makes,
    others_wanted_by, parts_wanted, tuple_made,
};
pub use contexts::{Context, Side};
pub use forms::{Arms, Branches, Items, Parts, Spot, copy_wanted, lent, meets};
pub use leaves::{check_name, check_time, text_literal};
pub use lookups::Predeclared;
pub use made::{chosen, folded, listed, nested, selected, tupled, two_locals};
pub use operators::{
    Sides, check_side, is_right_first, item_wanted, operand_makes, operand_wanted, other_wanted,
    side_wanted, sides_make, waits,
};
pub use patterns::{TypedPattern, check_pattern};
pub use scopes::{Local, is_local};
pub use typed::Typed;
