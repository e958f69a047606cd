//! Whether two inscriptions are the same: two inscriptions of values, two of arcs, the functions of two nets; and whether two
//! binding elements are.
//!
//! The answer is exact: true where both stand for the same plain data, and else false. The calls go down an
//! inscription, which is at most 64 deep; functions are gone over in a loop. The crate evaluates nothing: two inscriptions
//! that are written differently are two, also where they always have one value.
#![tactic(auto)]

mod same_arcs;
mod same_colours;
mod same_elements;
mod same_functions;
mod same_inscriptions;
mod same_operations;
mod same_patterns;
mod same_tokens;

pub use same_arcs::same_arc_expr;
pub use same_colours::same_colour;
pub use same_elements::same_element;
pub use same_functions::same_funs;
pub use same_inscriptions::same_expr;
