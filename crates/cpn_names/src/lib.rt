//! Names, and what stands under them, found by their order.
//!
//! [`Names`] has the number of each of the names that it refers to, and [`Named`] keeps things in order, each under a name of its own. A name
//! is found in an ordered map, so whoever chooses the names cannot make it slow. The crate knows nothing of nets or documents, and reads and
//! writes nothing outside the program.
#![tactic(auto)]

mod named;
mod names;

pub use named::Named;
pub use names::Names;
