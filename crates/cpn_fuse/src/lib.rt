//! Unfolds a hierarchy of modules into the instances of its modules, and joins the instances of its places into compound places.
//!
//! [`unfold`] gives the instances, or says of what there would be too many; [`compound`] gives the compound places. It reads and writes nothing outside the program.
#![tactic(auto)]

mod compound_places;
mod copies;
mod counts;
mod fusions;
mod instances;
mod preorder;
mod refusals;
mod sockets;
mod unfolding;

pub use compound_places::compound;
pub use instances::{Instance, PartOf};
pub use refusals::UnfoldError;
pub use unfolding::{Unfolded, one_unfolding, unfold};
