//! The nets of the modules of a document.
//!
//! [`accept`] goes from a document to what is declared in it, to how its modules are put together (`cpn_module`), and to a net for
//! each module ([`ModuleNet`]): its places with their initial markings, and its transitions with their arcs and variables; or to the
//! first refusal. Each such net is sound by itself. No instance of a module is made and nothing is evaluated. The crate reads and
//! writes nothing outside the program.
#![tactic(auto)]

mod accepting;
mod arcs;
mod bindable;
mod declarations;
mod joining;
mod nets;
mod places;
mod refusals;
mod transitions;

pub use accepting::{accept, one_acceptance};
pub use cpn_accepted::{Accepted, ModuleNet};
pub use refusals::NetError;
