//! Reads net documents: from the bytes of a document to its flat net and its initial marking.
//!
//! A document is one JSON value. [`load`] says what it is read as, or refuses it: its form is read first, whole (`cpn_document`); then its
//! declarations, its modules and its texts are accepted in their order (`cpn_module_nets`); then its flat net is made (`cpn_flat`). Each
//! refusal has its error line. The crate runs no net, and reads and writes nothing outside the program.
#![tactic(auto)]

mod fault_lines;
mod lines;
mod pointer_texts;
mod reading;
mod refusals;
mod spaces;
mod text_lines;

pub use cpn_document::{DocError, Pointer};
pub use cpn_flat::Loaded;
pub use fault_lines::fault_line_of;
pub use lines::pointer_line;
pub use reading::load;
pub use refusals::LoadError;
pub use text_lines::{inscription_line_of, typing_line_of};
