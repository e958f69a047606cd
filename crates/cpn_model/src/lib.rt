//! Reads net documents as models: a net with its initial marking, the monitors that measure its runs, and the phases whose edits are made of it.
//!
//! [`open`] says what the bytes of a document are as a model, or refuses them: the document is loaded first (`cpn_file`), and then [`model_of`]
//! has its monitors checked against its net (`cpn_monitor_texts`), and the edits of its phases in that net (`cpn_edit_texts`). Each refusal has
//! its error line. The crate makes no edit and no run, and reads and writes nothing outside the program.
#![tactic(auto)]

mod lines;
mod models;
mod opening;
mod refusals;

pub use cpn_edit_texts::{Edit, EditError, Phase};
pub use models::{Model, model_of};
pub use opening::open;
pub use refusals::ModelError;
