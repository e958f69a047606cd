//! Checks the edits of a document, as they are written, in its net.
//!
//! [`check_phases`] goes from the phases as `cpn_document` reads them to phases whose edits can be made: another guard of a transition with
//! the variables that it then has, or other tokens on a place in the initial marking; or to the first refusal. [`check_edit`] does so for
//! one edit. The crate makes no run, and reads and writes nothing outside the program.
#![tactic(auto)]

mod checking;
mod copies;
mod edits;
mod guards;
mod initials;
mod laws;
mod making;
mod refusals;

pub use checking::{check_edit, check_phases};
pub use edits::{Edit, Phase};
pub use laws::one_check;
pub use making::after_edits;
pub use refusals::{EditError, Trouble};
