//! Want of memory, and the text that grows: what every crate that takes memory stands on.
//!
//! `Memory` is the one error that comes without a stated cause. `Text` is a list of bytes to which more are
//! pushed at its end. The crate knows nothing of nets, documents or reports, and reads and writes nothing
//! outside the program.
#![tactic(auto)]

mod memory_wanted;
mod texts;

pub use memory_wanted::Memory;
pub use texts::Text;
