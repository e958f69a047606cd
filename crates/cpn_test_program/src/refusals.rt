//! Why nothing is told.

use cpn_core::Memory;
use cpn_model::ModelError;
use std::alloc::{AllocError, Global};

/// Why nothing is told.
#[derive(Drop)]
pub enum Refusal {
    /// The words name nothing that the program does.
    Words,
    /// A file that they name, or standard input, is not read.
    File,
    /// The document is refused.
    Document(ModelError),
    /// Memory ran out.
    Memory,
}

impl Refusal {
    /// The line that says so, with its line feed. Want of memory has none.
    pub fn line(&self, alloc: Global) -> Result<String, Memory> {
        match self {
            Refusal::Words => Ok(String::from_str(alloc, "error words\n")?),
            Refusal::File => Ok(String::from_str(alloc, "error file\n")?),
            Refusal::Document(error) => error.line(alloc),
            Refusal::Memory => Err(Memory),
        }
    }
}

impl From<Memory> for Refusal {
    fn from(_memory: Memory) -> Refusal {
        Refusal::Memory
    }
}

impl From<AllocError> for Refusal {
    fn from(_error: AllocError) -> Refusal {
        Refusal::Memory
    }
}
