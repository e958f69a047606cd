// Reading a source to its end.
ghost use Rattle.std.specs.Prelude.{◌≡◌, ℕ, ◌+◌, ◌<◌, ◌≤◌, [], Some, length, OnOk, IfOk, IfSome, IsErrOf};
ghost use Rattle.cpn_io.specs.Outside.{Rose, TakesAtMost};

use crate::outside::{Got, Source};
use std::alloc::{AllocError, Global};
use thiserror::Error;

/// The most bytes that a document may have.
pub const MOST_BYTES: usize = 16_777_216;

/// The most bytes that one read asks for.
const BUFFER_BYTES: usize = 4096;

/// Why a source was not read to its end.
#[derive(Clone, Copy, Debug, PartialEq, Eq, Error)]
pub enum ReadError {
    /// Memory ran out.
    #[error("want of memory")]
    Memory,
    /// A read failed.
    #[error("a read failed")]
    Failed,
    /// More than `MOST_BYTES` bytes come before the end.
    #[error("more than {MOST_BYTES} bytes")]
    TooLong,
}

impl From<AllocError> for ReadError {
    ghost use Rattle.std.specs.Prelude.{◌≡◌};
    ghost use Rattle.cpn_io.specs.declared.reading.ReadError.TheVariants as error;

    ghost from_gives = { λ _ e. e ≡ error.Memory };

    fn from(_error: AllocError) -> ReadError {
        ReadError::Memory
    }
}

/// Reads all bytes up to the end of the source. It takes `MOST_BYTES + 1` bytes at most, since that many
/// show that the source is too long.
pub fn read_all<S: Source>(alloc: Global, source: &mut S) -> Result<Vec<u8>, ReadError>
    ensures bytes { IfOk result (λ v. IfSome (S.left source.old) (λ xs. v.items ≡ xs)) }
    ensures short { IfOk result (λ v. length v.items ≤ MOST_BYTES) }
    ensures end { OnOk result (IfSome (S.left source.old) (λ _. S.left source.new ≡ Some [])) }

    // When a refusal comes. Want of memory is the one error without a cause.
    ensures failed { IsErrOf result ReadError.Failed →
        Rose (S.faults source.old) (S.faults source.new) }
    ensures too_long { IsErrOf result ReadError.TooLong →
        IfSome (S.left source.old) (λ xs. MOST_BYTES < length xs) }

    // What any answer leaves.
    ensures later { S.faults source.old ≤ S.faults source.new }
    ensures no_further { TakesAtMost (S.left source.old) (S.left source.new) (MOST_BYTES + 1) }
{
    let mut bytes = Vec::new(alloc);
    let mut buffer = [0u8; BUFFER_BYTES];
    while bytes.len() <= MOST_BYTES {
        let room = BUFFER_BYTES.min(MOST_BYTES + 1 - bytes.len());
        match source.read(&mut buffer[..room]) {
            Got::Bytes(count) => bytes.extend_from_slice(&buffer[..count])?,
            Got::End => return Ok(bytes),
            Got::Failed => return Err(ReadError::Failed),
        }
    }
    Err(ReadError::TooLong)
}
