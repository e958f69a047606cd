// Writing bytes to a sink, all of them or as far as it goes.
ghost use Rattle.std.specs.Prelude.{◌≡◌, ℕ, ◌≤◌, OnOk, OnErr};
ghost use Rattle.std.specs.Io.KnownBytes.{Appends};
ghost use Rattle.cpn_io.specs.Outside.{Rose, AppendsProperPrefix};

use crate::outside::{Put, Sink};
use thiserror::Error;

/// A write failed, so the sink took not all of the bytes.
#[derive(Clone, Copy, Debug, PartialEq, Eq, Error)]
#[error("a write failed")]
pub struct WriteError;

/// Writes all of the bytes. It stops at the first write that fails: the sink then holds what it held and
/// a proper prefix of them.
pub fn write_all<K: Sink>(sink: &mut K, bytes: &[u8]) -> Result<(), WriteError>
    ensures ok { OnOk result (Appends (K.held sink.old) (K.held sink.new) bytes.now) }
    ensures err { OnErr result (AppendsProperPrefix (K.held sink.old) (K.held sink.new) bytes.now) }
    ensures failed { OnErr result (Rose (K.faults sink.old) (K.faults sink.new)) }
    ensures later { K.faults sink.old ≤ K.faults sink.new }
{
    let mut done = 0;
    while done < bytes.len() {
        match sink.write(&bytes[done..]) {
            Put::Took(count) => done += count,
            Put::Failed => return Err(WriteError),
        }
    }
    Ok(())
}
