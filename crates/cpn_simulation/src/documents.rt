//! Which bytes are the document.

ghost use Rattle.std.specs.Prelude.{◌≡◌, ◌<◌, ◌≤◌, [], length, Some, IfOk, OnOk, IfSome, IsErrOf};
ghost use Rattle.cpn_gen.specs.GeneratedNets.{generated};
ghost use Rattle.cpn_io.specs.Outside.{Rose};
ghost use Rattle.cpn_simulation.specs.Documents.{bytes_in};
ghost use Rattle.cpn_simulation.specs.Limits.{most_bytes};

use crate::options::{Mode, Options};
use cpn_core::Memory;
use cpn_gen::make_net;
use cpn_io::{ReadError, Source, read_all};
use std::alloc::Global;

/// The bytes of the document: all those that the source gives, or in mode `large`, where nothing is read, the generated net of the seed.
pub(crate) fn document_bytes<S: Source>(
    alloc: Global,
    options: &Options,
    source: &mut S,
) -> Result<Vec<u8>, ReadError>
    ensures bytes { IfOk result (λ bytes. IfSome (bytes_in options.now.mode options.now.seed (S.left source.old)) (λ xs. bytes.items ≡ xs)) }
    ensures short { IfOk result (λ bytes. length bytes.items ≤ most_bytes) }
    ensures end { OnOk result ((options.now.mode ≡ Mode.Large → ⊥) → IfSome (S.left source.old) (λ _. S.left source.new ≡ Some [])) }
    ensures unread { options.now.mode ≡ Mode.Large → source.new ≡ source.old }

    // When the source is refused, which is read in mode `run` alone.
    ensures failed { IsErrOf result ReadError.Failed → (options.now.mode ≡ Mode.Run) × Rose (S.faults source.old) (S.faults source.new) }
    ensures too_long { IsErrOf result ReadError.TooLong → (options.now.mode ≡ Mode.Run) × IfSome (S.left source.old) (λ xs. most_bytes < length xs) }
{
    match options.mode {
        Mode::Run => read_all(alloc, source),
        Mode::Large => match net_bytes(alloc, options.seed) {
            Ok(bytes) => Ok(bytes),
            Err(Memory) => Err(ReadError::Memory),
        },
    }
}

/// The bytes of the generated net of the number.
fn net_bytes(alloc: Global, number: u64) -> Result<Vec<u8>, Memory>
    ensures bytes { IfOk result (λ bytes. bytes.items ≡ generated number) }
    ensures short { IfOk result (λ bytes. length bytes.items ≤ most_bytes) }
{
    let text = make_net(alloc, number)?;
    let bytes = Vec::from_slice(alloc, text.bytes())?;
    Ok(bytes)
}
