//! The generated net of a number.

ghost use Rattle.std.specs.Prelude.{◌≡◌, ◌<◌, ◌^◌, Some, IfOk, IsUtf8, length};
ghost use Rattle.serde_json.specs.Read.{read};
ghost use Rattle.serde_json.specs.View.{view};
ghost use Rattle.cpn_gen.specs.GeneratedNets.{size_of, document, generated};

use crate::objects;
use crate::parts::{arcs, places, transitions};
use cpn_memory::{Memory, Text};
use serde_json::Value;
use std::alloc::Global;

/// The net document of the number, as text: a ring of `number % 1000 + 1` places.
///
/// # Errors
///
/// `Memory` where memory is wanted.
pub fn make_net(alloc: Global, number: u64) -> Result<Text, Memory>
    ensures text { IfOk result (λ text. text ≡ generated number) }
    // As UTF-8, and then as JSON, the text is the document.
    ensures utf8 { IfOk result IsUtf8 }
    ensures json { IfOk result (λ text. read text ≡ Some (document (size_of number))) }
    // It has fewer than 2,097,152 bytes.
    ensures short { IfOk result (λ text. length text < 2 ^ 21) }
{
    let net = ring(alloc, number % 1000 + 1)?;
    let bytes = net.to_vec(alloc)?;
    let mut text = Text::new(alloc);
    text.push(&bytes)?;
    Ok(text)
}

/// The document of a ring of `n` places.
fn ring(alloc: Global, n: u64) -> Result<Value, Memory>
    ensures { IfOk result (λ net. view net ≡ document n) }
{
    let arcs = arcs(alloc, n)?;
    let places = places(alloc, n)?;
    let transitions = transitions(alloc, n)?;
    let top = objects::module(alloc, arcs, places, transitions)?;
    let net = objects::document(alloc, top)?;
    Ok(net)
}
