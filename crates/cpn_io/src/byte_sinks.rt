// A sink over memory, which fails just at the calls that are listed for it and where it is full.
ghost use Rattle.std.specs.Prelude.{◌≡◌, ℕ, ◌<◌, ◌≤◌, ◌↔◌, length, Some, IfOk};
ghost use Rattle.cpn_io.specs.Outside.{Rose, WriteDoes};
ghost use Rattle.cpn_io.specs.OverMemory.{new_sink, WriteFails, TakesMost, after_write};

use crate::outside::{Put, Sink};
use cpn_memory::Memory;
use std::alloc::Global;
use std::marker::Model;

/// A sink over memory, whose calls are numbered from 0. It takes bytes in pieces as long as it has room,
/// and fails just at the calls whose numbers are listed and where no room is left. For proofs it is a
/// `MemorySink`.
#[derive(Drop)]
pub struct BytesSink {
    bytes: Vec<u8>,
    room: usize,
    fails: Vec<u64>,
    piece: usize,
    next_call: u64,
    faults: u64,
}

impl Model for BytesSink {
    ghost use Rattle.std.specs.Prelude.{◌≤◌, vec_len};
    ghost use Rattle.std.specs.Vec.{vec_capacity};
    ghost use Rattle.cpn_io.specs.OverMemory.{MemorySink};

    ghost Value = { MemorySink };

    ghost view = { λ s. record {
      held = s.bytes.items;
      room = s.room;
      fails = s.fails.items;
      piece = s.piece;
      next_call = s.next_call;
      faults = s.faults;
    } };

    ghost invariant = { λ s.
        (vec_len s.bytes ≤ s.room) × (s.room ≤ vec_capacity s.bytes) × (1 ≤ s.piece) };
}

impl BytesSink {
    /// An empty sink with room for `room` bytes, for which it takes the memory now and none later. It takes
    /// up to `piece` bytes a call, at least 1, and fails at the calls whose numbers are in `fails`.
    pub fn new(
        alloc: Global,
        fails: Vec<u64>,
        piece: usize,
        room: usize,
    ) -> Result<BytesSink, Memory>
        requires { 1 ≤ piece }
        ensures { IfOk result (λ sink. sink ≡ new_sink fails.items piece room) }
    {
        let bytes = Vec::with_capacity(alloc, room)?;
        Ok(BytesSink {
            bytes,
            room,
            fails,
            piece,
            next_call: 0,
            faults: 0,
        })
    }

    /// The bytes that the sink holds, in the order in which it took them.
    pub fn bytes(&self) -> &[u8]
        ensures { result.now ≡ self.now.held }
    {
        self.bytes.as_slice()
    }
}

impl Sink for BytesSink {
    ghost held = { λ s. Some s.held };

    ghost faults = { λ s. s.faults };

    fn write(&mut self, bytes: &[u8]) -> Put
        requires { 0 < length bytes.now }

        // What each sink promises.
        ensures bytes { WriteDoes (Some self.old.held) (Some self.new.held) result bytes.now }
        ensures later { self.old.faults ≤ self.new.faults }
        ensures cause { result ≡ Put.Failed → Rose self.old.faults self.new.faults }

        // What this one does besides, to the byte.
        ensures fails { (result ≡ Put.Failed) ↔ WriteFails self.old }
        ensures most { TakesMost self.old (length bytes.now) result }
        ensures after { self.new ≡ after_write self.old bytes.now result }
    {
        let is_listed = self.fails.contains(&self.next_call);
        self.next_call = self.next_call.saturating_add(1);
        let left = self.room - self.bytes.len();
        if is_listed || left == 0 {
            self.faults = self.faults.saturating_add(1);
            return Put::Failed;
        }
        let count = self.piece.min(bytes.len()).min(left);
        self.bytes.extend_from_slice(&bytes[..count]).unwrap();
        Put::Took(count)
    }
}
