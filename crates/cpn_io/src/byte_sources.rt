// A source over memory, which fails just at the calls that are listed for it.
ghost use Rattle.std.specs.Prelude.{◌≡◌, ℕ, ◌<◌, ◌≤◌, ◌↔◌, length, Some};
ghost use Rattle.cpn_io.specs.Outside.{Rose, ReadDoes};
ghost use Rattle.cpn_io.specs.OverMemory.{new_source, ReadFails, GivesMost, after_read, filled};

use crate::outside::{Got, Source};
use std::marker::Model;

/// A source over memory, whose calls are numbered from 0. It gives its bytes in pieces, and fails just at
/// the calls whose numbers are listed. For proofs it is a `MemorySource`.
#[derive(Drop)]
pub struct BytesSource {
    bytes: Vec<u8>,
    at: usize,
    fails: Vec<u64>,
    piece: usize,
    next_call: u64,
    faults: u64,
}

impl Model for BytesSource {
    ghost use Rattle.std.specs.Prelude.{◌≤◌, drop, vec_len};
    ghost use Rattle.cpn_io.specs.OverMemory.{MemorySource};

    ghost Value = { MemorySource };

    ghost view = { λ s. record {
      left = drop s.at s.bytes.items;
      fails = s.fails.items;
      piece = s.piece;
      next_call = s.next_call;
      faults = s.faults;
    } };

    ghost invariant = { λ s. (s.at ≤ vec_len s.bytes) × (1 ≤ s.piece) };
}

impl BytesSource {
    /// A source of these bytes that gives up to `piece` of them a call, at least 1, and fails at the calls
    /// whose numbers are in `fails`.
    pub fn new(bytes: Vec<u8>, fails: Vec<u64>, piece: usize) -> BytesSource
        requires { 1 ≤ piece }
        ensures { result ≡ new_source bytes.items fails.items piece }
    {
        BytesSource {
            bytes,
            at: 0,
            fails,
            piece,
            next_call: 0,
            faults: 0,
        }
    }
}

impl Source for BytesSource {
    ghost left = { λ s. Some s.left };

    ghost faults = { λ s. s.faults };

    fn read(&mut self, buf: &mut [u8]) -> Got
        requires { 0 < length buf.old }

        // What each source promises.
        ensures bytes { ReadDoes (Some self.old.left) (Some self.new.left) result buf.new }
        ensures later { self.old.faults ≤ self.new.faults }
        ensures cause { result ≡ Got.Failed → Rose self.old.faults self.new.faults }

        // What this one does besides, to the byte.
        ensures fails { (result ≡ Got.Failed) ↔ ReadFails self.old }
        ensures most { GivesMost self.old (length buf.old) result }
        ensures after { self.new ≡ after_read self.old result }
        ensures buffer { buf.new ≡ filled self.old result buf.old }
    {
        let is_listed = self.fails.contains(&self.next_call);
        self.next_call = self.next_call.saturating_add(1);
        if is_listed {
            self.faults = self.faults.saturating_add(1);
            return Got::Failed;
        }
        let left = &self.bytes[self.at..];
        let count = self.piece.min(buf.len()).min(left.len());
        if count == 0 {
            return Got::End;
        }
        buf[..count].copy_from_slice(&left[..count]);
        self.at += count;
        Got::Bytes(count)
    }
}
