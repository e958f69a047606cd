// What bytes come from and go to: one call gives or takes some of them, or fails.
ghost use Rattle.std.specs.Prelude.{◌≡◌, ℕ, ◌<◌, ◌≤◌, List, length};
ghost use Rattle.std.specs.declared.option.Option.{Option};
ghost use Rattle.cpn_io.specs.Outside.{Rose, ReadDoes, WriteDoes};

/// What one read of a source gave.
#[derive(Clone, Copy, Debug, PartialEq, Eq)]
pub enum Got {
    /// So many bytes, at least 1, at the front of the buffer.
    Bytes(usize),
    /// No byte is left.
    End,
    /// The read failed. It took no byte, and a later one may succeed.
    Failed,
}

/// What one write to a sink took.
#[derive(Clone, Copy, Debug, PartialEq, Eq)]
pub enum Put {
    /// So many bytes, at least 1, from the front of those handed over.
    Took(usize),
    /// The write failed. It took no byte, and a later one may succeed.
    Failed,
}

/// Where bytes come from. For proofs a source has two meanings: the bytes that are `left`, where it tells
/// them, and a count of its read `faults`, from 0 to 2^64-1, which never falls.
pub trait Source {
    ghost left: { Self → Option (List ℕ) };

    ghost faults: { Self → ℕ };

    /// Reads the next bytes into the front of the buffer, which is not empty.
    fn read(&mut self, buf: &mut [u8]) -> Got
        requires { 0 < length buf.old }
        ensures bytes { ReadDoes (left self.old) (left self.new) result buf.new }
        ensures later { faults self.old ≤ faults self.new }
        ensures cause { result ≡ Got.Failed → Rose (faults self.old) (faults self.new) };
}

/// Where bytes go to. For proofs a sink has two meanings: the bytes that are `held`, where it tells them,
/// and a count of its write `faults`, from 0 to 2^64-1, which never falls.
pub trait Sink {
    ghost held: { Self → Option (List ℕ) };

    ghost faults: { Self → ℕ };

    /// Writes some of the bytes, of which there is at least one, from their front.
    fn write(&mut self, bytes: &[u8]) -> Put
        requires { 0 < length bytes.now }
        ensures bytes { WriteDoes (held self.old) (held self.new) result bytes.now }
        ensures later { faults self.old ≤ faults self.new }
        ensures cause { result ≡ Put.Failed → Rose (faults self.old) (faults self.new) };
}
