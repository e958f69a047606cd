// The edge: the standard input and output of the running program. They pass on what the program's reader and
// writer tell of bytes, and count their errors. Those of the running system tell nothing, since no clause can
// say which bytes they give and take.
ghost use Rattle.std.specs.Prelude.{◌≡◌, ◌<◌, ◌≤◌, length};
ghost use Rattle.cpn_io.specs.Outside.{Rose, ReadDoes, WriteDoes};
ghost use Rattle.cpn_io.specs.OverStreams.{after_reading, after_writing};

use crate::outside::{Got, Put, Sink, Source};
use std::io::{Input, Print, Printer, Read, Write, writer};
use std::marker::Model;

/// The standard input. It tells of its bytes what its reader tells, and counts its errors from 0 to 2^64-1,
/// where it stops. For proofs it is a `StreamSource`.
#[derive(Drop)]
pub struct Stdin<R: Read + Drop> {
    reader: R,
    faults: u64,
}

impl<R: Read + Drop> Model for Stdin<R> {
    ghost use Rattle.cpn_io.specs.OverStreams.{StreamSource};

    ghost Value = { StreamSource };

    ghost view = { λ s. record { left = R.remaining s.reader; faults = s.faults } };
}

impl<R: Read + Drop> Stdin<R> {
    /// The standard input of this runtime, with no error yet.
    pub fn new<I: Input<Reader = R>>(rt: &I) -> Stdin<R>
        ensures { result.faults ≡ 0 }
    {
        Stdin {
            reader: rt.reader(),
            faults: 0,
        }
    }
}

impl<R: Read + Drop> Source for Stdin<R> {
    ghost left = { λ s. s.left };

    ghost faults = { λ s. s.faults };

    /// A read that gives nothing is the end, and an error a failed read.
    fn read(&mut self, buf: &mut [u8]) -> Got
        requires { 0 < length buf.old }

        // What each source promises.
        ensures bytes { ReadDoes self.old.left self.new.left result buf.new }
        ensures later { self.old.faults ≤ self.new.faults }
        ensures cause { result ≡ Got.Failed → Rose self.old.faults self.new.faults }

        // What this one does besides.
        ensures counts { self.new.faults ≡ after_reading self.old.faults result }
    {
        match self.reader.read(buf) {
            Ok(0) => Got::End,
            Ok(count) => Got::Bytes(count),
            Err(_) => {
                self.faults = self.faults.saturating_add(1);
                Got::Failed
            }
        }
    }
}

/// The standard output. It tells of its bytes what its writer tells, and counts its errors from 0 to 2^64-1,
/// where it stops. For proofs it is a `StreamSink`.
#[derive(Drop)]
pub struct Stdout<W: Write + Drop> {
    writer: W,
    faults: u64,
}

impl<W: Write + Drop> Model for Stdout<W> {
    ghost use Rattle.cpn_io.specs.OverStreams.{StreamSink};

    ghost Value = { StreamSink };

    ghost view = { λ s. record { held = W.contents s.writer; faults = s.faults } };
}

impl<'a, P: Print> Stdout<Printer<'a, P>> {
    /// The standard output of this runtime, with no error yet.
    pub fn new(rt: &'a P) -> Stdout<Printer<'a, P>>
        ensures { result.faults ≡ 0 }
    {
        Stdout {
            writer: writer(rt),
            faults: 0,
        }
    }
}

impl<W: Write + Drop> Sink for Stdout<W> {
    ghost held = { λ s. s.held };

    ghost faults = { λ s. s.faults };

    /// A write that takes nothing counts as an error.
    fn write(&mut self, bytes: &[u8]) -> Put
        requires { 0 < length bytes.now }

        // What each sink promises.
        ensures bytes { WriteDoes self.old.held self.new.held result bytes.now }
        ensures later { self.old.faults ≤ self.new.faults }
        ensures cause { result ≡ Put.Failed → Rose self.old.faults self.new.faults }

        // What this one does besides.
        ensures counts { self.new.faults ≡ after_writing self.old.faults result }
    {
        match self.writer.write(bytes) {
            Ok(0) | Err(_) => {
                self.faults = self.faults.saturating_add(1);
                Put::Failed
            }
            Ok(count) => Put::Took(count),
        }
    }
}
