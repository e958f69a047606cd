//! The outside of the simulator: where the bytes of a document come from, and where those of a report go.
//!
//! A `Source` gives bytes and a `Sink` takes them, one call at a time, and either may fail at any call. What
//! a proof knows of them is two meanings each: the bytes that a source has left or a sink holds, where it
//! tells them, and a count of its faults, which starts at 0, never falls and stops at 2^64-1. Each call's
//! clauses say what it did to both: `Bytes(n)` and `Took(n)` move the next n bytes, at least one, `End`
//! comes just where nothing is left, and `Failed` moves none and comes only where the count rose. That a
//! count rose means everywhere that it rose or stands at its last value.
//!
//! `read_all` reads a source to its end, up to `MOST_BYTES` bytes, and `write_all` writes all of some bytes.
//! Their clauses name the whole of what was read and written, and say for each error when it comes and what
//! it leaves. So a caller whose counts of faults did not rise knows that a document within the limit was
//! read, unless memory ran out, and that a report was written.
//!
//! There are two kinds of sources and sinks. `BytesSource` and `BytesSink` stand over memory, are told to
//! the byte, and fail just at the calls that are listed for them, so that a program can be run against a
//! fault at any call. `Stdin` and `Stdout` are the edge to the running system. They tell of bytes what the
//! reader and the writer below them tell, and those of the system tell nothing, since no clause can say
//! what a terminal, a file or a pipe gives.
//!
//! The crate never looks into the bytes: it knows nothing of nets, documents or reports. It opens no file,
//! starts no thread, and makes no call again that failed.
#![tactic(auto)]

mod byte_sinks;
mod byte_sources;
mod outside;
mod reading;
mod standard_streams;
mod writing;

pub use byte_sinks::BytesSink;
pub use byte_sources::BytesSource;
pub use cpn_memory::Text;
pub use outside::{Got, Put, Sink, Source};
pub use reading::{MOST_BYTES, ReadError, read_all};
pub use standard_streams::{Stdin, Stdout};
pub use writing::{WriteError, write_all};
