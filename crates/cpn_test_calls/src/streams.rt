//! Sources and sinks over memory, in pieces and with faults in mid-stream, and as many bytes as may be.

use cpn_io::{BytesSink, BytesSource, MOST_BYTES, ReadError, Sink, Source, read_all, write_all};
use cpn_memory::Memory;
use std::alloc::{AllocError, Global};
use std::str;
use std::test::Fail;

// The bytes as a text.
fn shown(bytes: &[u8]) -> &str {
    str::from_utf8(bytes).unwrap_or("no text")
}

// Writes what six reads give, and what then stands in the buffer.
fn tell_reads(text: &mut String, source: &mut BytesSource) -> Result<(), AllocError> {
    let mut buffer = [b'.'; 12];
    for _ in 0..6 {
        let got = source.read(&mut buffer);
        let held = shown(&buffer);
        write!(text, "{got:?} {held}; ")?;
    }
    Ok(())
}

// Writes what six reads of 15 bytes give, in pieces of up to 10, where the calls 1 and 3 fail.
fn tell_source(text: &mut String, alloc: Global) -> Result<(), AllocError> {
    let fails = Vec::from_array(alloc, [1, 3])?;
    let bytes = b"abcdefghijklmno".to_vec(alloc)?;
    tell_reads(text, &mut BytesSource::new(bytes, fails, 10))
}

// Writes what four writes take, and what is then held.
fn tell_writes(text: &mut String, sink: &mut BytesSink) -> Result<(), AllocError> {
    for _ in 0..4 {
        let put = sink.write(b"abcdefgh");
        let held = shown(sink.bytes());
        write!(text, "{put:?} {held}; ")?;
    }
    Ok(())
}

// Writes what four writes take, in pieces of up to 5, where there is room for 6 bytes and call 1 fails.
fn tell_sink(text: &mut String, alloc: Global) -> Result<(), Memory> {
    let mut sink = BytesSink::new(alloc, Vec::from_array(alloc, [1])?, 5, 6)?;
    Ok(tell_writes(text, &mut sink)?)
}

// Writes what two readings to the end give.
fn tell_readings(
    text: &mut String,
    alloc: Global,
    source: &mut BytesSource,
) -> Result<(), AllocError> {
    for _ in 0..2 {
        match read_all(alloc, source) {
            Ok(bytes) => {
                let held = shown(&bytes);
                write!(text, "all {held}; ")?;
            }
            Err(error) => write!(text, "{error:?} ; ")?,
        }
    }
    Ok(())
}

// Writes what is read to the end where a read fails in mid-stream, and then again.
fn tell_broken_source(text: &mut String, alloc: Global) -> Result<(), AllocError> {
    let fails = Vec::from_array(alloc, [2])?;
    let bytes = b"abcdef".to_vec(alloc)?;
    tell_readings(text, alloc, &mut BytesSource::new(bytes, fails, 2))
}

// Writes whether bytes are written, one after another, and what is then held.
fn tell_writings(text: &mut String, sink: &mut BytesSink) -> Result<(), AllocError> {
    for bytes in "abcdef,xyz,,123".split(',') {
        let is_written = write_all(sink, bytes.as_bytes()).is_ok();
        let answer = if is_written { "all" } else { "failed" };
        let held = shown(sink.bytes());
        write!(text, "{answer} {held}; ")?;
    }
    Ok(())
}

// Writes what is written where a write fails in mid-stream and then the room ends.
fn tell_broken_sink(text: &mut String, alloc: Global) -> Result<(), Memory> {
    let mut sink = BytesSink::new(alloc, Vec::from_array(alloc, [2])?, 2, 9)?;
    Ok(tell_writings(text, &mut sink)?)
}

// What is told of the streams that the word is for.
fn told(alloc: Global, kind: &str) -> Result<String, Memory> {
    let mut text = String::new(alloc);
    tell(&mut text, alloc, kind)?;
    Ok(text)
}

fn tell(text: &mut String, alloc: Global, kind: &str) -> Result<(), Memory> {
    match kind {
        "reads" => Ok(tell_source(text, alloc)?),
        "writes" => tell_sink(text, alloc),
        "broken reads" => Ok(tell_broken_source(text, alloc)?),
        _ => tell_broken_sink(text, alloc),
    }
}

const TABLE: &[(&str, &str)] = &[
    (
        "reads",
        "Bytes(10) abcdefghij..; Failed abcdefghij..; Bytes(5) klmnofghij..; Failed klmnofghij..; End klmnofghij..; End klmnofghij..; ",
    ),
    (
        "writes",
        "Took(5) abcde; Failed abcde; Took(1) abcdea; Failed abcdea; ",
    ),
    // A fault in mid-stream leaves a proper prefix.
    ("broken reads", "Failed ; all ef; "),
    (
        "broken writes",
        "failed abcd; all abcdxyz; all abcdxyz; failed abcdxyz12; ",
    ),
];

#[test]
fn calls_move_pieces_and_fail_where_they_are_told(rt: HostRuntime) -> Result<(), Fail> {
    for (kind, wanted) in TABLE {
        assert_eq!(rt; told(rt.alloc(), kind)?.as_str(), *wanted);
    }
    Ok(())
}

// Whether all the bytes are written, where there is room for so many.
fn are_written(alloc: Global, bytes: &[u8], room: usize) -> Result<bool, Memory> {
    let mut sink = BytesSink::new(alloc, Vec::new(alloc), 5_000, room)?;
    Ok(write_all(&mut sink, bytes).is_ok() && sink.bytes() == bytes)
}

// Whether so many blanks are read to the end, and all of them written; `None` where they are too many.
fn are_passed_on(alloc: Global, count: usize) -> Result<Option<bool>, Memory> {
    let blanks = vec![in alloc; b' '; count]?;
    let mut source = BytesSource::new(blanks, Vec::new(alloc), 4_000);
    match read_all(alloc, &mut source) {
        Ok(bytes) => Ok(Some(are_written(alloc, &bytes, count)? && bytes.len() == count)),
        Err(ReadError::TooLong) => Ok(None),
        Err(_) => Ok(Some(false)),
    }
}

// How many bytes there are, and what becomes of them.
const COUNTS: &[(usize, Option<bool>)] = &[
    (0, Some(true)),
    (4_097, Some(true)),
    (100_001, Some(true)),
    (MOST_BYTES, Some(true)),
    (MOST_BYTES + 1, None),
];

#[test]
fn as_many_bytes_as_may_be_are_read_and_written(rt: HostRuntime) -> Result<(), Fail> {
    for (count, wanted) in COUNTS {
        assert!(rt; are_passed_on(rt.alloc(), *count)? == *wanted, "at {count}");
    }
    Ok(())
}
