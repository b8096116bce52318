//! Worked values of what stands for the input and the output of a program.
use super::ended;
use hp_base::{Got, MemSink, MemSource, Put, Sink, Source};
use std::alloc::{AllocError, Global};
use std::test::Fail;

const READ: &[(Got, usize)] = &[
    (Got::Bytes(2), 3),
    (Got::Failed, 3),
    (Got::Bytes(2), 1),
    (Got::Bytes(1), 0),
    (Got::End, 0),
];

// The first reading that gives something else, or leaves another number of bytes.
fn reads_otherwise(
    source: &mut MemSource,
    buf: &mut [u8; 4],
    read: &[(Got, usize)],
) -> Option<usize> {
    for at in 0..read.len() {
        let got = source.read(buf);
        if (got, source.left().len()) != read[at] {
            return Some(at);
        }
    }
    None
}

// The first reading that goes otherwise, of five bytes of which two are given at a time and the second reading fails, with what the buffer
// has at the end.
fn read_five(alloc: Global) -> Result<(Option<usize>, [u8; 4]), AllocError> {
    let bytes = Vec::from_slice(alloc, b"abcde")?;
    let fails = Vec::from_slice(alloc, &[2])?;
    let mut source = MemSource::new(bytes, 2, fails);
    let mut buf = [0; 4];
    let otherwise = reads_otherwise(&mut source, &mut buf, READ);
    Ok((otherwise, buf))
}

#[test]
fn a_source_gives_pieces_and_fails_where_told(rt: HostRuntime) -> Result<(), Fail> {
    let (otherwise, buf) = read_five(rt.alloc())?;
    assert!(rt; &buf[..2] == b"ed".as_slice());
    ended(otherwise)
}

const WRITTEN: &[(&[u8], Put)] = &[
    (b"abcde", Put::Took(3)),
    (b"de", Put::Failed),
    (b"de", Put::Took(2)),
];

// The first writing that answers something else.
fn writes_otherwise(sink: &mut MemSink, written: &[(&[u8], Put)]) -> Option<usize> {
    for at in 0..written.len() {
        let (bytes, put) = written[at];
        if bytes.is_empty() {
            return Some(at);
        }
        if sink.write(bytes) != put {
            return Some(at);
        }
    }
    None
}

// The first writing that answers something else, to a sink with room for five bytes, which takes three at a time and fails at the second
// writing, and whether it holds all.
fn write_five(alloc: Global) -> Result<(Option<usize>, bool), AllocError> {
    let fails = Vec::from_slice(alloc, &[2])?;
    let mut sink = MemSink::with_room(alloc, 5, 3, fails)?;
    let otherwise = writes_otherwise(&mut sink, WRITTEN);
    Ok((otherwise, sink.bytes() == b"abcde".as_slice()))
}

#[test]
fn a_sink_takes_pieces_and_fails_where_told(rt: HostRuntime) -> Result<(), Fail> {
    let (otherwise, holds_all) = write_five(rt.alloc())?;
    assert!(rt; holds_all);
    ended(otherwise)
}
