//! Sessions from their bytes to their bytes.

use hp_base::{MemSink, MemSource, Status};
use hp_bytes::{session, top};
use std::alloc::{AllocError, Global};
use std::test::Fail;

// An input, what is written for it, and the status.
type Row = (&'static str, &'static str, Status);

// What was written for an input by a source and a sink that fail at some calls, and how that ended.
fn answers(
    alloc: Global,
    input: &[u8],
    piece: usize,
    fails: (&[u64], &[u64]),
) -> Result<(Status, MemSink), AllocError> {
    let (source_fails, sink_fails) = fails;
    let mut source = MemSource::new(
        input.to_vec(alloc)?,
        piece.max(1),
        source_fails.to_vec(alloc)?,
    );
    let mut sink = MemSink::new(alloc, piece.max(1), sink_fails.to_vec(alloc)?);
    let status = session(alloc, &mut source, &mut sink);
    Ok((status, sink))
}

fn is_so(alloc: Global, row: &Row) -> Result<bool, AllocError> {
    let (input, output, status) = row;
    let (ended, sink) = answers(alloc, input.as_bytes(), 4096, (&[], &[]))?;
    Ok(ended == *status && sink.bytes() == output.as_bytes())
}

#[derive(Debug, Drop)]
struct Otherwise {
    place: usize,
}

// Each row comes out as it stands.
fn play(alloc: Global, rows: &[Row]) -> Result<(), Fail> {
    for (place, row) in rows.iter().enumerate() {
        if !is_so(alloc, row)? {
            return Err(Fail::from(Otherwise { place }));
        }
    }
    Ok(())
}

// Nothing at all, and lines of every word but `drop`.
const ALLOCATED: [Row; 4] = [
    ("", "", Status::Ok),
    (
        "new a 100\nnew b 64\nput a 0 255 4\ncopy a b\nget b 2 4\nput a 126 1 4\ncopy a a\n",
        "ok 0x1007fff80\nok 0x1007ffec0\nok\nok\nffff0000\nrange 128\nsame\n",
        Status::Ok,
    ),
    // A label that is live, sizes that are refused, and one that no element has room for.
    (
        "new a 1\nnew a 0\nnew b 0\nnew b 18446744073709551615\nnew b 8388481\nnew b 00064\n",
        "ok 0x1007fffc0\nexists\nbad zero\nbad overflow\nnone\nok 0x1007fff00\n",
        Status::Ok,
    ),
    // All of the memory but the header.
    (
        "new a 8388480\nnew b 1\n",
        "ok 0x100000080\nnone\n",
        Status::Ok,
    ),
];

#[test]
fn answers_where_an_element_lies(rt: HostRuntime) -> Result<(), Fail> {
    play(rt.alloc(), &ALLOCATED)
}

const LABELLED: [Row; 2] = [
    // Labels that are not live.
    (
        "put a 0 0 0\ncopy a a\nget a 0 1\ndrop a\nnew a 1\ncopy a b\ncopy b a\n",
        "nolabel\nnolabel\nnolabel\nnolabel\nok 0x1007fffc0\nnolabel\nnolabel\n",
        Status::Ok,
    ),
    // A label may be used again; what it has is 0 again, and what others have stays.
    (
        "new a 64\nnew b 64\nput a 0 16 64\nput b 0 171 2\ndrop a\nget a 0 1\nnew a 64\nget a 0 2\nget b 0 3\ndrop b\nget a 62 2\n",
        "ok 0x1007fffc0\nok 0x1007fff00\nok\nok\nok\nnolabel\nok 0x1007fffc0\n0000\nabab00\nok\n0000\n",
        Status::Ok,
    ),
];

#[test]
fn knows_live_labels_alone(rt: HostRuntime) -> Result<(), Fail> {
    play(rt.alloc(), &LABELLED)
}

const WRITTEN: [Row; 3] = [
    // The end of the data, and what passes it, also past 64 bits.
    (
        "new a 64\nput a 64 1 0\nput a 0 1 64\nput a 1 1 64\nput a 18446744073709551615 1 1\nget a 63 1\nget a 63 2\nget a 64 1\n",
        "ok 0x1007fffc0\nok\nok\nrange 64\nrange 64\n01\nrange 64\nrange 64\n",
        Status::Ok,
    ),
    // The smaller of two is copied whole, or filled.
    (
        "new a 128\nnew b 64\nput a 0 1 128\nput b 0 2 64\ncopy b a\nget a 62 4\nput a 0 3 128\ncopy a b\nget b 60 4\n",
        "ok 0x1007fff80\nok 0x1007ffec0\nok\nok\nok\n02020101\nok\nok\n03030303\n",
        Status::Ok,
    ),
    // 64 bytes are the most that a line shows.
    (
        "new ~!a 64\nget ~!a 0 64\n",
        "ok 0x1007fffc0\n00000000000000000000000000000000000000000000000000000000000000000000000000000000000000000000000000000000000000000000000000000000\n",
        Status::Ok,
    ),
];

#[test]
fn writes_and_shows_within_the_data(rt: HostRuntime) -> Result<(), Fail> {
    play(rt.alloc(), &WRITTEN)
}

const fn refused(input: &'static str, output: &'static str) -> Row {
    (input, output, Status::BadWorkload)
}

// A label of 64 bytes, and one of 65.
const LONGEST: Row = (
    "drop aaaaaaaaaaaaaaaaaaaaaaaaaaaaaaaaaaaaaaaaaaaaaaaaaaaaaaaaaaaaaaaa\n",
    "nolabel\n",
    Status::Ok,
);

const TOO_LONG: Row = (
    "drop aaaaaaaaaaaaaaaaaaaaaaaaaaaaaaaaaaaaaaaaaaaaaaaaaaaaaaaaaaaaaaaaa\n",
    "refused line 1 Form\n",
    Status::BadWorkload,
);

const REFUSED: [(&str, &str); 22] = [
    ("\n", "refused line 1 Form\n"),
    ("new a 1", "refused line 1 Form\n"),
    ("new a 1\n\n", "refused line 2 Form\n"),
    ("new a 1\ndrop a", "refused line 2 Form\n"),
    ("New a 1\n", "refused line 1 Form\n"),
    ("new  a 1\n", "refused line 1 Form\n"),
    (" new a 1\n", "refused line 1 Form\n"),
    ("new a 1 \n", "refused line 1 Form\n"),
    ("new a\t1\n", "refused line 1 Form\n"),
    ("new a 1\r\n", "refused line 1 Form\n"),
    ("new a\n", "refused line 1 Form\n"),
    ("new a -1\n", "refused line 1 Form\n"),
    ("new a +1\n", "refused line 1 Form\n"),
    ("new a 0x1\n", "refused line 1 Form\n"),
    ("new a 18446744073709551616\n", "refused line 1 Form\n"),
    ("new caf\u{e9} 1\n", "refused line 1 Form\n"),
    ("put a 0 256 1\n", "refused line 1 Form\n"),
    ("get a 0 0\n", "refused line 1 Form\n"),
    ("get a 0 65\n", "refused line 1 Form\n"),
    ("copy a\n", "refused line 1 Form\n"),
    ("drop a b\n", "refused line 1 Form\n"),
    ("copy a b\ndrop\n", "refused line 2 Form\n"),
];

#[test]
fn refuses_what_is_of_no_form(rt: HostRuntime) -> Result<(), Fail> {
    for (place, (input, output)) in REFUSED.iter().enumerate() {
        if !is_so(rt.alloc(), &refused(input, output))? {
            return Err(Fail::from(Otherwise { place }));
        }
    }
    Ok(())
}

#[test]
fn takes_labels_of_64_bytes(rt: HostRuntime) -> Result<(), Fail> {
    play(rt.alloc(), &[LONGEST, TOO_LONG])
}

// Lines `drop a` and a newline, so many bytes in all.
fn drops(alloc: Global, len: usize) -> Result<Vec<u8>, AllocError> {
    let mut input = Vec::new(alloc);
    for place in 0..len {
        input.push(b"drop a\n"[place % 7])?;
    }
    Ok(input)
}

// How an input of so many bytes ends, and how many bytes are written.
fn ended(alloc: Global, len: usize) -> Result<(Status, usize), AllocError> {
    let input = drops(alloc, len)?;
    let (status, sink) = answers(alloc, input.as_slice(), 1000, (&[], &[]))?;
    Ok((status, sink.bytes().len()))
}

#[test]
fn reads_65536_bytes(rt: HostRuntime) -> Result<(), Fail> {
    let most = ended(rt.alloc(), 65_534)?;
    assert!(rt; most == (Status::Ok, 9362 * 8));
    let cut = ended(rt.alloc(), 65_536)?;
    assert!(rt; cut == (Status::BadWorkload, 23));
    let more = ended(rt.alloc(), 65_537)?;
    assert!(rt; more == (Status::TooLong, 0));
    Ok(())
}

// How the second of these rows ends over pieces of 5 bytes where a call of the source or of the sink fails, and how many bytes are written.
fn failed(alloc: Global, fails: (&[u64], &[u64])) -> Result<(Status, usize), AllocError> {
    let (status, sink) = answers(alloc, ALLOCATED[1].0.as_bytes(), 5, fails)?;
    Ok((status, sink.bytes().len()))
}

#[test]
fn says_whether_reading_or_writing_failed(rt: HostRuntime) -> Result<(), Fail> {
    assert!(rt; failed(rt.alloc(), (&[1], &[]))? == (Status::ReadFault, 0));
    assert!(rt; failed(rt.alloc(), (&[3], &[]))? == (Status::ReadFault, 0));
    assert!(rt; failed(rt.alloc(), (&[], &[1]))? == (Status::WriteFault, 0));
    assert!(rt; failed(rt.alloc(), (&[], &[3]))? == (Status::WriteFault, 10));
    assert!(rt; failed(rt.alloc(), (&[], &[99]))? == (Status::Ok, 60));
    Ok(())
}

// How a call with these words ends on an empty input, and what is written.
fn with_words(alloc: Global, words: &[&str]) -> Result<(Status, MemSink), AllocError> {
    let mut given = Vec::new(alloc);
    for word in words {
        given.push(String::from_str(alloc, word)?)?;
    }
    let mut source = MemSource::new(Vec::new(alloc), 1, Vec::new(alloc));
    let mut sink = MemSink::new(alloc, 4096, Vec::new(alloc));
    let status = top(alloc, given.as_slice(), &mut source, &mut sink);
    Ok((status, sink))
}

fn is_usage(alloc: Global, words: &[&str]) -> Result<bool, AllocError> {
    let (status, sink) = with_words(alloc, words)?;
    Ok(status == Status::Usage && sink.bytes() == b"usage: heapbytes\n".as_slice())
}

#[test]
fn takes_no_words(rt: HostRuntime) -> Result<(), Fail> {
    let (status, sink) = with_words(rt.alloc(), &[])?;
    assert!(rt; status == Status::Ok && sink.bytes().is_empty());
    let (status, _sink) = with_words(rt.alloc(), &["--"])?;
    assert!(rt; status == Status::Ok);
    assert!(rt; is_usage(rt.alloc(), &[""])?);
    assert!(rt; is_usage(rt.alloc(), &["solo"])?);
    assert!(rt; is_usage(rt.alloc(), &["--", "--"])?);
    assert!(rt; is_usage(rt.alloc(), &["--help"])?);
    Ok(())
}
