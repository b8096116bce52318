//! The program as one call: lines that go through a ring by two senders.

use hp_base::{MemSink, MemSource, Status};
use hp_ring::top;
use std::alloc::{AllocError, Global};
use std::sync::Wait;
use std::test::Fail;
use std::thread::Threads;

const USAGE: &str = "usage: heapring <slots>\n";

// The most bytes that are read.
const LIMIT: u32 = 1_048_576;

// Words that ask for a ring, a text, and what is written of it.
const WOVEN: [(&str, &str, &str); 7] = [
    ("1", "a\nb\nc\n", "a\nc\nb\n"),
    ("4096", "a\nb\nc\n", "a\nc\nb\n"),
    ("1", "", ""),
    ("-- 2", "a", "a"),
    ("02", "a\nb", "a\nb"),
    ("3", "\n\nx\n", "\nx\n\n"),
    (
        "1",
        "a line of thirty-three characters\nb\nand one more than two times as long, so that it goes in three bulks\n",
        "a line of thirty-three characters\nand one more than two times as long, so that it goes in three bulks\nb\n",
    ),
];

// Words that are none that the program takes.
const REFUSED: [&str; 6] = ["", "0", "4097", "1 1", "+1", "-- --"];

// What goes in, and the calls of the source and the sink that fail.
#[derive(Clone, Copy)]
struct Given<'a> {
    words: &'a str,
    text: &'a [u8],
    reads: &'a [u64],
    writes: &'a [u64],
}

// How a run ends, and what was written.
fn ran<R: Threads + Wait + Sync>(
    rt: &R,
    alloc: Global,
    given: &Given<'_>,
) -> Result<(Status, MemSink), AllocError> {
    let mut words = Vec::new(alloc);
    for word in given.words.split_ascii_whitespace() {
        words.push(String::from_str(alloc, word)?)?;
    }
    let text = Vec::from_slice(alloc, given.text)?;
    let mut source = MemSource::new(text, 1_000, Vec::from_slice(alloc, given.reads)?);
    let mut sink = MemSink::new(alloc, 1_000, Vec::from_slice(alloc, given.writes)?);
    let status = top(rt, alloc, words.as_slice(), &mut source, &mut sink);
    Ok((status, sink))
}

// Whether a run of the words over a text ends with this status and writes this.
fn ends<R: Threads + Wait + Sync>(
    rt: &R,
    alloc: Global,
    words: &str,
    text: &[u8],
    wanted: Status,
    written: &[u8],
) -> Result<bool, AllocError> {
    let given = Given {
        words,
        text,
        reads: &[],
        writes: &[],
    };
    let (status, sink) = ran(rt, alloc, &given)?;
    Ok(status == wanted && sink.bytes() == written)
}

#[test]
fn writes_the_odd_lines_and_then_the_even_lines(rt: HostRuntime) -> Result<(), Fail> {
    for (words, text, written) in &WOVEN {
        let does = ends(
            &rt,
            rt.alloc(),
            words,
            text.as_bytes(),
            Status::Ok,
            written.as_bytes(),
        )?;
        assert!(rt; does);
    }
    Ok(())
}

#[test]
fn writes_its_usage(rt: HostRuntime) -> Result<(), Fail> {
    for words in &REFUSED {
        let does = ends(
            &rt,
            rt.alloc(),
            words,
            b"a\n",
            Status::Usage,
            USAGE.as_bytes(),
        )?;
        assert!(rt; does);
    }
    Ok(())
}

// So many bytes of lines of 0 to 100 characters.
fn lines(alloc: Global, bytes: u32) -> Result<Vec<u8>, AllocError> {
    let mut text = Vec::new(alloc);
    let mut long: u8 = 0;
    let mut left: u8 = 0;
    for _ in 0..bytes {
        if left == 0 {
            text.push(b'\n')?;
            long = long.wrapping_add(1) % 101;
            left = long;
        } else {
            text.push(b'a' + left % 26)?;
            left -= 1;
        }
    }
    Ok(text)
}

// The odd lines of a text and then the even lines.
fn woven(alloc: Global, text: &[u8]) -> Result<Vec<u8>, AllocError> {
    let mut odd = Vec::new(alloc);
    let mut even = Vec::new(alloc);
    let mut is_odd = true;
    for byte in text {
        if is_odd {
            odd.push(*byte)?;
        } else {
            even.push(*byte)?;
        }
        if *byte == b'\n' {
            is_odd = !is_odd;
        }
    }
    odd.extend_from_slice(even.as_slice())?;
    Ok(odd)
}

#[test]
fn sends_a_mebibyte_of_lines_by_one_slot(rt: HostRuntime) -> Result<(), Fail> {
    let text = lines(rt.alloc(), LIMIT)?;
    let wanted = woven(rt.alloc(), text.as_slice())?;
    assert!(rt;
        ends(
            &rt,
            rt.alloc(),
            "1",
            text.as_slice(),
            Status::Ok,
            wanted.as_slice()
        )?
    );
    Ok(())
}

#[test]
fn refuses_a_byte_more(rt: HostRuntime) -> Result<(), Fail> {
    let text = lines(rt.alloc(), LIMIT + 1)?;
    assert!(rt; ends(&rt, rt.alloc(), "1", text.as_slice(), Status::TooLong, b"")?);
    Ok(())
}

#[test]
fn tells_that_reading_failed(rt: HostRuntime) -> Result<(), Fail> {
    let given = Given {
        words: "1",
        text: b"a\nb\n",
        reads: &[2],
        writes: &[],
    };
    let (status, sink) = ran(&rt, rt.alloc(), &given)?;
    assert!(rt; status == Status::ReadFault && sink.bytes().is_empty());
    Ok(())
}

#[test]
fn tells_that_writing_failed(rt: HostRuntime) -> Result<(), Fail> {
    let given = Given {
        words: "1",
        text: b"a\nb\n",
        reads: &[],
        writes: &[2],
    };
    let (status, sink) = ran(&rt, rt.alloc(), &given)?;
    assert!(rt; status == Status::WriteFault && sink.bytes() == b"a\n".as_slice());
    Ok(())
}
