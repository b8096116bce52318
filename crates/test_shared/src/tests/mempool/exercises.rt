//! The program as one call: its words, and workers beside one another.

use hp_base::{MemSink, Status};
use hp_mempool::{Gate, OpenGate, top};
use std::alloc::{AllocError, Global};
use std::sync::Wait;
use std::sync::atomic::{AtomicU64, Ordering};
use std::test::Fail;
use std::thread;
use std::thread::Threads;

const USAGE: &str = "usage: heappool <workers> <rounds> <objects> <cache>\n";

// Words that ask for an exercise, and what is written of it.
const DONE: [(&str, &str); 4] = [
    ("4 1000 64 8", "objects 64\ncalls 4000\nhome 64\n"),
    ("16 1000 1 8", "objects 1\ncalls 16000\nhome 1\n"),
    ("16 50 65536 512", "objects 65536\ncalls 800\nhome 65536\n"),
    ("04 -- 0010 064 0", "objects 64\ncalls 40\nhome 64\n"),
];

// Words that are none that the program takes.
const REFUSED: [&str; 8] = [
    "",
    "4 1000 64",
    "4 1000 64 8 8",
    "-- -- 4 1000 64 8",
    "17 1000 64 8",
    "4 0 64 8",
    "4 1000 65537 8",
    "4 1000 +64 8",
];

// A run of these words, with the calls of the sink that fail.
fn ran<R: Threads + Wait + Sync, G: Gate + Sync>(
    rt: &R,
    alloc: Global,
    words: &str,
    gate: &G,
    fails: &[u64],
) -> Result<(Status, MemSink), AllocError> {
    let mut given = Vec::new(alloc);
    for word in words.split_ascii_whitespace() {
        given.push(String::from_str(alloc, word)?)?;
    }
    let mut sink = MemSink::new(alloc, 16, Vec::from_slice(alloc, fails)?);
    let status = top(rt, alloc, given.as_slice(), &mut sink, gate);
    Ok((status, sink))
}

// Whether a run of the words ends with this status and text.
fn ends<R: Threads + Wait + Sync>(
    rt: &R,
    alloc: Global,
    words: &str,
    wanted: Status,
    text: &str,
) -> Result<bool, AllocError> {
    let (status, sink) = ran(rt, alloc, words, &OpenGate, &[])?;
    Ok(status == wanted && sink.bytes() == text.as_bytes())
}

#[test]
fn takes_four_numbers_and_has_all_objects_back(rt: HostRuntime) -> Result<(), Fail> {
    for (words, text) in &DONE {
        assert!(rt; ends(&rt, rt.alloc(), words, Status::Ok, text)?);
    }
    Ok(())
}

#[test]
fn writes_its_usage(rt: HostRuntime) -> Result<(), Fail> {
    for words in &REFUSED {
        assert!(rt; ends(&rt, rt.alloc(), words, Status::Usage, USAGE)?);
    }
    Ok(())
}

#[test]
fn tells_that_writing_failed(rt: HostRuntime) -> Result<(), Fail> {
    let (status, sink) = ran(&rt, rt.alloc(), "1 1 1 0", &OpenGate, &[2])?;
    assert!(rt; status == Status::WriteFault);
    assert!(rt; sink.bytes() == b"objects 1\ncalls ".as_slice());
    Ok(())
}

// Holds worker 0 until worker 1 has asked, for so many turns at most.
#[derive(Drop)]
struct Meeting {
    asked: AtomicU64,
    met: AtomicU64,
}

impl Meeting {
    fn wait(&self) {
        for _ in 0..100_000_000 {
            if self.asked.load(Ordering::SeqCst) == 1 {
                self.met.store(1, Ordering::SeqCst);
                return;
            }
            thread::yield_now();
        }
    }
}

impl Gate for Meeting {
    fn ready(&self, worker: u8, _round: u32) -> bool {
        if worker == 1 {
            self.asked.store(1, Ordering::SeqCst);
        }
        if worker == 0 {
            self.wait();
        }
        true
    }
}

#[test]
fn has_two_workers_beside_one_another(rt: HostRuntime) -> Result<(), Fail> {
    let meeting = Meeting {
        asked: AtomicU64::new(0),
        met: AtomicU64::new(0),
    };
    let (status, _sink) = ran(&rt, rt.alloc(), "2 1 2 0", &meeting, &[])?;
    assert!(rt; status == Status::Ok && meeting.met.load(Ordering::SeqCst) == 1);
    Ok(())
}
