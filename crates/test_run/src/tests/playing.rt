//! A run of the program's words over an input, with what has to come of it.

use super::threads::clocks::StandingClock;
use hp_base::{Gate, MemSink, MemSource, OpenGate, Status};
use hp_run::{mem_kits, top};
use std::alloc::{AllocError, Global};
use std::sync::Wait;
use std::test::Fail;
use std::thread::Threads;

/// What is written.
#[derive(Drop)]
pub enum Written {
    Nothing,
    // This text.
    Text(&'static str),
    // A whole report that begins so.
    Report(&'static str),
    // So many bytes, with which this text begins.
    Front(usize, &'static str),
    // So many bytes.
    Bytes(usize),
    // A text with these parts.
    Parts(&'static [&'static str]),
}

/// Words over an input, with the calls of the source and of the sink that fail; and how they end, whether the input is left unread, and
/// what is written.
#[derive(Drop)]
pub struct Case<'a> {
    pub words: &'static [&'static str],
    pub input: &'a str,
    pub source_fails: &'static [u64],
    pub sink_fails: &'static [u64],
    pub status: Status,
    pub is_left: bool,
    pub written: Written,
}

/// An empty workload is run in one thread, and nothing fails.
pub const SOLO: Case<'static> = Case {
    words: &["solo"],
    input: "",
    source_fails: &[],
    sink_fails: &[],
    status: Status::Ok,
    is_left: false,
    written: Written::Nothing,
};

/// The case at that place, counted from 0, came out otherwise.
#[derive(Debug, Drop)]
pub struct Otherwise {
    pub place: usize,
}

/// A run of these words over an input, with the calls of the source and of the sink that fail, by that gate. Clocks stand still.
pub fn ran<G: Gate + Sync, R: Threads + Wait + Sync>(
    rt: &R,
    alloc: Global,
    words: &[&str],
    input: &str,
    source_fails: &[u64],
    sink_fails: &[u64],
    gate: &G,
) -> Result<(Status, MemSource, MemSink), AllocError> {
    let mut given = Vec::new(alloc);
    for word in words {
        given.push(String::from_str(alloc, word)?)?;
    }
    let bytes = Vec::from_slice(alloc, input.as_bytes())?;
    let mut source = MemSource::new(bytes, 1000, Vec::from_slice(alloc, source_fails)?);
    let mut sink = MemSink::new(alloc, 100, Vec::from_slice(alloc, sink_fails)?);
    let kits = mem_kits(alloc, StandingClock::new())?;
    let words = given.as_slice();
    let status = top(rt, alloc, words, &mut source, &mut sink, kits, gate);
    Ok((status, source, sink))
}

// Whether that is a text with these parts.
pub(super) fn has_parts(bytes: &[u8], parts: &[&str]) -> bool {
    match str::from_utf8(bytes) {
        Ok(text) => parts.iter().all(|part| text.contains(*part)),
        Err(_) => false,
    }
}

// Whether that is what was written.
fn is_written(written: &Written, bytes: &[u8]) -> bool {
    match written {
        Written::Nothing => bytes.is_empty(),
        Written::Text(text) => bytes == text.as_bytes(),
        Written::Report(front) => bytes.starts_with(front.as_bytes())
            && bytes.ends_with(b"\nend\n"),
        Written::Front(len, text) => bytes.len() == *len && text.as_bytes().starts_with(bytes),
        Written::Bytes(len) => bytes.len() == *len,
        Written::Parts(parts) => has_parts(bytes, parts),
    }
}

// How many bytes of the input are left unread.
fn left_of(case: &Case<'_>) -> usize {
    if case.is_left { case.input.len() } else { 0 }
}

/// Whether a case comes out as it stands, by that gate.
pub fn comes_out<G: Gate + Sync, R: Threads + Wait + Sync>(
    rt: &R,
    alloc: Global,
    case: &Case<'_>,
    gate: &G,
) -> Result<bool, AllocError> {
    let (status, source, sink) = ran(
        rt,
        alloc,
        case.words,
        case.input,
        case.source_fails,
        case.sink_fails,
        gate,
    )?;
    let left = source.left().len() == left_of(case);
    Ok(status == case.status && left && is_written(&case.written, sink.bytes()))
}

/// Each case comes out as it stands, by a gate that lets all lines begin.
pub fn play<R: Threads + Wait + Sync>(
    rt: &R,
    alloc: Global,
    cases: &[Case<'_>],
) -> Result<(), Fail> {
    for place in 0..cases.len() {
        if !comes_out(rt, alloc, &cases[place], &OpenGate)? {
            return Err(Otherwise { place }.into());
        }
    }
    Ok(())
}
