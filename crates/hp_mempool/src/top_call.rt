//! The program as one call.
ghost use Rattle.std.specs.Prelude.{◌≡◌, ◌*◌, false, IfOk, IfSome, map, string_bytes};
ghost use Rattle.hp_base.specs.Streams.{CountsFault, HasRisen};
ghost use Rattle.hp_mempool.specs.declared.judging.TheConstants.{MAX_CACHE, MAX_OBJECTS};
ghost use Rattle.hp_mempool.specs.declared.load.TheConstants.{MAX_ROUNDS, MAX_WORKERS};
ghost use Rattle.hp_mempool.specs.Program.{Ends, IsLoad, IsPut, IsPutUnlessShort, is_write_fault, load_of, report_of, report_text, text_of};

use crate::gate::Gate;
use crate::judging::{MAX_CACHE, MAX_OBJECTS};
use crate::load::{Load, MAX_ROUNDS, MAX_WORKERS};
use crate::report::Report;
use crate::sharing::objects_back;
use hp_base::{Sink, Status};
use hp_command::{count, dashes_at, number, write_whole};
use std::alloc::{AllocError, Global};
use std::sync::Wait;
use std::thread::Threads;

// What is written where the words are none that the program takes.
const USAGE: &[u8] = b"usage: heappool <workers> <rounds> <objects> <cache>\n";

/// The program: its words, without its name, and where its answer goes. Where the words are four numbers within their ranges it does what
/// `exercise` does. Own.
pub fn top<R: Threads + Wait + Sync, K: Sink, G: Gate + Sync>(
    rt: &R,
    alloc: Global,
    words: &[String],
    sink: &mut K,
    gate: &G,
) -> Status
    ensures outcome { Ends (load_of (map string_bytes words.now)) (K.held sink.old) (K.held sink.new)
        (HasRisen (K.faults sink.old) (K.faults sink.new)) result }
    ensures faults { CountsFault (K.faults sink.old) (K.faults sink.new) (is_write_fault result) }
{
    match load_of(words) {
        Some(load) => exercise_by(rt, alloc, &load, sink, gate),
        None => written(sink, USAGE, Status::Usage),
    }
}

/// Workers, each on a thread of its own, get an object of a pool and put it once the gate is open, so many rounds. The pool has so many
/// objects of 100 bytes in a zone at 0x100000000, and each worker's cache so many places. How many objects there are, how many calls of
/// the workers there were, and how many objects the pool has at its end are written as three lines. Own.
pub fn exercise<R: Threads + Wait + Sync, K: Sink, G: Gate + Sync>(
    rt: &R,
    alloc: Global,
    workers: u8,
    rounds: u32,
    objects: u32,
    cache: u32,
    sink: &mut K,
    gate: &G,
) -> Status
    requires { IsLoad (record { workers = workers; rounds = rounds; objects = objects; cache = cache }) }
    ensures outcome { IsPutUnlessShort Status.Ok (text_of (record { workers = workers; rounds = rounds; objects = objects; cache = cache }))
        (K.held sink.old) (K.held sink.new) (HasRisen (K.faults sink.old) (K.faults sink.new)) result }
    ensures faults { CountsFault (K.faults sink.old) (K.faults sink.new) (is_write_fault result) }
{
    let load = Load {
        workers: u32::from(workers),
        rounds,
        objects,
        cache,
    };
    exercise_by(rt, alloc, &load, sink, gate)
}

// Does the work, and writes what there is to say of it.
fn exercise_by<R: Threads + Wait + Sync, K: Sink, G: Gate + Sync>(
    rt: &R,
    alloc: Global,
    load: &Load,
    sink: &mut K,
    gate: &G,
) -> Status
    requires load { IsLoad load.now }
    ensures outcome { IsPutUnlessShort Status.Ok (text_of load.now) (K.held sink.old) (K.held sink.new)
        (HasRisen (K.faults sink.old) (K.faults sink.new)) result }
    ensures faults { CountsFault (K.faults sink.old) (K.faults sink.new) (is_write_fault result) }
{
    match exercised(rt, alloc, load, gate) {
        Ok(report) => reported(alloc, report, sink),
        Err(_) => Status::OutOfMemory,
    }
}

// Does the work, and says what there is to say of it.
fn exercised<R: Threads + Wait + Sync, G: Gate + Sync>(
    rt: &R,
    alloc: Global,
    load: &Load,
    gate: &G,
) -> Result<Report, AllocError>
    requires { IsLoad load.now }
    ensures { IfOk result (λ report. report ≡ report_of load.now) }
{
    let home = objects_back(rt, alloc, load, gate)?;
    let calls = calls_of(load);
    Ok(Report {
        objects: load.objects,
        calls,
        home,
    })
}

// How many calls the workers make.
fn calls_of(load: &Load) -> u32
    requires { IsLoad load.now }
    ensures { result ≡ load.now.workers * load.now.rounds }
{
    load.workers * load.rounds
}

// Writes a report.
fn reported<K: Sink>(alloc: Global, report: Report, sink: &mut K) -> Status
    ensures outcome { IsPutUnlessShort Status.Ok (report_text report) (K.held sink.old) (K.held sink.new)
        (HasRisen (K.faults sink.old) (K.faults sink.new)) result }
    ensures faults { CountsFault (K.faults sink.old) (K.faults sink.new) (is_write_fault result) }
{
    match format!(in alloc; "{report}") {
        Ok(text) => written(sink, text.as_bytes(), Status::Ok),
        Err(_) => Status::OutOfMemory,
    }
}

// What the words ask for.
fn load_of(words: &[String]) -> Option<Load>
    ensures load { result ≡ load_of (map string_bytes words.now) }
    ensures within { IfSome result IsLoad }
{
    let dashes = dashes_at(words);
    if count(words, dashes) != 4 {
        return None;
    }
    let workers = number(words, dashes, 0, 1, MAX_WORKERS)?;
    let rounds = number(words, dashes, 1, 1, MAX_ROUNDS)?;
    let objects = number(words, dashes, 2, 1, MAX_OBJECTS)?;
    let cache = number(words, dashes, 3, 0, MAX_CACHE)?;
    Some(Load {
        workers,
        rounds,
        objects,
        cache,
    })
}

// Writes a text, and gives the status that goes with it where that did not fail.
fn written<K: Sink>(sink: &mut K, text: &[u8], status: Status) -> Status
    requires { is_write_fault status ≡ false }
    ensures outcome { IsPut status text.now (K.held sink.old) (K.held sink.new)
        (HasRisen (K.faults sink.old) (K.faults sink.new)) result }
    ensures faults { CountsFault (K.faults sink.old) (K.faults sink.new) (is_write_fault result) }
{
    match write_whole(sink, text) {
        Ok(()) => status,
        Err(_) => Status::WriteFault,
    }
}
