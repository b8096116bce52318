//! A workload that is read, run with each participant on a thread of its own, and reported.
ghost use Rattle.std.specs.Prelude.{◌≡◌, ◌≤◌, map, length, IfSome};
ghost use Rattle.std.specs.List.{All};
ghost use Rattle.hp_base.specs.declared.limits.TheConstants.{MAX_PARTICIPANTS};
ghost use Rattle.hp_base.specs.Streams.{CountsFault, HasRisen};
ghost use Rattle.hp_run.specs.Apart.{IsLeftFor};
ghost use Rattle.hp_run.specs.declared.reading.TheConstants.{LIMIT};
ghost use Rattle.hp_run.specs.Faults.{is_read_fault, is_write_fault};
ghost use Rattle.hp_run.specs.Mappers.{IsUnused};
ghost use Rattle.hp_run.specs.Outcome.{IsAnswer, IsAnswered, IsUnlessFailure, RunEnds, solo_status_of};

use crate::apart::ended_on_threads;
use crate::kit::Kit;
use crate::reading::{ReadFault, read_whole};
use crate::refusal::RunFault;
use crate::writing::{refused, reported};
use hp_base::{Clock, Gate, Mapper, Sink, Source, Status};
use std::alloc::Global;
use std::sync::Wait;
use std::thread::Threads;

/// Reads a workload, runs it, each participant on a thread of its own, and writes its report, or why it is refused: what `top` does for the
/// word `run`. Each participant has the kit that has its place among these, and asks the gate before each of its lines. It need not return.
/// Own.
pub fn run_and_report<
    S: Source,
    K: Sink,
    M: Mapper + Send,
    C: Clock + Send,
    G: Gate + Sync,
    R: Threads + Wait + Sync,
>(rt: &R, alloc: Global, source: &mut S, sink: &mut K, kits: Vec<Kit<M, C>>, gate: &G) -> Status
    requires count { length kits.items ≡ MAX_PARTICIPANTS }
    requires unused { All (λ kit. IsUnused (M.held kit.mapper) (M.answers kit.mapper) (M.capacity kit.mapper)) kits.items }

    // What each status says of the mappers, the source and the sink. It is never that of a usage text.
    ensures outcome { RunEnds (map (λ kit. M.may_fail kit.mapper) kits.items) (S.left source.old) (S.left source.new)
        (K.held sink.old) (K.held sink.new)
        (HasRisen (S.faults source.old) (S.faults source.new))
        (HasRisen (K.faults sink.old) (K.faults sink.new)) result }

    // Which status it is, where the source tells its bytes, and reading, writing and memory do not fail.
    ensures settled { IfSome (S.left source.old) (λ input. IsUnlessFailure (solo_status_of input) result) }

    // The source's count of faults rises where reading failed, the sink's where writing did. Else they stay.
    ensures source_faults { CountsFault (S.faults source.old) (S.faults source.new)
        (is_read_fault result) }
    ensures sink_faults { CountsFault (K.faults sink.old) (K.faults sink.new)
        (is_write_fault result) }
{
    match read_whole(alloc, source) {
        Ok(bytes) => answered(rt, alloc, bytes.as_slice(), sink, kits, gate),
        Err(ReadFault::Failed) => Status::ReadFault,
        Err(ReadFault::TooLong) => Status::TooLong,
        Err(ReadFault::OutOfMemory) => Status::OutOfMemory,
    }
}

// Writes what there is to write for the bytes.
fn answered<K: Sink, M: Mapper + Send, C: Clock + Send, G: Gate + Sync, R: Threads + Wait + Sync>(
    rt: &R,
    alloc: Global,
    bytes: &[u8],
    sink: &mut K,
    kits: Vec<Kit<M, C>>,
    gate: &G,
) -> Status
    requires short { length bytes.now ≤ LIMIT }
    requires count { length kits.items ≡ MAX_PARTICIPANTS }
    requires unused { All (λ kit. IsUnused (M.held kit.mapper) (M.answers kit.mapper) (M.capacity kit.mapper)) kits.items }
    ensures written { IsAnswered (IsAnswer (IsLeftFor (map (λ kit. M.may_fail kit.mapper) kits.items))) bytes.now
        (K.held sink.old) (K.held sink.new)
        (HasRisen (K.faults sink.old) (K.faults sink.new)) result }
    ensures faults { CountsFault (K.faults sink.old) (K.faults sink.new)
        (is_write_fault result) }
{
    match ended_on_threads(rt, alloc, bytes, kits, gate) {
        Ok(ended) => reported(alloc, &ended, sink),
        Err(RunFault::Refused { refusal }) => refused(alloc, refusal, sink),
        Err(RunFault::OutOfMemory) => Status::OutOfMemory,
    }
}
