//! A workload that is read, run in one thread and reported.
ghost use Rattle.std.specs.Prelude.{◌≡◌, ◌≤◌, map, length, IfSome, MatchResult};
ghost use Rattle.std.specs.List.{All};
ghost use Rattle.hp_base.specs.declared.limits.TheConstants.{MAX_PARTICIPANTS};
ghost use Rattle.hp_run.specs.Mappers.{IsUnused};
ghost use Rattle.hp_base.specs.Streams.{CountsFault, HasRisen};
ghost use Rattle.hp_run.specs.declared.reading.TheConstants.{LIMIT};
ghost use Rattle.hp_run.specs.Faults.{is_read_fault, is_write_fault};
ghost use Rattle.hp_run.specs.Outcome.{IsAcceptedAs, IsAnswer, IsAnswered, IsEndFor, IsFaultOf, IsUnlessFailure, SoloEnds, solo_status_of};
ghost use Rattle.hp_run.specs.Making.{IsCountedFor};
ghost use Rattle.hp_run.specs.Refusals.{refusal_of};

use crate::reading::{ReadFault, read_whole};
use crate::refusal::{Refusal, RunFault};
use crate::running::{Counted, run, run_counted};
use crate::writing::{refused, reported};
use hp_base::{Mapper, Sink, Source, Status};
use hp_report::Ended;
use hp_script::{ParseFault, Workload, parse};
use std::alloc::{AllocError, Global};

/// Reads a workload, runs it in one thread, and writes its report, or why it is refused: what `top` does for the word `solo`. Each
/// participant's table is over the mapper that has its place among these. Own.
pub fn solo<S: Source, K: Sink, M: Mapper>(
    alloc: Global,
    source: &mut S,
    sink: &mut K,
    mappers: Vec<M>,
) -> Status
    requires count { length mappers.items ≡ MAX_PARTICIPANTS }
    requires unused { All (λ mapper. IsUnused (M.held mapper) (M.answers mapper) (M.capacity mapper)) mappers.items }

    // What each status says of the mappers, the source and the sink. It is never that of a usage text.
    ensures outcome { SoloEnds (map M.may_fail mappers.items) (S.left source.old) (S.left source.new)
        (K.held sink.old) (K.held sink.new)
        (HasRisen (S.faults source.old) (S.faults source.new))
        (HasRisen (K.faults sink.old) (K.faults sink.new)) result }

    // Which status it is, where the source tells its bytes, and reading, writing and memory do not fail.
    ensures settled { IfSome (S.left source.old) (λ input. IsUnlessFailure (solo_status_of input) result) }

    // The source's count of faults rises where reading failed, the sink's where writing did. Else they stay.
    ensures source_faults { CountsFault (S.faults source.old) (S.faults source.new)
        (is_read_fault result) }
    ensures sink_faults { CountsFault (K.faults sink.old) (K.faults sink.new)
        (is_write_fault result) }
{
    match read_whole(alloc, source) {
        Ok(bytes) => answered(alloc, bytes.as_slice(), sink, mappers),
        Err(ReadFault::Failed) => Status::ReadFault,
        Err(ReadFault::TooLong) => Status::TooLong,
        Err(ReadFault::OutOfMemory) => Status::OutOfMemory,
    }
}

// Writes what there is to write for the bytes.
fn answered<K: Sink, M: Mapper>(
    alloc: Global,
    bytes: &[u8],
    sink: &mut K,
    mappers: Vec<M>,
) -> Status
    requires short { length bytes.now ≤ LIMIT }
    requires count { length mappers.items ≡ MAX_PARTICIPANTS }
    requires unused { All (λ mapper. IsUnused (M.held mapper) (M.answers mapper) (M.capacity mapper)) mappers.items }
    ensures written { IsAnswered (IsAnswer (IsEndFor (map M.may_fail mappers.items))) bytes.now (K.held sink.old) (K.held sink.new)
        (HasRisen (K.faults sink.old) (K.faults sink.new)) result }
    ensures faults { CountsFault (K.faults sink.old) (K.faults sink.new)
        (is_write_fault result) }
{
    match ended_for(alloc, bytes, mappers) {
        Ok(ended) => reported(alloc, &ended, sink),
        Err(RunFault::Refused { refusal }) => refused(alloc, refusal, sink),
        Err(RunFault::OutOfMemory) => Status::OutOfMemory,
    }
}

/// What a run of the workload that the bytes are leaves.
pub fn ended_for<'a, M: Mapper>(
    alloc: Global,
    bytes: &'a [u8],
    mappers: Vec<M>,
) -> Result<Ended<'a>, RunFault>
    requires short { length bytes.now ≤ LIMIT }
    requires count { length mappers.items ≡ MAX_PARTICIPANTS }
    requires unused { All (λ mapper. IsUnused (M.held mapper) (M.answers mapper) (M.capacity mapper)) mappers.items }
    ensures { MatchResult result (IsEndFor (map M.may_fail mappers.items) bytes.entry.now)
        (IsFaultOf (refusal_of bytes.entry.now)) }
{
    let workload = accepted(alloc, bytes)?;
    Ok(run(alloc, workload, mappers)?)
}

/// What a run of the workload that the bytes are counts, and leaves.
pub fn counted_for<M: Mapper>(
    alloc: Global,
    bytes: &[u8],
    mappers: Vec<M>,
) -> Result<Counted, RunFault>
    requires short { length bytes.now ≤ LIMIT }
    requires count { length mappers.items ≡ MAX_PARTICIPANTS }
    requires unused { All (λ mapper. IsUnused (M.held mapper) (M.answers mapper) (M.capacity mapper)) mappers.items }
    ensures { MatchResult result (IsCountedFor (map M.may_fail mappers.items) bytes.now) (IsFaultOf (refusal_of bytes.now)) }
{
    let workload = accepted(alloc, bytes)?;
    Ok(run_counted(alloc, &workload, mappers)?)
}

/// The workload that the bytes are.
#[tactic(auto, using(crate::proofs::RefusalLemmas::accepted_as, crate::proofs::RefusalLemmas::refused_bad))]
pub fn accepted<'a>(alloc: Global, bytes: &'a [u8]) -> Result<Workload<'a>, RunFault>
    requires { length bytes.now ≤ LIMIT }
    ensures { MatchResult result (IsAcceptedAs bytes.entry.now) (IsFaultOf (refusal_of bytes.entry.now)) }
{
    match parse(alloc, bytes) {
        Ok(workload) => Ok(workload),
        Err(ParseFault::Bad { line, kind }) => Err(RunFault::Refused {
            refusal: Refusal { line, kind },
        }),
        Err(ParseFault::OutOfMemory) => Err(RunFault::OutOfMemory),
    }
}
