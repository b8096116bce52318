//! A workload that is read and counted, and not run.
ghost use Rattle.std.specs.Prelude.{◌≡◌, ◌≤◌, length, IfSome};
ghost use Rattle.hp_base.specs.Streams.{CountsFault, HasRisen};
ghost use Rattle.hp_base.specs.declared.status.Status.TheVariants as status;
ghost use Rattle.hp_run.specs.declared.reading.TheConstants.{LIMIT};
ghost use Rattle.hp_run.specs.Checking.{CheckEnds, IsChecked, check_status, count_text};
ghost use Rattle.hp_run.specs.Faults.{is_read_fault, is_write_fault};
ghost use Rattle.hp_run.specs.Outcome.{IsAnswered, IsUnlessFailure, IsWritten, read_status_of};

use crate::reading::{ReadFault, read_whole};
use crate::refusal::Refusal;
use crate::writing::{refused, written};
use hp_base::{Sink, Source, Status};
use hp_script::{ParseFault, parse};
use std::alloc::Global;

/// Reads a workload, and writes how many participant lines it has, or why the language refuses it: what `top` does for the word `check`.
/// A line that is not implemented counts as the others do. Own.
pub fn check<S: Source, K: Sink>(alloc: Global, source: &mut S, sink: &mut K) -> Status
    // What each status says of the source and the sink. It is never that of a usage text.
    ensures outcome { CheckEnds (S.left source.old) (S.left source.new) (K.held sink.old) (K.held sink.new)
        (HasRisen (S.faults source.old) (S.faults source.new))
        (HasRisen (K.faults sink.old) (K.faults sink.new)) result }

    // Which status it is, where the source tells its bytes, and reading, writing and memory do not fail.
    ensures settled { IfSome (S.left source.old) (λ input. IsUnlessFailure (read_status_of check_status input) result) }

    // The source's count of faults rises where reading failed, the sink's where writing did. Else they stay.
    ensures source_faults { CountsFault (S.faults source.old) (S.faults source.new)
        (is_read_fault result) }
    ensures sink_faults { CountsFault (K.faults sink.old) (K.faults sink.new)
        (is_write_fault result) }
{
    match read_whole(alloc, source) {
        Ok(bytes) => checked(alloc, bytes.as_slice(), sink),
        Err(ReadFault::Failed) => Status::ReadFault,
        Err(ReadFault::TooLong) => Status::TooLong,
        Err(ReadFault::OutOfMemory) => Status::OutOfMemory,
    }
}

// Writes what there is to write for the bytes.
fn checked<K: Sink>(alloc: Global, bytes: &[u8], sink: &mut K) -> Status
    requires short { length bytes.now ≤ LIMIT }
    ensures written { IsAnswered IsChecked bytes.now (K.held sink.old) (K.held sink.new)
        (HasRisen (K.faults sink.old) (K.faults sink.new)) result }
    ensures faults { CountsFault (K.faults sink.old) (K.faults sink.new)
        (is_write_fault result) }
{
    match parse(alloc, bytes) {
        Ok(workload) => counted(alloc, workload.lines.len(), sink),
        Err(ParseFault::Bad { line, kind }) => refused(alloc, Refusal { line, kind }, sink),
        Err(ParseFault::OutOfMemory) => Status::OutOfMemory,
    }
}

// Writes how many participant lines there are.
fn counted<K: Sink>(alloc: Global, lines: usize, sink: &mut K) -> Status
    ensures written { IsWritten status.Ok (count_text lines) (K.held sink.old) (K.held sink.new)
        (HasRisen (K.faults sink.old) (K.faults sink.new)) result }
    ensures faults { CountsFault (K.faults sink.old) (K.faults sink.new)
        (is_write_fault result) }
{
    match format!(in alloc; "ok {lines}\n") {
        Ok(text) => written(sink, text.as_bytes(), Status::Ok),
        Err(_) => Status::OutOfMemory,
    }
}
