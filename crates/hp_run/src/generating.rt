//! A workload that is generated, and written or run.
ghost use Rattle.std.specs.Prelude.{◌≡◌, ◌≤◌, None, map, length};
ghost use Rattle.std.specs.List.{All};
ghost use Rattle.hp_base.specs.declared.limits.TheConstants.{MAX_PARTICIPANTS};
ghost use Rattle.hp_base.specs.Streams.{CountsFault, HasRisen};
ghost use Rattle.hp_run.specs.declared.reading.TheConstants.{LIMIT};
ghost use Rattle.hp_run.specs.Faults.{is_write_fault};
ghost use Rattle.hp_run.specs.Making.{IsGenerated, IsMade, IsSummaryFor, IsSummaryOf};
ghost use Rattle.hp_run.specs.Mappers.{IsUnused};
ghost use Rattle.hp_run.specs.Refusals.{refusal_of};
ghost use Rattle.hp_script.specs.DrawnWords.GeneratedText.{generated_text};

use crate::refusal::RunFault;
use crate::running::Counted;
use crate::solo_call::counted_for;
use crate::summary::Summary;
use crate::writing::{refused, written};
use hp_base::{Mapper, Sink, Status};
use hp_script::{generate, generated_law};
use std::alloc::Global;

/// Writes the text of a workload of so many participant lines, drawn from a start: what `top` does for `generate <start> <lines>`. Own.
pub fn generate_text<K: Sink>(alloc: Global, start: u64, lines: u32, sink: &mut K) -> Status
    // The text was written, or a front of it before the sink failed, or nothing where memory ran out.
    ensures outcome { IsMade (IsGenerated start lines) (K.held sink.old) (K.held sink.new)
        (HasRisen (K.faults sink.old) (K.faults sink.new)) result }

    // The sink's count of faults rises where writing failed. Else it stays.
    ensures sink_faults { CountsFault (K.faults sink.old) (K.faults sink.new)
        (is_write_fault result) }
{
    match generate(alloc, start, lines) {
        Ok(text) => written(sink, text.as_slice(), Status::Ok),
        Err(_) => Status::OutOfMemory,
    }
}

/// Makes that workload, of 1 to 20,000 participant lines, runs it in one thread, and writes a summary of what the run left: what `top` does
/// for `generate <start> <lines> summary`. Each participant's table is over the mapper that has its place among these. Own.
pub fn generate_summary<K: Sink, M: Mapper>(
    alloc: Global,
    start: u64,
    lines: u32,
    sink: &mut K,
    mappers: Vec<M>,
) -> Status
    requires some { 1 ≤ lines }
    requires few { lines ≤ 20000 }
    requires count { length mappers.items ≡ MAX_PARTICIPANTS }
    requires unused { All (λ mapper. IsUnused (M.held mapper) (M.answers mapper) (M.capacity mapper)) mappers.items }

    // The summary of an end of the workload was written, or a front of it before the sink failed, or nothing where memory ran out.
    ensures outcome { IsMade (IsSummaryFor (map M.may_fail mappers.items) (generated_text start lines)) (K.held sink.old) (K.held sink.new)
        (HasRisen (K.faults sink.old) (K.faults sink.new)) result }

    // The sink's count of faults rises where writing failed. Else it stays.
    ensures sink_faults { CountsFault (K.faults sink.old) (K.faults sink.new)
        (is_write_fault result) }
{
    // What is generated is read, and is short.
    generated_law();
    match generate(alloc, start, lines) {
        Ok(text) => summed(alloc, text.as_slice(), sink, mappers),
        Err(_) => Status::OutOfMemory,
    }
}

// Runs a workload that is not refused, and writes its summary.
fn summed<K: Sink, M: Mapper>(alloc: Global, bytes: &[u8], sink: &mut K, mappers: Vec<M>) -> Status
    requires short { length bytes.now ≤ LIMIT }
    requires accepted { refusal_of bytes.now ≡ None }
    requires count { length mappers.items ≡ MAX_PARTICIPANTS }
    requires unused { All (λ mapper. IsUnused (M.held mapper) (M.answers mapper) (M.capacity mapper)) mappers.items }
    ensures outcome { IsMade (IsSummaryFor (map M.may_fail mappers.items) bytes.now) (K.held sink.old) (K.held sink.new)
        (HasRisen (K.faults sink.old) (K.faults sink.new)) result }
    ensures faults { CountsFault (K.faults sink.old) (K.faults sink.new)
        (is_write_fault result) }
{
    match counted_for(alloc, bytes, mappers) {
        Ok(counted) => told(alloc, &counted, sink),
        // Nothing comes here: the workload is not refused.
        Err(RunFault::Refused { refusal }) => refused(alloc, refusal, sink),
        Err(RunFault::OutOfMemory) => Status::OutOfMemory,
    }
}

// Writes the summary of what a run left.
fn told<K: Sink>(alloc: Global, counted: &Counted, sink: &mut K) -> Status
    ensures outcome { IsMade (IsSummaryOf counted.now) (K.held sink.old) (K.held sink.new)
        (HasRisen (K.faults sink.old) (K.faults sink.new)) result }
    ensures faults { CountsFault (K.faults sink.old) (K.faults sink.new)
        (is_write_fault result) }
{
    let summary = Summary::of(counted);
    match format!(in alloc; "{summary}") {
        Ok(text) => written(sink, text.as_bytes(), Status::Ok),
        Err(_) => Status::OutOfMemory,
    }
}
