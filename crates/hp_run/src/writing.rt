//! Texts that are written whole, and the statuses that go with them.
ghost use Rattle.std.specs.Prelude.{◌≡◌, false, length};
ghost use Rattle.hp_base.specs.Streams.{CountsFault, HasRisen};
ghost use Rattle.hp_run.specs.Faults.{is_write_fault};
ghost use Rattle.hp_run.specs.Outcome.{IsPut, IsWritten};
ghost use Rattle.hp_run.specs.Refusals.{refusal_text};
ghost use Rattle.hp_report.specs.Report.{report};

use crate::refusal::Refusal;
use hp_base::{Sink, Status};
use hp_report::{Ended, RenderFault, render, write_whole};
use std::alloc::Global;

/// Writes the report of what a run left.
pub fn reported<K: Sink>(alloc: Global, ended: &Ended<'_>, sink: &mut K) -> Status
    requires answers { length ended.now.answers.items ≡ length ended.now.workload.lines.items }
    ensures written { IsWritten Status.Ok (report ended.now) (K.held sink.old) (K.held sink.new)
        (HasRisen (K.faults sink.old) (K.faults sink.new)) result }
    ensures faults { CountsFault (K.faults sink.old) (K.faults sink.new)
        (is_write_fault result) }
{
    match render(alloc, ended, sink) {
        Ok(()) => Status::Ok,
        Err(RenderFault::WriteFault) => Status::WriteFault,
        Err(RenderFault::OutOfMemory) => Status::OutOfMemory,
    }
}

/// Writes why a workload is refused.
pub fn refused<K: Sink>(alloc: Global, refusal: Refusal, sink: &mut K) -> Status
    ensures written { IsWritten Status.BadWorkload (refusal_text refusal) (K.held sink.old) (K.held sink.new)
        (HasRisen (K.faults sink.old) (K.faults sink.new)) result }
    ensures faults { CountsFault (K.faults sink.old) (K.faults sink.new)
        (is_write_fault result) }
{
    match format!(in alloc; "{refusal}") {
        Ok(text) => written(sink, text.as_bytes(), Status::BadWorkload),
        Err(_) => Status::OutOfMemory,
    }
}

/// Writes a text, and gives the status that goes with it where that did not fail.
pub fn written<K: Sink>(sink: &mut K, text: &[u8], status: Status) -> Status
    requires { is_write_fault status ≡ false }
    ensures written { IsPut status text.now (K.held sink.old) (K.held sink.new)
        (HasRisen (K.faults sink.old) (K.faults sink.new)) result }
    ensures faults { CountsFault (K.faults sink.old) (K.faults sink.new)
        (is_write_fault result) }
{
    match write_whole(sink, text) {
        Ok(()) => status,
        Err(_) => Status::WriteFault,
    }
}
