//! The program as one call.
ghost use Rattle.std.specs.Prelude.{◌≡◌, ◌≤◌, true, false, map, length, string_bytes, IfSome};
ghost use Rattle.hp_base.specs.Streams.{CountsFault, HasRisen};
ghost use Rattle.hp_bytes.specs.Streaming.{most_input};
ghost use Rattle.hp_bytes.specs.Outcome.{Ends, IsAnswered, IsTried, IsUnlessFailure, IsWritten, is_own, is_read_fault, is_write_fault, refusal_text, status_of};

use crate::input::{ReadFault, read_whole};
use crate::reading::{FormFault, read_lines};
use crate::running::reply_text;
use hp_base::{Sink, Source, Status};
use hp_command::{count, dashes_at, write_whole};
use std::alloc::Global;

/// What is written where the words are none that the program takes.
const USAGE: &[u8] = b"usage: heapbytes\n";

/// The program: its words, without its name, an input, and where its answers go. It takes no words, or `--` alone. Own.
pub fn top<S: Source, K: Sink>(
    alloc: Global,
    words: &[String],
    source: &mut S,
    sink: &mut K,
) -> Status
    // What each status says of the words, the source and the sink.
    ensures outcome { Ends (is_own (map string_bytes words.now)) (S.left source.old) (S.left source.new)
        (K.held sink.old) (K.held sink.new) (HasRisen (S.faults source.old) (S.faults source.new))
        (HasRisen (K.faults sink.old) (K.faults sink.new)) result }

    // Which status it is, where the source tells its bytes, and reading, writing and memory do not fail.
    ensures settled { IfSome (S.left source.old)
        (λ input. IsUnlessFailure (status_of (is_own (map string_bytes words.now)) input) result) }

    // The source's count of faults rises where reading failed, the sink's where writing did. Else they stay.
    ensures source_faults { CountsFault (S.faults source.old) (S.faults source.new) (is_read_fault result) }
    ensures sink_faults { CountsFault (K.faults sink.old) (K.faults sink.new) (is_write_fault result) }
{
    if !is_own(words) {
        return written(sink, USAGE, Status::Usage);
    }
    session(alloc, source, sink)
}

/// A session: the answers to the lines of an input, in order. Own.
pub fn session<S: Source, K: Sink>(alloc: Global, source: &mut S, sink: &mut K) -> Status
    ensures outcome { Ends true (S.left source.old) (S.left source.new)
        (K.held sink.old) (K.held sink.new) (HasRisen (S.faults source.old) (S.faults source.new))
        (HasRisen (K.faults sink.old) (K.faults sink.new)) result }
    ensures settled { IfSome (S.left source.old) (λ input. IsUnlessFailure (status_of true input) result) }
    ensures source_faults { CountsFault (S.faults source.old) (S.faults source.new) (is_read_fault result) }
    ensures sink_faults { CountsFault (K.faults sink.old) (K.faults sink.new) (is_write_fault result) }
{
    match read_whole(alloc, source) {
        Ok(input) => answered(alloc, input.as_slice(), sink),
        Err(ReadFault::Failed) => Status::ReadFault,
        Err(ReadFault::TooLong) => Status::TooLong,
        Err(ReadFault::OutOfMemory) => Status::OutOfMemory,
    }
}

// Whether the words are the program's.
fn is_own(words: &[String]) -> bool
    ensures { result ≡ is_own (map string_bytes words.now) }
{
    count(words, dashes_at(words)) == 0
}

// Writes what there is to write for an input.
fn answered<K: Sink>(alloc: Global, input: &[u8], sink: &mut K) -> Status
    requires { length input.now ≤ most_input }
    ensures written { IsAnswered input.now (K.held sink.old) (K.held sink.new)
        (HasRisen (K.faults sink.old) (K.faults sink.new)) result }
    ensures faults { CountsFault (K.faults sink.old) (K.faults sink.new) (is_write_fault result) }
{
    match read_lines(alloc, input) {
        Ok(lines) => match reply_text(alloc, lines.as_slice()) {
            Ok(text) => written(sink, text.as_bytes(), Status::Ok),
            Err(_) => Status::OutOfMemory,
        },
        Err(FormFault::Bad { line }) => refused(alloc, line, sink),
        Err(FormFault::OutOfMemory) => Status::OutOfMemory,
    }
}

// Writes that a line is of no form.
fn refused<K: Sink>(alloc: Global, line: u32, sink: &mut K) -> Status
    ensures written { IsTried Status.BadWorkload (refusal_text line) (K.held sink.old) (K.held sink.new)
        (HasRisen (K.faults sink.old) (K.faults sink.new)) result }
    ensures faults { CountsFault (K.faults sink.old) (K.faults sink.new) (is_write_fault result) }
{
    match format!(in alloc; "refused line {line} Form\n") {
        Ok(text) => written(sink, text.as_bytes(), Status::BadWorkload),
        Err(_) => Status::OutOfMemory,
    }
}

// Writes a text, and gives the status that goes with it where that did not fail.
fn written<K: Sink>(sink: &mut K, text: &[u8], status: Status) -> Status
    requires { is_write_fault status ≡ false }
    ensures written { IsWritten status text.now (K.held sink.old) (K.held sink.new)
        (HasRisen (K.faults sink.old) (K.faults sink.new)) result }
    ensures faults { CountsFault (K.faults sink.old) (K.faults sink.new) (is_write_fault result) }
{
    match write_whole(sink, text) {
        Ok(()) => status,
        Err(_) => Status::WriteFault,
    }
}
