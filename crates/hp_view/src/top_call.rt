//! The program as one call.
ghost use Rattle.std.specs.Prelude.{◌≡◌, ◌≤◌, true, List, map, length, string_bytes};
ghost use Rattle.hp_base.specs.Streams.{HasRisen};
ghost use Rattle.hp_view.specs.declared.line.Line.{Line};
ghost use Rattle.hp_view.specs.Content.{IsContent};
ghost use Rattle.hp_view.specs.Picture.{picture_of};
ghost use Rattle.hp_view.specs.Streaming.{most_input};
ghost use Rattle.hp_view.specs.Outcome.{Ends, IsAnswered, IsSaid, IsWritten, held_by, is_own, refusal_text};

use crate::input::{ReadFault, read_whole};
use crate::picture::picture_of;
use crate::reading::{FormFault, read_report};
use hp_base::{Sink, Source, Status};
use hp_command::{count, dashes_at, write_whole};
use std::alloc::{AllocError, Global};

/// What is written where the words are none that the program takes.
const USAGE: &[u8] = b"usage: heapview\n";

/// The program: its words, without its name, an input, where its picture goes, and where it says what is wrong. It takes no words, or
/// `--` alone. Own.
pub fn top<S: Source, K: Sink, E: Sink>(
    alloc: Global,
    words: &[String],
    source: &mut S,
    sink: &mut K,
    errors: &mut E,
) -> Status
    ensures outcome { Ends (is_own (map string_bytes words.now)) (S.left source.old) (S.left source.new)
        (HasRisen (S.faults source.old) (S.faults source.new))
        (held_by (K.held sink.old) (K.held sink.new) (HasRisen (K.faults sink.old) (K.faults sink.new)))
        (held_by (E.held errors.old) (E.held errors.new) (HasRisen (E.faults errors.old) (E.faults errors.new))) result }
    ensures balanced { (lines : List Line) → IsContent (picture_of lines) }
{
    if !is_own(words) {
        return written(errors, USAGE, Status::Usage);
    }
    view(alloc, source, sink, errors)
}

/// The picture of the report that a source gives. Own.
pub fn view<S: Source, K: Sink, E: Sink>(
    alloc: Global,
    source: &mut S,
    sink: &mut K,
    errors: &mut E,
) -> Status
    ensures outcome { Ends true (S.left source.old) (S.left source.new)
        (HasRisen (S.faults source.old) (S.faults source.new))
        (held_by (K.held sink.old) (K.held sink.new) (HasRisen (K.faults sink.old) (K.faults sink.new)))
        (held_by (E.held errors.old) (E.held errors.new) (HasRisen (E.faults errors.old) (E.faults errors.new))) result }
    ensures balanced { (lines : List Line) → IsContent (picture_of lines) }
{
    match read_whole(alloc, source) {
        Ok(input) => answered(alloc, input.as_slice(), sink, errors),
        Err(ReadFault::Failed) => Status::ReadFault,
        Err(ReadFault::TooLong) => Status::TooLong,
        Err(ReadFault::OutOfMemory) => Status::OutOfMemory,
    }
}

// Whether the words are the program's.
fn is_own(words: &[String]) -> bool
    ensures { result ≡ is_own (map string_bytes words.now) }
{
    count(words, dashes_at(words)) == 0
}

// Writes what there is to write for an input.
fn answered<K: Sink, E: Sink>(alloc: Global, input: &[u8], sink: &mut K, errors: &mut E) -> Status
    requires { length input.now ≤ most_input }
    ensures { IsAnswered input.now
        (held_by (K.held sink.old) (K.held sink.new) (HasRisen (K.faults sink.old) (K.faults sink.new)))
        (held_by (E.held errors.old) (E.held errors.new) (HasRisen (E.faults errors.old) (E.faults errors.new))) result }
{
    match read_report(alloc, input) {
        Ok(lines) => match picture_of(alloc, lines.as_slice()) {
            Ok(text) => written(sink, text.as_bytes(), Status::Ok),
            Err(_) => Status::OutOfMemory,
        },
        Err(FormFault::Bad { line }) => refused(alloc, line, errors),
        Err(FormFault::OutOfMemory) => Status::OutOfMemory,
    }
}

// Writes that a line is none of a report.
fn refused<E: Sink>(alloc: Global, line: u32, errors: &mut E) -> Status
    ensures { IsSaid line (held_by (E.held errors.old) (E.held errors.new) (HasRisen (E.faults errors.old) (E.faults errors.new))) result }
{
    match format!(in alloc; "heapview: line {line} is no line of a report\n") {
        Ok(text) => written(errors, text.as_bytes(), Status::BadWorkload),
        Err(_) => Status::OutOfMemory,
    }
}

// Writes a text, and gives the status that goes with it where that did not fail.
fn written<K: Sink>(sink: &mut K, text: &[u8], status: Status) -> Status
    ensures { IsWritten status text.now (held_by (K.held sink.old) (K.held sink.new) (HasRisen (K.faults sink.old) (K.faults sink.new))) result }
{
    match write_whole(sink, text) {
        Ok(()) => status,
        Err(_) => Status::WriteFault,
    }
}
