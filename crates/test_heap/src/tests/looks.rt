//! What is seen of a heap.

use super::PAGE;
use super::heaps::tag_of;
use hp_base::{Run, Stats};
use hp_heap::{Heap, HeapAnswer, Span, SpanState};

/// Something that is seen of a heap.
#[derive(Clone, Copy)]
pub enum Look {
    // An element of the first list begins there, and has so many bytes: a free one that was inserted as that one, or a busy one with that
    // pad and so many bytes of data, of the line with that number.
    FreeAt(u64, u64, u64),
    BusyAt(u64, u64, u64, u64, u32),
    // The element that contains an address.
    Contains(u64, Option<Span>),
    // There are so many busy and so many free elements, in so many bytes of memory.
    Counts(u64, u64, u64),
    Shows(Stats),
    // Its name and its socket number.
    Called(Option<&'static str>, u32),
    // There are so many chunks, the first of that segment list and with these marks.
    Chunks(usize, u32, u16),
    // So many calls are in the history, and the one at that place was answered so.
    Calls(usize),
    Answers(usize, Said),
}

/// What a call answered.
#[derive(Clone, Copy, PartialEq, Eq)]
pub enum Said {
    Address(u64),
    Pages(Run),
    Nothing,
    Done,
    IsZone,
    Yes,
    No,
    NotAnElement,
    Statistics(Stats),
}

/// Whether that is seen of a heap.
pub fn is_so(heap: &Heap, look: Look) -> bool {
    match look {
        Look::FreeAt(addr, whole, stamp) => {
            heap.lookup(addr) == Some(first_list(addr, whole, SpanState::Free { stamp }))
        }
        Look::BusyAt(addr, whole, pad, size, line) => {
            heap.lookup(addr) == Some(first_list(addr, whole, busy(pad, size, line)))
        }
        Look::Contains(addr, span) => heap.lookup(addr) == span,
        Look::Counts(busy, frees, total) => counts(heap) == (busy, frees, total),
        Look::Shows(stats) => heap.summary() == stats,
        Look::Called(text, socket) => is_called(heap, text) && heap.socket_number() == socket,
        Look::Chunks(count, list, marks) => chunks(heap) == (count, list, marks),
        Look::Calls(calls) => heap.history().len() == calls,
        Look::Answers(place, said) => said_at(heap, place) == Some(said),
    }
}

/// The state of an element that is busy for the line with that number.
pub fn busy(pad: u64, size: u64, line: u32) -> SpanState {
    SpanState::Busy {
        pad,
        size,
        tag: tag_of(line),
    }
}

/// An element of the first list.
pub fn first_list(addr: u64, whole: u64, state: SpanState) -> Span {
    Span {
        addr,
        whole,
        list: 0,
        page: PAGE,
        state,
    }
}

// How many busy and free elements there are, and how many bytes of memory.
fn counts(heap: &Heap) -> (u64, u64, u64) {
    let stats = heap.summary();
    (stats.busy, stats.frees, stats.total)
}

fn is_called(heap: &Heap, text: Option<&str>) -> bool {
    match (heap.name(), text) {
        (Some(name), Some(text)) => name.as_bytes() == text.as_bytes(),
        (None, None) => true,
        _ => false,
    }
}

// How many chunks there are, and of the first the segment list and who has attached it.
fn chunks(heap: &Heap) -> (usize, u32, u16) {
    let chunks = heap.chunks();
    match chunks.first() {
        Some(chunk) => (chunks.len(), chunk.list, chunk.attached),
        None => (0, 0, 0),
    }
}

// What the call at that place of the history answered.
fn said_at(heap: &Heap, place: usize) -> Option<Said> {
    let entry = heap.history().get(place)?;
    Some(said_in(&entry.answer))
}

fn said_in(answer: &HeapAnswer) -> Said {
    match answer {
        HeapAnswer::Address { addr } => Said::Address(*addr),
        HeapAnswer::Pages { run } => Said::Pages(*run),
        HeapAnswer::Nothing => Said::Nothing,
        HeapAnswer::Done => Said::Done,
        HeapAnswer::IsZone => Said::IsZone,
        HeapAnswer::Yes => Said::Yes,
        HeapAnswer::No => Said::No,
        HeapAnswer::NotAnElement => Said::NotAnElement,
        HeapAnswer::Statistics { stats } => Said::Statistics(*stats),
    }
}
