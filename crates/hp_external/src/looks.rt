//! The lowest busy element of a chunk, and the lowest participant that has a mark on it.
ghost use Rattle.std.specs.Prelude.{◌≡◌, ◌^◌, ◌<◌, IfSome, IfNone};
ghost use Rattle.std.specs.List.{AllByRecursion};
ghost use Rattle.hp_heap.specs.PlainHeap.{data_address};
ghost use Rattle.hp_external.specs.Elements.{IsLowestData, IsLowestMark, NonePasses, is_busy_by, is_busy_in};
ghost use Rattle.hp_external.specs.Looking.{HasDataBelow, first_data};

use hp_base::{HEADER, Span, SpanState};
use hp_heap::{Elements, Heap};

// The lowest address of the data of a busy element of a segment list, allocated by a participant where one is named.
pub(crate) fn lowest_data(heap: &Heap, by: Option<u8>, list: u32) -> Option<u64>
    ensures found { IfSome result (IsLowestData (is_busy_in by list) heap.now.plain.ranges) }
    ensures none { IfNone result (NonePasses (is_busy_in by list) heap.now.plain.ranges) }
{
    heap.sound();
    first_data(heap.walk(), by, list)
}

// The address of the data of the first busy element among those that are left of a walk.
fn first_data(elements: Elements<'_>, by: Option<u8>, list: u32) -> Option<u64>
    requires { AllByRecursion HasDataBelow elements }
    ensures { result ≡ first_data (is_busy_in by list) elements.entry }
{
    let mut left = elements;
    while let Some(span) = left.next() {
        if is_busy_in(by, list, span) {
            return Some(data_address(span));
        }
    }
    None
}

fn is_busy_in(by: Option<u8>, list: u32, span: &Span) -> bool
    ensures { result ≡ is_busy_in by list span.now }
{
    span.list == list && is_busy_by(by, &span.state)
}

fn is_busy_by(by: Option<u8>, state: &SpanState) -> bool
    ensures { result ≡ is_busy_by by state.now }
{
    match (state, by) {
        (SpanState::Free { .. }, _) => false,
        (SpanState::Busy { .. }, None) => true,
        (SpanState::Busy { tag, .. }, Some(participant)) => tag.who == participant,
    }
}

fn data_address(span: &Span) -> u64
    requires { data_address span.now < 2 ^ 64 }
    ensures { result ≡ data_address span.now }
{
    match span.state {
        SpanState::Busy { pad, .. } => span.addr + pad + HEADER,
        SpanState::Free { .. } => span.addr + HEADER,
    }
}

// The lowest participant that has a mark.
pub(crate) fn lowest_mark(marks: u16) -> Option<u8>
    ensures found { IfSome result (IsLowestMark marks) }
    ensures none { IfNone result (marks ≡ 0) }
{
    if marks == 0 {
        return None;
    }
    Some(marks.trailing_zeros() as u8)
}
