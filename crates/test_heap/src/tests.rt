//! What the tests share, and what a heap says of itself.

use hp_base::{Caller, Run, Span, SpanState, Stats};
use hp_heap::Heap;
use std::alloc::{AllocError, Global};
use std::test::Fail;

mod bytes;
mod choices;
mod chunks;
mod cuts;
mod frees;
mod heaps;
mod looks;
mod resizes;
mod steps;
mod sums;

use heaps::{one_page, padded, three_pages};
use looks::Look::{Answers, BusyAt, Called, Calls, Counts, FreeAt, Shows};
use looks::{Said, busy, first_list};
use steps::Step::{self, Alloc, See, Tell};
use steps::play;

const BASE: u64 = 0x1_0000_0000;

const PAGE: u64 = 0x20_0000;

const CALLER: Caller = Caller {
    participant: 0,
    number: 1,
};

// The first page of the first list.
const FIRST_PAGE: Run = Run {
    list: 0,
    first: 0,
    count: 1,
    addr: BASE,
    page: PAGE,
    socket: 0,
};

// A heap of that socket, without memory.
fn opening(alloc: Global, socket: u32) -> Result<Heap, AllocError> {
    Ok(Heap::socket(alloc, 3, socket))
}

#[test]
fn names_a_heap_for_its_socket(rt: HostRuntime) -> Result<(), Fail> {
    let last = See(Called(Some("socket_4294967295"), u32::MAX));
    play(opening(rt.alloc(), 0), &[See(Called(Some("socket_0"), 0))])?;
    play(
        opening(rt.alloc(), 31),
        &[See(Called(Some("socket_31"), 31))],
    )?;
    play(opening(rt.alloc(), u32::MAX), &[last])
}

// The index, the socket that is served, whether there is a name, and the room.
fn identity(heap: &Heap) -> (u32, Option<u32>, bool, usize) {
    heap.sound();
    let named = heap.name().is_some();
    (heap.index(), heap.serves(), named, heap.spare())
}

// Of a heap of socket 7, with its socket number.
fn with_socket(alloc: Global) -> (u32, (u32, Option<u32>, bool, usize)) {
    let heap = Heap::socket(alloc, 3, 7);
    (heap.socket_number(), identity(&heap))
}

// Of one of external memory.
fn without_socket(alloc: Global) -> (u32, Option<u32>, bool, usize) {
    let heap = Heap::vacant(alloc, 3);
    identity(&heap)
}

#[test]
fn serves_its_socket_or_nobody(rt: HostRuntime) {
    assert!(rt; with_socket(rt.alloc()) == (7, (3, Some(7), true, 0)));
    assert!(rt; without_socket(rt.alloc()) == (3, None, false, 0));
}

// The room once it is made for so many calls.
fn room_for(heap: &mut Heap, calls: usize) -> Option<usize> {
    heap.reserve(calls).ok()?;
    Some(heap.spare())
}

// Of a heap that took memory for 32 calls and made one, for 2 calls and for 40.
fn rooms(alloc: Global) -> Option<(Option<usize>, Option<usize>)> {
    let mut heap = one_page(alloc).ok()?;
    Some((room_for(&mut heap, 2), room_for(&mut heap, 40)))
}

#[test]
fn makes_room_for_calls(rt: HostRuntime) {
    assert!(rt; rooms(rt.alloc()) == Some((Some(31), Some(40))));
}

// Whether a walk over a heap gives these elements.
fn walks_over(heap: &Heap, wanted: &[Span]) -> bool {
    let mut walk = heap.walk();
    for span in wanted {
        if walk.next() != Some(span) {
            return false;
        }
    }
    walk.next().is_none()
}

// Whether a heap gives these elements, and a walk too.
fn has_elements(alloc: Global, wanted: &[Span]) -> Option<bool> {
    let heap = padded(alloc)?;
    let mut given = Vec::new(alloc);
    heap.elements(&mut given).ok()?;
    Some(given.as_slice() == wanted && walks_over(&heap, wanted))
}

// A free element, one for line 2, and one with a pad for line 3.
#[test]
fn lists_its_elements_by_address(rt: HostRuntime) {
    let wanted = [
        first_list(BASE, 2_096_000, SpanState::Free { stamp: 2 }),
        first_list(0x1_001f_fb80, 1152, busy(0, 1024, 2)),
        first_list(0x1_0020_0000, PAGE, busy(64, 2_096_960, 3)),
    ];
    assert!(rt; has_elements(rt.alloc(), wanted.as_slice()) == Some(true));
}

const STATS: Stats = Stats {
    total: PAGE,
    free: 2_096_000,
    used: 1152,
    greatest: 2_096_000,
    busy: 1,
    frees: 1,
};

// A page comes, and is allocated from: there is one call for each.
const TOLD: &[Step] = &[
    Alloc(1000, 2, Some(0x1_001f_fc00)),
    Alloc(0x20_0000, 3, None),
    See(Shows(STATS)),
    See(FreeAt(BASE, 2_096_000, 2)),
    See(BusyAt(0x1_001f_fb80, 1152, 0, 1024, 2)),
    See(Calls(3)),
    Tell(STATS),
    See(Answers(0, Said::Done)),
    See(Answers(1, Said::Address(0x1_001f_fc00))),
    See(Answers(2, Said::Nothing)),
    See(Answers(3, Said::Statistics(STATS))),
];

#[test]
fn tells_its_statistics_and_its_calls(rt: HostRuntime) -> Result<(), Fail> {
    play(one_page(rt.alloc()), TOLD)
}

// Two more pages come after a free one: the element is one with all three.
#[test]
fn joins_a_run_with_the_free_element_below_it(rt: HostRuntime) -> Result<(), Fail> {
    let steps = [See(Counts(0, 1, 3 * PAGE)), See(FreeAt(BASE, 3 * PAGE, 3))];
    play(three_pages(rt.alloc()), steps.as_slice())
}
