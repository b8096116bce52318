//! External memory: chunks that come, are attached, are left and go, and the name of their heap.
ghost use Rattle.std.specs.Prelude.{◌≡◌, ◌≤◌, None, IfOk};
ghost use Rattle.hp_heap.specs.PlainHeap.{opening_heap};
ghost use Rattle.hp_heap.specs.Chunks.{after_chunk, after_share};

use super::looks::Look::{Called, Chunks, Contains, Counts};
use super::steps::Step::{Alloc, By, Free, Name, See, Unname};
use super::steps::play;
use super::{CALLER, PAGE};
use hp_base::{Caller, Chunk, Span, SpanState};
use hp_heap::Heap;
use std::alloc::{AllocError, Global};
use std::test::Fail;

// Two chunks, one right behind the other.
const FIRST: Chunk = Chunk {
    list: 256,
    addr: 0x70_0000_0000,
    len: 0x40_0000,
    page: PAGE,
    socket: 256,
    attached: 0,
};

const SECOND: Chunk = Chunk {
    list: 257,
    addr: 0x70_0040_0000,
    len: PAGE,
    page: PAGE,
    socket: 256,
    attached: 0,
};

const THIRD_PARTICIPANT: Caller = Caller {
    participant: 3,
    number: 1,
};

// A heap with both, of which participant 0 has attached the first. The second came before it.
fn attached(alloc: Global) -> Result<Heap, AllocError>
    ensures spare { IfOk result (λ heap. 21 ≤ heap.spare) }
    ensures plain { IfOk result (λ heap.
        heap.plain ≡ after_share 0 FIRST.addr FIRST.len (after_chunk FIRST (after_chunk SECOND (opening_heap 32 None)))) }
{
    let mut heap = Heap::vacant(alloc, 32);
    heap.reserve(24)?;
    heap.add_chunk(CALLER, SECOND);
    heap.add_chunk(CALLER, FIRST);
    heap.share(CALLER, 256);
    Ok(heap)
}

// Participant 3 has attached the first too, and participant 0 has left it. The second went.
fn without_second(alloc: Global) -> Result<Heap, AllocError> {
    let mut heap = attached(alloc)?;
    heap.share(THIRD_PARTICIPANT, 256);
    heap.unshare(CALLER, 256);
    heap.remove_chunk(CALLER, 257);
    Ok(heap)
}

const FREE_FIRST: Span = Span {
    addr: FIRST.addr,
    whole: FIRST.len,
    list: 256,
    page: PAGE,
    state: SpanState::Free { stamp: 2 },
};

const FREE_SECOND: Span = Span {
    addr: SECOND.addr,
    whole: PAGE,
    list: 257,
    page: PAGE,
    state: SpanState::Free { stamp: 1 },
};

// Each chunk is one free element, though they touch, and only the participant that has attached the first is given bytes of it.
#[test]
fn gives_bytes_of_attached_chunks_alone(rt: HostRuntime) -> Result<(), Fail> {
    let steps = [
        Name("ext", 256),
        See(Called(Some("ext"), 256)),
        See(Chunks(2, 256, 1)),
        See(Counts(0, 2, 3 * PAGE)),
        See(Contains(FIRST.addr, Some(FREE_FIRST))),
        See(Contains(SECOND.addr, Some(FREE_SECOND))),
        Alloc(1000, 2, Some(0x70_003f_fc00)),
        By(1, 1000, 3, None),
        Alloc(3 * PAGE, 4, None),
        Free(0x70_003f_fc00),
        See(Contains(SECOND.addr, Some(FREE_SECOND))),
        See(Counts(0, 2, 3 * PAGE)),
        Unname,
        See(Called(None, 0)),
    ];
    play(attached(rt.alloc()), steps.as_slice())
}

#[test]
fn keeps_the_marks_of_others(rt: HostRuntime) -> Result<(), Fail> {
    play(without_second(rt.alloc()), &[See(Chunks(1, 256, 8))])
}
