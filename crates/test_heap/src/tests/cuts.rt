//! Pages that go back.

use super::heaps::{SMALL_PAGE, one_page, three_pages, two_lists};
use super::looks::Look::{Answers, BusyAt, Calls, Contains, Counts, FreeAt};
use super::looks::Said;
use super::steps::Step::{self, Alloc, Cut, Free, OnPages, See};
use super::steps::play;
use super::{BASE, FIRST_PAGE, PAGE};
use hp_base::Run;
use hp_heap::Heap;
use std::alloc::{AllocError, Global};
use std::test::Fail;

const LAST_PAGE: &[Step] = &[
    Alloc(1000, 2, Some(0x1_001f_fc00)),
    Cut(0x1_001f_fc00, None),
    Cut(BASE, None),
    Free(0x1_001f_fc00),
    Cut(0x1_001f_fc00, Some(FIRST_PAGE)),
    See(Counts(0, 0, 0)),
    See(Contains(BASE, None)),
    Cut(BASE, None),
    See(Calls(7)),
    See(Answers(2, Said::Nothing)),
    See(Answers(5, Said::Pages(FIRST_PAGE))),
];

#[test]
fn gives_the_last_page_back(rt: HostRuntime) -> Result<(), Fail> {
    play(one_page(rt.alloc()), LAST_PAGE)
}

const PADDED: &[Step] = &[
    Alloc(2_096_960, 2, Some(0x1_0000_00c0)),
    See(Counts(1, 0, PAGE)),
    Free(0x1_0000_00c0),
    Cut(0x1_0000_00c0, Some(FIRST_PAGE)),
    See(Counts(0, 0, 0)),
];

#[test]
fn gives_the_page_of_a_padded_element_back(rt: HostRuntime) -> Result<(), Fail> {
    play(one_page(rt.alloc()), PADDED)
}

const LAST: Run = Run {
    first: 2,
    addr: 0x1_0040_0000,
    ..FIRST_PAGE
};

const IN_FRONT: &[Step] = &[
    Alloc(4_194_240, 2, Some(0x1_0020_0040)),
    Alloc(2_096_960, 3, Some(0x1_0000_0080)),
    Free(0x1_0020_0040),
    Cut(0x1_0020_0040, Some(LAST)),
    See(Counts(1, 1, 2 * PAGE)),
    See(BusyAt(BASE, 2_097_088, 0, 2_096_960, 3)),
    See(FreeAt(0x1_001f_ffc0, 2_097_216, 6)),
];

#[test]
fn keeps_a_page_for_64_bytes_in_front(rt: HostRuntime) -> Result<(), Fail> {
    play(three_pages(rt.alloc()), IN_FRONT)
}

const MIDDLE: Run = Run {
    first: 1,
    addr: 0x1_0020_0000,
    ..FIRST_PAGE
};

const IN_MIDDLE: &[Step] = &[
    Alloc(1000, 2, Some(0x1_005f_fc00)),
    Alloc(0x40_0000, 3, Some(0x1_001f_fb80)),
    Alloc(1000, 4, Some(0x1_001f_f700)),
    Free(0x1_001f_fb80),
    Cut(0x1_001f_fb80, Some(MIDDLE)),
    See(Counts(2, 3, 2 * PAGE)),
    See(FreeAt(BASE, 2_094_720, 6)),
    See(FreeAt(0x1_001f_fb00, 1280, 9)),
    See(FreeAt(0x1_0040_0000, 0x1f_fb80, 8)),
];

#[test]
fn cuts_a_page_out_of_the_middle(rt: HostRuntime) -> Result<(), Fail> {
    play(three_pages(rt.alloc()), IN_MIDDLE)
}

const SMALL: Run = Run {
    list: 1,
    first: 0,
    count: 1,
    addr: 0x1_0020_0000,
    page: SMALL_PAGE,
    socket: 0,
};

const OWN_LIST: &[Step] = &[
    Alloc(1000, 3, Some(0x1_0023_fc00)),
    OnPages(1000, 0x1_0000, 4, Some(0x1_0023_f780)),
    Free(0x1_0023_fc00),
    Cut(0x1_0023_fc00, None),
    Free(0x1_0023_f780),
    Cut(0x1_0023_f780, Some(SMALL)),
    See(FreeAt(BASE, PAGE, 1)),
    See(Counts(0, 1, PAGE)),
];

#[test]
fn cuts_pages_of_their_own_list(rt: HostRuntime) -> Result<(), Fail> {
    play(two_lists(rt.alloc()), OWN_LIST)
}

// A heap of external memory, with room for a call.
fn external(alloc: Global) -> Result<Heap, AllocError> {
    let mut heap = Heap::vacant(alloc, 4);
    heap.reserve(1)?;
    Ok(heap)
}

#[test]
fn cuts_nothing_from_external_memory(rt: HostRuntime) -> Result<(), Fail> {
    let steps = [Cut(BASE, None), See(Calls(1))];
    play(external(rt.alloc()), steps.as_slice())
}
