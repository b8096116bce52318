//! Elements that are freed, and those of memzones.

use super::heaps::one_page;
use super::looks::Look::{Answers, BusyAt, Calls, Contains, Counts, FreeAt};
use super::looks::Said;
use super::steps::Step::{self, Alloc, Find, Free, FreeZone, Refuse, Reserve, See, Tell};
use super::steps::play;
use super::{BASE, PAGE};
use hp_base::{Span, SpanState, Stats, Tag};
use hp_heap::FreeFault;
use std::test::Fail;

// The page as one free element.
const WHOLE_PAGE: Span = Span {
    addr: BASE,
    whole: PAGE,
    list: 0,
    page: PAGE,
    state: SpanState::Free { stamp: 3 },
};

const FAULT: FreeFault = FreeFault::NotAnElement {
    addr: 0x1_001f_fc00,
};

const STATS: Stats = Stats {
    total: PAGE,
    free: PAGE,
    used: 0,
    greatest: PAGE,
    busy: 0,
    frees: 1,
};

const JOINED: &[Step] = &[
    Alloc(1000, 2, Some(0x1_001f_fc00)),
    Free(0x1_001f_fc00),
    See(Contains(BASE + 5000, Some(WHOLE_PAGE))),
    See(Contains(BASE + PAGE, None)),
    Refuse(0x1_001f_fc00, FAULT),
    Tell(STATS),
];

#[test]
fn gives_back_what_it_joins(rt: HostRuntime) -> Result<(), Fail> {
    play(one_page(rt.alloc()), JOINED)
}

const FREED_LAST: &[Step] = &[
    Alloc(1000, 2, Some(0x1_001f_fc00)),
    Alloc(1000, 3, Some(0x1_001f_f780)),
    Alloc(1000, 4, Some(0x1_001f_f300)),
    Alloc(1000, 5, Some(0x1_001f_ee80)),
    Alloc(1000, 6, Some(0x1_001f_ea00)),
    Free(0x1_001f_f780),
    Free(0x1_001f_ee80),
    Alloc(1000, 7, Some(0x1_001f_ee80)),
    See(Counts(4, 2, PAGE)),
    See(FreeAt(BASE, 2_091_392, 6)),
    See(BusyAt(0x1_001f_e980, 1152, 0, 1024, 6)),
    See(BusyAt(0x1_001f_ee00, 1152, 0, 1024, 7)),
    See(BusyAt(0x1_001f_f280, 1152, 0, 1024, 4)),
    See(FreeAt(0x1_001f_f700, 1152, 7)),
    See(BusyAt(0x1_001f_fb80, 1152, 0, 1024, 2)),
];

#[test]
fn takes_the_element_that_was_freed_last(rt: HostRuntime) -> Result<(), Fail> {
    play(one_page(rt.alloc()), FREED_LAST)
}

const TAG: Tag = Tag {
    who: 1,
    zone: true,
    number: 2,
};

// Who asked for it is not compared where the tag is looked up.
const MEMZONE: &[Step] = &[
    Reserve(100, TAG, 0x1_001f_ff80),
    Find(Tag { who: 0, ..TAG }, Some(0x1_001f_ff80)),
    Find(Tag { zone: false, ..TAG }, None),
    Refuse(0x1_001f_ff80, FreeFault::IsZone { tag: TAG }),
    See(Calls(5)),
    See(Answers(4, Said::IsZone)),
    FreeZone(2),
    Find(TAG, None),
    See(Contains(BASE, Some(WHOLE_PAGE))),
];

#[test]
fn keeps_the_element_of_a_memzone(rt: HostRuntime) -> Result<(), Fail> {
    play(one_page(rt.alloc()), MEMZONE)
}
