//! Which element is taken, and where its data lies.

use super::heaps::{SMALL_PAGE, one_page, two_lists};
use super::looks::Look::{Contains, Counts, FreeAt, Shows};
use super::steps::Step::{self, Aligned, Alloc, Cut, Free, OnPages, See, Within};
use super::steps::play;
use super::{BASE, PAGE};
use hp_base::{Span, SpanState, Stats};
use std::test::Fail;

// Flags for pages of 2M and of 256K, and the one that makes them a hint.
const FLAG_2M: u32 = 0x1;

const FLAG_256K: u32 = 0x1_0000;

const HINT: u32 = 0x4;

const ALIGNED: &[Step] = &[
    Aligned(64, 0x10_0000, 2, Some(0x1_0010_0000)),
    See(Counts(1, 2, PAGE)),
    See(FreeAt(BASE, 1_048_448, 3)),
    See(FreeAt(0x1_0010_0040, 1_048_512, 2)),
    Alloc(64, 3, Some(0x1_000f_ff40)),
];

#[test]
fn cuts_at_an_alignment(rt: HostRuntime) -> Result<(), Fail> {
    play(one_page(rt.alloc()), ALIGNED)
}

const BOUNDED: &[Step] = &[
    Within(1000, 1024, 2, Some(0x1_001f_fc00)),
    Within(1000, 1024, 3, Some(0x1_001f_f400)),
    See(Counts(2, 2, PAGE)),
    See(FreeAt(BASE, 2_093_952, 4)),
    See(FreeAt(0x1_001f_f800, 896, 3)),
];

#[test]
fn keeps_within_blocks_of_a_bound(rt: HostRuntime) -> Result<(), Fail> {
    play(one_page(rt.alloc()), BOUNDED)
}

const SMALL: Span = Span {
    addr: 0x1_0020_0000,
    whole: 260_992,
    list: 1,
    page: SMALL_PAGE,
    state: SpanState::Free { stamp: 5 },
};

const STATS: Stats = Stats {
    total: 2_359_296,
    free: 2_356_992,
    used: 2304,
    greatest: 2_094_848,
    busy: 2,
    frees: 3,
};

// The two lists touch, and their free elements stay two.
const FLAGGED: &[Step] = &[
    OnPages(1000, FLAG_2M, 3, Some(0x1_001f_fc00)),
    OnPages(1000, FLAG_2M, 4, Some(0x1_001f_f780)),
    OnPages(1000, FLAG_256K, 5, Some(0x1_0023_fc00)),
    Free(0x1_001f_fc00),
    Cut(0x1_001f_fc00, None),
    See(FreeAt(0x1_001f_fb80, 1152, 6)),
    See(Contains(0x1_0020_0000, Some(SMALL))),
    See(Shows(STATS)),
];

#[test]
fn takes_pages_as_flags_say(rt: HostRuntime) -> Result<(), Fail> {
    play(two_lists(rt.alloc()), FLAGGED)
}

const HINTED: &[Step] = &[
    OnPages(1000, FLAG_256K, 2, None),
    OnPages(1000, FLAG_256K | HINT, 3, Some(0x1_001f_fc00)),
];

#[test]
fn takes_another_page_where_flags_are_a_hint(rt: HostRuntime) -> Result<(), Fail> {
    play(one_page(rt.alloc()), HINTED)
}

#[test]
fn takes_a_fitting_page_by_a_hint(rt: HostRuntime) -> Result<(), Fail> {
    let steps = [OnPages(1000, FLAG_2M | HINT, 3, Some(0x1_001f_fc00))];
    play(two_lists(rt.alloc()), steps.as_slice())
}
