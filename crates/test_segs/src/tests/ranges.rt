//! External memory.

use super::looks::Look::Lies;
use super::steps::Step::{self, Claim, Open, Release, See};
use super::steps::play;
use super::taking::segs_of;
use super::{BASE, FIRST_ROW, FIRST_RUN, PAGE};
use hp_base::Row;
use hp_segs::RangeFault;
use std::test::Fail;

// Where external memory lies.
const OUTSIDE: u64 = 0x70_0000_0000;

// The third slot of the list of pools, and what it would be.
const SLOT: u64 = 0x1_0040_0000;

const SLOT_ROW: Row = Row {
    addr: SLOT,
    slot: 2,
    generation: 0,
    ..FIRST_ROW
};

const UNMAPPED: RangeFault = RangeFault::Overlaps { row: SLOT_ROW };

const MAPPED: RangeFault = RangeFault::Overlaps { row: FIRST_ROW };

const REFUSED: &[Step] = &[
    Claim(OUTSIDE, 0, 256, Err(RangeFault::BadRange)),
    Open(1, FIRST_RUN),
    Claim(SLOT, PAGE, 256, Err(UNMAPPED)),
    Claim(BASE, 2 * PAGE, 256, Err(MAPPED)),
];

#[test]
fn refuses_an_empty_range_and_one_in_a_slot(rt: HostRuntime) -> Result<(), Fail> {
    play(segs_of(rt.alloc(), 4), rt.alloc(), REFUSED)
}

const ROW: Row = Row {
    addr: OUTSIDE + PAGE,
    page: PAGE,
    socket: 256,
    list: 1,
    slot: 1,
    generation: 0,
};

const EXTERNAL: &[Step] = &[
    Release(OUTSIDE, PAGE, 256),
    See(Lies(OUTSIDE, None)),
    Claim(OUTSIDE, 2 * PAGE, 256, Ok(1)),
    See(Lies(OUTSIDE + PAGE + 1, Some(ROW))),
    See(Lies(OUTSIDE + 2 * PAGE, None)),
    Claim(
        OUTSIDE + PAGE,
        PAGE,
        257,
        Err(RangeFault::Overlaps { row: ROW }),
    ),
];

#[test]
fn gives_external_memory_a_list(rt: HostRuntime) -> Result<(), Fail> {
    play(segs_of(rt.alloc(), 4), rt.alloc(), EXTERNAL)
}

const SECOND: Row = Row {
    addr: OUTSIDE + PAGE,
    page: PAGE,
    socket: 256,
    list: 2,
    slot: 0,
    generation: 0,
};

const TAKEN: RangeFault = RangeFault::Overlaps { row: SECOND };

const THREE_RANGES: &[Step] = &[
    Claim(OUTSIDE, PAGE, 256, Ok(1)),
    Claim(OUTSIDE + PAGE, PAGE, 256, Ok(2)),
    Claim(OUTSIDE + 2 * PAGE, PAGE, 256, Ok(3)),
    Claim(OUTSIDE + PAGE, 2 * PAGE, 257, Err(TAKEN)),
];

#[test]
fn gives_three_ranges_the_lowest_numbers(rt: HostRuntime) -> Result<(), Fail> {
    play(segs_of(rt.alloc(), 4), rt.alloc(), THREE_RANGES)
}

// A list has at most 8,192 segments, and all lists have at most 16,384: those of the pool are four.
#[test]
fn refuses_a_range_without_space(rt: HostRuntime) -> Result<(), Fail> {
    let further = OUTSIDE + 8192 * PAGE;
    let steps = [
        Claim(OUTSIDE, 8193 * PAGE, 256, Err(RangeFault::NoSpace)),
        Claim(OUTSIDE, 8192 * PAGE, 256, Ok(1)),
        Claim(further, 8189 * PAGE, 256, Err(RangeFault::NoSpace)),
        Claim(further, 8188 * PAGE, 256, Ok(2)),
    ];
    play(segs_of(rt.alloc(), 4), rt.alloc(), steps.as_slice())
}
