//! Elements that are resized at their place.

use super::heaps::one_page;
use super::looks::Look::{Answers, BusyAt, Calls, Counts, FreeAt};
use super::looks::Said;
use super::steps::Step::{self, Alloc, Free, Resize, See, TooLarge};
use super::steps::play;
use super::{BASE, PAGE};
use std::test::Fail;

const GROWN: &[Step] = &[
    Alloc(1000, 2, Some(0x1_001f_fc00)),
    Alloc(1000, 3, Some(0x1_001f_f780)),
    Free(0x1_001f_fc00),
    Resize(3, 1536),
    See(FreeAt(0x1_001f_fd80, 640, 5)),
    Resize(3, 1856),
    See(FreeAt(0x1_001f_fec0, 320, 6)),
    Resize(3, 2112),
    Resize(3, 2176),
    TooLarge(3, 2240),
    See(Counts(1, 1, PAGE)),
    See(FreeAt(BASE, 2_094_848, 3)),
    See(BusyAt(0x1_001f_f700, 2304, 0, 2176, 3)),
];

#[test]
fn takes_the_bytes_behind_that_it_needs(rt: HostRuntime) -> Result<(), Fail> {
    play(one_page(rt.alloc()), GROWN)
}

const SHRUNK: &[Step] = &[
    Alloc(1000, 2, Some(0x1_001f_fc00)),
    Resize(2, 64),
    TooLarge(2, 1088),
    See(BusyAt(0x1_001f_fb80, 1152, 0, 64, 2)),
    See(Calls(6)),
    See(Answers(3, Said::Yes)),
    See(Answers(5, Said::No)),
];

#[test]
fn keeps_its_bytes_where_it_gets_smaller(rt: HostRuntime) -> Result<(), Fail> {
    play(one_page(rt.alloc()), SHRUNK)
}
