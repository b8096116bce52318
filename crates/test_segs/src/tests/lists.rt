//! Pools, lists and the roster of a new value.

use super::PAGE;
use hp_base::PoolLine;
use hp_segs::{ListInfo, Segs};
use std::alloc::{AllocError, Global};
use std::test::Fail;

const SMALL: PoolLine = PoolLine {
    socket: 0,
    page: PAGE,
    pages: 1,
    slots: 3,
};

const OTHER: PoolLine = PoolLine { socket: 1, ..SMALL };

const LARGE: PoolLine = PoolLine {
    page: 0x4000_0000,
    ..SMALL
};

// Three participants, of which that of number 2 is absent, and three pools.
fn three_pools(alloc: Global) -> Result<Segs, AllocError> {
    Segs::new(alloc, [SMALL, OTHER, LARGE].as_slice(), 3, 4)
}

// The lists lie one behind another, each at an address that its pages are aligned at.
const LISTS: [ListInfo; 3] = [
    ListInfo {
        socket: 0,
        page: PAGE,
        base: 0x1_0000_0000,
        slots: 3,
    },
    ListInfo {
        socket: 1,
        page: PAGE,
        base: 0x1_0060_0000,
        slots: 3,
    },
    ListInfo {
        socket: 0,
        page: 0x4000_0000,
        base: 0x1_4000_0000,
        slots: 3,
    },
];

// Whether a value has these pools and lists.
fn is_laid_out(segs: &Segs) -> bool {
    segs.pools() == [SMALL, OTHER, LARGE].as_slice() && segs.lists() == LISTS.as_slice()
}

#[test]
fn lays_the_lists_out_one_behind_another(rt: HostRuntime) -> Result<(), Fail> {
    let segs = three_pools(rt.alloc())?;
    assert!(rt; (is_laid_out(&segs), segs.roster()) == (true, 3));
    Ok(())
}
