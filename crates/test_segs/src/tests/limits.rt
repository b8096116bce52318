//! As many segments as there can be.

use super::PAGE;
use super::taking::{FEW_BYTES, Wants, ask_with, take};
use hp_base::{PoolLine, Row};
use hp_segs::Segs;
use std::alloc::{AllocError, Global};
use std::test::Fail;

// Two pools of 8,192 pages of 2M each, with as many slots.
const FIRST: PoolLine = PoolLine {
    socket: 0,
    page: PAGE,
    pages: 8192,
    slots: 8192,
};

const SECOND: PoolLine = PoolLine { socket: 1, ..FIRST };

// What all pages of a pool have, and as many bytes as they can hold at once.
const WHOLE: u64 = 8192 * PAGE;

const MOST: u64 = WHOLE - 128;

// One participant, and both pools.
fn largest(alloc: Global) -> Result<Segs, AllocError> {
    Segs::new(alloc, [FIRST, SECOND].as_slice(), 1, 0)
}

// Heap 3 takes what each of so many asks wants, of which the first has that number.
fn take_each(segs: &mut Segs, wants: Wants, first: u64, count: u64) -> Result<(), Fail> {
    for number in first..first.saturating_add(count) {
        take(segs, &ask_with(number, wants)?)?;
    }
    Ok(())
}

// What both sockets have, one after the other, by growths of so many bytes.
fn take_all(alloc: Global, size: u64, count: u64) -> Result<Segs, Fail> {
    let mut segs = largest(alloc)?;
    let first = Wants { size, ..FEW_BYTES };
    let second = Wants { socket: 1, ..first };
    take_each(&mut segs, first, 1, count)?;
    take_each(&mut segs, second, count.saturating_add(1), count)?;
    Ok(segs)
}

// The row of an address, the row of the last byte of the last slot, how many records there are, and how many bytes the second socket has.
fn ends(segs: &Segs) -> (Option<Row>, Option<Row>, usize, u64) {
    (
        segs.virt2row(0x9_0000_0000),
        segs.virt2row(0x8_ffff_ffff),
        segs.records().len(),
        segs.total_of(1),
    )
}

// The last slot, by the record of that number.
fn last_row(generation: u64) -> Row {
    Row {
        addr: 0x8_ffe0_0000,
        page: PAGE,
        socket: 1,
        list: 1,
        slot: 8191,
        generation,
    }
}

#[test]
fn maps_all_segments_that_there_can_be(rt: HostRuntime) -> Result<(), Fail> {
    let segs = take_all(rt.alloc(), MOST, 1)?;
    assert!(rt; ends(&segs) == (None, Some(last_row(2)), 2, WHOLE));
    Ok(())
}

#[test]
fn grows_by_a_page_16384_times(rt: HostRuntime) -> Result<(), Fail> {
    let segs = take_all(rt.alloc(), 1000, 8192)?;
    assert!(rt; ends(&segs) == (None, Some(last_row(16_384)), 16_384, WHOLE));
    Ok(())
}
