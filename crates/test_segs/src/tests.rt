//! Worked values of the segment value's calls, and what the files of tests share.

mod calls;
mod coordinator;
mod ends;
mod growths;
mod limits;
mod lists;
mod looks;
mod ranges;
mod refusals;
mod seen;
mod steps;
mod taking;

use hp_base::{Row, Run};

const PAGE: u64 = 0x20_0000;

// Where the first list begins.
const BASE: u64 = 0x1_0000_0000;

// The first page of the first list.
const FIRST_RUN: Run = Run {
    list: 0,
    first: 0,
    count: 1,
    addr: BASE,
    page: PAGE,
    socket: 0,
};

// Its row, where the first record mapped it.
const FIRST_ROW: Row = Row {
    addr: BASE,
    page: PAGE,
    socket: 0,
    list: 0,
    slot: 0,
    generation: 1,
};
