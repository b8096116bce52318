//! Worked values: tables over one page and two, refused, misplaced, dropped, full, left, beside a chunk, and what they tell.

mod batch;
mod chunks;
mod drops;
mod external;
mod faults;
mod follow;
mod full;
mod heard;
mod looks;
mod play;
mod steps;
mod watching;

use hp_base::{Row, Run};
use hp_log::LogRecord;

const PAGE: u64 = 0x20_0000;

// Where the first list begins.
const BASE: u64 = 0x1_0000_0000;

// The first page of the first list, and the second.
const FIRST: Run = Run {
    list: 0,
    first: 0,
    count: 1,
    addr: BASE,
    page: PAGE,
    socket: 0,
};

const SECOND: Run = Run {
    list: 0,
    first: 1,
    count: 1,
    addr: 0x1_0020_0000,
    page: PAGE,
    socket: 0,
};

// Their rows, where the first record mapped the first page, and the second record the second.
const FIRST_ROW: Row = Row {
    addr: BASE,
    page: PAGE,
    socket: 0,
    list: 0,
    slot: 0,
    generation: 1,
};

const SECOND_ROW: Row = Row {
    addr: 0x1_0020_0000,
    page: PAGE,
    socket: 0,
    list: 0,
    slot: 1,
    generation: 2,
};

const ADD: LogRecord = LogRecord::Add {
    run: FIRST,
    heap: 0,
};

const DROP: LogRecord = LogRecord::Drop { run: FIRST };

const ADD_SECOND: LogRecord = LogRecord::Add {
    run: SECOND,
    heap: 0,
};
