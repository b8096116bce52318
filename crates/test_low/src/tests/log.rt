//! Worked values of runs, and of the table that records leave.
ghost use Rattle.std.specs.Prelude.{◌≤◌};

use hp_base::{Row, Run};
use hp_log::{LogRecord, contains, row_of, table_at};
use std::alloc::{AllocError, Global};
use std::test::Fail;

const PAGE: u64 = 0x20_0000;

// Two pages of list 1 from slot 3 on.
const RUN: Run = Run {
    list: 1,
    first: 3,
    count: 2,
    addr: 0x1_0060_0000,
    page: PAGE,
    socket: 0,
};

// The row of its first slot, mapped by the first record.
const FIRST: Row = Row {
    addr: 0x1_0060_0000,
    page: PAGE,
    socket: 0,
    list: 1,
    slot: 3,
    generation: 1,
};

// The row of its second slot.
const SECOND: Row = Row {
    addr: 0x1_0080_0000,
    page: PAGE,
    socket: 0,
    list: 1,
    slot: 4,
    generation: 1,
};

// Whether the run holds the row of its second slot, one behind it, and one of another list.
fn holds() -> [bool; 3] {
    let behind = Row { slot: 5, ..SECOND };
    let elsewhere = Row { list: 0, ..SECOND };
    [
        contains(&RUN, &SECOND),
        contains(&RUN, &behind),
        contains(&RUN, &elsewhere),
    ]
}

#[test]
fn gives_the_rows_of_a_run(rt: HostRuntime) {
    assert!(rt; row_of(&RUN, 1, 0) == FIRST && row_of(&RUN, 1, 1) == SECOND);
    assert!(rt; holds() == [true, false, false]);
}

// The first page alone.
const FIRST_PAGE: Run = Run { count: 1, ..RUN };

const RECORDS: &[LogRecord] = &[
    LogRecord::Add { run: RUN, heap: 0 },
    LogRecord::Drop { run: FIRST_PAGE },
    LogRecord::Add {
        run: FIRST_PAGE,
        heap: 1,
    },
];

// Whether so many of the records leave these rows.
fn leaves(alloc: Global, number: u64, rows: &[Row]) -> Result<bool, AllocError>
    requires { number ≤ 3 }
{
    let mut left = Vec::new(alloc);
    table_at(alloc, RECORDS, number, &mut left)?;
    Ok(left.as_slice() == rows)
}

// The row of the first page that the third record mapped.
const AGAIN: Row = Row {
    generation: 3,
    ..FIRST
};

#[test]
fn keeps_what_is_added_and_not_dropped(rt: HostRuntime) -> Result<(), Fail> {
    assert!(rt; leaves(rt.alloc(), 1, &[FIRST, SECOND])?);
    assert!(rt; leaves(rt.alloc(), 3, &[SECOND, AGAIN])?);
    Ok(())
}
