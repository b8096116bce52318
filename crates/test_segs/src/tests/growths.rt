//! Growths that are opened, granted and claimed, and runs that are given up.

use super::looks::Look::{Ended, Failed, Growing, Last, Lies, Record, Shows, Table};
use super::seen::{End, NEW, Seen};
use super::steps::Step::{self, Agree, Cancel, Drop, GiveUp, Open, See, Take};
use super::steps::play;
use super::taking::segs_of;
use super::{BASE, FIRST_ROW, FIRST_RUN, PAGE};
use hp_base::Row;
use hp_segs::{LogRecord, NotAll, RowState};
use std::test::Fail;

// The record by which the first page is added for heap 3.
const ADDED: LogRecord = LogRecord::Add {
    run: FIRST_RUN,
    heap: 3,
};

const OPENED: Seen = Seen {
    state: Some(RowState::Opened),
    pages_left: 3,
    records: 1,
    ..NEW
};

const OPENING: &[Step] = &[
    See(Shows(NEW)),
    See(Growing(None)),
    Open(1, FIRST_RUN),
    See(Growing(Some(1))),
    See(Failed(None)),
    See(Shows(OPENED)),
    See(Record(ADDED)),
    See(Lies(0x1_001f_fc00, Some(FIRST_ROW))),
    See(Lies(BASE + PAGE, None)),
    See(Table(1, Some(FIRST_ROW))),
];

#[test]
fn opens_the_first_page(rt: HostRuntime) -> Result<(), Fail> {
    play(segs_of(rt.alloc(), 4), rt.alloc(), OPENING)
}

const LATE: NotAll = NotAll {
    participant: 1,
    acked: 0,
};

const GRANTED: Seen = Seen {
    state: Some(RowState::Agreed { heap: 3 }),
    pages_left: 3,
    total: PAGE,
    records: 1,
    asks: 1,
    ..NEW
};

// Participant 1 has not acknowledged the record, and then both have.
const GRANTING: &[Step] = &[
    Open(1, FIRST_RUN),
    Agree(1, 0, Some(LATE)),
    See(Growing(Some(1))),
    Agree(1, 1, None),
    See(Growing(None)),
    See(Shows(GRANTED)),
    See(Last(1, 1, End::Granted(1), true)),
    See(Ended(1, Some(End::Granted(1)))),
    See(Ended(2, None)),
];

#[test]
fn grants_what_all_acknowledged(rt: HostRuntime) -> Result<(), Fail> {
    play(segs_of(rt.alloc(), 4), rt.alloc(), GRANTING)
}

#[test]
fn gives_the_rows_of_a_grant_to_its_heap(rt: HostRuntime) -> Result<(), Fail> {
    let owned = Seen {
        state: Some(RowState::Owned { heap: 3 }),
        pages_left: 3,
        total: PAGE,
        records: 1,
        asks: 1,
        ..NEW
    };
    let steps = [Take(1, FIRST_RUN), See(Shows(owned))];
    play(segs_of(rt.alloc(), 4), rt.alloc(), steps.as_slice())
}

const RETIRED: Seen = Seen {
    state: Some(RowState::Retiring),
    pages_left: 3,
    retiring: 1,
    records: 1,
    asks: 1,
    ..NEW
};

const DROPPED: Seen = Seen {
    records: 2,
    asks: 1,
    ..NEW
};

// A run that its heap gives up stays mapped until it is dropped, and the table before that is kept.
const DROPPING: &[Step] = &[
    GiveUp(1, FIRST_RUN),
    See(Shows(RETIRED)),
    Drop(2),
    See(Shows(DROPPED)),
    See(Record(LogRecord::Drop { run: FIRST_RUN })),
    See(Table(2, None)),
    See(Table(1, Some(FIRST_ROW))),
];

#[test]
fn drops_a_run_that_is_given_up(rt: HostRuntime) -> Result<(), Fail> {
    play(segs_of(rt.alloc(), 4), rt.alloc(), DROPPING)
}

const AGAIN: Row = Row {
    generation: 3,
    ..FIRST_ROW
};

const THREE_RECORDS: &[Step] = &[
    Open(1, FIRST_RUN),
    Cancel,
    Open(2, FIRST_RUN),
    See(Table(3, Some(AGAIN))),
];

#[test]
fn keeps_the_table_of_three_records(rt: HostRuntime) -> Result<(), Fail> {
    play(segs_of(rt.alloc(), 4), rt.alloc(), THREE_RECORDS)
}
