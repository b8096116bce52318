//! Rows that a mapper maps and unmaps many at once: those that go on, and none where a plan has something of a call.
ghost use Rattle.std.specs.Prelude.{◌≡◌, ◌∷◌, [], IsTrue, length};
ghost use Rattle.hp_base.specs.Mapping.{at_own_place};
ghost use Rattle.hp_maps.specs.Unmapping.{is_own};
ghost use Rattle.test_maps.specs.Batch.{are_rising, goes_up};

use super::play::{Failure, plan_with};
use super::{FIRST_ROW, PAGE};
use hp_base::{MapAnswer, Mapper, MemMapper, Row};
use hp_maps::Planned;
use std::alloc::Global;
use std::test::Fail;

// The first rows are next to each other, the one after them is of another record, and the last is further on.
const SECOND: Row = Row {
    addr: 0x1_0020_0000,
    page: PAGE,
    socket: 0,
    list: 0,
    slot: 1,
    generation: 1,
};

const THIRD: Row = Row {
    addr: 0x1_0040_0000,
    page: PAGE,
    socket: 0,
    list: 0,
    slot: 2,
    generation: 1,
};

const FOURTH: Row = Row {
    addr: 0x1_0060_0000,
    page: PAGE,
    socket: 0,
    list: 0,
    slot: 3,
    generation: 1,
};

const OTHER: Row = Row {
    addr: 0x1_0020_0000,
    page: PAGE,
    socket: 0,
    list: 0,
    slot: 1,
    generation: 2,
};

const AWAY: Row = Row {
    addr: 0x1_00a0_0000,
    page: PAGE,
    socket: 0,
    list: 0,
    slot: 5,
    generation: 1,
};

const REFUSED_FOURTH: Failure = Failure {
    party: 0,
    call: 4,
    elsewhere: false,
};

const MOVED_SECOND: Failure = Failure {
    party: 0,
    call: 2,
    elsewhere: true,
};

// What a mapping call fails with, if one does; which rows are to be mapped after the first row, and how many of them come at once; and
// which are unmapped then, and how many of these go at once.
#[derive(Clone, Copy)]
struct Case {
    failure: Option<Failure>,
    rows: &'static [Row],
    come: usize,
    gone: &'static [Row],
    go: usize,
}

const CASES: &[Case] = &[
    // All go on, and all go.
    Case {
        failure: None,
        rows: &[SECOND, THIRD, FOURTH],
        come: 3,
        gone: &[FIRST_ROW, SECOND, THIRD, FOURTH],
        go: 4,
    },
    // There is a gap, in which the first ones end that come, and that go.
    Case {
        failure: None,
        rows: &[SECOND, THIRD, AWAY],
        come: 2,
        gone: &[FIRST_ROW, THIRD],
        go: 1,
    },
    // A row of another record goes on nothing, and is not unmapped in the place of one.
    Case {
        failure: None,
        rows: &[OTHER, THIRD],
        come: 0,
        gone: &[OTHER, FIRST_ROW],
        go: 0,
    },
    // Rows go from the front.
    Case {
        failure: None,
        rows: &[SECOND, THIRD],
        come: 2,
        gone: &[SECOND, THIRD],
        go: 0,
    },
    // A plan is looked at for each row.
    Case {
        failure: Some(REFUSED_FOURTH),
        rows: &[SECOND, THIRD, FOURTH],
        come: 0,
        gone: &[FIRST_ROW],
        go: 1,
    },
];

// Whether the row begins after that address.
fn goes_up(low: u64, row: &Row) -> bool
    ensures { result ≡ goes_up low row.now }
{
    low < row.addr && row.addr < 1 << 40 && row.page < 1 << 40
}

// Whether each row begins after the one before it, and the first one after that address.
fn are_rising(low: u64, rows: &[Row]) -> bool
    ensures { result ≡ are_rising low rows.now }
{
    let mut last = low;
    for row in rows {
        if !goes_up(last, row) {
            return false;
        }
        last = row.addr;
    }
    true
}

// Whether the answer is the row's own place.
fn is_own(row: &Row, got: MapAnswer) -> bool
    ensures { result ≡ is_own row.now got }
{
    match got {
        MapAnswer::At { addr, page, socket } => {
            addr == row.addr && page == row.page && socket == row.socket
        }
        MapAnswer::Refused => false,
    }
}

// Maps a row into a mapper that holds none. Whether it comes out at its own place.
fn comes<M: Mapper>(mapper: &mut M, row: &Row) -> bool
    requires held { M.held mapper.old ≡ [] }
    requires answers { M.answers mapper.old ≡ [] }
    requires room { M.capacity mapper.old ≡ 8 }
    ensures held { IsTrue result → M.held mapper.new ≡ at_own_place row.now ∷ [] }
    ensures answers { IsTrue result → length (M.answers mapper.new) ≡ 1 }
    ensures room { M.capacity mapper.new ≡ 8 }
{
    if !goes_up(0, row) {
        return false;
    }
    let got = mapper.map(row);
    is_own(row, got)
}

// How many rows a mapper that holds none maps at once after the first row, and how many it unmaps at once then.
fn at_once<M: Mapper>(mapper: &mut M, first: &Row, case: &Case) -> Option<(usize, usize)>
    requires held { M.held mapper.old ≡ [] }
    requires answers { M.answers mapper.old ≡ [] }
    requires room { M.capacity mapper.old ≡ 8 }
{
    if case.rows.len() > 7 || !are_rising(first.addr, case.rows) {
        return None;
    }
    if !comes(mapper, first) {
        return None;
    }
    let come = mapper.map_first(case.rows);
    Some((come, mapper.unmap_first(case.gone)))
}

// The case at that place came out otherwise.
#[derive(Debug, Drop)]
struct Otherwise {
    place: usize,
}

#[test]
fn maps_and_unmaps_many_at_once(rt: HostRuntime) -> Result<(), Fail> {
    for place in 0..CASES.len() {
        let case = CASES[place];
        let plan = plan_with(rt.alloc(), case.failure)?;
        let mut mapper = Planned::new(MemMapper::new(rt.alloc(), 8)?, &plan, 0);
        if at_once(&mut mapper, &FIRST_ROW, &case) != Some((case.come, case.go)) {
            return Err(Otherwise { place }.into());
        }
    }
    Ok(())
}

// How many rows go at once where the row that comes out elsewhere is held too.
fn beside_a_misplaced<M: Mapper>(mapper: &mut M, first: &Row, second: &Row) -> Option<usize>
    requires held { M.held mapper.old ≡ [] }
    requires answers { M.answers mapper.old ≡ [] }
    requires room { M.capacity mapper.old ≡ 8 }
{
    if !goes_up(first.addr, second) || !comes(mapper, first) {
        return None;
    }
    if is_own(second, mapper.map(second)) {
        return None;
    }
    Some(mapper.unmap_first([*first].as_slice()))
}

#[test]
fn unmaps_one_by_one_beside_a_misplaced_row(rt: HostRuntime) -> Result<(), Fail> {
    let plan = plan_with(rt.alloc(), Some(MOVED_SECOND))?;
    let mut mapper = Planned::new(MemMapper::new(rt.alloc(), 8)?, &plan, 0);
    assert!(rt; beside_a_misplaced(&mut mapper, &FIRST_ROW, &SECOND) == Some(0));
    Ok(())
}
