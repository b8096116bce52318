//! A growth between two threads, by a SYNC and a reply: once both map it, and once the second cannot.
ghost use Rattle.test_board.specs.Seating.{IsSeated};

use super::playing::{Player, Shared, first, second};
use super::serving::Told;
use super::shown::{End, Shown};
use super::staging::set_up;
use super::{BASE, PAGE};
use hp_base::{Plan, PlanEntry, Request, Run};
use hp_segs::RowState;
use std::alloc::{AllocError, Global};
use std::sync::Wait;
use std::test::Fail;
use std::thread::{Threads, join};

// What the two tell, where neither is refused memory.
type Both = (Result<Told, AllocError>, Result<Told, AllocError>);

// Both play, each on a thread.
fn both<R: Threads + Wait + Sync>(
    rt: &R,
    alloc: Global,
    shared: Shared<'_>,
    players: (Player, Player),
    plan: &Plan,
    request: Request,
) -> Both
    requires first { IsSeated 0 shared.board.now shared.boxes.now shared.cells.now players.0.seat players.0.passes.items players.0.stats }
    requires second { IsSeated 1 shared.board.now shared.boxes.now shared.cells.now players.1.seat players.1.passes.items players.1.stats }
{
    let (of_first, of_second) = players;
    join(
        rt,
        move || -> Result<Told, AllocError>
            requires { IsSeated 0 shared.board.now shared.boxes.now shared.cells.now of_first.seat of_first.passes.items of_first.stats }
        { first(rt, alloc, shared, of_first, plan) },
        move || -> Result<Told, AllocError>
            requires { IsSeated 1 shared.board.now shared.boxes.now shared.cells.now of_second.seat of_second.passes.items of_second.stats }
        { second(rt, alloc, shared, of_second, plan, request) },
    )
}

// What both tell, where neither was refused memory.
fn told(both: Both) -> Result<(Told, Told), AllocError> {
    Ok((both.0?, both.1?))
}

// A page of 2M is asked for, by that plan: what the two tell.
fn grow<R: Threads + Wait + Sync>(
    rt: &R,
    alloc: Global,
    plan: &Plan,
) -> Result<(Told, Told), AllocError> {
    let Ok(request) = Request::new(1000, 0, 0, 0) else {
        return Err(AllocError);
    };
    let (room, first, second) = set_up(alloc)?;
    let shared = Shared {
        marks: &room.marks,
        board: &room.board,
        boxes: room.boxes.as_slice(),
        cells: &room.cells,
    };
    told(both(rt, alloc, shared, (first, second), plan, request))
}

// The two tell that, where that is planned.
fn grows<R: Threads + Wait + Sync>(
    rt: &R,
    alloc: Global,
    planned: Option<PlanEntry>,
    wanted: &(Told, Told),
) -> Result<(), Fail> {
    let mut plan = Plan::new(alloc);
    if let Some(entry) = planned {
        plan.add(entry)?;
    }
    if grow(rt, alloc, &plan)? != *wanted {
        return Err("the two told something else".into());
    }
    Ok(())
}

// The first page of the pool.
const FIRST_PAGE: Run = Run {
    list: 0,
    first: 0,
    count: 1,
    addr: BASE,
    page: PAGE,
    socket: 0,
};

// Both have mapped the page, and the heap has claimed it.
const GRANTED: (Told, Told) = (
    Told {
        run: None,
        shown: Some(Shown {
            records: 1,
            left: 3,
            state: Some(RowState::Owned { heap: 0 }),
            outcomes: 1,
            last: Some((1, End::Granted(1))),
        }),
        records: 1,
    },
    Told {
        run: Some(FIRST_PAGE),
        shown: None,
        records: 1,
    },
);

// The second could not map the page: its record was dropped by another, and both have taken that in.
const REFUSED: (Told, Told) = (
    Told {
        run: None,
        shown: Some(Shown {
            records: 2,
            left: 4,
            state: None,
            outcomes: 1,
            last: Some((1, End::MapFailed(1, 1))),
        }),
        records: 2,
    },
    Told {
        run: None,
        shown: None,
        records: 2,
    },
);

// The first mapping call of the second is refused.
const CANNOT_MAP: PlanEntry = PlanEntry::Mapping {
    party: 1,
    call: 1,
    elsewhere: false,
    line: 2,
};

#[test]
fn grants_a_growth_between_two_threads(rt: HostRuntime) -> Result<(), Fail> {
    grows(&rt, rt.alloc(), None, &GRANTED)
}

#[test]
fn refuses_what_the_second_cannot_map(rt: HostRuntime) -> Result<(), Fail> {
    grows(&rt, rt.alloc(), Some(CANNOT_MAP), &REFUSED)
}
