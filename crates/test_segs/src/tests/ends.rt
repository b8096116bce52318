//! Growths that fail, asks that are armed, closed, taken back or stale, notices, and the roster.

use super::looks::Look::{
    Armed, Behind, Closed, Ended, Failed, Growing, Last, Roster, Shows, Table,
};
use super::seen::{End, NEW, Seen};
use super::steps::Step::{
    Agree, Arm, Cancel, Close, Drop, Freed, GiveUp, Join, Leave, Note, Open, See, Stale, Take,
    TakeBack,
};
use super::steps::play;
use super::taking::{FEW_BYTES, Wants, segs_of};
use super::{BASE, FIRST_RUN, PAGE};
use hp_base::{MapAnswer, Run};
use hp_segs::{NotAll, RowState};
use std::test::Fail;

// What is seen once a growth was cancelled.
const CANCELLED: Seen = Seen {
    records: 2,
    asks: 1,
    ..NEW
};

// Participant 1 was waited for from 0 to 200 ms. Then a notice comes that memory went back.
#[test]
fn cancels_a_growth_for_a_late_member(rt: HostRuntime) -> Result<(), Fail> {
    let late = End::Late(1, 0, 200);
    let behind = NotAll {
        participant: 1,
        acked: 0,
    };
    let steps = [
        Open(1, FIRST_RUN),
        Agree(1, 0, Some(behind)),
        Cancel,
        See(Growing(None)),
        See(Shows(CANCELLED)),
        See(Table(2, None)),
        See(Last(1, 1, late, true)),
        See(Ended(1, Some(late))),
        Freed(2),
        See(Ended(2, Some(End::Freed(2)))),
        See(Closed(2)),
    ];
    play(segs_of(rt.alloc(), 4), rt.alloc(), steps.as_slice())
}

#[test]
fn cancels_a_growth_for_a_failed_mapping(rt: HostRuntime) -> Result<(), Fail> {
    let failed = End::MapFailed(1, 7, BASE, MapAnswer::Refused);
    let steps = [
        Open(1, FIRST_RUN),
        Note(7, true),
        Note(8, false),
        See(Failed(Some(failed))),
        Cancel,
        See(Shows(CANCELLED)),
        See(Ended(1, Some(failed))),
    ];
    play(segs_of(rt.alloc(), 4), rt.alloc(), steps.as_slice())
}

// Of eight pages, with four slots: nine are asked for, or pages of another socket, or three that begin at a multiple of 4M, or one that
// is denied.
#[test]
fn closes_an_ask_for_each_cause(rt: HostRuntime) -> Result<(), Fail> {
    let many = Wants {
        size: 8 * PAGE,
        ..FEW_BYTES
    };
    let elsewhere = Wants {
        socket: 1,
        ..FEW_BYTES
    };
    let aligned = Wants {
        size: 2 * PAGE,
        align: 2 * PAGE,
        ..FEW_BYTES
    };
    let closed = Seen {
        pages_left: 8,
        asks: 4,
        ..NEW
    };
    let steps = [
        Close(1, many),
        Close(2, elsewhere),
        Close(3, aligned),
        Close(4, FEW_BYTES),
        See(Ended(1, Some(End::TooFew(8, 9)))),
        See(Ended(2, Some(End::NoList))),
        See(Ended(3, Some(End::CannotHold(BASE, 3 * PAGE)))),
        See(Ended(4, Some(End::Denied(0, PAGE)))),
        See(Shows(closed)),
    ];
    play(segs_of(rt.alloc(), 8), rt.alloc(), steps.as_slice())
}

// Of four slots the second and the fourth are free.
#[test]
fn closes_an_ask_for_want_of_a_stretch(rt: HostRuntime) -> Result<(), Fail> {
    let second = Run {
        first: 1,
        addr: BASE + PAGE,
        ..FIRST_RUN
    };
    let third = Run {
        first: 2,
        addr: BASE + 2 * PAGE,
        ..FIRST_RUN
    };
    let two = Wants {
        size: PAGE,
        ..FEW_BYTES
    };
    let steps = [
        Take(1, FIRST_RUN),
        GiveUp(2, second),
        Take(3, third),
        Drop(4),
        Close(4, two),
        See(Ended(4, Some(End::ListFull(1, 2)))),
    ];
    play(segs_of(rt.alloc(), 8), rt.alloc(), steps.as_slice())
}

// The coordinator refused it before the asker took it back.
#[test]
fn answers_a_refusal_that_stands(rt: HostRuntime) -> Result<(), Fail> {
    let denied = Some(End::Denied(0, PAGE));
    let refused = Seen { asks: 1, ..NEW };
    let steps = [
        Arm(1),
        Close(1, FEW_BYTES),
        TakeBack(1, denied),
        See(Ended(1, denied)),
        See(Shows(refused)),
    ];
    play(segs_of(rt.alloc(), 4), rt.alloc(), steps.as_slice())
}

// It was granted when it came again: one record, and the first outcome stands.
#[test]
fn logs_an_ask_that_comes_twice_as_stale(rt: HostRuntime) -> Result<(), Fail> {
    let granted = Seen {
        state: Some(RowState::Agreed { heap: 3 }),
        pages_left: 3,
        total: PAGE,
        records: 1,
        asks: 2,
        ..NEW
    };
    let steps = [
        Open(1, FIRST_RUN),
        Agree(1, 1, None),
        Stale(1),
        See(Last(1, 1, End::Stale(1), false)),
        See(Ended(1, Some(End::Granted(1)))),
        See(Shows(granted)),
    ];
    play(segs_of(rt.alloc(), 4), rt.alloc(), steps.as_slice())
}

#[test]
fn logs_a_closed_ask_as_stale(rt: HostRuntime) -> Result<(), Fail> {
    let steps = [
        Open(3, FIRST_RUN),
        Cancel,
        See(Closed(3)),
        Stale(2),
        See(Last(2, 2, End::Stale(3), false)),
        See(Closed(3)),
    ];
    play(segs_of(rt.alloc(), 4), rt.alloc(), steps.as_slice())
}

#[test]
fn cancels_the_growth_of_an_ask_that_is_taken_back(rt: HostRuntime) -> Result<(), Fail> {
    let steps = [
        See(Armed(0, None)),
        Arm(1),
        See(Armed(0, Some(1))),
        See(Armed(1, None)),
        Open(1, FIRST_RUN),
        TakeBack(1, Some(End::Withdrawn(10, 40))),
        See(Growing(None)),
        See(Shows(CANCELLED)),
        See(Ended(1, Some(End::Withdrawn(10, 40)))),
    ];
    play(segs_of(rt.alloc(), 4), rt.alloc(), steps.as_slice())
}

#[test]
fn leaves_a_grant_that_stands(rt: HostRuntime) -> Result<(), Fail> {
    let steps = [
        Arm(1),
        Open(1, FIRST_RUN),
        Agree(1, 1, None),
        TakeBack(1, None),
        See(Ended(1, Some(End::Granted(1)))),
        See(Last(1, 1, End::Granted(1), true)),
    ];
    play(segs_of(rt.alloc(), 4), rt.alloc(), steps.as_slice())
}

#[test]
fn lets_members_come_and_go(rt: HostRuntime) -> Result<(), Fail> {
    let behind = NotAll {
        participant: 1,
        acked: 4,
    };
    let steps = [
        See(Behind(5, 5, 5, None)),
        See(Behind(5, 4, 5, Some(behind))),
        Join(2),
        See(Roster(7)),
        Leave(1),
        See(Roster(5)),
        See(Behind(5, 4, 5, None)),
    ];
    play(segs_of(rt.alloc(), 4), rt.alloc(), steps.as_slice())
}

// A participant that is out is asked for nothing. One that came and could not map is out again.
#[test]
fn grants_without_a_participant_that_is_out(rt: HostRuntime) -> Result<(), Fail> {
    let second = Run {
        first: 1,
        addr: BASE + PAGE,
        ..FIRST_RUN
    };
    let steps = [
        Leave(1),
        Open(1, FIRST_RUN),
        Agree(1, 0, None),
        Join(1),
        See(Roster(3)),
        Leave(1),
        See(Roster(1)),
        Open(2, second),
        Agree(2, 1, None),
        See(Ended(2, Some(End::Granted(2)))),
    ];
    play(segs_of(rt.alloc(), 4), rt.alloc(), steps.as_slice())
}
