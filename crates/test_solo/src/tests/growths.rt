//! Growths that are granted, are late, or whose mapping fails.

use super::acts::Act;
use super::playing::play;
use super::shown::End;
use super::stage::Shown;
use super::{BASE, PAGE};
use Act::*;
use hp_base::{MapAnswer, PlanEntry, Row};
use hp_hall::Posted;
use std::alloc::Global;
use std::test::Fail;

// The first page of the first list, where the first record mapped it.
pub(super) const FIRST_ROW: Row = Row {
    addr: BASE,
    page: PAGE,
    socket: 0,
    list: 0,
    slot: 0,
    generation: 1,
};

// The page is mapped by both, and granted.
pub(super) const GRANTED: Shown = Shown {
    records: 1,
    numbers: (1, 1),
    left: 3,
    rows: (Some(FIRST_ROW), Some(FIRST_ROW)),
    outcomes: 1,
    last: Some((1, 1, End::Granted(1))),
};

// Participant 1 was late for the growth, which was cancelled, and both have taken that in.
pub(super) const LATE: Shown = Shown {
    records: 2,
    numbers: (2, 2),
    left: 4,
    rows: (None, None),
    outcomes: 1,
    last: Some((1, 1, End::Late(1, 0, 200))),
};

// Participant 1 was late for the growth, and participant 0 alone has taken in that it was cancelled.
const LATE_STILL: Shown = Shown {
    numbers: (2, 0),
    ..LATE
};

// The growth was cancelled so, and both have taken that in.
const fn cancelled(end: End) -> Shown {
    Shown {
        last: Some((1, 1, end)),
        ..LATE
    }
}

// Participant 0 alone has mapped the page.
const OPENED: Shown = Shown {
    numbers: (1, 0),
    rows: (Some(FIRST_ROW), None),
    outcomes: 0,
    last: None,
    ..GRANTED
};

// Participant 0 maps the page and posts a SYNC, participant 1 maps it and replies, participant 0 grants it and posts the RESULT.
const IN_TIME: &[Act] = &[
    Numbered,
    Due(None),
    Alloc(1, Posted::Sent),
    Primary(true),
    Due(Some(200)),
    Shows(OPENED),
    Primary(false),
    Secondary(true),
    Secondary(false),
    Primary(true),
    Due(None),
    Shows(GRANTED),
    Secondary(true),
    Secondary(false),
    Primary(false),
    Shows(GRANTED),
];

#[test]
fn grants_a_growth(rt: HostRuntime) -> Result<(), Fail> {
    play(rt.alloc(), None, IN_TIME)
}

// Participant 1 does not serve before both deadlines have passed. It does what the frames ask that it fetches then, and its replies are
// dropped.
const TOO_LATE: &[Act] = &[
    Alloc(1, Posted::Sent),
    Primary(true),
    Jump(199),
    Primary(false),
    Jump(200),
    Primary(true),
    Due(Some(400)),
    Shows(LATE_STILL),
    Jump(399),
    Primary(false),
    Jump(400),
    Primary(true),
    Due(None),
    Primary(false),
    Secondary(true),
    Secondary(true),
    Secondary(true),
    Secondary(false),
    Primary(true),
    Primary(true),
    Primary(false),
    Shows(LATE),
];

#[test]
fn refuses_what_a_member_is_late_for(rt: HostRuntime) -> Result<(), Fail> {
    play(rt.alloc(), None, TOO_LATE)
}

// A participant's first mapping call is refused, or misplaced.
const fn first_mapping(party: u8, elsewhere: bool) -> PlanEntry {
    PlanEntry::Mapping {
        party,
        call: 1,
        elsewhere,
        line: 2,
    }
}

// That mapping call fails. Participant 1's is noted by it, and the Drop is its next SYNC's.
fn fails(alloc: Global, planned: PlanEntry, end: End) -> Result<(), Fail> {
    let acts = [
        Alloc(1, Posted::Sent),
        Primary(true),
        Due(Some(200)),
        Secondary(true),
        Primary(true),
        Due(Some(200)),
        Secondary(true),
        Primary(true),
        Due(None),
        Secondary(true),
        Secondary(false),
        Primary(false),
        Shows(cancelled(end)),
    ];
    play(alloc, Some(planned), acts.as_slice())
}

#[test]
fn refuses_what_a_member_cannot_map(rt: HostRuntime) -> Result<(), Fail> {
    let end = End::MapFailed(1, 1, BASE, MapAnswer::Refused);
    fails(rt.alloc(), first_mapping(1, false), end)
}

#[test]
fn refuses_what_a_member_maps_elsewhere(rt: HostRuntime) -> Result<(), Fail> {
    let got = MapAnswer::At {
        addr: 0x1_0020_0000,
        page: PAGE,
        socket: 0,
    };
    let end = End::MapFailed(1, 1, BASE, got);
    fails(rt.alloc(), first_mapping(1, true), end)
}

#[test]
fn refuses_what_the_primary_cannot_map(rt: HostRuntime) -> Result<(), Fail> {
    let end = End::MapFailed(0, 1, BASE, MapAnswer::Refused);
    fails(rt.alloc(), first_mapping(0, false), end)
}
