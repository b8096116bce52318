//! Asks that come twice or are lost, and notices.

use super::acts::Act;
use super::growths::{GRANTED, LATE};
use super::lost;
use super::playing::play;
use super::shown::End;
use super::stage::Shown;
use Act::*;
use hp_base::{MsgKind, PlanEntry};
use hp_hall::Posted;
use std::test::Fail;

// The first ALLOC of participant 1 comes twice.
const DOUBLED: PlanEntry = PlanEntry::Message {
    kind: MsgKind::Alloc,
    party: 1,
    k: 1,
    twice: true,
    line: 5,
};

// The second one is found to be stale.
const THEN_STALE: Shown = Shown {
    outcomes: 2,
    last: Some((1, 1, End::Stale(1))),
    ..GRANTED
};

// The ALLOC comes twice: the second one is held while the round of the first is under way, and found to be stale.
const ASKED_TWICE: &[Act] = &[
    Alloc(1, Posted::Twice),
    Primary(true),
    Primary(true),
    Primary(false),
    Secondary(true),
    Primary(true),
    Shows(GRANTED),
    Primary(true),
    Shows(THEN_STALE),
    Primary(false),
    Secondary(true),
    Secondary(false),
];

#[test]
fn answers_a_doubled_ask_once(rt: HostRuntime) -> Result<(), Fail> {
    play(rt.alloc(), Some(DOUBLED), ASKED_TWICE)
}

// The first SYNC is lost, so that participant 1 has nothing to serve until the rollback's comes.
const SYNC_LOST: &[Act] = &[
    Alloc(1, Posted::Sent),
    Primary(true),
    Secondary(false),
    Jump(200),
    Primary(true),
    Secondary(true),
    Secondary(false),
    Primary(true),
    Due(None),
    Secondary(true),
    Secondary(false),
    Shows(LATE),
];

#[test]
fn rolls_back_where_a_sync_is_lost(rt: HostRuntime) -> Result<(), Fail> {
    play(rt.alloc(), Some(lost(MsgKind::Sync)), SYNC_LOST)
}

// The notice is logged.
const FREED: Shown = Shown {
    records: 0,
    numbers: (0, 0),
    left: 4,
    rows: (None, None),
    outcomes: 1,
    last: Some((1, 1, End::Freed(0))),
};

// Its repetition is stale.
const FREED_BEFORE: Shown = Shown {
    outcomes: 2,
    last: Some((1, 1, End::Stale(1))),
    ..FREED
};

// A notice is logged at once, and answered when participant 1 has replied. Its repetition is stale.
const NOTICED_TWICE: &[Act] = &[
    Free(1),
    Primary(true),
    Due(Some(200)),
    Shows(FREED),
    Secondary(true),
    Primary(true),
    Due(None),
    Secondary(true),
    Secondary(false),
    Free(1),
    Primary(true),
    Shows(FREED_BEFORE),
    Primary(false),
    Secondary(false),
];

#[test]
fn answers_a_notice(rt: HostRuntime) -> Result<(), Fail> {
    play(rt.alloc(), None, NOTICED_TWICE)
}
