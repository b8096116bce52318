//! Both serve on after the last line.

use super::playing::{Step, drains};
use crate::tests::lost;
use Step::{Ask, Turn};
use hp_base::MsgKind;
use std::test::Fail;

// Participant 1 posts its ask: the growth is opened, mapped by both, granted, and the asker hears of it.
#[test]
fn drains_a_growth(rt: HostRuntime) -> Result<(), Fail> {
    drains(rt.alloc(), None, 1, &[Ask], 1, 1, 0)
}

// The first SYNC is lost. The clock jumps to the deadline of the growth, which both take back.
#[test]
fn drains_past_a_deadline(rt: HostRuntime) -> Result<(), Fail> {
    let planned = Some(lost(MsgKind::Sync));
    drains(rt.alloc(), planned, 1, &[Ask], 2, 0, 200)
}

// Participant 0 is granted a page in its line. Each leaves its table once both are there, and nothing is left for them.
const BY_THE_FIRST: &[Step] = &[
    Ask,
    Turn(false, true, true),
    Turn(false, true, false),
    Turn(false, true, false),
    Turn(false, false, false),
];

#[test]
fn leaves_both_tables(rt: HostRuntime) -> Result<(), Fail> {
    drains(rt.alloc(), None, 0, BY_THE_FIRST, 1, 1, 0)
}
