//! Two participants take turns in one thread: one does a line by hand, and the other serves.

mod asking;
mod draining;
mod opening;
mod pages;
mod playing;
mod steps;

use crate::tests::lost;
use crate::tests::shown::End;
use Step::*;
use hp_base::MsgKind;
use playing::{Step, ends};
use std::test::Fail;

// Participant 1 asks, and waits until it is answered: participant 0 opens the growth, 1 maps and replies, 0 grants it, and 1 hears of it.
// Then nothing is left, and the clock jumps to the deadline of 1.
const IN_TURNS: &[Step] = &[
    Ask,
    Turn(true, true, false),
    Turn(true, true, false),
    Turn(false, false, false),
    Pause(50, 50),
    Acks(1, 1),
    Ended(1, End::Granted(1), 1),
];

#[test]
fn grants_in_turns(rt: HostRuntime) -> Result<(), Fail> {
    ends(rt.alloc(), None, 1, IN_TURNS, (50, 0))
}

// Participant 0 asks itself, and 1 serves above it: 0 opens the growth, by which its deadline is 200, 1 maps and replies, and 0 grants it.
const TO_ITSELF: &[Step] = &[
    Ask,
    Turn(false, true, true),
    Due(Some(200)),
    Turn(false, true, false),
    Turn(false, true, false),
    Turn(false, false, false),
    Ended(0, End::Granted(1), 1),
    Due(None),
];

#[test]
fn grants_to_itself(rt: HostRuntime) -> Result<(), Fail> {
    ends(rt.alloc(), None, 0, TO_ITSELF, (0, 0))
}

// Participant 1 asks, and serves no frame. The clock jumps to the deadline of participant 0, at 200, to one of its own, at 300, and to that
// of the rollback, at 400. In its mailbox are then a SYNC of the growth, one of the rollback and a RESULT.
const DEADLINES: &[Step] = &[
    Ask,
    Below(true),
    Below(false),
    Pause(500, 200),
    Below(true),
    Pause(300, 300),
    Below(false),
    Pause(500, 400),
    Below(true),
    Acks(2, 0),
    Ended(1, End::Late(1, 0, 200), 2),
    Fetch(3),
    Fetch(3),
    Fetch(4),
    Fetch(0),
];

#[test]
fn jumps_to_the_least_deadline(rt: HostRuntime) -> Result<(), Fail> {
    ends(rt.alloc(), None, 1, DEADLINES, (400, 0))
}

// One of the two asks, and the first SYNC is lost: a turn opens the growth, and in the next nothing moves, so that the clock jumps to the
// deadline of participant 0, at 200, which is sooner than the one that is waited for. Then 0 cancels, 1 catches up and replies, 0 answers,
// and the asker hears of it. At last the clock jumps to the deadline that is waited for.
const fn turns(from: u8) -> [Step; 7] {
    [
        Ask,
        Wait(500, true, 0),
        Wait(500, false, 200),
        Wait(500, true, 200),
        Wait(500, true, 200),
        Wait(500, false, 500),
        Ended(from, End::Late(1, 0, 200), 2),
    ]
}

#[test]
fn jumps_in_a_turn_in_which_nothing_moves(rt: HostRuntime) -> Result<(), Fail> {
    let planned = Some(lost(MsgKind::Sync));
    ends(rt.alloc(), planned, 1, &turns(1), (500, 0))
}

#[test]
fn jumps_to_the_deadline_of_its_own_round(rt: HostRuntime) -> Result<(), Fail> {
    let planned = Some(lost(MsgKind::Sync));
    ends(rt.alloc(), planned, 0, &turns(0), (500, 0))
}

// The one that does its line is away meanwhile, as in each line here (`do_line`).
#[test]
fn tells_that_one_is_away(rt: HostRuntime) -> Result<(), Fail> {
    ends(rt.alloc(), None, 1, &[], (0, 0))
}
