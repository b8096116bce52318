//! Participant 1 is attached already. One that detaches and attaches again may wait for heaps, which a hall of plain values alone does not
//! offer: that is in `test_run`.

use super::acts::Act;
use super::growths::GRANTED;
use super::playing::play;
use Act::*;
use hp_hall::Posted;
use hp_script::Answer;
use std::test::Fail;

// Both are in the roster.
const BOTH: u16 = 0b11;

// A page is granted first.
const STAYS_IN: &[Act] = &[
    Alloc(1, Posted::Sent),
    Primary(true),
    Secondary(true),
    Primary(true),
    Secondary(true),
    Shows(GRANTED),
    Attach(Answer::Already),
    Roster(BOTH),
    Shows(GRANTED),
];

#[test]
fn is_attached_already(rt: HostRuntime) -> Result<(), Fail> {
    play(rt.alloc(), None, STAYS_IN)
}
