//! Growths that are granted, fail, are late or are taken back.

use super::acts::Act::{Arm, Failed, Grow, Mapped, Poll, Refused, Withdraw};
use super::acts::play;
use super::outs::Said::{Grant, Map, Nothing, Sync};
use super::outs::{ALL, End, NONE};
use std::test::Fail;

// What participants 0, 1 and 2 have acknowledged when the first one alone has, and when the rollback has reached two.
const FIRST: [u64; 16] = [1, 0, 0, 0, 0, 0, 0, 0, 0, 0, 0, 0, 0, 0, 0, 0];

const TWO: [u64; 16] = [2, 2, 1, 0, 0, 0, 0, 0, 0, 0, 0, 0, 0, 0, 0, 0];

// All but participant 2 have acknowledged everything.
const MAX: u64 = u64::MAX;

const NOT_2: [u64; 16] = [
    MAX, MAX, 0, MAX, MAX, MAX, MAX, MAX, MAX, MAX, MAX, MAX, MAX, MAX, MAX, MAX,
];

// Alone, it is granted at once. Where the answer is lost, and the asker takes its ask back at 600, it stays granted.
#[test]
fn keeps_a_grant_whose_answer_is_lost(rt: HostRuntime) -> Result<(), Fail> {
    let acts = [
        (Arm(0, 1), Nothing),
        (Grow(0, 1), Map(1)),
        (Mapped(0), Grant(0, 1, true)),
        (Withdraw(0, 1), Nothing),
        (Poll(600, ALL), Nothing),
    ];
    let ends = [(0, 1, End::Granted)];
    play(rt.alloc(), 1, 4, acts.as_slice(), ends.as_slice(), 1)
}

#[test]
fn grants_a_growth_of_two_members(rt: HostRuntime) -> Result<(), Fail> {
    let acts = [
        (Arm(1, 1), Nothing),
        (Grow(1, 1), Map(1)),
        (Mapped(10), Sync(1, 1, 6)),
        (Poll(20, NONE), Nothing),
        (Poll(209, NOT_2), Nothing),
        (Poll(210, ALL), Grant(1, 1, true)),
    ];
    let ends = [(1, 1, End::Granted)];
    play(rt.alloc(), 3, 4, acts.as_slice(), ends.as_slice(), 1)
}

// Participant 1 has not acknowledged at the very reading at which the deadline has passed. The rollback reaches it.
#[test]
fn cancels_a_late_growth_at_its_reading(rt: HostRuntime) -> Result<(), Fail> {
    let acts = [
        (Arm(0, 1), Nothing),
        (Grow(0, 1), Map(1)),
        (Mapped(10), Sync(1, 1, 6)),
        (Poll(209, NONE), Nothing),
        (Poll(210, FIRST), Map(2)),
        (Mapped(211), Sync(2, 2, 6)),
        (Poll(212, TWO), Nothing),
        (Poll(411, TWO), Grant(0, 1, false)),
    ];
    let ends = [(0, 1, End::Late(1, 10, 210))];
    play(rt.alloc(), 3, 4, acts.as_slice(), ends.as_slice(), 2)
}

// The SYNC to the only other member is lost, so the growth is late once the deadline has passed. The rollback reaches it.
#[test]
fn cancels_a_growth_whose_sync_is_lost(rt: HostRuntime) -> Result<(), Fail> {
    let acts = [
        (Arm(0, 1), Nothing),
        (Grow(0, 1), Map(1)),
        (Mapped(0), Sync(1, 1, 2)),
        (Poll(200, FIRST), Map(2)),
        (Mapped(200), Sync(2, 2, 2)),
        (Poll(200, ALL), Grant(0, 1, false)),
    ];
    let ends = [(0, 1, End::Late(1, 0, 200))];
    play(rt.alloc(), 2, 4, acts.as_slice(), ends.as_slice(), 2)
}

// A clock that stands still refuses nothing, whatever the words.
#[test]
fn waits_while_the_clock_stands_still(rt: HostRuntime) -> Result<(), Fail> {
    let acts = [
        (Arm(0, 1), Nothing),
        (Grow(0, 1), Map(1)),
        (Mapped(0), Sync(1, 1, 2)),
        (Poll(0, NONE), Nothing),
        (Poll(0, NONE), Nothing),
        (Poll(0, ALL), Grant(0, 1, true)),
    ];
    let ends = [(0, 1, End::Granted)];
    play(rt.alloc(), 2, 4, acts.as_slice(), ends.as_slice(), 1)
}

// The failure is taken before the late member, and before the words that are all there.
#[test]
fn cancels_a_failed_growth_before_all_else(rt: HostRuntime) -> Result<(), Fail> {
    let acts = [
        (Arm(0, 1), Nothing),
        (Grow(0, 1), Map(1)),
        (Mapped(10), Sync(1, 1, 6)),
        (Refused(7), Nothing),
        (Poll(999, NONE), Map(2)),
        (Mapped(999), Sync(2, 2, 6)),
        (Poll(999, ALL), Grant(0, 1, false)),
        (Arm(0, 2), Nothing),
        (Grow(0, 2), Map(3)),
        (Mapped(999), Sync(3, 1, 6)),
        (Refused(8), Nothing),
        (Poll(999, ALL), Map(4)),
        (Mapped(999), Sync(4, 2, 6)),
        (Poll(999, ALL), Grant(0, 2, false)),
    ];
    let ends = [(0, 1, End::MapFailed), (0, 2, End::MapFailed)];
    play(rt.alloc(), 3, 4, acts.as_slice(), ends.as_slice(), 4)
}

// Where participant 0's own mapping fails the SYNC still goes out.
#[test]
fn cancels_what_the_primary_cannot_map(rt: HostRuntime) -> Result<(), Fail> {
    let acts = [
        (Arm(0, 1), Nothing),
        (Grow(0, 1), Map(1)),
        (Failed(10), Sync(1, 1, 2)),
        (Poll(20, ALL), Map(2)),
        (Mapped(21), Sync(2, 2, 2)),
        (Poll(30, ALL), Grant(0, 1, false)),
    ];
    let ends = [(0, 1, End::MapFailed)];
    play(rt.alloc(), 2, 4, acts.as_slice(), ends.as_slice(), 2)
}

// Alone, the growth is cancelled at once.
#[test]
fn cancels_at_once_what_it_cannot_map_alone(rt: HostRuntime) -> Result<(), Fail> {
    let acts = [
        (Arm(0, 1), Nothing),
        (Grow(0, 1), Map(1)),
        (Failed(10), Map(2)),
        (Mapped(10), Grant(0, 1, false)),
    ];
    let ends = [(0, 1, End::MapFailed)];
    play(rt.alloc(), 1, 4, acts.as_slice(), ends.as_slice(), 2)
}

#[test]
fn rolls_back_what_is_taken_back(rt: HostRuntime) -> Result<(), Fail> {
    let acts = [
        (Arm(1, 1), Nothing),
        (Grow(1, 1), Map(1)),
        (Mapped(10), Sync(1, 1, 2)),
        (Withdraw(1, 1), Nothing),
        (Poll(20, ALL), Map(2)),
        (Mapped(20), Sync(2, 2, 2)),
        (Poll(20, ALL), Grant(1, 1, false)),
        (Arm(1, 2), Nothing),
        (Grow(1, 2), Map(3)),
        (Mapped(30), Sync(3, 1, 2)),
        (Poll(30, ALL), Grant(1, 2, true)),
        (Withdraw(1, 2), Nothing),
        (Poll(40, ALL), Nothing),
    ];
    let ends = [(1, 1, End::Withdrawn), (1, 2, End::Granted)];
    play(rt.alloc(), 2, 4, acts.as_slice(), ends.as_slice(), 3)
}
