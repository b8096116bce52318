//! Asks that are repeated, stale, held, replaced or dropped.

use super::acts::Act::{Arm, Fresh, Grow, Holds, Mapped, Poll, Shrink};
use super::acts::play;
use super::outs::Said::{Freed, Grant, Map, Nothing, Sync};
use super::outs::{ALL, End};
use std::test::Fail;

#[test]
fn logs_a_repeated_ask_as_stale(rt: HostRuntime) -> Result<(), Fail> {
    let acts = [
        (Arm(1, 1), Nothing),
        (Grow(1, 1), Map(1)),
        (Grow(1, 1), Nothing),
        (Mapped(10), Sync(1, 1, 2)),
        (Poll(20, ALL), Grant(1, 1, true)),
        (Grow(1, 1), Nothing),
        (Holds(true), Nothing),
        (Poll(30, ALL), Nothing),
        (Holds(false), Nothing),
    ];
    let ends = [(1, 1, End::Granted), (1, 1, End::Stale), (1, 1, End::Stale)];
    play(rt.alloc(), 2, 4, acts.as_slice(), ends.as_slice(), 1)
}

// An ask that comes twice is granted once and found to be stale once.
#[test]
fn grants_a_repeated_ask_once(rt: HostRuntime) -> Result<(), Fail> {
    let acts = [
        (Arm(0, 1), Nothing),
        (Grow(0, 1), Map(1)),
        (Grow(0, 1), Nothing),
        (Mapped(0), Grant(0, 1, true)),
        (Poll(0, ALL), Nothing),
    ];
    let ends = [(0, 1, End::Granted), (0, 1, End::Stale)];
    play(rt.alloc(), 1, 4, acts.as_slice(), ends.as_slice(), 1)
}

// Participants 1 and 2 ask while 0's growth is under way: 1 is served first, and by its later ask.
#[test]
fn holds_one_ask_of_each_participant(rt: HostRuntime) -> Result<(), Fail> {
    let acts = [
        (Arm(0, 1), Nothing),
        (Arm(2, 1), Nothing),
        (Grow(0, 1), Map(1)),
        (Grow(2, 1), Nothing),
        (Shrink(1, 1), Nothing),
        (Shrink(1, 2), Nothing),
        (Mapped(10), Sync(1, 1, 6)),
        (Poll(20, ALL), Grant(0, 1, true)),
        (Poll(20, ALL), Map(1)),
        (Mapped(20), Sync(1, 2, 6)),
        (Poll(30, ALL), Freed(1, 2)),
        (Poll(30, ALL), Map(2)),
        (Mapped(30), Sync(2, 1, 6)),
        (Poll(30, ALL), Grant(2, 1, true)),
        (Poll(30, ALL), Nothing),
    ];
    let ends = [
        (0, 1, End::Granted),
        (1, 2, End::Freed),
        (2, 1, End::Granted),
    ];
    play(rt.alloc(), 3, 4, acts.as_slice(), ends.as_slice(), 2)
}

// An ask with which its participant is not armed is dropped, and each ask is while another's growth is open.
#[test]
fn drops_what_it_may_not_start(rt: HostRuntime) -> Result<(), Fail> {
    let acts = [
        (Grow(1, 1), Nothing),
        (Arm(1, 2), Nothing),
        (Grow(1, 1), Nothing),
        (Grow(1, 2), Map(1)),
        (Grow(0, 1), Nothing),
        (Fresh, Nothing),
        (Grow(1, 2), Nothing),
        (Shrink(1, 3), Nothing),
        (Holds(false), Nothing),
    ];
    play(rt.alloc(), 2, 4, acts.as_slice(), [].as_slice(), 1)
}

#[test]
fn refuses_what_the_pool_has_not(rt: HostRuntime) -> Result<(), Fail> {
    let acts = [
        (Arm(1, 1), Nothing),
        (Grow(1, 1), Grant(1, 1, false)),
        (Grow(1, 1), Nothing),
    ];
    let ends = [(1, 1, End::TooFew), (1, 1, End::Stale)];
    play(rt.alloc(), 2, 0, acts.as_slice(), ends.as_slice(), 0)
}
