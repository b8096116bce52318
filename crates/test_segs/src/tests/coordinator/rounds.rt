//! Rounds of memory that is given up, deadlines, and what a member replies.

use super::PAGE;
use super::acts::Act::{Arm, Due, Follow, Grow, Mapped, Poll, Shrink};
use super::acts::play;
use super::outs::Said::{Freed, Map, Nothing, Sync};
use super::outs::{End, NONE};
use hp_base::{Caught, MapAnswer, Row};
use std::test::Fail;

// A notice that is repeated while its round is under way is held, and found to be stale.
#[test]
fn answers_a_notice_once(rt: HostRuntime) -> Result<(), Fail> {
    let acts = [
        (Shrink(1, 1), Map(0)),
        (Shrink(1, 1), Nothing),
        (Mapped(10), Sync(0, 2, 2)),
        (Poll(10, NONE), Freed(1, 1)),
        (Poll(10, NONE), Nothing),
    ];
    let ends = [(1, 1, End::Freed), (1, 1, End::Stale)];
    play(rt.alloc(), 2, 4, acts.as_slice(), ends.as_slice(), 0)
}

#[test]
fn tells_when_the_deadline_passes(rt: HostRuntime) -> Result<(), Fail> {
    let acts = [
        (Due(None), Nothing),
        (Arm(1, 1), Nothing),
        (Grow(1, 1), Map(1)),
        (Due(None), Nothing),
        (Mapped(10), Sync(1, 1, 2)),
        (Due(Some(210)), Nothing),
        (Poll(300, NONE), Map(2)),
        (Due(None), Nothing),
        (Mapped(u64::MAX - 1), Sync(2, 2, 2)),
        (Due(Some(u64::MAX)), Nothing),
    ];
    let ends = [(1, 1, End::Late(0, 10, 300))];
    play(rt.alloc(), 2, 4, acts.as_slice(), ends.as_slice(), 2)
}

// A page, and where its mapper put it.
const ROW: Row = Row {
    addr: 0,
    page: PAGE,
    socket: 0,
    list: 0,
    slot: 0,
    generation: 1,
};

const GOT: MapAnswer = MapAnswer::At {
    addr: 0,
    page: PAGE,
    socket: 0,
};

const REFUSED: Caught = Caught::Refused { row: ROW, call: 1 };

const IN_PLACE: Caught = Caught::Elsewhere {
    row: ROW,
    call: 1,
    got: GOT,
};

// A member replies with the number of records, and with whether a mapping failed.
#[test]
fn replies_to_a_sync(rt: HostRuntime) -> Result<(), Fail> {
    let acts = [
        (Follow(Caught::Done, 0), Nothing),
        (Follow(REFUSED, 1), Nothing),
        (Follow(IN_PLACE, 0), Nothing),
    ];
    play(rt.alloc(), 1, 4, acts.as_slice(), [].as_slice(), 0)
}
