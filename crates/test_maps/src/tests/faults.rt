//! Pages that are refused or misplaced.

use super::heard::{comes, goes};
use super::looks::Look::{Calls, Empty, Number, Two};
use super::play::{Failure, Log, play};
use super::steps::Step::{Follow, Leave, See};
use super::{BASE, FIRST_ROW, PAGE, SECOND_ROW};
use hp_base::Caught::{Done, Elsewhere, Refused};
use hp_base::MapAnswer;
use std::test::Fail;

#[test]
fn is_refused_by_the_plan_and_goes_on(rt: HostRuntime) -> Result<(), Fail> {
    let failure = Failure {
        party: 0,
        call: 1,
        elsewhere: false,
    };
    let refused = Refused {
        row: FIRST_ROW,
        call: 1,
    };
    let steps = [
        Follow(1, refused),
        See(Number(0)),
        See(Empty),
        Follow(2, Done),
        See(Number(2)),
        See(Calls(1)),
    ];
    play(
        rt.alloc(),
        Log::OneAtATime,
        Some(failure),
        steps.as_slice(),
        [].as_slice(),
    )
}

#[test]
fn undoes_a_misplaced_page(rt: HostRuntime) -> Result<(), Fail> {
    let failure = Failure {
        party: 0,
        call: 1,
        elsewhere: true,
    };
    let elsewhere = Elsewhere {
        row: FIRST_ROW,
        call: 1,
        got: MapAnswer::At {
            addr: 0x1_0020_0000,
            page: PAGE,
            socket: 0,
        },
    };
    let steps = [
        Follow(1, elsewhere),
        See(Empty),
        Follow(2, Done),
        See(Number(2)),
        See(Calls(1)),
        See(Empty),
    ];
    play(
        rt.alloc(),
        Log::OneAtATime,
        Some(failure),
        steps.as_slice(),
        [].as_slice(),
    )
}

// Two pages, of which the second is refused at the first try: participant 1 stays out, and joins at the second.
#[test]
fn takes_back_what_came_before_a_refusal(rt: HostRuntime) -> Result<(), Fail> {
    let failure = Failure {
        party: 1,
        call: 2,
        elsewhere: false,
    };
    let refused = Refused {
        row: SECOND_ROW,
        call: 2,
    };
    let steps = [
        Follow(2, refused),
        See(Empty),
        See(Number(0)),
        Follow(2, Done),
        See(Two(FIRST_ROW, SECOND_ROW)),
        See(Calls(4)),
        Leave,
        See(Empty),
        See(Number(0)),
    ];
    let told = [comes(BASE, 1), comes(BASE + PAGE, 1), goes(BASE, 2)];
    play(
        rt.alloc(),
        Log::Both,
        Some(failure),
        steps.as_slice(),
        told.as_slice(),
    )
}
