//! Pages that come and go, and what is told of them.

use super::heard::{comes, goes};
use super::looks::Look::{Calls, Empty, Maps, Number, One, Two};
use super::play::{Log, play};
use super::steps::Step::{Follow, Leave, See};
use super::{BASE, FIRST_ROW, PAGE, SECOND_ROW};
use hp_base::Caught::Done;
use std::test::Fail;

#[test]
fn maps_a_page_and_drops_it(rt: HostRuntime) -> Result<(), Fail> {
    let steps = [
        Follow(1, Done),
        See(One(FIRST_ROW)),
        See(Maps(FIRST_ROW, true)),
        See(Number(1)),
        Follow(2, Done),
        See(Number(2)),
        See(Calls(1)),
        See(Empty),
        See(Maps(FIRST_ROW, false)),
    ];
    let told = [comes(BASE, 1), goes(BASE, 1)];
    play(
        rt.alloc(),
        Log::OneAtATime,
        None,
        steps.as_slice(),
        told.as_slice(),
    )
}

// A participant whose SYNC was lost finds the growth and its end at once: its table is at 2 and empty.
#[test]
fn maps_nothing_of_a_failed_growth(rt: HostRuntime) -> Result<(), Fail> {
    let steps = [Follow(2, Done), See(Calls(0)), See(Empty), See(Number(2))];
    play(
        rt.alloc(),
        Log::OneAtATime,
        None,
        steps.as_slice(),
        [].as_slice(),
    )
}

#[test]
fn follows_a_log_that_it_knows(rt: HostRuntime) -> Result<(), Fail> {
    let steps = [Follow(1, Done), See(One(FIRST_ROW))];
    let told = [comes(BASE, 1)];
    play(
        rt.alloc(),
        Log::OneAtATime,
        None,
        steps.as_slice(),
        told.as_slice(),
    )
}

// A page in the middle of others is dropped.
#[test]
fn drops_the_first_of_two_pages(rt: HostRuntime) -> Result<(), Fail> {
    let steps = [
        Follow(2, Done),
        See(Two(FIRST_ROW, SECOND_ROW)),
        Follow(3, Done),
        See(One(SECOND_ROW)),
        See(Calls(2)),
    ];
    let told = [comes(BASE, 1), comes(BASE + PAGE, 1), goes(BASE, 1)];
    play(
        rt.alloc(),
        Log::Both,
        None,
        steps.as_slice(),
        told.as_slice(),
    )
}

#[test]
fn tells_what_comes_and_what_goes(rt: HostRuntime) -> Result<(), Fail> {
    let steps = [Follow(1, Done), Follow(2, Done)];
    let told = [comes(BASE, 1), goes(BASE, 1)];
    play(
        rt.alloc(),
        Log::OneAtATime,
        None,
        steps.as_slice(),
        told.as_slice(),
    )
}

#[test]
fn tells_all_at_the_end_as_one_stretch(rt: HostRuntime) -> Result<(), Fail> {
    let steps = [Follow(2, Done), Leave, See(Number(0)), See(Empty)];
    let told = [comes(BASE + PAGE, 1), comes(BASE, 1), goes(BASE, 2)];
    play(
        rt.alloc(),
        Log::Falling,
        None,
        steps.as_slice(),
        told.as_slice(),
    )
}
