//! Lists of steps with what has to come of each, and what is there at their end.

use super::steps::Step::{
    Claim, Done, Entries, FetchAll, IsMember, Join, Leave, Numbers, Partial, Post, Read, Rest,
    Shows,
};
use super::steps::{First, play};
use hp_base::Action;
use hp_hall::Posted;
use std::test::Fail;

#[test]
fn posts_as_planned(rt: HostRuntime) -> Result<(), Fail> {
    let steps = [
        Post(0, 1, 1, Action::Deliver, Posted::Sent),
        Post(0, 1, 2, Action::Lose { line: 7 }, Posted::Lost { line: 7 }),
        Post(1, 1, 3, Action::Repeat { line: 8 }, Posted::Twice),
        FetchAll(0, (0, 0, 0)),
        FetchAll(1, (3, 1, 3)),
        FetchAll(1, (0, 0, 0)),
        Shows(2, 0, 0),
    ];
    play(
        rt.alloc(),
        First::Nothing,
        steps.as_slice(),
        [].as_slice(),
        3,
    )
}

#[test]
fn notes_what_was_done(rt: HostRuntime) -> Result<(), Fail> {
    let steps = [Rest(30), Read(30), Shows(2, 30, 0)];
    let first = First::Notes((1, 0, 0));
    play(rt.alloc(), first, steps.as_slice(), [].as_slice(), 3)
}

#[test]
fn tells_of_lines_that_are_done(rt: HostRuntime) -> Result<(), Fail> {
    let steps = [
        Done(0, 2, Some(2)),
        Done(1, 0, Some(0)),
        Done(0, 5, Some(5)),
        Done(0, 4, None),
    ];
    play(
        rt.alloc(),
        First::Nothing,
        steps.as_slice(),
        [].as_slice(),
        3,
    )
}

#[test]
fn reads_what_was_published(rt: HostRuntime) -> Result<(), Fail> {
    let steps = [Entries(0, 2), Entries(1, 2)];
    play(
        rt.alloc(),
        First::Calls,
        steps.as_slice(),
        [1, 0].as_slice(),
        3,
    )
}

#[test]
fn reads_nothing_before_a_call(rt: HostRuntime) -> Result<(), Fail> {
    let steps = [Entries(1, 0)];
    play(
        rt.alloc(),
        First::Nothing,
        steps.as_slice(),
        [].as_slice(),
        3,
    )
}

#[test]
fn hands_out_its_values(rt: HostRuntime) -> Result<(), Fail> {
    play(rt.alloc(), First::Nothing, [].as_slice(), [].as_slice(), 3)
}

#[test]
fn tells_the_calls_of_a_heap(rt: HostRuntime) -> Result<(), Fail> {
    play(
        rt.alloc(),
        First::Calls,
        [].as_slice(),
        [1, 0].as_slice(),
        3,
    )
}

#[test]
fn holds_a_heap_while_another_gives(rt: HostRuntime) -> Result<(), Fail> {
    play(
        rt.alloc(),
        First::CallAcross,
        [].as_slice(),
        [0].as_slice(),
        1,
    )
}

#[test]
fn leaves_the_roster_and_joins_again(rt: HostRuntime) -> Result<(), Fail> {
    let steps = [Leave, IsMember(false), Join];
    play(
        rt.alloc(),
        First::Nothing,
        steps.as_slice(),
        [].as_slice(),
        3,
    )
}

#[test]
fn tells_what_was_acknowledged(rt: HostRuntime) -> Result<(), Fail> {
    let steps = [Join, Partial, Numbers((2, 0))];
    play(
        rt.alloc(),
        First::Nothing,
        steps.as_slice(),
        [].as_slice(),
        3,
    )
}

#[test]
fn claims_external_memory_under_the_names(rt: HostRuntime) -> Result<(), Fail> {
    let steps = [
        Claim(1 << 40, 2, Some(1)),
        Claim((1 << 40) + 1, 2, None),
        Claim(1 << 32, 1, None),
        Claim(1 << 40, 1, Some(1)),
        IsMember(true),
    ];
    play(
        rt.alloc(),
        First::Nothing,
        steps.as_slice(),
        [].as_slice(),
        3,
    )
}
