//! Watchers that come and go beside the first one.

use super::heard::{comes, goes};
use super::play::{Failure, Log, play};
use super::steps::Step::{Follow, Gone, Heard, Leave, Unwatch, Watch};
use super::{BASE, PAGE, SECOND_ROW};
use hp_base::Caught::{Done, Refused};
use hp_base::{Event, EventKind, Row};
use std::test::Fail;

const FIRST_COMES: Event = Event {
    kind: EventKind::Alloc,
    addr: BASE,
    len: PAGE,
};

const FIRST_GOES: Event = Event {
    kind: EventKind::Free,
    ..FIRST_COMES
};

const SECOND_COMES: Event = Event {
    addr: 0x1_0020_0000,
    ..FIRST_COMES
};

const SECOND_GOES: Event = Event {
    kind: EventKind::Free,
    ..SECOND_COMES
};

const BOTH_GO: Event = Event {
    kind: EventKind::Free,
    addr: BASE,
    len: 0x40_0000,
};

// One that comes between two growths is told of what follows alone; one that is unregistered of nothing more.
#[test]
fn are_told_of_what_follows(rt: HostRuntime) -> Result<(), Fail> {
    let steps = [
        Follow(1, Done),
        Watch("second"),
        Heard("second", &[]),
        Follow(2, Done),
        Heard("second", &[SECOND_COMES]),
        Unwatch("second"),
        Gone("second"),
        Watch("third"),
        Follow(3, Done),
        Heard("third", &[FIRST_GOES]),
        Gone("second"),
        Leave,
        Heard("third", &[FIRST_GOES, SECOND_GOES]),
    ];
    let told = [
        comes(BASE, 1),
        comes(BASE + PAGE, 1),
        goes(BASE, 1),
        goes(BASE + PAGE, 1),
    ];
    play(
        rt.alloc(),
        Log::Both,
        None,
        steps.as_slice(),
        told.as_slice(),
    )
}

// What was mapped before it was registered goes as one stretch.
#[test]
fn are_told_at_the_end_of_what_was_there(rt: HostRuntime) -> Result<(), Fail> {
    let steps = [
        Follow(2, Done),
        Watch("second"),
        Leave,
        Heard("second", &[BOTH_GO]),
    ];
    let told = [comes(BASE, 1), comes(BASE + PAGE, 1), goes(BASE, 2)];
    play(
        rt.alloc(),
        Log::Both,
        None,
        steps.as_slice(),
        told.as_slice(),
    )
}

// A catch-up that is refused tells what goes alone, and the next one nothing of that again.
#[test]
fn are_told_nothing_of_what_is_refused(rt: HostRuntime) -> Result<(), Fail> {
    let failure = Failure {
        party: 0,
        call: 2,
        elsewhere: false,
    };
    let refused = Refused {
        row: Row {
            generation: 3,
            ..SECOND_ROW
        },
        call: 2,
    };
    let steps = [
        Follow(1, Done),
        Watch("second"),
        Follow(3, refused),
        Heard("second", &[FIRST_GOES]),
        Follow(3, Done),
        Heard("second", &[FIRST_GOES, SECOND_COMES]),
    ];
    let told = [comes(BASE, 1), goes(BASE, 1), comes(BASE + PAGE, 1)];
    play(
        rt.alloc(),
        Log::OneAtATime,
        Some(failure),
        steps.as_slice(),
        told.as_slice(),
    )
}
