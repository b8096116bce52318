//! Watchers that are registered, told and unregistered.

use super::ended;
use hp_base::{Event, EventKind, Tell};
use hp_events::{MAX_WATCHERS, UnwatchFault, WatchFault, Watchers};
use std::alloc::Global;
use std::test::Fail;

// A name of 63 bytes, and one of 64.
const LONGEST: &str = "wwwwwwwwwwwwwwwwwwwwwwwwwwwwwwwwwwwwwwwwwwwwwwwwwwwwwwwwwwwwwww";

const TOO_LONG: &str = "wwwwwwwwwwwwwwwwwwwwwwwwwwwwwwwwwwwwwwwwwwwwwwwwwwwwwwwwwwwwwwww";

// What a call is answered.
#[derive(Clone, Copy, PartialEq, Eq)]
enum Said {
    Done,
    NameLong(usize),
    Exists,
    Full,
    NotFound,
    NoMemory,
}

// A call, with its answer.
#[derive(Clone, Copy)]
enum Step {
    Register(&'static str, Said),
    Unregister(&'static str, Said),
    // All are told that so many bytes come.
    Tell(u64),
    // The watcher at a place has that name and was told so many events.
    See(usize, &'static str, usize),
    // There are so many.
    Count(usize),
}

fn register(watchers: &mut Watchers, alloc: Global, name: &str) -> Said {
    match watchers.register(alloc, name.as_bytes(), [].as_slice()) {
        Ok(()) => Said::Done,
        Err(WatchFault::NameLong { len }) => Said::NameLong(len),
        Err(WatchFault::Exists) => Said::Exists,
        Err(WatchFault::Full { limit }) => {
            if limit == MAX_WATCHERS {
                Said::Full
            } else {
                Said::Done
            }
        }
        Err(WatchFault::OutOfMemory) => Said::NoMemory,
    }
}

fn unregister(watchers: &mut Watchers, name: &str) -> Said {
    match watchers.unregister(name.as_bytes()) {
        Ok(()) => Said::Done,
        Err(UnwatchFault::NameLong { len }) => Said::NameLong(len),
        Err(UnwatchFault::NotFound) => Said::NotFound,
    }
}

fn tell(watchers: &mut Watchers, len: u64) -> bool {
    if watchers.reserve(1).is_err() {
        return false;
    }
    watchers.tell(Event {
        kind: EventKind::Alloc,
        addr: 0x1_0000_0000,
        len,
    });
    true
}

fn is_seen(watchers: &Watchers, place: usize, name: &str, told: usize) -> bool {
    place < watchers.len()
        && watchers.name(place).as_bytes() == name.as_bytes()
        && watchers.events(place).len() == told
}

fn comes_out(watchers: &mut Watchers, alloc: Global, step: Step) -> bool {
    match step {
        Step::Register(name, said) => register(watchers, alloc, name) == said,
        Step::Unregister(name, said) => unregister(watchers, name) == said,
        Step::Tell(len) => tell(watchers, len),
        Step::See(place, name, told) => is_seen(watchers, place, name, told),
        Step::Count(count) => watchers.len() == count,
    }
}

// The place of the first step that comes out otherwise, with no watcher at the start.
fn play(alloc: Global, steps: &[Step]) -> Option<usize> {
    let mut watchers = Watchers::new(alloc);
    for place in 0..steps.len() {
        if !comes_out(&mut watchers, alloc, steps[place]) {
            return Some(place);
        }
    }
    None
}

// The name is judged first, then whether it is there, then the number of watchers.
const REFUSED: &[Step] = &[
    Step::Register("", Said::NameLong(0)),
    Step::Register(TOO_LONG, Said::NameLong(64)),
    Step::Register(LONGEST, Said::Done),
    Step::Register("a", Said::Done),
    Step::Register("a", Said::Exists),
    Step::Register("b", Said::Done),
    Step::Register("c", Said::Done),
    Step::Register("d", Said::Full),
    Step::Register("a", Said::Exists),
    Step::Register(TOO_LONG, Said::NameLong(64)),
    Step::Count(4),
    Step::Unregister("", Said::NameLong(0)),
    Step::Unregister(TOO_LONG, Said::NameLong(64)),
    Step::Unregister("d", Said::NotFound),
    Step::Unregister("b", Said::Done),
    Step::Unregister("b", Said::NotFound),
    Step::Register("d", Said::Done),
    Step::See(0, LONGEST, 0),
    Step::See(1, "a", 0),
    Step::See(2, "c", 0),
    Step::See(3, "d", 0),
];

#[test]
fn watchers_are_refused_by_name_and_by_number(rt: HostRuntime) -> Result<(), Fail> {
    ended(play(rt.alloc(), REFUSED))
}

const TOLD: &[Step] = &[
    Step::Tell(1),
    Step::Register("a", Said::Done),
    Step::Tell(2),
    Step::Tell(3),
    Step::Register("b", Said::Done),
    Step::Tell(4),
    Step::See(0, "a", 3),
    Step::See(1, "b", 1),
    Step::Unregister("a", Said::Done),
    Step::Tell(5),
    Step::See(0, "b", 2),
    Step::Count(1),
];

#[test]
fn watchers_are_told_what_comes_after_them(rt: HostRuntime) -> Result<(), Fail> {
    ended(play(rt.alloc(), TOLD))
}
