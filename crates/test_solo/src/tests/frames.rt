//! Frames that say nothing, and a mailbox that is full.

use super::PAGE;
use super::acts::Act;
use super::growths::LATE;
use super::playing::play;
use super::stage::Shown;
use Act::*;
use hp_frame::Body;
use hp_hall::Posted;
use hp_plain::MAILBOX_FRAMES;
use std::test::Fail;

// Nothing has happened.
const NOTHING: Shown = Shown {
    records: 0,
    numbers: (0, 0),
    left: 4,
    rows: (None, None),
    outcomes: 0,
    last: None,
};

// A RESULT that nobody waits for.
const RESULT: Body = Body::Answer {
    from: 0,
    number: 1,
    what: 2,
    code: 0,
};

// The first ALLOC of participant 1, and the SYNC of a first growth.
const FIRST_ALLOC: Body = Body::Alloc {
    from: 1,
    number: 1,
    heap: 0,
    socket: 0,
    page: PAGE,
    size: 1000,
    align: 0,
    bound: 0,
    flags: 0,
};

const FIRST_SYNC: Body = Body::Sync {
    generation: 1,
    round: 1,
};

// What does not read, what is for another handler, and what is no ask of a declared participant is fetched, and nothing comes of it.
// Nor does anything of an ask of which its participant is not armed.
const SAY_NOTHING: &[Act] = &[
    Stray(1, Posted::Sent),
    Elsewhere(1, FIRST_ALLOC),
    Claim(2, 1),
    Say(1, RESULT),
    Claim(1, 2),
    Primary(true),
    Primary(true),
    Primary(true),
    Primary(true),
    Primary(true),
    Primary(false),
    Stray(0, Posted::Sent),
    Elsewhere(0, FIRST_SYNC),
    Say(0, FIRST_ALLOC),
    Say(0, RESULT),
    Secondary(true),
    Secondary(true),
    Secondary(true),
    Secondary(true),
    Secondary(false),
    Due(None),
    Shows(NOTHING),
];

#[test]
fn drops_frames_that_say_nothing(rt: HostRuntime) -> Result<(), Fail> {
    play(rt.alloc(), None, SAY_NOTHING)
}

// Where the mailbox of participant 1 is full the SYNC is lost, and it is late for the growth.
const FULL_MAILBOX: &[Act] = &[
    Strays(MAILBOX_FRAMES),
    Fulls(0),
    Stray(0, Posted::Full),
    Fulls(1),
    Alloc(1, Posted::Sent),
    Primary(true),
    Fulls(2),
    Due(Some(200)),
    Serves(MAILBOX_FRAMES),
    Secondary(false),
    Jump(200),
    Primary(true),
    Secondary(true),
    Primary(true),
    Due(None),
    Shows(LATE),
];

#[test]
fn loses_what_a_full_mailbox_has_no_room_for(rt: HostRuntime) -> Result<(), Fail> {
    play(rt.alloc(), None, FULL_MAILBOX)
}
