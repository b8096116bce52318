//! What happens on the stage, one act after another.

use super::PAGE;
use super::stage::{Shown, Stage};
use hp_base::{Action, MsgKind, Name};
use hp_frame::{Body, Frame, Message};
use hp_hall::Posted;
use hp_script::Answer;
use std::alloc::AllocError;

// One act, with what has to come of it.
#[derive(Clone, Copy)]
pub(super) enum Act {
    // Participant 0 serves once, and did something or nothing.
    Primary(bool),
    // Participant 1 serves once, and did something or nothing.
    Secondary(bool),
    // Participant 1 posts its ALLOC of that number, as the plan has it, and its FREE.
    Alloc(u64, Posted),
    Free(u64),
    // Participant 1 posts the ALLOC of a participant, its own or another's, and of a number.
    Claim(u8, u64),
    // One of the two posts a message to the other's handler of growths, one to another handler, and a frame that does not read.
    Say(u8, Body),
    Elsewhere(u8, Body),
    Stray(u8, Posted),
    // Participant 0 posts so many frames that do not read, and each goes into the mailbox. Participant 1 serves so often, and did
    // something each time.
    Strays(usize),
    Serves(usize),
    // The clock jumps to that reading.
    Jump(u64),
    // Participant 1 does a line by which it attaches, and answers so.
    Attach(Answer),
    // These participants are in the roster, as bits.
    Roster(u16),
    // The two participants have the numbers 0 and 1.
    Numbered,
    // Participant 0's round has that deadline, and participant 1 has none.
    Due(Option<u64>),
    // A mailbox was full so often.
    Fulls(u64),
    // The segment value and the tables show that.
    Shows(Shown),
}

// What participant 1 asks for: a page of 2M for heap 0.
fn alloc_of(from: u8, number: u64) -> Body {
    Body::Alloc {
        from,
        number,
        heap: 0,
        socket: 0,
        page: PAGE,
        size: 1000,
        align: 0,
        bound: 0,
        flags: 0,
    }
}

// That participant 1 gave a page up.
fn free_of(number: u64) -> Body {
    Body::Free {
        from: 1,
        number,
        heap: 0,
        address: 0,
        length: PAGE,
    }
}

// The frame of a message to a handler, where its fields are among their values.
fn frame_for(handler: &[u8], body: Body) -> Option<Frame> {
    let name = Name::new(handler)?;
    let message = Message { name, body };
    if message.is_valid() {
        Some(Frame::new(&message))
    } else {
        None
    }
}

// A frame of one byte that stands for no kind.
fn stray() -> Frame {
    let mut bytes = [0; 384];
    bytes[0] = 7;
    Frame { bytes, len: 1 }
}

// One posts a message to the other's handler, and whether that came out so.
fn say(
    stage: &mut Stage<'_>,
    from: u8,
    handler: &[u8],
    body: Body,
    action: Action,
    posted: Posted,
) -> bool {
    if from >= 2 {
        return false;
    }
    match frame_for(handler, body) {
        Some(frame) => stage.post(from, frame, action) == posted,
        None => false,
    }
}

// One posts a message to the other's handler, which goes into its mailbox, and whether that came out so.
fn tell(stage: &mut Stage<'_>, from: u8, handler: &[u8], body: Body) -> bool {
    say(stage, from, handler, body, Action::Deliver, Posted::Sent)
}

// One posts a frame that does not read, and whether that came out so.
fn post_stray(stage: &mut Stage<'_>, from: u8, posted: Posted) -> bool {
    if from >= 2 {
        return false;
    }
    stage.post(from, stray(), Action::Deliver) == posted
}

// Participant 0 posts so many frames that do not read, and whether each went into the mailbox.
fn post_strays(stage: &mut Stage<'_>, times: usize) -> bool {
    for _ in 0..times {
        if !post_stray(stage, 0, Posted::Sent) {
            return false;
        }
    }
    true
}

// Participant 1 serves so often, and whether it did something each time.
fn serve_often(stage: &mut Stage<'_>, times: usize) -> Result<bool, AllocError> {
    for _ in 0..times {
        if !stage.serve_secondary()? {
            return Ok(false);
        }
    }
    Ok(true)
}

// Participant 1 posts its ALLOC of that number, as the plan has it, and whether that came out so.
fn ask(stage: &mut Stage<'_>, number: u64, posted: Posted) -> bool {
    let action = stage.plan().message(MsgKind::Alloc, 1, number);
    say(
        stage,
        1,
        b"malloc".as_slice(),
        alloc_of(1, number),
        action,
        posted,
    )
}

// Whether an act came out as it stands.
pub(super) fn perform(stage: &mut Stage<'_>, act: Act) -> Result<bool, AllocError> {
    match act {
        Act::Primary(did) => Ok(stage.serve_primary()? == did),
        Act::Secondary(did) => Ok(stage.serve_secondary()? == did),
        Act::Alloc(number, posted) => Ok(ask(stage, number, posted)),
        Act::Free(number) => Ok(tell(stage, 1, b"malloc".as_slice(), free_of(number))),
        Act::Claim(from, number) => Ok(tell(
            stage,
            1,
            b"malloc".as_slice(),
            alloc_of(from, number),
        )),
        Act::Say(from, body) => Ok(tell(stage, from, b"malloc".as_slice(), body)),
        Act::Elsewhere(from, body) => Ok(tell(stage, from, b"other".as_slice(), body)),
        Act::Stray(from, posted) => Ok(post_stray(stage, from, posted)),
        Act::Strays(times) => Ok(post_strays(stage, times)),
        Act::Serves(times) => serve_often(stage, times),
        Act::Jump(reading) => {
            stage.jump(reading);
            Ok(true)
        }
        Act::Attach(answer) => Ok(stage.attach()? == answer),
        Act::Roster(roster) => Ok(stage.roster() == roster),
        Act::Numbered => Ok(stage.who() == (0, 1)),
        Act::Due(due) => Ok(stage.due() == (due, None)),
        Act::Fulls(full_mailboxes) => Ok(stage.full_mailboxes() == full_mailboxes),
        Act::Shows(shown) => Ok(stage.shown()? == shown),
    }
}
