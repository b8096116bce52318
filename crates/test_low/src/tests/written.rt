//! Worked values of frames that are written: the layout byte by byte.
ghost use Rattle.std.specs.Prelude.{IfSome};
ghost use Rattle.hp_frame.specs.Spelling.{IsValid};

use super::ended;
use super::frame::{EXAMPLE, SYNC};
use hp_base::Name;
use hp_frame::{Body, Frame, Message, frames_have_no_fault, read, spellings_differ, write};
use std::test::Fail;

/// One message of each kind, with the greatest values, and the length of its frame.
const GREATEST: &[(Body, usize)] = &[
    (
        Body::Alloc {
            from: 15,
            number: u64::MAX,
            heap: u32::MAX,
            socket: u32::MAX,
            page: u64::MAX,
            size: u64::MAX,
            align: u64::MAX,
            bound: u64::MAX,
            flags: u32::MAX,
        },
        120,
    ),
    (
        Body::Free {
            from: 15,
            number: u64::MAX,
            heap: u32::MAX,
            address: u64::MAX,
            length: u64::MAX,
        },
        96,
    ),
    (
        Body::Sync {
            generation: u64::MAX,
            round: 2,
        },
        76,
    ),
    (
        Body::Answer {
            from: 15,
            number: u64::MAX,
            what: 3,
            code: 1,
        },
        78,
    ),
];

// The message to a handler, where its fields are among their values.
fn message_to(handler: &[u8], body: Body) -> Option<Message>
    ensures { IfSome result (λ message. IsValid message) }
{
    let name = Name::new(handler)?;
    let message = Message { name, body };
    if message.is_valid() {
        Some(message)
    } else {
        None
    }
}

// The bytes in front are that handler's frame with that body.
fn reads_back(bytes: &[u8], name: &[u8], body: Body) -> bool {
    match read(bytes) {
        Ok(view) => view.name() == name && view.body() == body,
        Err(_) => false,
    }
}

// A message to a handler with the longest name takes so many bytes, leaves the one behind them, and reads as it was written.
fn is_kept(body: Body, len: usize) -> bool {
    let longest = [b'~'; 63];
    let Some(message) = message_to(&longest, body) else {
        return false;
    };
    let mut out = [7; 384];
    let n = write(&message, &mut out);
    n == len && out.get(len) == Some(&7) && reads_back(&out[..len.min(384)], &longest, body)
}

#[test]
fn reads_what_it_wrote() -> Result<(), Fail> {
    for at in 0..GREATEST.len() {
        if !is_kept(GREATEST[at].0, GREATEST[at].1) {
            return ended(Some(at));
        }
    }
    Ok(())
}

// The bytes of a frame to a handler whose name is one letter: its first six, then 2, 3, .. in these places, and 0 elsewhere.
type Written = (Body, &'static [u8; 6], &'static [usize], usize);

/// Each field has a value of its own.
const FIELDS: &[Written] = &[
    (
        Body::Alloc {
            from: 1,
            number: 2,
            heap: 3,
            socket: 4,
            page: 5,
            size: 6,
            align: 7,
            bound: 8,
            flags: 9,
        },
        &[1, 1, 53, 0, b'a', 1],
        &[6, 14, 18, 22, 30, 38, 46, 54],
        58,
    ),
    (
        Body::Free {
            from: 1,
            number: 2,
            heap: 3,
            address: 4,
            length: 5,
        },
        &[2, 1, 29, 0, b'a', 1],
        &[6, 14, 18, 26],
        34,
    ),
];

fn write_places(bytes: &mut [u8; 384], places: &[usize]) {
    let mut value = 2;
    for at in 0..places.len() {
        if places[at] < 384 && value < 255 {
            bytes[places[at]] = value;
            value += 1;
        }
    }
}

// Whether a message is written so.
fn is_written(written: Written) -> bool {
    let (body, front, places, len) = written;
    let Some(message) = message_to(b"a", body) else {
        return false;
    };
    let mut wanted = [0; 384];
    wanted[..6].copy_from_slice(front);
    write_places(&mut wanted, places);
    let mut out = [0; 384];
    write(&message, &mut out) == len && out == wanted
}

const LAST: Body = Body::Answer {
    from: 1,
    number: 2,
    what: 3,
    code: 1,
};

// A message to a handler is written as these bytes.
fn writes(handler: &[u8], body: Body, bytes: &[u8]) -> bool {
    match message_to(handler, body) {
        Some(message) => Frame::new(&message).as_bytes() == bytes,
        None => false,
    }
}

#[test]
fn writes_each_field_in_its_place(rt: HostRuntime) {
    assert!(rt; is_written(FIELDS[0]));
    assert!(rt; is_written(FIELDS[1]));
    let last = [4, 1, 11, 0, b'a', 1, 2, 0, 0, 0, 0, 0, 0, 0, 3, 1];
    assert!(rt; writes(b"a".as_slice(), LAST, last.as_slice()));
}

#[test]
fn writes_the_example(rt: HostRuntime) {
    assert!(rt; writes(b"malloc".as_slice(), EXAMPLE, SYNC));
    spellings_differ();
    frames_have_no_fault();
}
