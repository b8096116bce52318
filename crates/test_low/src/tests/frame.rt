//! Worked values of frames that are read: the example, and the fault that each spoiled frame has.
use super::ended;
use hp_frame::{Body, Fault, read};
use std::test::Fail;

/// SYNC of generation 1, round 1.
pub const SYNC: &[u8] = &[
    0x03, 0x06, 0x09, 0x00, 0x6d, 0x61, 0x6c, 0x6c, 0x6f, 0x63, 0x01, 0x00, 0x00, 0x00, 0x00, 0x00,
    0x00, 0x00, 0x01,
];

pub const EXAMPLE: Body = Body::Sync {
    generation: 1,
    round: 1,
};

// Whether these bytes are a frame with that handler, those bytes behind it, and that body.
fn shows(bytes: &[u8], name: &[u8], param: &[u8], body: Body) -> bool {
    match read(bytes) {
        Ok(view) => view.name() == name && view.param() == param && view.body() == body,
        Err(_) => false,
    }
}

#[test]
fn reads_the_example(rt: HostRuntime) {
    let param = [1, 0, 0, 0, 0, 0, 0, 0, 1];
    assert!(rt; shows(SYNC, b"malloc".as_slice(), param.as_slice(), EXAMPLE));
}

// A frame: its first bytes, its length, what stands in some places instead, and the fault that it has. All other bytes are 0.
type Spoiled = (&'static [u8], usize, &'static [(usize, u8)], Option<Fault>);

fn copy_front(bytes: &mut [u8; 64], front: &[u8]) {
    for at in 0..front.len() {
        if at < 64 {
            bytes[at] = front[at];
        }
    }
}

fn change(bytes: &mut [u8; 64], changes: &[(usize, u8)]) {
    for at in 0..changes.len() {
        let (place, byte) = changes[at];
        if place < 64 {
            bytes[place] = byte;
        }
    }
}

// The fault of a frame of at most 64 bytes.
fn fault_of(front: &[u8], len: usize, changes: &[(usize, u8)]) -> Option<Fault> {
    let mut bytes = [0; 64];
    copy_front(&mut bytes, front);
    change(&mut bytes, changes);
    read(&bytes[..len.min(64)]).err()
}

// Each of these frames has its fault.
fn are_spoiled(frames: &[Spoiled]) -> Result<(), Fail> {
    for at in 0..frames.len() {
        let (front, len, changes, fault) = frames[at];
        if fault_of(front, len, changes) != fault {
            return ended(Some(at));
        }
    }
    Ok(())
}

const FAULTS: &[Spoiled] = &[
    (SYNC, 19, &[], None),
    (SYNC, 18, &[], Some(Fault::Short { have: 18, need: 19 })),
    (SYNC, 3, &[], Some(Fault::Short { have: 3, need: 4 })),
    (&[], 0, &[], Some(Fault::Short { have: 0, need: 4 })),
    (SYNC, 20, &[], Some(Fault::Extra { rest: 1 })),
    (SYNC, 19, &[(0, 9)], Some(Fault::Kind { byte: 9 })),
    (SYNC, 19, &[(18, 3)], Some(Fault::Field { place: 18 })),
    (SYNC, 19, &[(1, 0x40)], Some(Fault::NameLong { len: 64 })),
    (SYNC, 19, &[(1, 0)], Some(Fault::NameLong { len: 0 })),
    (SYNC, 19, &[(4, 0x20)], Some(Fault::Field { place: 4 })),
];

#[test]
fn names_the_faults_of_the_example() -> Result<(), Fail> {
    are_spoiled(FAULTS)
}

/// A byte of 255 at each place. The generation takes every value.
const FULL_BYTES: &[Spoiled] = &[
    (SYNC, 19, &[(0, 255)], Some(Fault::Kind { byte: 255 })),
    (SYNC, 19, &[(1, 255)], Some(Fault::NameLong { len: 255 })),
    (
        SYNC,
        19,
        &[(2, 255)],
        Some(Fault::Short {
            have: 19,
            need: 265,
        }),
    ),
    (
        SYNC,
        19,
        &[(3, 255)],
        Some(Fault::ParamLong { len: 0xff09 }),
    ),
    (SYNC, 19, &[(4, 255)], Some(Fault::Field { place: 4 })),
    (SYNC, 19, &[(5, 255)], Some(Fault::Field { place: 5 })),
    (SYNC, 19, &[(6, 255)], Some(Fault::Field { place: 6 })),
    (SYNC, 19, &[(7, 255)], Some(Fault::Field { place: 7 })),
    (SYNC, 19, &[(8, 255)], Some(Fault::Field { place: 8 })),
    (SYNC, 19, &[(9, 255)], Some(Fault::Field { place: 9 })),
    (SYNC, 19, &[(10, 255)], None),
    (SYNC, 19, &[(11, 255)], None),
    (SYNC, 19, &[(12, 255)], None),
    (SYNC, 19, &[(13, 255)], None),
    (SYNC, 19, &[(14, 255)], None),
    (SYNC, 19, &[(15, 255)], None),
    (SYNC, 19, &[(16, 255)], None),
    (SYNC, 19, &[(17, 255)], None),
    (SYNC, 19, &[(18, 255)], Some(Fault::Field { place: 18 })),
];

#[test]
fn names_the_fault_of_a_byte_of_255_at_each_place() -> Result<(), Fail> {
    are_spoiled(FULL_BYTES)
}

/// The first bytes of an ALLOC, and of a RESULT, whose name is one letter.
const ALLOC: &[u8] = &[1, 1, 53, 0, b'a'];

const RESULT: &[u8] = &[4, 1, 11, 0, b'a'];

/// A place is named by the frame: that of the parameter's length first, then the lowest. Of a RESULT the bytes 5, 14 and 15 are from, what
/// and code.
const FIRST_PLACES: &[Spoiled] = &[
    (SYNC, 21, &[(2, 11)], Some(Fault::Field { place: 2 })),
    (
        SYNC,
        21,
        &[(2, 11), (4, 0x20)],
        Some(Fault::Field { place: 2 }),
    ),
    (
        SYNC,
        19,
        &[(9, 0x7f), (18, 3)],
        Some(Fault::Field { place: 9 }),
    ),
    (ALLOC, 58, &[], None),
    (ALLOC, 58, &[(5, 16)], Some(Fault::Field { place: 5 })),
    (
        RESULT,
        16,
        &[(5, 16), (14, 1)],
        Some(Fault::Field { place: 5 }),
    ),
    (RESULT, 16, &[(5, 15)], Some(Fault::Field { place: 14 })),
    (
        RESULT,
        16,
        &[(5, 15), (14, 4), (15, 2)],
        Some(Fault::Field { place: 14 }),
    ),
    (
        RESULT,
        16,
        &[(5, 15), (14, 3), (15, 2)],
        Some(Fault::Field { place: 15 }),
    ),
    (RESULT, 16, &[(5, 15), (14, 3), (15, 1)], None),
];

#[test]
fn names_the_first_bad_place() -> Result<(), Fail> {
    are_spoiled(FIRST_PLACES)
}
