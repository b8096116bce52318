//! What is done with an external heap, as lists of steps.

mod calls;
mod looks;
mod steps;
mod world;

use hp_base::Row;
use hp_external::{AddFault, AttachFault, CreateFault, DestroyFault, DetachFault, RemoveFault};
use std::test::Fail;
use steps::Step::{Add, Alloc, Attach, Create, Destroy, Detach, Entries, Fill, Free, Remove, Rows};
use steps::{Step, play};

const AT: u64 = 0x70_0000_0000;

const LEN: u64 = 0x40_0000;

const PAGE: u64 = 0x20_0000;

// A name of 31 letters z, and one of 32.
const LONGEST: &str = "zzzzzzzzzzzzzzzzzzzzzzzzzzzzzzz";

const TOO_LONG: &str = "zzzzzzzzzzzzzzzzzzzzzzzzzzzzzzzz";

// A heap is made, gets memory, and is used by the participant that attached it alone. It goes once all is given back.
const WHOLE: &[Step] = &[
    Create("ext", Ok((1, 256))),
    Add("ext", AT, LEN, PAGE, Ok(())),
    Attach(0, "ext", AT, LEN, Ok(())),
    Rows(2, 0),
    Alloc(0, 1000, Some(0x70_003f_fc00)),
    Alloc(1, 1000, None),
    Remove(
        "ext",
        AT,
        LEN,
        Err(RemoveFault::Busy {
            addr: 0x70_003f_fc00,
        }),
    ),
    Detach(
        0,
        "ext",
        AT,
        LEN,
        Err(DetachFault::InUse {
            addr: 0x70_003f_fc00,
        }),
    ),
    Destroy("ext", Err(DestroyFault::Busy { chunks: 1 })),
    Create("ext", Err(CreateFault::Exists)),
    Destroy("socket_0", Err(DestroyFault::SocketHeap)),
    Alloc(0, 64, Some(0x70_003f_fb40)),
    Remove(
        "ext",
        AT,
        LEN,
        Err(RemoveFault::Busy {
            addr: 0x70_003f_fb40,
        }),
    ),
    Detach(
        0,
        "ext",
        AT,
        LEN,
        Err(DetachFault::InUse {
            addr: 0x70_003f_fb40,
        }),
    ),
    Free(0x70_003f_fb40),
    Free(0x70_003f_fc00),
    Remove(
        "ext",
        AT,
        LEN,
        Err(RemoveFault::StillAttached { participant: 0 }),
    ),
    Detach(0, "ext", AT, LEN, Ok(())),
    Rows(0, 0),
    Remove("ext", AT, LEN, Ok(())),
    Destroy("ext", Ok(())),
    Entries(10),
    Create("ext", Ok((1, 257))),
];

#[test]
fn comes_is_used_and_goes(rt: HostRuntime) -> Result<(), Fail> {
    play(rt.alloc(), [].as_slice(), WHOLE)
}

// Each refusal by the name, of each call.
const NAMES: &[Step] = &[
    Create("", Err(CreateFault::BadName)),
    Create(TOO_LONG, Err(CreateFault::BadName)),
    Create(LONGEST, Ok((1, 256))),
    Create("socket_0", Err(CreateFault::Exists)),
    Destroy("", Err(DestroyFault::BadName)),
    Destroy("ext", Err(DestroyFault::NotFound)),
    Add(TOO_LONG, AT, 0, PAGE, Err(AddFault::BadName)),
    Add("ext", AT, 0, PAGE, Err(AddFault::NotFound)),
    Add("socket_0", AT, 0, PAGE, Err(AddFault::SocketHeap)),
    Remove("", AT, LEN, Err(RemoveFault::BadName)),
    Remove("ext", AT, LEN, Err(RemoveFault::NotFound)),
    Remove("socket_0", AT, LEN, Err(RemoveFault::SocketHeap)),
    Remove(LONGEST, AT, LEN, Err(RemoveFault::NoChunk)),
    Attach(0, TOO_LONG, AT, LEN, Err(AttachFault::NotFound)),
    Attach(0, "socket_0", AT, LEN, Err(AttachFault::NoChunk)),
    Attach(0, LONGEST, AT, LEN, Err(AttachFault::NoChunk)),
    Detach(0, "ext", AT, LEN, Err(DetachFault::NotFound)),
    Detach(0, "socket_0", AT, LEN, Err(DetachFault::NoChunk)),
    Detach(0, LONGEST, AT, LEN, Err(DetachFault::NoChunk)),
    Entries(0),
];

#[test]
fn judges_a_name_first(rt: HostRuntime) -> Result<(), Fail> {
    play(rt.alloc(), [].as_slice(), NAMES)
}

// A slot of the pool's list that is not mapped, and a page of memory that is there already.
const UNMAPPED: Row = Row {
    addr: 0x1_0040_0000,
    page: PAGE,
    socket: 0,
    list: 0,
    slot: 2,
    generation: 0,
};

const THERE: Row = Row {
    addr: 0x70_0020_0000,
    page: PAGE,
    socket: 256,
    list: 1,
    slot: 1,
    generation: 0,
};

// Ranges that may not come, and two chunks, one of them at address 0.
const RANGES: &[Step] = &[
    Create("ext", Ok((1, 256))),
    Add("ext", AT, 0, PAGE, Err(AddFault::BadRange)),
    Add("ext", AT, LEN, 0x30_0000, Err(AddFault::BadRange)),
    Add("ext", AT + 64, LEN, PAGE, Err(AddFault::BadRange)),
    Add(
        "ext",
        0x1_0040_0000,
        PAGE,
        PAGE,
        Err(AddFault::Overlaps { row: UNMAPPED }),
    ),
    Add(
        "ext",
        0x1_0040_0000,
        0x10_0000_0000,
        0x1000,
        Err(AddFault::Overlaps { row: UNMAPPED }),
    ),
    Add("ext", AT, 0x10_0000_0000, 0x1000, Err(AddFault::NoSpace)),
    Add("ext", AT, LEN, PAGE, Ok(())),
    Add(
        "ext",
        AT + PAGE,
        LEN,
        PAGE,
        Err(AddFault::Overlaps { row: THERE }),
    ),
    Add("ext", 0, 0x3000, 0x1000, Ok(())),
    Remove("ext", AT, PAGE, Err(RemoveFault::NoChunk)),
    Attach(1, "ext", 0, 0x3000, Ok(())),
    Attach(1, "ext", 0, 0x3000, Err(AttachFault::Already)),
    Attach(0, "ext", 0, 0x3000, Ok(())),
    Rows(3, 3),
    Alloc(1, 1000, Some(0x2c00)),
    Detach(0, "ext", 0, 0x3000, Ok(())),
    Rows(0, 3),
    Detach(0, "ext", 0, 0x3000, Err(DetachFault::NotAttached)),
    Detach(
        1,
        "ext",
        0,
        0x3000,
        Err(DetachFault::InUse { addr: 0x2c00 }),
    ),
    Free(0x2c00),
    Remove(
        "ext",
        0,
        0x3000,
        Err(RemoveFault::StillAttached { participant: 1 }),
    ),
    Remove("ext", AT, LEN, Ok(())),
    Destroy("ext", Err(DestroyFault::Busy { chunks: 1 })),
];

#[test]
fn takes_memory_beside_all_lists(rt: HostRuntime) -> Result<(), Fail> {
    play(rt.alloc(), [].as_slice(), RANGES)
}

// The second of three pages is refused: nothing is attached, and the next try maps all three.
const REFUSED: &[Step] = &[
    Create("ext", Ok((1, 256))),
    Add("ext", AT, 0x3000, 0x1000, Ok(())),
    Attach(
        0,
        "ext",
        AT,
        0x3000,
        Err(AttachFault::MapRefused { call: 2 }),
    ),
    Rows(0, 0),
    Alloc(0, 1000, None),
    Entries(2),
    Attach(0, "ext", AT, 0x3000, Ok(())),
    Attach(0, "ext", AT, 0x3000, Err(AttachFault::Already)),
    Rows(3, 0),
    Alloc(0, 1000, Some(0x70_0000_2c00)),
    Entries(4),
];

#[test]
fn attaches_all_pages_or_none(rt: HostRuntime) -> Result<(), Fail> {
    play(rt.alloc(), [2].as_slice(), REFUSED)
}

// 31 heaps are made beside that of socket 0, and no other.
const FULL: &[Step] = &[
    Fill(31),
    Create("ext", Err(CreateFault::NoSpace { limit: 32 })),
    Create("socket_0", Err(CreateFault::Exists)),
];

#[test]
fn makes_no_33rd_heap(rt: HostRuntime) -> Result<(), Fail> {
    play(rt.alloc(), [].as_slice(), FULL)
}
