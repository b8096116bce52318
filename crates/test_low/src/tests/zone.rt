//! What is done with names, as lists of steps.

mod directory_steps;
mod zone_steps;

use super::holds;
use directory_steps::HeapStep::{
    self, Add, At, Changes, Find, Give, HasPlace, LoseName, LoseRange, Missing,
};
use hp_zone::ZoneFault;
use std::alloc::Global;
use std::test::Fail;
use zone_steps::ZoneStep::{
    self, Check, Count, Free, Long, Lost, Put, Refuse, Reverse, See, Zeros,
};

// A name of 31 letters z, and one of 32.
const LONGEST: &str = "zzzzzzzzzzzzzzzzzzzzzzzzzzzzzzz";

const TOO_LONG: &str = "zzzzzzzzzzzzzzzzzzzzzzzzzzzzzzzz";

fn play_zones(alloc: Global, steps: &[ZoneStep]) -> Option<usize> {
    zone_steps::play(alloc, steps)
}

fn play_heaps(alloc: Global, steps: &[HeapStep]) -> Option<usize> {
    directory_steps::play(alloc, steps)
}

const REFUSED: &[ZoneStep] = &[
    Check(LONGEST, 100, 0, 0),
    Refuse(TOO_LONG, 100, 3, 3, ZoneFault::NameLong),
    Refuse("", 100, 0, 0, ZoneFault::NameLong),
    Put(LONGEST, 0x1_001f_ff80),
    Refuse(LONGEST, 100, 3, 3, ZoneFault::Exists),
    Refuse("a", 100, 48, 3, ZoneFault::BadAlign),
    Check("a", 100, 64, 128),
    Refuse("a", 100, 64, 64, ZoneFault::BadBound),
    Refuse("a", 129, 64, 128, ZoneFault::BadBound),
    Refuse("a", u64::MAX, 0, 1 << 63, ZoneFault::BadBound),
    Check("a", u64::MAX, 0, 0),
    Refuse("a", 64, 0, 96, ZoneFault::BadBound),
];

#[test]
fn refuses_in_order(rt: HostRuntime) -> Result<(), Fail> {
    holds(play_zones(rt.alloc(), REFUSED) == Some(1))
}

const ORDERED: &[ZoneStep] = &[
    Put("MP_mbuf_pool", 0x1_0000_0900),
    Put("RG_rx", 0x1_013e_fe80),
    Put("a", 64),
    See(0, "MP_mbuf_pool"),
    See(1, "RG_rx"),
    See(2, "a"),
    Free("RG_rx", 0x1_013e_fe80),
    Lost("RG_rx"),
    See(1, "a"),
    Put("RG_rx", 128),
    See(2, "RG_rx"),
    Free("MP_mbuf_pool", 0x1_0000_0900),
    Long(6),
];

#[test]
fn keeps_zones_in_their_order(rt: HostRuntime) -> Result<(), Fail> {
    holds(play_zones(rt.alloc(), ORDERED) == Some(2))
}

// Twenty changes: twelve zones come, and eight go.
const TWENTY: &[ZoneStep] = &[
    Put("l", 12),
    Put("a", 1),
    Put("k", 11),
    Put("b", 2),
    Put("j", 10),
    Put("c", 3),
    Put("i", 9),
    Put("d", 4),
    Free("k", 11),
    Free("a", 1),
    Free("d", 4),
    Put("h", 8),
    Put("e", 5),
    Put("g", 7),
    Put("f", 6),
    Free("l", 12),
    Free("f", 6),
    Free("h", 8),
    Free("c", 3),
    Free("e", 5),
    Long(20),
    See(0, "b"),
    See(1, "j"),
    See(2, "i"),
    See(3, "g"),
    ZoneStep::Replays,
];

#[test]
fn replays_twenty_changes(rt: HostRuntime) -> Result<(), Fail> {
    holds(play_zones(rt.alloc(), TWENTY) == Some(4))
}

const FULL: &[ZoneStep] = &[
    Zeros(2_560),
    Count(2_560),
    Refuse("zz", 64, 3, 3, ZoneFault::NoSpace { limit: 2_560 }),
    Reverse(2_560),
    Count(0),
    Long(5_120),
    Check("zz", 64, 0, 0),
];

#[test]
fn holds_2560_zones(rt: HostRuntime) -> Result<(), Fail> {
    holds(play_zones(rt.alloc(), FULL) == Some(0))
}

const NAMED: &[HeapStep] = &[
    Find("socket_0", 0, 0),
    Find("socket_3", 1, 3),
    Missing("socket_1"),
    At(1, "socket_3", 3),
    Give("ext", 2, 256),
    Give("b", 3, 257),
    Add(2, 0x70_0000_0000, 1),
    Add(3, 0x71_0000_0000, 2),
    Find("ext", 2, 256),
    Changes(4),
    HasPlace(true),
];

#[test]
fn gives_the_lowest_index_and_a_new_socket(rt: HostRuntime) -> Result<(), Fail> {
    holds(play_heaps(rt.alloc(), NAMED) == Some(4))
}

// The heap of index 2 gets a name and a range, and loses both; the next heap with its name gets a new socket number, and the heaps of
// sockets keep theirs.
const NAMED_AGAIN: &[HeapStep] = &[
    Give("ext", 2, 256),
    Add(2, 0x70_0000_0000, 1),
    LoseRange(2, 0x70_0000_0000),
    LoseName(2),
    Missing("ext"),
    Find("socket_3", 1, 3),
    Give("ext", 2, 257),
    At(2, "ext", 257),
    At(0, "socket_0", 0),
];

#[test]
fn gives_no_socket_number_again(rt: HostRuntime) -> Result<(), Fail> {
    holds(play_heaps(rt.alloc(), NAMED_AGAIN) == Some(5))
}
