//! A growth that all map, and one that one of them cannot map.

use super::leaving::{Left, leaves};
use hp_base::OpenGate;
use hp_script::Answer;
use std::test::Fail;

// Three participants, of which one allocates: its page is mapped by all.
const GROWN: &str = "participants 3\npool 0 2M 4\n0 alloc a 1000\n";

const MAPPED: Left = Left {
    answers: &[Answer::Address { addr: 0x1001_ffc00 }],
    records: 1,
    participants: 3,
    rows: 1,
    taken_in: Some(1),
};

// The third cannot map it, so it goes again.
const REFUSED: &str = "participants 3\npool 0 2M 4\nrefuse 2 1\n0 alloc a 1000\n";

const UNMAPPED: Left = Left {
    answers: &[Answer::None],
    records: 2,
    participants: 3,
    rows: 0,
    taken_in: None,
};

#[test]
fn maps_what_one_grows(rt: HostRuntime) -> Result<(), Fail> {
    leaves(&rt, rt.alloc(), GROWN, &OpenGate, &MAPPED)
}

#[test]
fn refuses_what_one_cannot_map(rt: HostRuntime) -> Result<(), Fail> {
    leaves(&rt, rt.alloc(), REFUSED, &OpenGate, &UNMAPPED)
}
