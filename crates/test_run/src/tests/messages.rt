//! Worked runs in which pages are too few, messages are lost or doubled, and a participant attaches: what their reports have to say.

use super::rows::{Row, report};
use std::test::Fail;

// Two pages are needed where the pool has one: nothing is changed.
const TOO_FEW: Row = (
    "pool 0 2M 1 4\n0 alloc a 2097152\n",
    &[
        "line 2 0 alloc none",
        "hist 0 1 0 1 alloc 2097152 64 0 0x0 a -> none",
        "pool 0 2097152 1",
        "ask 0 1 refused toofew 1 2",
        "table 0 in 0 0",
    ],
);

// A lost SYNC makes its participant late, and the rollback reaches it; a lost RESULT is waited for until three deadlines have passed; of an
// ask that comes twice the copy is stale.
const LOST: [Row; 3] = [
    (
        "participants 2\ndeadline 200\npool 0 2M 4\nlose sync 1 1\n0 alloc a 1000\n",
        &[
            "line 5 0 alloc none",
            "pool 0 2097152 4",
            "rec 1 add 0x100000000 2097152 0",
            "rec 2 drop 0x100000000 2097152",
            "ask 0 1 refused late 1 0 200",
            "table 0 in 2 0",
            "table 1 in 2 0",
        ],
    ),
    (
        "deadline 200\npool 0 2M 4\nlose answer 0 1\n0 alloc a 1000\n",
        &[
            "line 4 0 alloc ok 0x1001ffc00",
            "ask 0 1 granted 1",
            "table 0 in 1 1",
        ],
    ),
    (
        "pool 0 2M 4\nrepeat alloc 0 1\n0 alloc a 1000\n",
        &[
            "line 3 0 alloc ok 0x1001ffc00",
            "rec 1 add 0x100000000 2097152 0",
            "ask 0 1 granted 1",
            "ask 0 1 stale 1",
            "table 0 in 1 1",
        ],
    ),
];

// One that attaches takes in all records; where its second mapping call is refused it is out, and its table is empty.
const ATTACHING: [Row; 2] = [
    (
        "participants 2\nabsent 1\npool 0 2M 4\n0 alloc a 1000\n0 alloc b 2096960\n1 attach\n",
        &[
            "line 5 0 alloc ok 0x1002000c0",
            "line 6 1 attach ok 2",
            "table 1 in 2 2",
            "map 1 0x100000000 2097152 0",
            "map 1 0x100200000 2097152 0",
        ],
    ),
    (
        "participants 2\nabsent 1\npool 0 2M 4\nrefuse 1 2\n0 alloc a 1000\n0 alloc b 2096960\n1 attach\n",
        &[
            "line 6 0 alloc ok 0x1002000c0",
            "line 7 1 attach refused 2",
            "table 1 out 0 0",
        ],
    ),
];

#[test]
fn has_too_few_pages(rt: HostRuntime) -> Result<(), Fail> {
    report(&rt, rt.alloc(), &[TOO_FEW])
}

#[test]
fn loses_and_doubles_messages(rt: HostRuntime) -> Result<(), Fail> {
    report(&rt, rt.alloc(), &LOST)
}

#[test]
fn attaches_with_all_records_or_not_at_all(rt: HostRuntime) -> Result<(), Fail> {
    report(&rt, rt.alloc(), &ATTACHING)
}
