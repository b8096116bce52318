//! Worked runs of several participants: what their reports have to say.
use super::rows::{Row, report};
use std::test::Fail;

// Participants serve while one does its line: they map what it grows, or one of them cannot.
const SERVED: [Row; 3] = [
    (
        "participants 3\npool 0 2M 4\nrefuse 2 1\n0 alloc a 1000\n",
        &[
            "line 4 0 alloc none",
            "rec 1 add 0x100000000 2097152 0",
            "rec 2 drop 0x100000000 2097152",
            "ask 0 1 refused mapfailed 2 1 0x100000000 refused",
            "table 0 in 2 0",
            "table 1 in 2 0",
            "table 2 in 2 0",
        ],
    ),
    (
        "participants 2\npool 0 2M 4\nelsewhere 1 1\n0 alloc a 1000\n",
        &[
            "line 4 0 alloc none",
            "ask 0 1 refused mapfailed 1 1 0x100000000 0x100200000 2097152 0",
            "table 1 in 2 0",
        ],
    ),
    (
        "participants 2\npool 0 2M 1\npool 1 2M 1\nsocket 1 1\n1 alloc a 1000\n1 alloc b 2096000\n",
        &[
            "line 5 1 alloc ok 0x1003ffc00",
            "line 6 1 alloc ok 0x100000480",
            "hist 0 1 1 5 alloc 2096000 64 0 0x0 b -> none",
            "ask 1 2 refused toofew 0 1",
            "ask 1 3 granted 2",
            "table 0 in 2 2",
            "map 0 0x100200000 2097152 1",
        ],
    ),
];

// Of three the last is late for the first growth, and serves the later ones. A reply that is lost keeps nothing up, since the number is
// there; an ask that is lost is taken back. Participant 0 is sent no SYNC and sends no reply, so lines that lose one have no effect.
const LATE: [Row; 4] = [
    (
        "participants 3\ndeadline 200\npool 0 2M 4\nlose sync 2 1\n0 alloc a 1000\n1 alloc b 2096960\n0 free a\n2 alloc c 2096960\n",
        &[
            "line 5 0 alloc none",
            "line 6 1 alloc ok 0x1000000c0",
            "line 7 0 free noelem",
            "line 8 2 alloc ok 0x1002000c0",
            "hist 0 7 2 3 alloc 2096960 64 0 0x0 c -> 0x1002000c0",
            "ask 0 1 refused late 2 0 200",
            "ask 1 1 granted 3",
            "ask 2 1 granted 4",
            "table 0 in 4 2",
            "table 1 in 4 2",
            "table 2 in 4 2",
            "map 2 0x100200000 2097152 0",
        ],
    ),
    (
        "participants 2\ndeadline 200\npool 0 2M 4\nlose reply 1 1\n0 alloc a 1000\n",
        &[
            "line 5 0 alloc ok 0x1001ffc00",
            "ask 0 1 granted 1",
            "table 1 in 1 1",
        ],
    ),
    (
        "participants 2\ndeadline 200\npool 0 2M 4\nlose sync 0 1\nlose reply 0 1\n0 alloc a 1000\n",
        &[
            "line 6 0 alloc ok 0x1001ffc00",
            "ask 0 1 granted 1",
            "table 0 in 1 1",
            "table 1 in 1 1",
        ],
    ),
    (
        "deadline 200\npool 0 2M 4\nlose alloc 0 1\n0 alloc a 1000\n",
        &[
            "line 4 0 alloc none",
            "ask 0 1 refused withdrawn 0 600",
            "table 0 in 0 0",
        ],
    ),
];

// One that is absent comes later, and maps what there is; or a mapping call of its fails, and it tries again. Once it has gone it has no
// table.
const ATTACHED: [Row; 3] = [
    (
        "participants 2\nabsent 1\npool 0 2M 4\n0 alloc a 1000\n0 alloc b 2096960\n1 attach\n",
        &[
            "line 6 1 attach ok 2",
            "table 1 in 2 2",
            "map 1 0x100000000 2097152 0",
            "map 1 0x100200000 2097152 0",
        ],
    ),
    (
        "participants 2\nabsent 1\npool 0 2M 4\nrefuse 1 1\n0 alloc a 1000\n1 alloc b 64\n1 attach\n1 attach\n1 free a\n",
        &[
            "line 6 1 alloc detached",
            "line 7 1 attach refused 1",
            "line 8 1 attach ok 1",
            "line 9 1 free ok",
            "table 1 in 2 0",
        ],
    ),
    (
        "participants 3\npool 0 2M 4\n0 alloc a 1000\n2 attach\n2 detach\n2 detach\n0 free a\n",
        &[
            "line 4 2 attach already",
            "line 5 2 detach ok",
            "line 6 2 detach detached",
            "line 7 0 free ok",
            "table 1 in 2 0",
            "table 2 out 0 0",
        ],
    ),
];

// One that went comes back and maps what there is then, or a mapping call of its is refused or goes elsewhere, and it tries again.
const AGAIN: [Row; 4] = [
    (
        "participants 2\npool 0 2M 4\n0 alloc a 1000\n1 attach\n1 detach\n1 detach\n1 attach\n",
        &[
            "line 4 1 attach already",
            "line 5 1 detach ok",
            "line 6 1 detach detached",
            "line 7 1 attach ok 1",
            "table 1 in 1 1",
            "map 1 0x100000000 2097152 0",
        ],
    ),
    (
        "participants 2\npool 0 2M 4\n1 detach\n0 alloc a 1000\n1 detach\n1 attach\n",
        &[
            "line 3 1 detach ok",
            "line 5 1 detach detached",
            "line 6 1 attach ok 1",
            "ask 0 1 granted 1",
            "table 1 in 1 1",
            "map 1 0x100000000 2097152 0",
        ],
    ),
    (
        "participants 2\npool 0 2M 4\nrefuse 1 2\n0 alloc a 1000\n1 detach\n1 attach\n1 attach\n",
        &[
            "line 5 1 detach ok",
            "line 6 1 attach refused 2",
            "line 7 1 attach ok 1",
            "table 1 in 1 1",
            "map 1 0x100000000 2097152 0",
        ],
    ),
    (
        "participants 2\npool 0 2M 4\nelsewhere 1 2\n0 alloc a 1000\n1 detach\n1 attach\n1 attach\n",
        &[
            "line 5 1 detach ok",
            "line 6 1 attach refused 2",
            "line 7 1 attach ok 1",
            "table 1 in 1 1",
            "map 1 0x100000000 2097152 0",
        ],
    ),
];

#[test]
fn serves_while_one_does_its_line(rt: HostRuntime) -> Result<(), Fail> {
    report(&rt, rt.alloc(), &SERVED)
}

#[test]
fn goes_on_without_one_that_is_late(rt: HostRuntime) -> Result<(), Fail> {
    report(&rt, rt.alloc(), &LATE)
}

#[test]
fn attaches_and_detaches(rt: HostRuntime) -> Result<(), Fail> {
    report(&rt, rt.alloc(), &ATTACHED)
}

#[test]
fn attaches_again(rt: HostRuntime) -> Result<(), Fail> {
    report(&rt, rt.alloc(), &AGAIN)
}
