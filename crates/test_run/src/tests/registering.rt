//! Worked runs whose lines register watchers and validators, or ask for statistics without a lock.
use super::rows::{Row, report};
use std::test::Fail;

// A watcher is told of the page that comes and goes; a second one of a name, a fifth one and one that is not there are refused. One that is
// registered later hears nothing of what was there, and one that is unregistered is told of nothing more.
const WATCHED: [Row; 5] = [
    (
        "pool 0 2M 4\n0 watch w\n0 alloc a 1000\n0 free a\n",
        &[
            "line 2 0 watch ok",
            "table 0 in 2 0\nevent 0 w alloc 0x100000000 2097152\nevent 0 w free 0x100000000 2097152\nend",
        ],
    ),
    (
        "pool 0 2M 4\n0 watch a\n0 watch a\n0 watch b\n0 watch c\n0 watch d\n0 watch e\n0 unwatch b\n0 unwatch b\n0 watch e\n",
        &[
            "line 2 0 watch ok",
            "line 3 0 watch exists",
            "line 6 0 watch ok",
            "line 7 0 watch full",
            "line 8 0 unwatch ok",
            "line 9 0 unwatch notfound",
            "line 10 0 watch ok",
            "table 0 in 0 0\nend",
        ],
    ),
    // One of participant 1 hears what comes into the table of 1, when it detaches what goes from there, and when it attaches again what comes.
    (
        "participants 2\npool 0 2M 4\n1 watch w\n0 alloc a 1000\n1 detach\n1 attach\n",
        &[
            "line 5 1 detach ok",
            "line 6 1 attach ok 1",
            "map 1 0x100000000 2097152 0\nevent 1 w alloc 0x100000000 2097152\nevent 1 w free 0x100000000 2097152\nevent 1 w alloc 0x100000000 2097152\nend",
        ],
    ),
    (
        "pool 0 2M 4\n0 alloc a 1000\n0 watch w\n0 free a\n",
        &[
            "line 3 0 watch ok",
            "table 0 in 2 0\nevent 0 w free 0x100000000 2097152\nend",
        ],
    ),
    (
        "pool 0 2M 4\n0 watch v\n0 watch w\n0 alloc a 1000\n0 unwatch v\n0 free a\n",
        &[
            "line 5 0 unwatch ok",
            "table 0 in 2 0\nevent 0 w alloc 0x100000000 2097152\nevent 0 w free 0x100000000 2097152\nend",
        ],
    ),
];

// A validator denies the second page, until it is taken back; one that allows denies nothing; one of another socket is not asked.
const LIMITED: [Row; 3] = [
    (
        "pool 0 2M 4\n0 limit cap 0 2M\n0 limit cap 0 1\n0 alloc a 2000000\n0 alloc b 2000000\n0 unlimit cap 1\n0 unlimit cap 0\n0 alloc c 2000000\n",
        &[
            "line 2 0 limit ok",
            "line 3 0 limit exists",
            "line 4 0 alloc ok 0x100017b80",
            "line 5 0 alloc none",
            "line 6 0 unlimit notfound",
            "line 7 0 unlimit ok",
            "line 8 0 alloc ok 0x100217b80",
            "ask 0 2 refused denied cap 2097152 4194304",
        ],
    ),
    (
        "pool 0 2M 4\n0 limit cap 0 2M allow\n0 alloc a 2000000\n0 alloc b 2000000\n",
        &[
            "line 2 0 limit ok",
            "line 3 0 alloc ok 0x100017b80",
            "line 4 0 alloc ok 0x100217b80",
        ],
    ),
    (
        "pool 0 2M 4\n0 limit cap 1 0\n0 alloc a 1000\n",
        &["line 2 0 limit ok", "line 3 0 alloc ok 0x1001ffc00"],
    ),
];

// Statistics are those of the lines before, also of another participant; of a heap that nobody has used they are zeros. Whoever is out is
// answered nothing of these lines.
const COUNTED: [Row; 3] = [
    (
        "participants 2\npool 0 2M 4\n1 stats socket_0\n0 alloc a 1000\n1 stats socket_0\n0 free a\n0 stats socket_0\n0 stats socket_1\n",
        &[
            "line 3 1 stats total 0 free 0 used 0 greatest 0 busy 0 frees 0",
            "line 5 1 stats total 2097152 free 2096000 used 1152 greatest 2096000 busy 1 frees 1",
            "line 7 0 stats total 0 free 0 used 0 greatest 0 busy 0 frees 0",
            "line 8 0 stats notfound",
        ],
    ),
    (
        "pool 0 2M 4\npool 1 2M 4\n0 alloc a 1000 socket=1\n0 stats socket_1\n0 stats socket_0\n",
        &[
            "line 4 0 stats total 2097152 free 2096000 used 1152 greatest 2096000 busy 1 frees 1",
            "line 5 0 stats total 0 free 0 used 0 greatest 0 busy 0 frees 0",
        ],
    ),
    (
        "participants 2\npool 0 2M 4\n1 detach\n1 watch w\n1 unwatch w\n1 stats socket_0\n",
        &[
            "line 4 1 watch detached",
            "line 5 1 unwatch detached",
            "line 6 1 stats detached",
        ],
    ),
];

#[test]
fn tells_watchers_what_comes_and_goes(rt: HostRuntime) -> Result<(), Fail> {
    report(&rt, rt.alloc(), &WATCHED)
}

#[test]
fn denies_what_is_above_a_limit(rt: HostRuntime) -> Result<(), Fail> {
    report(&rt, rt.alloc(), &LIMITED)
}

#[test]
fn counts_without_the_lock(rt: HostRuntime) -> Result<(), Fail> {
    report(&rt, rt.alloc(), &COUNTED)
}
