//! Lines that register watchers and validators, or ask for statistics, by `run`: the lines of one participant, of which the answers and the
//! events are the same whatever the order is.

use super::super::playing::{Case, SOLO, Written, play};
use Written::*;
use std::test::Fail;

// A workload is run on threads.
const RUN: Case<'static> = Case {
    words: &["run"],
    ..SOLO
};

// The watcher of participant 1 is told of the page that comes and goes, and nobody else is told of anything.
const WATCHED: Case<'static> = Case {
    input: "participants 2\npool 0 2M 4\n1 watch w\n1 alloc a 1000\n1 free a\n",
    written: Parts(&[
        "\nline 3 1 watch ok\n",
        "\ntable 0 in 2 0\ntable 1 in 2 0\nevent 1 w alloc 0x100000000 2097152\nevent 1 w free 0x100000000 2097152\nend\n",
    ]),
    ..RUN
};

// A validator of participant 0 denies the second page that it asks for itself.
const LIMITED: Case<'static> = Case {
    input: "participants 2\npool 0 2M 4\n0 limit cap 0 2M\n0 alloc a 2000000\n0 alloc b 2000000\n",
    written: Parts(&[
        "\nline 3 0 limit ok\nline 4 0 alloc ok 0x100017b80\nline 5 0 alloc none\n",
        "\nask 0 2 refused denied cap 2097152 4194304\n",
    ]),
    ..RUN
};

// Statistics that participant 1 is answered are those after its own lines before, since nobody else uses the heap.
const COUNTED: Case<'static> = Case {
    input: "participants 2\npool 0 2M 4\n1 alloc a 1000\n1 stats socket_0\n1 free a\n1 stats socket_0\n",
    written: Parts(&[
        "\nline 4 1 stats total 2097152 free 2096000 used 1152 greatest 2096000 busy 1 frees 1\n",
        "\nline 6 1 stats total 0 free 0 used 0 greatest 0 busy 0 frees 0\n",
    ]),
    ..RUN
};

#[test]
fn tells_watchers_on_threads(rt: HostRuntime) -> Result<(), Fail> {
    play(&rt, rt.alloc(), &[WATCHED])
}

#[test]
fn denies_on_threads(rt: HostRuntime) -> Result<(), Fail> {
    play(&rt, rt.alloc(), &[LIMITED])
}

#[test]
fn counts_on_threads(rt: HostRuntime) -> Result<(), Fail> {
    play(&rt, rt.alloc(), &[COUNTED])
}
