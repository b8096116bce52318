//! The word `run`: whole reports, and how it ends.

use super::super::USAGE;
use super::super::playing::{Case, SOLO, Written, comes_out, play};
use super::gates::MeetingGate;
use super::leaving::holds;
use super::lines::BESIDE;
use Written::*;
use hp_base::Status;
use std::test::Fail;

// Three participants, of which one allocates. Its report is that of the same line alone, but that all three map the page.
const GROWN: &str = "participants 3\npool 0 2M 4\n0 alloc a 1000\n";

const GROWN_REPORT: &str = "heapsim report 1\n\
line 3 0 alloc ok 0x1001ffc00\n\
heap 0 socket_0 0 total 2097152 free 2096000 used 1152 greatest 2096000 busy 1 frees 1\n\
elem 0x100000000 2096000 free 7\n\
elem 0x1001ffb80 1152 busy 0 1024 0 a\n\
hist 0 1 0 1 alloc 1024 64 0 0x0 a -> none\n\
hist 0 2 0 2 grow 0x100000000 2097152 -> ok\n\
hist 0 3 0 3 alloc 1024 64 0 0x0 a -> 0x1001ffc00\n\
pool 0 2097152 3\n\
list 0 0 2097152 0x100000000 4\n\
seg 0x100000000 owned 0\n\
rec 1 add 0x100000000 2097152 0\n\
ask 0 1 granted 1\n\
table 0 in 1 1\n\
map 0 0x100000000 2097152 0\n\
table 1 in 1 1\n\
map 1 0x100000000 2097152 0\n\
table 2 in 1 1\n\
map 2 0x100000000 2097152 0\n\
end\n";

// The third cannot map it: the plan says so, whatever the order is.
const REFUSED: &str = "participants 3\npool 0 2M 4\nrefuse 2 1\n0 alloc a 1000\n";

const BESIDE_FRONT: &str =
    "heapsim report 1\nline 2 1 dump notfound\nline 3 2 dump notfound\nline 4 2 dump notfound\n";

// A workload is run on threads.
const RUN: Case<'static> = Case {
    words: &["run"],
    ..SOLO
};

const ALL_MAP: Case<'static> = Case {
    input: GROWN,
    written: Text(GROWN_REPORT),
    ..RUN
};

const ONE_CANNOT: Case<'static> = Case {
    input: REFUSED,
    written: Parts(&[
        "\nline 4 0 alloc none\n",
        "\nask 0 1 refused mapfailed 2 1 0x100000000 refused\n",
    ]),
    ..RUN
};

#[test]
fn reports_what_all_map(rt: HostRuntime) -> Result<(), Fail> {
    play(&rt, rt.alloc(), &[ALL_MAP])
}

#[test]
fn reports_what_one_cannot_map(rt: HostRuntime) -> Result<(), Fail> {
    play(&rt, rt.alloc(), &[ONE_CANNOT])
}

const LINES_BESIDE: Case<'static> = Case {
    input: BESIDE,
    written: Report(BESIDE_FRONT),
    ..RUN
};

// A body that does the lines one after another on one thread has the gate let go, or is not asked for one of them.
#[test]
fn reports_lines_that_were_done_beside_one_another(rt: HostRuntime) -> Result<(), Fail> {
    let gate = MeetingGate::new(2, 4);
    holds(comes_out(&rt, rt.alloc(), &LINES_BESIDE, &gate)?)?;
    holds(gate.have_met())
}

// It ends as a run in one thread does where there is nothing to run.
const NOTHING_RUN: &[Case<'static>] = &[
    Case {
        input: "",
        written: Text("heapsim report 1\ntable 0 in 0 0\nend\n"),
        ..RUN
    },
    Case {
        input: "pool 0 2M 4\n0 alloc a",
        status: Status::BadWorkload,
        written: Text("refused line 2 Fields\n"),
        ..RUN
    },
    Case {
        input: "pool 0 2M 4\n0 await 0 1\n",
        status: Status::BadWorkload,
        written: Text("refused line 2 Ahead\n"),
        ..RUN
    },
    Case {
        words: &["Run"],
        input: GROWN,
        status: Status::Usage,
        is_left: true,
        written: Text(USAGE),
        ..SOLO
    },
];

#[test]
fn refuses_what_one_thread_refuses(rt: HostRuntime) -> Result<(), Fail> {
    play(&rt, rt.alloc(), NOTHING_RUN)
}
