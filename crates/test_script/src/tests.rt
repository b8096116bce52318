use hp_base::{BadRequest, MsgKind, PlanEntry, PoolLine, Stats};
use hp_script::*;
use std::alloc::{AllocError, Global};
use std::test::Fail;

mod facts;
mod generated;
mod index;
mod limits;
mod lines;
mod refused;

// The number of participant lines of a text, or its refusal.
pub fn outcome(alloc: Global, text: &[u8]) -> Result<usize, ParseFault> {
    if text.len() > 1048576 {
        return Ok(usize::MAX);
    }
    let workload = parse(alloc, text)?;
    Ok(workload.lines.len())
}

// The number of participant lines of a text, or the line and the kind of its refusal, where memory lasted.
pub fn judged(alloc: Global, text: &[u8]) -> Option<Result<usize, (u32, BadKind)>> {
    match outcome(alloc, text) {
        Ok(lines) => Some(Ok(lines)),
        Err(ParseFault::Bad { line, kind }) => Some(Err((line, kind))),
        Err(ParseFault::OutOfMemory) => None,
    }
}

// What stands at that place of a list, counted from 0, came out otherwise.
#[derive(Debug, Drop)]
struct Otherwise {
    place: usize,
}

pub fn ended_at(place: usize) -> Result<(), Fail> {
    Err(Otherwise { place }.into())
}

// Every setup line, with spaces, tabs, carriage returns, skipped lines and numbers of each form.
const SETUP: &[u8] = b"# a comment \x01\r
participants 0x4\r
\tabsent  1\nabsent 03
 socket 2\t31
deadline 0x10

pool 0 2M 4
pool 1 0x40000 0
pool 31 16G 8K 1K
lose alloc 0 1
repeat sync 1 1000000
lose answer 3 2
refuse 0 1
elsewhere 2 1K";

const POOLS: &[PoolLine] = &[
    PoolLine {
        socket: 0,
        page: 0x20_0000,
        pages: 4,
        slots: 4,
    },
    PoolLine {
        socket: 1,
        page: 0x4_0000,
        pages: 0,
        slots: 1,
    },
    PoolLine {
        socket: 31,
        page: 0x4_0000_0000,
        pages: 8192,
        slots: 1024,
    },
];

const PLAN: &[PlanEntry] = &[
    PlanEntry::Message {
        kind: MsgKind::Alloc,
        party: 0,
        k: 1,
        twice: false,
        line: 11,
    },
    PlanEntry::Message {
        kind: MsgKind::Sync,
        party: 1,
        k: 1_000_000,
        twice: true,
        line: 12,
    },
    PlanEntry::Message {
        kind: MsgKind::Answer,
        party: 3,
        k: 2,
        twice: false,
        line: 13,
    },
    PlanEntry::Mapping {
        party: 0,
        call: 1,
        elsewhere: false,
        line: 14,
    },
    PlanEntry::Mapping {
        party: 2,
        call: 1024,
        elsewhere: true,
        line: 15,
    },
];

// The sockets of the sixteen participants.
const SOCKETS: &[u32] = &[0, 0, 31, 0, 0, 0, 0, 0, 0, 0, 0, 0, 0, 0, 0, 0];

// What setup lines say in numbers: the participants, the absent ones as bits, the deadline, and how many pools, planned disturbances and
// participant lines there are.
fn counts(read: &Workload<'_>) -> (u8, u16, u64, [usize; 3]) {
    let lists = [read.pools.len(), read.plan.len(), read.lines.len()];
    (read.participants, read.absent, read.deadline, lists)
}

fn has_lists(read: &Workload<'_>) -> bool {
    read.sockets.as_slice() == SOCKETS
        && read.pools.as_slice() == POOLS
        && read.plan.as_slice() == PLAN
}

#[test]
fn reads_every_setup_line(rt: HostRuntime) -> Result<(), Fail> {
    let read = parse(rt.alloc(), SETUP)?;
    assert!(rt; counts(&read) == (4, 10, 16, [3, 5, 0]) && has_lists(&read));
    Ok(())
}

#[test]
fn what_is_not_said_has_its_default(rt: HostRuntime) -> Result<(), Fail> {
    let read = parse(rt.alloc(), b"")?;
    assert!(rt; counts(&read) == (1, 0, 5000, [0, 0, 0]));
    Ok(())
}

// A workload as users have it.
#[test]
fn reads_a_workload_of_three(rt: HostRuntime) -> Result<(), Fail> {
    let text = b"participants 3
pool 0 2M 1024
pool 1 2M 1024
0 zone MP_mbuf_pool 18872064
0 zone RG_rx 65920
1 await 0 2
1 lookup MP_mbuf_pool
2 await 0 2
2 alloc flow_table 1M align=4K
";
    assert!(rt; outcome(rt.alloc(), text)? == 6);
    Ok(())
}

const STATS: Stats = Stats {
    total: 2097152,
    free: 2096000,
    used: 1152,
    greatest: 2096000,
    busy: 1,
    frees: 1,
};

const ANSWERS: &[(Answer, &str)] = &[
    (Answer::Done, "ok"),
    (
        Answer::Address {
            addr: 0x1_001f_fc00,
        },
        "ok 0x1001ffc00",
    ),
    (
        Answer::Found {
            addr: 0x1_0000_0900,
            len: 18872064,
        },
        "ok 0x100000900 18872064",
    ),
    (Answer::Records { records: 2 }, "ok 2"),
    (Answer::Socket { socket: 256 }, "ok 256"),
    (Answer::None, "none"),
    (Answer::NoHeap, "noheap"),
    (
        Answer::BadRequest {
            kind: BadRequest::Zero,
        },
        "bad zero",
    ),
    (Answer::NameTooLong, "namelong"),
    (Answer::NoElement, "noelem"),
    (Answer::IsZone, "iszone"),
    (Answer::Refused { call: 2 }, "refused 2"),
    (Answer::SocketHeap, "socketheap"),
    (Answer::BusyChunks { chunks: 1 }, "busy 1"),
    (Answer::BusyAddress { addr: 0 }, "busy 0x0"),
    (
        Answer::Overlaps {
            addr: 0x1_0040_0000,
        },
        "overlaps 0x100400000",
    ),
    (Answer::Attached { participant: 15 }, "attached 15"),
    (
        Answer::InUse {
            addr: 0x70_0000_0080,
        },
        "inuse 0x7000000080",
    ),
    (
        Answer::Statistics { stats: STATS },
        "total 2097152 free 2096000 used 1152 greatest 2096000 busy 1 frees 1",
    ),
    (Answer::Detached, "detached"),
];

fn is_text(alloc: Global, answer: &Answer, text: &str) -> Result<bool, AllocError> {
    Ok(answer.to_string(alloc)?.as_str() == text)
}

fn are_texts(alloc: Global, answers: &[(Answer, &str)]) -> Result<(), Fail> {
    for at in 0..answers.len() {
        let (answer, text) = answers[at];
        if !is_text(alloc, &answer, text)? {
            return ended_at(at);
        }
    }
    Ok(())
}

#[test]
fn answers_are_written_as_the_report_has_them(rt: HostRuntime) -> Result<(), Fail> {
    are_texts(rt.alloc(), ANSWERS)
}

const KINDS: &[(BadKind, &str)] = &[
    (BadKind::Byte, "Byte"),
    (BadKind::Long, "Long"),
    (BadKind::Verb, "Verb"),
    (BadKind::Fields, "Fields"),
    (BadKind::Number, "Number"),
    (BadKind::Range, "Range"),
    (BadKind::Option, "Option"),
    (BadKind::Order, "Order"),
    (BadKind::Duplicate, "Duplicate"),
    (BadKind::Unknown, "Unknown"),
    (BadKind::Ahead, "Ahead"),
    (BadKind::Limit, "Limit"),
];

fn are_words(alloc: Global, kinds: &[(BadKind, &str)]) -> Result<(), Fail> {
    for at in 0..kinds.len() {
        let (kind, word) = kinds[at];
        if kind.to_string(alloc)?.as_str() != word {
            return ended_at(at);
        }
    }
    Ok(())
}

// Whether a fault has that text.
fn says(alloc: Global, fault: &ParseFault, text: &str) -> Result<bool, AllocError> {
    Ok(fault.to_string(alloc)?.as_str() == text)
}

#[test]
fn kinds_and_faults_have_texts(rt: HostRuntime) -> Result<(), Fail> {
    let bad = ParseFault::Bad {
        line: 7,
        kind: BadKind::Ahead,
    };
    assert!(rt; says(rt.alloc(), &bad, "line 7 is refused: Ahead")?);
    assert!(rt; says(rt.alloc(), &ParseFault::OutOfMemory, "out of memory")?);
    are_words(rt.alloc(), KINDS)
}
