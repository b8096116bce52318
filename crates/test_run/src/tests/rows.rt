//! Worked runs: what their reports have to say.
use super::playing::{has_parts, ran};
use hp_base::{OpenGate, Status};
use std::alloc::{AllocError, Global};
use std::sync::Wait;
use std::test::Fail;
use std::thread::Threads;

// A workload, and the lines that its report has.
pub(super) type Row = (&'static str, &'static [&'static str]);

// One page is grown, goes back, and is grown again.
const PAGES: [Row; 3] = [
    (
        "pool 0 2M 4\n0 alloc a 1000\n",
        &[
            "line 2 0 alloc ok 0x1001ffc00",
            "heap 0 socket_0 0 total 2097152 free 2096000 used 1152 greatest 2096000 busy 1 frees 1",
            "elem 0x100000000 2096000 free 7",
            "elem 0x1001ffb80 1152 busy 0 1024 0 a",
            "pool 0 2097152 3",
            "seg 0x100000000 owned 0",
            "ask 0 1 granted 1",
            "table 0 in 1 1",
            "map 0 0x100000000 2097152 0",
        ],
    ),
    (
        "pool 0 2M 4\n0 alloc a 1000\n0 free a\n",
        &[
            "line 3 0 free ok",
            "heap 0 socket_0 0 total 0 free 0 used 0 greatest 0 busy 0 frees 0",
            "pool 0 2097152 4",
            "rec 2 drop 0x100000000 2097152",
            "table 0 in 2 0",
        ],
    ),
    (
        "pool 0 2M 4\n0 alloc b 4194240\n0 alloc a 2096960\n0 free b\n",
        &[
            "line 2 0 alloc ok 0x100200040",
            "line 3 0 alloc ok 0x100000080",
            "line 4 0 free ok",
            "elem 0x1001fffc0 2097216 free 7",
        ],
    ),
];

// Alignment, a bound, and sizes and options that are refused.
const OPTIONS: [Row; 5] = [
    (
        "pool 0 2M 4\n0 alloc a 2096960\n0 free a\n",
        &[
            "line 2 0 alloc ok 0x1000000c0",
            "line 3 0 free ok",
            "pool 0 2097152 4",
        ],
    ),
    (
        "pool 0 2M 4\n0 alloc a 64 align=1M\n0 alloc b 64\n",
        &[
            "line 2 0 alloc ok 0x100100000",
            "line 3 0 alloc ok 0x1000fff40",
            "elem 0x100100040 1048512 free 6",
        ],
    ),
    (
        "pool 0 2M 4\n0 alloc a 0\n0 alloc b 64 align=48\n0 alloc c 18446744073709551615\n0 alloc d 1000 bound=512\n",
        &[
            "line 2 0 alloc bad zero",
            "line 3 0 alloc bad align",
            "line 4 0 alloc bad overflow",
            "line 5 0 alloc bad bound",
            "heap 0 socket_0 0 total 0 free 0 used 0 greatest 0 busy 0 frees 0",
            "table 0 in 0 0",
        ],
    ),
    (
        "pool 0 2M 4\n0 alloc a 1000 bound=1024\n0 alloc b 1000 bound=1024\n",
        &[
            "line 2 0 alloc ok 0x1001ffc00",
            "line 3 0 alloc ok 0x1001ff400",
            "elem 0x1001ff800 896 free 1",
            "elem 0x100000000 2093952 free 7",
        ],
    ),
    (
        "pool 0 2M 1\npool 0 256K 1\n0 alloc x 1000 flags=0x1\n0 alloc y 1000 flags=0x1\n0 alloc z 1000 flags=0x10000\n0 free x\n",
        &[
            "line 5 0 alloc ok 0x10023fc00",
            "elem 0x1001ffb80 1152 free 1",
            "elem 0x100200000 260992 free 5",
            "heap 0 socket_0 0 total 2359296 free 2356992 used 2304 greatest 2094848 busy 2 frees 3",
        ],
    ),
];

// Elements that are freed and used again, resized, and looked at.
const ELEMENTS: [Row; 3] = [
    (
        "pool 0 2M 4\n0 alloc a 1000\n0 alloc b 1000\n0 alloc c 1000\n0 alloc d 1000\n0 alloc e 1000\n0 free b\n0 free d\n0 alloc f 1000\n",
        &[
            "line 3 0 alloc ok 0x1001ff780",
            "line 5 0 alloc ok 0x1001fee80",
            "line 9 0 alloc ok 0x1001fee80",
        ],
    ),
    (
        "pool 0 2M 4\n0 alloc a 1000\n0 alloc b 1000\n0 free a\n0 resize b 1500\n0 resize b 1800\n0 resize b 2100\n0 resize b 2176\n0 resize b 2177\n",
        &[
            "line 5 0 resize yes",
            "line 6 0 resize yes",
            "line 7 0 resize yes",
            "line 8 0 resize yes",
            "line 9 0 resize no",
        ],
    ),
    (
        "pool 0 2M 4\n0 alloc a 1000\n0 free a\n0 free a\n0 resize a 64\n0 resize a 0\n0 dump socket_0\n0 dump socket_1\n",
        &[
            "line 4 0 free noelem",
            "line 5 0 resize noelem",
            "line 6 0 resize bad zero",
            "line 7 0 dump total 0 free 0 used 0 greatest 0 busy 0 frees 0",
            "line 8 0 dump notfound",
        ],
    ),
];

// What is refused: by the pages, and by mapping calls that the plan names.
const REFUSED: [Row; 4] = [
    (
        "pool 0 2M 4\n0 alloc a 4M align=4M\n",
        &[
            "line 2 0 alloc none",
            "ask 0 1 refused cannothold 0x100000000 6291456",
            "table 0 in 0 0",
        ],
    ),
    (
        "pool 0 2M 4\nrefuse 0 1\n0 alloc a 1000\n",
        &[
            "line 3 0 alloc none",
            "pool 0 2097152 4",
            "rec 1 add 0x100000000 2097152 0",
            "rec 2 drop 0x100000000 2097152",
            "ask 0 1 refused mapfailed 0 1 0x100000000 refused",
            "table 0 in 2 0",
        ],
    ),
    (
        "pool 0 2M 4\nelsewhere 0 1\n0 alloc a 1000\n",
        &[
            "line 3 0 alloc none",
            "pool 0 2097152 4",
            "rec 2 drop 0x100000000 2097152",
            "ask 0 1 refused mapfailed 0 1 0x100000000 0x100200000 2097152 0",
            "table 0 in 2 0",
        ],
    ),
    (
        "pool 0 2M 4\nrefuse 0 2\n0 alloc a 1000\n0 alloc b 2096960\n0 alloc c 2096960\n",
        &[
            "line 3 0 alloc ok 0x1001ffc00",
            "line 4 0 alloc none",
            "line 5 0 alloc ok 0x1002000c0",
            "ask 0 2 refused mapfailed 0 2 0x100200000 refused",
            "ask 0 3 granted 4",
            "table 0 in 4 2",
        ],
    ),
];

// Whether a text has that line, or those lines one after the other.
fn has_line(text: &[u8], line: &str) -> bool {
    if line.contains("\n") {
        return has_parts(text, &[line]);
    }
    text.split(|byte| *byte == b'\n')
        .any(|other| other == line.as_bytes())
}

// The place of the first of these lines that a text does not have.
fn lacked(text: &[u8], lines: &[&str]) -> Option<usize> {
    for place in 0..lines.len() {
        if !has_line(text, lines[place]) {
            return Some(place);
        }
    }
    None
}

// How the report of a workload comes out otherwise: the line at that place is not in it, or it is none.
#[derive(Debug, Drop)]
enum Lacks {
    Line { row: usize, line: usize },
    Report { row: usize },
}

// What the report of the workload at that place lacks of its lines.
fn missing<R: Threads + Wait + Sync>(
    rt: &R,
    alloc: Global,
    row: usize,
    of: &Row,
) -> Result<Option<Lacks>, AllocError> {
    let (status, _source, sink) = ran(rt, alloc, &["solo"], of.0, &[], &[], &OpenGate)?;
    if status != Status::Ok {
        return Ok(Some(Lacks::Report { row }));
    }
    Ok(lacked(sink.bytes(), of.1).map(|line| Lacks::Line { row, line }))
}

// The reports have the lines.
pub(super) fn report<R: Threads + Wait + Sync>(
    rt: &R,
    alloc: Global,
    rows: &[Row],
) -> Result<(), Fail> {
    for row in 0..rows.len() {
        if let Some(lacks) = missing(rt, alloc, row, &rows[row])? {
            return Err(lacks.into());
        }
    }
    Ok(())
}

#[test]
fn grows_and_gives_pages_back(rt: HostRuntime) -> Result<(), Fail> {
    report(&rt, rt.alloc(), &PAGES)
}

#[test]
fn allocates_by_options(rt: HostRuntime) -> Result<(), Fail> {
    report(&rt, rt.alloc(), &OPTIONS)
}

#[test]
fn frees_resizes_and_dumps(rt: HostRuntime) -> Result<(), Fail> {
    report(&rt, rt.alloc(), &ELEMENTS)
}

#[test]
fn answers_none_where_growths_are_refused(rt: HostRuntime) -> Result<(), Fail> {
    report(&rt, rt.alloc(), &REFUSED)
}
