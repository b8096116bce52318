//! What is written to sinks that take all, that take a byte or seven at a time, and that fail.
ghost use Rattle.std.specs.Prelude.{◌<◌};

use super::{Scene, assert_writes, push_table};
use hp_base::{MemSink, Row};
use hp_report::{Ended, RenderFault, WriteFault, write_whole};
use hp_script::Answer;
use std::alloc::Global;
use std::process::Abort;
use std::test::Fail;

// A workload without a heap, of which the second participant is out.
const TEXT: &str = "participants 2\nabsent 1\npool 0 2M 4\n0 lookup z\n1 attach\n";

const REPORT: &str = "heapsim report 1\n\
    line 4 0 lookup notfound\n\
    line 5 1 attach refused 2\n\
    pool 0 2097152 4\n\
    list 0 0 2097152 0x100000000 4\n\
    table 0 in 3 3\n\
    map 0 0x100000000 2097152 0\n\
    map 0 0x100400000 2097152 0\n\
    map 0 0x7000000000 2097152 256\n\
    table 1 out 0 0\n\
    end\n";

const ANSWERS: [Answer; 2] = [Answer::NotFound, Answer::Refused { call: 2 }];

const ROW: Row = Row {
    addr: 0x1_0000_0000,
    page: 0x20_0000,
    socket: 0,
    list: 0,
    slot: 0,
    generation: 1,
};

// The rows of the first participant, in the order in which they were mapped.
const ROWS: [Row; 3] = [
    Row {
        addr: 0x1_0040_0000,
        slot: 2,
        ..ROW
    },
    Row {
        addr: 0x70_0000_0000,
        socket: 256,
        list: 1,
        generation: 0,
        ..ROW
    },
    ROW,
];

// What the run of that workload leaves.
fn fill(
    alloc: Global,
    ended: &mut Ended<'_>,
    answers: &[Answer],
    rows: &[Row],
) -> Result<(), Fail> {
    ended.answers.extend_from_slice(answers)?;
    push_table(&mut ended.tables, true, 3, Vec::from_slice(alloc, rows)?)?;
    push_table(&mut ended.tables, false, 2, Vec::new(alloc))
}

// A sink that takes so many bytes at a time, and fails at these calls.
fn sink_of(alloc: Global, piece: usize, fails: &[u64]) -> Result<MemSink, Fail>
    requires { 0 < piece }
{
    let fails = Vec::from_slice(alloc, fails)?;
    Ok(MemSink::new(alloc, piece, fails))
}

// The report in a sink that takes so many bytes at a time.
fn assert_whole(
    rt: &impl Abort,
    alloc: Global,
    ended: &Ended<'_>,
    piece: usize,
    report: &[u8],
) -> Result<(), Fail>
    requires { 0 < piece }
{
    let mut sink = sink_of(alloc, piece, &[])?;
    assert_writes(rt, alloc, ended, &mut sink, Ok(()), report)
}

// In one that takes 13 bytes so often, and then fails.
fn assert_front(
    rt: &impl Abort,
    alloc: Global,
    ended: &Ended<'_>,
    often: u8,
    report: &[u8],
) -> Result<(), Fail> {
    let Some(front) = report.get(..13 * usize::from(often)) else {
        return Err("a longer report".into());
    };
    let mut sink = sink_of(alloc, 13, &[u64::from(often) + 1])?;
    assert_writes(
        rt,
        alloc,
        ended,
        &mut sink,
        Err(RenderFault::WriteFault),
        front,
    )
}

// A text in a sink that takes seven bytes at a time and fails at these calls.
fn assert_text(
    rt: &impl Abort,
    sink: &mut MemSink,
    ends: Result<(), WriteFault>,
    held: &[u8],
) -> Result<(), Fail> {
    let result = write_whole(sink, TEXT.as_bytes());
    assert!(rt; result == ends);
    assert!(rt; sink.bytes() == held);
    Ok(())
}

pub fn show_pieces(rt: &impl Abort, alloc: Global, ended: &mut Ended<'_>) -> Result<(), Fail> {
    fill(alloc, ended, ANSWERS.as_slice(), ROWS.as_slice())?;
    assert_whole(rt, alloc, ended, 1, REPORT.as_bytes())?;
    assert_whole(rt, alloc, ended, 7, REPORT.as_bytes())?;
    assert_whole(rt, alloc, ended, 100_000, REPORT.as_bytes())
}

pub fn show_faults(rt: &impl Abort, alloc: Global, ended: &mut Ended<'_>) -> Result<(), Fail> {
    fill(alloc, ended, ANSWERS.as_slice(), ROWS.as_slice())?;
    for often in 0..19u8 {
        assert_front(rt, alloc, ended, often, REPORT.as_bytes())?;
    }
    Ok(())
}

#[test]
fn writes_a_report_in_pieces_of_any_size(rt: HostRuntime) -> Result<(), Fail> {
    super::show(&rt, rt.alloc(), TEXT, Scene::Pieces)
}

#[test]
fn writes_a_front_where_the_sink_fails(rt: HostRuntime) -> Result<(), Fail> {
    super::show(&rt, rt.alloc(), TEXT, Scene::Faults)
}

#[test]
fn writes_a_text_whole(rt: HostRuntime) -> Result<(), Fail> {
    let mut sink = sink_of(rt.alloc(), 7, &[])?;
    assert_text(&rt, &mut sink, Ok(()), TEXT.as_bytes())
}

#[test]
fn writes_a_front_of_a_text_where_the_sink_fails(rt: HostRuntime) -> Result<(), Fail> {
    let mut sink = sink_of(rt.alloc(), 7, &[3])?;
    assert_text(&rt, &mut sink, Err(WriteFault), b"participants 2")
}
