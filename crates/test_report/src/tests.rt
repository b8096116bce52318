//! What the report shows, byte by byte, and what is written where the sink fails.

mod answers;
mod growths;
mod heaps;
mod runs;
mod segments;
mod sinks;
mod told;

use hp_base::{MAX_WORKLOAD_BYTES, MemSink, Row};
use hp_maps::Table;
use hp_report::{Ended, RenderFault, render};
use hp_script::{Answer, parse};
use hp_segs::Segs;
use hp_zone::Names;
use std::alloc::Global;
use std::process::Abort;
use std::test::Fail;

// A run of a workload of two participants, before its first line.
fn opened<'a>(alloc: Global, text: &'a str) -> Result<Ended<'a>, Fail> {
    if text.len() > MAX_WORKLOAD_BYTES {
        return Err("a shorter workload".into());
    }
    let Ok(workload) = parse(alloc, text.as_bytes()) else {
        return Err("a workload".into());
    };
    let segs = Segs::new(alloc, workload.pools.as_slice(), 2, 0)?;
    let names = Names::new(alloc, [].as_slice())?;
    Ok(Ended {
        workload,
        answers: Vec::new(alloc),
        heaps: Vec::new(alloc),
        segs,
        names,
        tables: Vec::new(alloc),
        watchers: Vec::new(alloc),
    })
}

// What is shown of a run.
#[derive(Clone, Copy)]
enum Scene {
    Answers,
    Heap,
    Segments,
    Told,
    Pieces,
    Faults,
}

// Opens a run of a workload, and shows that of it.
fn show(rt: &impl Abort, alloc: Global, text: &str, scene: Scene) -> Result<(), Fail> {
    let mut ended = opened(alloc, text)?;
    show_of(rt, alloc, &mut ended, scene)
}

fn show_of(
    rt: &impl Abort,
    alloc: Global,
    ended: &mut Ended<'_>,
    scene: Scene,
) -> Result<(), Fail> {
    match scene {
        Scene::Answers => answers::show(rt, alloc, ended),
        Scene::Heap => runs::show(rt, alloc, ended),
        Scene::Segments => segments::show(rt, alloc, ended),
        Scene::Told => told::show(rt, alloc, ended),
        Scene::Pieces => sinks::show_pieces(rt, alloc, ended),
        Scene::Faults => sinks::show_faults(rt, alloc, ended),
    }
}

// The table of one more participant.
fn push_table(
    tables: &mut Vec<Table>,
    joined: bool,
    number: u64,
    rows: Vec<Row>,
) -> Result<(), Fail> {
    tables.reserve(1)?;
    tables.push_reserved(Table {
        joined,
        number,
        rows,
    });
    Ok(())
}

// The table of one more participant, who has taken in all records.
fn add_table(alloc: Global, ended: &mut Ended<'_>) -> Result<(), Fail> {
    let number = ended.segs.records().len() as u64;
    let mut rows = Vec::new(alloc);
    ended.segs.table_at(alloc, number, &mut rows)?;
    push_table(&mut ended.tables, true, number, rows)
}

// Writes the report of a run in which each line has an answer.
fn write_report(
    alloc: Global,
    ended: &Ended<'_>,
    sink: &mut MemSink,
) -> Result<Result<(), RenderFault>, Fail> {
    if ended.answers.len() != ended.workload.lines.len() {
        return Err("an answer for each line".into());
    }
    Ok(render(alloc, ended, sink))
}

// The report of a run ends so in a sink, which holds that text then.
fn assert_writes(
    rt: &impl Abort,
    alloc: Global,
    ended: &Ended<'_>,
    sink: &mut MemSink,
    ends: Result<(), RenderFault>,
    held: &[u8],
) -> Result<(), Fail> {
    let result = write_report(alloc, ended, sink)?;
    assert!(rt; result == ends);
    assert!(rt; sink.bytes() == held);
    Ok(())
}

// The report of a run with these answers is that text.
fn assert_reports(
    rt: &impl Abort,
    alloc: Global,
    ended: &mut Ended<'_>,
    answers: &[Answer],
    report: &str,
) -> Result<(), Fail> {
    ended.answers.extend_from_slice(answers)?;
    let mut sink = MemSink::new(alloc, 1000, Vec::new(alloc));
    assert_writes(rt, alloc, ended, &mut sink, Ok(()), report.as_bytes())
}
