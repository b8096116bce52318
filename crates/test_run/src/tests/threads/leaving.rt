//! What a run on threads leaves.

use super::casting::ran;
use hp_base::Gate;
use hp_maps::Table;
use hp_report::Ended;
use hp_script::Answer;
use std::alloc::{AllocError, Global};
use std::sync::Wait;
use std::test::Fail;
use std::thread::Threads;

/// What is left: the answers in the order of their lines, how many records the log has, and how many participants there are, each of which
/// is attached and has so many rows; and how many records each has taken in, where that is looked at.
pub struct Left {
    pub answers: &'static [Answer],
    pub records: usize,
    pub participants: usize,
    pub rows: usize,
    pub taken_in: Option<u64>,
}

// Whether so many records are those that were to be taken in, where that is looked at.
fn is_number(number: u64, taken_in: Option<u64>) -> bool {
    match taken_in {
        Some(records) => number == records,
        None => true,
    }
}

// Whether that is a table of one who is attached, with the rows and the records that are left.
fn is_table(table: &Table, left: &Left) -> bool {
    table.joined && table.rows.len() == left.rows && is_number(table.number, left.taken_in)
}

// Whether that is left.
fn is_left(ended: &Ended<'_>, left: &Left) -> bool {
    ended.answers.as_slice() == left.answers
        && ended.segs.records().len() == left.records
        && ended.tables.len() == left.participants
        && ended.tables.iter().all(|table| is_table(table, left))
}

// Whether the workload of that text leaves that.
fn has_left<G: Gate + Sync, R: Threads + Wait + Sync>(
    rt: &R,
    alloc: Global,
    text: &str,
    gate: &G,
    left: &Left,
) -> Result<bool, AllocError> {
    let ended = ran(rt, alloc, text, gate)?;
    Ok(is_left(&ended, left))
}

/// The workload of that text leaves that, by that gate.
pub fn leaves<G: Gate + Sync, R: Threads + Wait + Sync>(
    rt: &R,
    alloc: Global,
    text: &str,
    gate: &G,
    left: &Left,
) -> Result<(), Fail> {
    if has_left(rt, alloc, text, gate, left)? {
        Ok(())
    } else {
        Err("something else is left".into())
    }
}

/// What has to hold after a run holds.
pub fn holds(is_so: bool) -> Result<(), Fail> {
    if is_so {
        Ok(())
    } else {
        Err("what has to hold".into())
    }
}
