//! What is seen of a segment value.

use super::seen::{End, Seen, end_for, end_of, look};
use super::taking::ask_for;
use hp_base::Row;
use hp_segs::{LogRecord, NotAll, Segs};
use std::alloc::{AllocError, Global};
use std::test::Fail;

/// Something that is seen of a segment value. An ask is one of participant 0, and is named by its number.
#[derive(Clone, Copy)]
pub enum Look {
    // The first slot, the first pool and the logs.
    Shows(Seen),
    // The participant is armed with its ask, or with none.
    Armed(u8, Option<u64>),
    // The generation of the open growth, and the failure that is noted for it.
    Growing(Option<u64>),
    Failed(Option<End>),
    // Participants 0 and 1 have acknowledged so many records: the lowest one that has not acknowledged that generation.
    Behind(u64, u64, u64, Option<NotAll>),
    // The closed number, and how an ask ended.
    Closed(u64),
    Ended(u64, Option<End>),
    // The outcome that is logged last: of which ask, after how many records, how it ended, and whether the ask stands with it.
    Last(u64, u64, End, bool),
    // The record that is logged last.
    Record(LogRecord),
    // The table that so many records leave has that row alone, or none.
    Table(u64, Option<Row>),
    // The row that contains an address.
    Lies(u64, Option<Row>),
    // The roster, as bits.
    Roster(u16),
}

/// Whether that is seen of a value.
pub fn is_so(segs: &Segs, alloc: Global, what: Look) -> Result<bool, Fail> {
    Ok(match what {
        Look::Shows(seen) => look(segs) == seen,
        Look::Armed(participant, number) => is_armed(segs, participant, number)?,
        Look::Growing(generation) => growing(segs) == generation,
        Look::Failed(end) => failed(segs) == end,
        Look::Behind(first, second, generation, behind) => {
            lowest_behind(segs, first, second, generation) == behind
        }
        Look::Closed(number) => segs.closed(0) == number,
        Look::Ended(number, end) => ended(segs, number) == end,
        Look::Last(number, at, end, stands) => {
            last(segs) == Some((number, at, end)) && last_stands(segs, number)? == stands
        }
        Look::Record(record) => segs.records().last() == Some(&record),
        Look::Table(records, row) => has_table(segs, alloc, records, row)?,
        Look::Lies(addr, row) => segs.virt2row(addr) == row,
        Look::Roster(bits) => segs.roster() == bits,
    })
}

fn is_armed(segs: &Segs, participant: u8, number: Option<u64>) -> Result<bool, Fail> {
    if participant >= 16 {
        return Ok(false);
    }
    let armed = segs.armed(participant);
    match number {
        None => Ok(armed.is_none()),
        Some(number) => Ok(armed == Some(ask_for(number)?)),
    }
}

fn growing(segs: &Segs) -> Option<u64> {
    Some(segs.growth()?.generation)
}

fn failed(segs: &Segs) -> Option<End> {
    match segs.failed() {
        None => None,
        Some(cause) => Some(end_for(&cause)),
    }
}

fn lowest_behind(segs: &Segs, first: u64, second: u64, generation: u64) -> Option<NotAll> {
    let mut acks = [5; 16];
    acks[0] = first;
    acks[1] = second;
    segs.lowest_behind(&acks, generation)
}

fn ended(segs: &Segs, number: u64) -> Option<End> {
    match segs.outcome(0, number) {
        None => None,
        Some(outcome) => Some(end_of(&outcome)),
    }
}

// The outcome that is logged last: of which ask, after how many records, and how it ended.
fn last(segs: &Segs) -> Option<(u64, u64, End)> {
    let entry = segs.asks().last()?;
    Some((entry.number, entry.at, end_of(&entry.outcome)))
}

// Whether the ask of that number stands with it.
fn last_stands(segs: &Segs, number: u64) -> Result<bool, Fail> {
    let ask = ask_for(number)?;
    match segs.asks().last() {
        None => Ok(false),
        Some(entry) => Ok(entry.ask == Some(ask)),
    }
}

// Whether the table that so many records leave has that row alone, or none.
fn has_table(
    segs: &Segs,
    alloc: Global,
    records: u64,
    row: Option<Row>,
) -> Result<bool, AllocError> {
    if records > segs.records().len() as u64 {
        return Ok(false);
    }
    let mut rows = Vec::new(alloc);
    segs.table_at(alloc, records, &mut rows)?;
    let wanted = if row.is_some() { 1 } else { 0 };
    Ok(rows.len() == wanted && rows.first().copied() == row)
}
