//! Finding the row that stands at a slot.
ghost use Rattle.std.specs.Prelude.{◌≡◌, ◌<◌, ◌≤◌, IfNone, IfSome, IsTrue, find, length};
ghost use Rattle.hp_maps.specs.Events.{stands_at};
ghost use Rattle.hp_log.specs.Rows.{IsSmallRun};
ghost use Rattle.hp_maps.specs.RowsView.{HaveOwnSlots, IsNoneBetween, IsOneAt};
ghost use Rattle.hp_maps.specs.TellingInTurn.{StandInTurn};

use crate::rows::{is_dropped, is_of_log};
use hp_base::{Row, Run};
use hp_log::LogRecord;

/// The row that stands at a slot, if there is one, and from where on the one at the next slot is looked for first.
#[derive(Clone, Copy)]
pub struct Found {
    pub row: Option<Row>,
    pub next: usize,
}

/// The row of the log that stands at a slot once some records are taken in. It is looked for from a place on first, and then
/// everywhere.
pub fn found_at(rows: &[Row], from: usize, before: &[LogRecord], list: u32, slot: u32) -> Found
    requires { HaveOwnSlots rows.now }
    ensures { result.row ≡ find (stands_at before.now list slot) rows.now }
{
    match place_of(rows, from, before, list, slot) {
        Some(at) => Found {
            row: Some(rows[at]),
            next: at + 1,
        },
        None => Found {
            row: None,
            next: from,
        },
    }
}

/// From where on rows of the log stand at all slots of a run once some records are taken in, next to each other and by rising slot. The
/// first one is looked for from a place on first, and then everywhere.
pub fn place_in_turn(rows: &[Row], from: usize, before: &[LogRecord], run: &Run) -> Option<usize>
    requires small { IsSmallRun run.now }
    ensures { IfSome result (StandInTurn before.now run.now rows.now) }
{
    let at = place_of(rows, from, before, run.list, run.first)?;
    if stand_in_turn(rows, at, before, run) {
        Some(at)
    } else {
        None
    }
}

fn stand_in_turn(rows: &[Row], at: usize, before: &[LogRecord], run: &Run) -> bool
    requires within { at < length rows.now }
    requires small { IsSmallRun run.now }
    ensures { IsTrue result → StandInTurn before.now run.now rows.now at }
{
    if rows.len() - at < run.count as usize {
        return false;
    }
    for n in 0..run.count {
        if !stands_at(before, run.list, run.first + n, &rows[at + n as usize]) {
            return false;
        }
    }
    true
}

fn place_of(rows: &[Row], from: usize, before: &[LogRecord], list: u32, slot: u32) -> Option<usize>
    ensures some { IfSome result (IsOneAt (stands_at before.now list slot) rows.now) }
    ensures none { IfNone result (IsNoneBetween (stands_at before.now list slot) rows.now 0 (length rows.now)) }
{
    match place_behind(rows, from, before, list, slot) {
        Some(at) => Some(at),
        None => place_behind(rows, 0, before, list, slot),
    }
}

fn place_behind(
    rows: &[Row],
    from: usize,
    before: &[LogRecord],
    list: u32,
    slot: u32,
) -> Option<usize>
    ensures some { IfSome result (IsOneAt (stands_at before.now list slot) rows.now) }
    ensures none { IfNone result (IsNoneBetween (stands_at before.now list slot) rows.now from (length rows.now)) }
{
    for at in from..rows.len() {
        if stands_at(before, list, slot, &rows[at]) {
            return Some(at);
        }
    }
    None
}

fn stands_at(before: &[LogRecord], list: u32, slot: u32, row: &Row) -> bool
    ensures { result ≡ stands_at before.now list slot row.now }
{
    row.list == list && row.slot == slot && (is_of_log(row) && !is_dropped(before, row))
}
