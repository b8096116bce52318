//! Rows in the order of mapping, of which those next to each other are kept as one run.
ghost use Rattle.std.specs.Prelude.{◌≡◌, ◌+◌, ◌^◌, ◌<◌, ◌≤◌, ◌∷◌, ◌++◌, [], IfNone, IfSome, IsTrue, false, length, vec_capacity, vec_len};
ghost use Rattle.std.specs.List.{list_any};
ghost use Rattle.hp_base.specs.HeldRows.{AreRuns, IsNotBetween, IsRun, StandsAt, has_rows, is_in, row_after, rows_in};
ghost use Rattle.hp_base.specs.Mapping.{is_row};

use crate::row::Row;

/// Rows of one list and one generation next to each other: those at the places `from` up to `to`, counted from a row at place 0, where each
/// place is a page and a slot further on than the one before it. A run may be empty.
#[derive(Clone, Copy)]
pub struct HeldRun {
    pub first: Row,
    pub from: u64,
    pub to: u64,
}

mod many;
mod taking;

pub use many::{push_first, take_first};
pub use taking::take_row;

/// Adds a row after all others: to the last run, where it goes on that, and else as a run of its own.
pub fn push_row(runs: &mut Vec<HeldRun>, row: Row)
    requires room { length (rows_in runs.old.items) < vec_capacity runs.old }
    requires within { row.addr + row.page < 2 ^ 64 }
    requires runs { AreRuns runs.old.items }
    ensures rows { rows_in runs.new.items ≡ rows_in runs.old.items ++ row ∷ [] }
    ensures runs { AreRuns runs.new.items }
    ensures capacity { vec_capacity runs.new ≡ vec_capacity runs.old }
{
    if !goes_on_last(runs, row) {
        make_room(runs);
        push_alone(runs, row);
    }
}

// Adds a row as a run of its own.
fn push_alone(runs: &mut Vec<HeldRun>, row: Row)
    requires room { vec_len runs.old < vec_capacity runs.old }
    requires within { row.addr + row.page < 2 ^ 64 }
    requires runs { AreRuns runs.old.items }
    ensures rows { rows_in runs.new.items ≡ rows_in runs.old.items ++ row ∷ [] }
    ensures runs { AreRuns runs.new.items }
    ensures capacity { vec_capacity runs.new ≡ vec_capacity runs.old }
{
    runs.push_reserved(HeldRun {
        first: row,
        from: 0,
        to: 1,
    });
}

// Adds a row to the last run, where it goes on that.
fn goes_on_last(runs: &mut Vec<HeldRun>, row: Row) -> bool
    requires within { row.addr + row.page < 2 ^ 64 }
    requires runs { AreRuns runs.old.items }
    ensures added { IsTrue result → rows_in runs.new.items ≡ rows_in runs.old.items ++ row ∷ [] }
    ensures same { result ≡ false → rows_in runs.new.items ≡ rows_in runs.old.items }
    ensures runs { AreRuns runs.new.items }
    ensures capacity { vec_capacity runs.new ≡ vec_capacity runs.old }
{
    let len = runs.len();
    if len == 0 {
        return false;
    }
    let last = runs[len - 1];
    if !goes_on(&last, &row) {
        return false;
    }
    runs[len - 1].to = last.to + 1;
    true
}

// Whether a row goes on a run.
#[tactic(auto, using(crate::proofs::HeldRowLemmas::same_row))]
fn goes_on(run: &HeldRun, row: &Row) -> bool
    requires { IsRun run.now }
    ensures next { IsTrue result → row.now ≡ row_after run.now.first run.now.to }
    ensures slot { IsTrue result → run.now.first.slot + run.now.to < 2 ^ 32 }
{
    if row.slot < run.first.slot {
        return false;
    }
    u64::from(row.slot - run.first.slot) == run.to && is_row(row, &row_at(run, run.to))
}

// The row at a place of a run, or the one that would go on it.
#[tactic(auto, using(crate::proofs::HeldRunLemmas::near_end))]
fn row_at(run: &HeldRun, place: u64) -> Row
    requires run { IsRun run.now }
    requires within { place ≤ run.now.to }
    requires slot { run.now.first.slot + place < 2 ^ 32 }
    ensures { result ≡ row_after run.now.first place }
{
    Row {
        addr: run.first.addr + place * run.first.page,
        slot: run.first.slot + place as u32,
        ..run.first
    }
}

// Takes the empty runs out, where no place is left.
fn make_room(runs: &mut Vec<HeldRun>)
    requires room { length (rows_in runs.old.items) < vec_capacity runs.old }
    requires runs { AreRuns runs.old.items }
    ensures rows { rows_in runs.new.items ≡ rows_in runs.old.items }
    ensures runs { AreRuns runs.new.items }
    ensures room { vec_len runs.new < vec_capacity runs.new }
    ensures capacity { vec_capacity runs.new ≡ vec_capacity runs.old }
{
    if runs.len() == runs.capacity() {
        close_gaps(runs);
    }
}

#[inline(never)]
fn close_gaps(runs: &mut Vec<HeldRun>)
    requires { AreRuns runs.old.items }
    ensures rows { rows_in runs.new.items ≡ rows_in runs.old.items }
    ensures runs { AreRuns runs.new.items }
    ensures len { vec_len runs.new ≤ length (rows_in runs.old.items) }
    ensures capacity { vec_capacity runs.new ≡ vec_capacity runs.old }
{
    runs.retain(|run: &HeldRun| run.from < run.to);
}

/// Whether a row is there.
#[tactic(auto, using(crate::proofs::HeldRunLemmas::some_there, crate::proofs::HeldRunLemmas::none_there))]
pub fn has_row(runs: &[HeldRun], row: &Row) -> bool
    requires { AreRuns runs.now }
    ensures { result ≡ list_any (is_row row.now) (rows_in runs.now) }
{
    match place_between(runs, 0, runs.len(), row) {
        Some(_) => true,
        None => false,
    }
}

// The run that has a row, if it is one of those from a place on.
fn place_between(runs: &[HeldRun], from: usize, to: usize, row: &Row) -> Option<usize>
    requires within { to ≤ length runs.now }
    requires runs { AreRuns runs.now }
    ensures some { IfSome result (StandsAt row.now runs.now) }
    ensures none { IfNone result (IsNotBetween row.now runs.now from to) }
{
    for at in from..to {
        if is_in(row, &runs[at]) {
            return Some(at);
        }
    }
    None
}

// Whether a row is one of a run's. Its slot says which it would be.
#[tactic(auto, using(crate::proofs::HeldRunLemmas::slot_below, crate::proofs::HeldRunLemmas::place_below, crate::proofs::HeldRunLemmas::place_past, crate::proofs::HeldRunLemmas::place_there))]
fn is_in(row: &Row, run: &HeldRun) -> bool
    requires { IsRun run.now }
    ensures { result ≡ is_in row.now run.now }
{
    if row.slot < run.first.slot {
        return false;
    }
    let place = u64::from(row.slot - run.first.slot);
    if place < run.from {
        return false;
    }
    if run.to <= place {
        return false;
    }
    is_row(row, &row_at(run, place))
}

// Whether a run isn't empty.
fn has_rows(run: &HeldRun) -> bool
    ensures { result ≡ has_rows run.now }
{
    run.from < run.to
}

fn is_row(row: &Row, other: &Row) -> bool
    ensures { result ≡ is_row row.now other.now }
{
    other.addr == row.addr
        && other.page == row.page
        && other.socket == row.socket
        && other.list == row.list
        && other.slot == row.slot
        && other.generation == row.generation
}
