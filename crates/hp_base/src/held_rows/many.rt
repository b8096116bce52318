//! Rows that are added, or taken out, many at once.
ghost use Rattle.std.specs.Prelude.{◌≡◌, ◌<◌, ◌≤◌, ◌++◌, IsTrue, length, take, vec_capacity};
ghost use Rattle.std.specs.List.{All};
ghost use Rattle.hp_base.specs.HeldRows.{AreOnce, AreRuns, IsRun, row_after, rows_in, rows_of};
ghost use Rattle.hp_base.specs.Mapping.{AreAdjacent, IsWithin};
ghost use Rattle.hp_base.specs.MemMapping.{without_all};

use crate::held_rows::taking::cut_empty;
use crate::held_rows::{HeldRun, goes_on, has_rows, is_row, row_at};
use crate::row::Row;

/// Adds the first of these rows to the last run, as many as go on it, and answers how many.
pub fn push_first(runs: &mut Vec<HeldRun>, rows: &[Row]) -> usize
    requires within { All IsWithin rows.now }
    requires runs { AreRuns runs.old.items }
    ensures few { result ≤ length rows.now }
    ensures rows { rows_in runs.new.items ≡ rows_in runs.old.items ++ take result rows.now }
    ensures runs { AreRuns runs.new.items }
    ensures capacity { vec_capacity runs.new ≡ vec_capacity runs.old }
{
    let len = runs.len();
    if len == 0 {
        return 0;
    }
    let mut last = runs[len - 1];
    let count = lengthen(&mut last, rows);
    runs[len - 1] = last;
    count
}

// Makes a run longer by the first of these rows, as many as go on it, and answers how many.
fn lengthen(run: &mut HeldRun, rows: &[Row]) -> usize
    requires within { All IsWithin rows.now }
    requires run { IsRun run.old }
    ensures few { result ≤ length rows.now }
    ensures rows { rows_of run.new ≡ rows_of run.old ++ take result rows.now }
    ensures run { IsRun run.new }
{
    for at in 0..rows.len() {
        if !goes_on(run, &rows[at]) {
            return at;
        }
        run.to += 1;
    }
    rows.len()
}

/// Takes the first of these rows out of the front of the run at a place, as many as it begins with, and answers how many. These are adjacent.
pub fn take_first(runs: &mut Vec<HeldRun>, place: usize, rows: &[Row]) -> usize
    requires once { AreOnce (rows_in runs.old.items) }
    requires runs { AreRuns runs.old.items }
    ensures few { result ≤ length rows.now }
    ensures adjacent { AreAdjacent (take result rows.now) }
    ensures rows { rows_in runs.new.items ≡ without_all (take result rows.now) (rows_in runs.old.items) }
    ensures runs { AreRuns runs.new.items }
    ensures capacity { vec_capacity runs.new ≡ vec_capacity runs.old }
{
    if runs.len() <= place {
        return 0;
    }
    let mut run = runs[place];
    let count = shorten(&mut run, rows);
    runs[place] = run;
    if !has_rows(&run) {
        cut_empty(runs);
    }
    count
}

// Takes the first of these rows out of the front of a run, as many as it begins with, and answers how many.
fn shorten(run: &mut HeldRun, rows: &[Row]) -> usize
    requires { IsRun run.old }
    ensures few { result ≤ length rows.now }
    ensures rows { rows_of run.old ≡ take result rows.now ++ rows_of run.new }
    ensures run { IsRun run.new }
{
    for at in 0..rows.len() {
        if !begins_with(run, &rows[at]) {
            return at;
        }
        run.from += 1;
    }
    rows.len()
}

// Whether a row is the first one of a run.
#[tactic(auto, using(crate::proofs::HeldRowLemmas::same_row))]
fn begins_with(run: &HeldRun, row: &Row) -> bool
    requires { IsRun run.now }
    ensures some { IsTrue result → run.now.from < run.now.to }
    ensures first { IsTrue result → row.now ≡ row_after run.now.first run.now.from }
{
    has_rows(run) && is_row(row, &row_at(run, run.from))
}
