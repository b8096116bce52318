//! Taking a row out of the runs.
ghost use Rattle.std.specs.Prelude.{◌≡◌, ◌+◌, ◌^◌, ◌<◌, ◌≤◌, ◌++◌, IfNone, IfSome, count_by, drop, filter, get_or, length, not, take, true, vec_capacity, vec_len};
ghost use Rattle.hp_base.specs.HeldRows.{AreRuns, IsNotBetween, StandsAt, StandsIn, is_in, rows_before, rows_behind, rows_in};
ghost use Rattle.hp_base.specs.declared.held_rows.HeldRun.{HeldRun};
ghost use Rattle.hp_base.specs.Mapping.{is_row};

use crate::held_rows::{HeldRun, has_rows, make_room, place_between};
use crate::row::Row;

/// Takes a row out, and answers where its run stood. It is looked for where the last one was, then where its generation has its place, and
/// then everywhere.
pub fn take_row(runs: &mut Vec<HeldRun>, last: usize, row: &Row) -> usize
    requires room { length (rows_in runs.old.items) < vec_capacity runs.old }
    requires once { count_by (is_row row.now) (rows_in runs.old.items) ≤ 1 }
    requires runs { AreRuns runs.old.items }
    ensures rows { rows_in runs.new.items ≡ filter (λ other. not (is_row row.now other)) (rows_in runs.old.items) }
    ensures runs { AreRuns runs.new.items }
    ensures capacity { vec_capacity runs.new ≡ vec_capacity runs.old }
{
    make_room(runs);
    match place_of(runs.as_slice(), last, row) {
        Some(at) => {
            take_out(runs, at, row);
            at
        }
        None => last,
    }
}

// Takes a row out of the run that has it.
fn take_out(runs: &mut Vec<HeldRun>, at: usize, row: &Row)
    requires there { StandsAt row.now runs.old.items at }
    requires room { vec_len runs.old < vec_capacity runs.old }
    requires once { count_by (is_row row.now) (rows_in runs.old.items) ≤ 1 }
    requires runs { AreRuns runs.old.items }
    ensures rows { rows_in runs.new.items ≡ filter (λ other. not (is_row row.now other)) (rows_in runs.old.items) }
    ensures runs { AreRuns runs.new.items }
    ensures capacity { vec_capacity runs.new ≡ vec_capacity runs.old }
{
    let place = place_in(&runs[at], row);
    if place == runs[at].from {
        cut_first(runs, at, place);
    } else {
        part(runs, at, place);
    }
}

// The place of a row in a run that has it.
#[tactic(auto, using(crate::proofs::HeldRunLemmas::its_place))]
fn place_in(run: &HeldRun, row: &Row) -> u64
    requires { is_in row.now run.now ≡ true }
    ensures place { StandsIn row.now run.now result }
    ensures small { result < 2 ^ 32 }
{
    u64::from(row.slot - run.first.slot)
}

// Takes the first row of a run out, which stands at a place. No empty runs are left after all rows.
fn cut_first(runs: &mut Vec<HeldRun>, at: usize, place: u64)
    requires within { at < length runs.old.items }
    requires small { place < 2 ^ 32 }
    requires place { (d : HeldRun) → place < (get_or runs.old.items at d).to }
    requires runs { AreRuns runs.old.items }
    ensures rows { (d : HeldRun) → rows_in runs.new.items
        ≡ rows_in (take at runs.old.items) ++ (rows_behind (get_or runs.old.items at d) place ++ rows_in (drop (at + 1) runs.old.items)) }
    ensures runs { AreRuns runs.new.items }
    ensures capacity { vec_capacity runs.new ≡ vec_capacity runs.old }
{
    runs[at].from = place + 1;
    if !has_rows(&runs[at]) {
        cut_empty(runs);
    }
}

// Takes the empty runs after all rows out.
#[inline(never)]
pub fn cut_empty(runs: &mut Vec<HeldRun>)
    requires { AreRuns runs.old.items }
    ensures rows { rows_in runs.new.items ≡ rows_in runs.old.items }
    ensures runs { AreRuns runs.new.items }
    ensures capacity { vec_capacity runs.new ≡ vec_capacity runs.old }
{
    let end = end_of(runs.as_slice());
    runs.truncate(end);
}

// Where the last run ends that isn't empty.
fn end_of(runs: &[HeldRun]) -> usize
    ensures within { result ≤ length runs.now }
    ensures rows { rows_in (take result runs.now) ≡ rows_in runs.now }
{
    for gaps in 0..runs.len() {
        let end = runs.len() - gaps;
        if has_rows(&runs[end - 1]) {
            return end;
        }
    }
    0
}

// Takes a row out of a run that has others before it: those after it are a run of their own, if there are any.
#[inline(never)]
fn part(runs: &mut Vec<HeldRun>, at: usize, place: u64)
    requires within { at < length runs.old.items }
    requires from { (d : HeldRun) → (get_or runs.old.items at d).from ≤ place }
    requires room { vec_len runs.old < vec_capacity runs.old }
    requires small { place < 2 ^ 32 }
    requires place { (d : HeldRun) → place < (get_or runs.old.items at d).to }
    requires runs { AreRuns runs.old.items }
    ensures rows { (d : HeldRun) → rows_in runs.new.items ≡ rows_in (take at runs.old.items)
        ++ (rows_before (get_or runs.old.items at d) place ++ (rows_behind (get_or runs.old.items at d) place ++ rows_in (drop (at + 1) runs.old.items))) }
    ensures runs { AreRuns runs.new.items }
    ensures capacity { vec_capacity runs.new ≡ vec_capacity runs.old }
{
    let back = HeldRun {
        from: place + 1,
        ..runs[at]
    };
    runs[at].to = place;
    if has_rows(&back) {
        let _ = runs.insert(at + 1, back);
    }
}

// The run that has a row.
fn place_of(runs: &[HeldRun], last: usize, row: &Row) -> Option<usize>
    requires { AreRuns runs.now }
    ensures some { IfSome result (StandsAt row.now runs.now) }
    ensures none { IfNone result (IsNotBetween row.now runs.now 0 (length runs.now)) }
{
    match place_beside(runs, last, row) {
        Some(at) => Some(at),
        None => place_found(runs, row),
    }
}

// The place of a row that is next to another place or at it, or none: rows mostly go in the order in which they came, or the
// other way round.
fn place_beside(runs: &[HeldRun], last: usize, row: &Row) -> Option<usize>
    requires { AreRuns runs.now }
    ensures { IfSome result (StandsAt row.now runs.now) }
{
    match place_near(runs, last, 2, row) {
        Some(at) => Some(at),
        None => place_near(runs, last.saturating_sub(1), 1, row),
    }
}

// The place of a row among so many runs from one on, or none.
fn place_near(runs: &[HeldRun], from: usize, count: usize, row: &Row) -> Option<usize>
    requires { AreRuns runs.now }
    ensures { IfSome result (StandsAt row.now runs.now) }
{
    place_between(runs, from, from.saturating_add(count).min(runs.len()), row)
}

// The run that has a row. It is looked for where its generation has its place first: generations rise, but for the rows of chunks.
#[inline(never)]
fn place_found(runs: &[HeldRun], row: &Row) -> Option<usize>
    requires { AreRuns runs.now }
    ensures some { IfSome result (StandsAt row.now runs.now) }
    ensures none { IfNone result (IsNotBetween row.now runs.now 0 (length runs.now)) }
{
    let from = runs.partition_point(|run: &HeldRun| run.first.generation < row.generation);
    match place_between(runs, from, runs.len(), row) {
        Some(at) => Some(at),
        None => place_between(runs, 0, runs.len(), row),
    }
}
