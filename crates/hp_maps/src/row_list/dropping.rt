//! Rows that go with the Drops of the log.
ghost use Rattle.std.specs.Prelude.{◌≡◌, ◌<◌, ◌≤◌, ◌∷◌, [], IfSome, length, not, filter, take, true};
ghost use Rattle.std.specs.List.{All};
ghost use Rattle.hp_base.specs.Mapping.{owned, without_rows};
ghost use Rattle.hp_maps.specs.Catching.{kept};
ghost use Rattle.hp_maps.specs.RowsView.{HaveOwnSlots, LacksGoing, MayGoAtOnce, goes_with};

use crate::row_list::{RowList, cut_out};
use crate::rows::is_of_log;
use hp_base::{Mapper, Row, Run};
use hp_log::{LogRecord, contains};

// At how many places the rows of a run are looked for where the last ones went.
const NEAR: usize = 3;

/// Unmaps those of the rows that records drop, and takes them out.
pub fn drop_rows<M: Mapper>(mapper: &mut M, rows: &mut RowList, records: &[LogRecord])
    requires held { M.held mapper.old ≡ owned rows.old.items }
    requires once { HaveOwnSlots rows.old.items }
    ensures rows { rows.new.items ≡ kept records.now rows.old.items }
    ensures memory { rows.new.memory ≡ rows.old.memory }
    ensures held { M.held mapper.new ≡ owned rows.new.items }
    ensures capacity { M.capacity mapper.new ≡ M.capacity mapper.old }
    ensures answers { M.answers mapper.new ≡ M.answers mapper.old }
    ensures faults { M.faults mapper.new ≡ M.faults mapper.old }
    ensures may_fail { M.may_fail mapper.new ≡ M.may_fail mapper.old }
{
    for entry in records {
        match entry {
            LogRecord::Add { .. } => {}
            LogRecord::Drop { run } => drop_run(mapper, rows, run),
        }
    }
}

// Unmaps the rows that go with a run. Where they stand next to each other, no other row is looked at after them.
fn drop_run<M: Mapper>(mapper: &mut M, rows: &mut RowList, run: &Run)
    requires held { M.held mapper.old ≡ owned rows.old.items }
    requires once { HaveOwnSlots rows.old.items }
    ensures rows { rows.new.items ≡ filter (λ row. not (goes_with run.now row)) rows.old.items }
    ensures memory { rows.new.memory ≡ rows.old.memory }
    ensures held { M.held mapper.new ≡ owned rows.new.items }
    ensures capacity { M.capacity mapper.new ≡ M.capacity mapper.old }
    ensures answers { M.answers mapper.new ≡ M.answers mapper.old }
    ensures faults { M.faults mapper.new ≡ M.faults mapper.old }
    ensures may_fail { M.may_fail mapper.new ≡ M.may_fail mapper.old }
{
    match first_place(rows.as_slice(), rows.next(), run) {
        Some(at) => drop_from(mapper, rows, at, run),
        None => rows.drop_each(mapper, run),
    }
}

// Unmaps the rows that go with a run, the first of which may stand at a place.
fn drop_from<M: Mapper>(mapper: &mut M, rows: &mut RowList, at: usize, run: &Run)
    requires at { at < length rows.old.items }
    requires held { M.held mapper.old ≡ owned rows.old.items }
    requires once { HaveOwnSlots rows.old.items }
    ensures rows { rows.new.items ≡ filter (λ row. not (goes_with run.now row)) rows.old.items }
    ensures memory { rows.new.memory ≡ rows.old.memory }
    ensures held { M.held mapper.new ≡ owned rows.new.items }
    ensures capacity { M.capacity mapper.new ≡ M.capacity mapper.old }
    ensures answers { M.answers mapper.new ≡ M.answers mapper.old }
    ensures faults { M.faults mapper.new ≡ M.faults mapper.old }
    ensures may_fail { M.may_fail mapper.new ≡ M.may_fail mapper.old }
{
    let gone = unmap_together(mapper, &rows.as_slice()[at..], run);
    if gone == run.count as usize {
        rows.cut(at, at + gone);
    } else {
        rows.drop_each(mapper, run);
    }
}

// Unmaps the first of these rows, as far as they go with a run, and answers how many.
fn unmap_together<M: Mapper>(mapper: &mut M, rows: &[Row], run: &Run) -> usize
    ensures within { result ≤ length rows.now }
    ensures go { All (λ row. goes_with run.now row ≡ true) (take result rows.now) }
    ensures held { M.held mapper.new ≡ without_rows (take result rows.now) (M.held mapper.old) }
    ensures capacity { M.capacity mapper.new ≡ M.capacity mapper.old }
    ensures answers { M.answers mapper.new ≡ M.answers mapper.old }
    ensures faults { M.faults mapper.new ≡ M.faults mapper.old }
    ensures may_fail { M.may_fail mapper.new ≡ M.may_fail mapper.old }
{
    let most = rows.len().min(run.count as usize);
    let mut gone = 0;
    while gone < most {
        if !goes_with(run, &rows[gone]) {
            return gone;
        }
        mapper.unmap(&rows[gone]);
        gone += 1;
        gone += unmap_at_once(mapper, &rows[gone..most], run);
    }
    gone
}

// Unmaps the first of these rows at once, where they go with a run, and answers how many.
fn unmap_at_once<M: Mapper>(mapper: &mut M, rows: &[Row], run: &Run) -> usize
    ensures within { result ≤ length rows.now }
    ensures go { All (λ row. goes_with run.now row ≡ true) (take result rows.now) }
    ensures held { M.held mapper.new ≡ without_rows (take result rows.now) (M.held mapper.old) }
    ensures capacity { M.capacity mapper.new ≡ M.capacity mapper.old }
    ensures answers { M.answers mapper.new ≡ M.answers mapper.old }
    ensures faults { M.faults mapper.new ≡ M.faults mapper.old }
    ensures may_fail { M.may_fail mapper.new ≡ M.may_fail mapper.old }
{
    let most = rows.len().min(most_at_once(rows, run));
    mapper.unmap_first(&rows[..most])
}

// How many adjacent rows may go with a run, of which the first is the first of these: none, where that one does not go with it.
fn most_at_once(rows: &[Row], run: &Run) -> usize
    ensures { MayGoAtOnce run.now rows.now result }
{
    let len = rows.len();
    if len == 0 {
        return 0;
    }
    let row = &rows[0];
    if goes_with(run, row) {
        (run.count - (row.slot - run.first)) as usize
    } else {
        0
    }
}

// Where a row stands at the first slot of a run, if one does. It is looked for where it most likely is, and then everywhere.
fn first_place(rows: &[Row], from: usize, run: &Run) -> Option<usize>
    ensures { IfSome result (λ at. at < length rows.now) }
{
    let likely = likely_place(rows, from, run);
    match place_between(rows, likely, rows.len(), run) {
        Some(at) => Some(at),
        None => place_between(rows, 0, likely, run),
    }
}

// Where a row most likely stands at the first slot of a run, if one does: where the last ones went, or else where slots rise to it, as they
// do while pages come and none have gone. Nothing rests on it.
fn likely_place(rows: &[Row], from: usize, run: &Run) -> usize {
    match place_between(rows, from, from.saturating_add(NEAR), run) {
        Some(at) => at,
        None => rows.partition_point(|row: &Row| row.slot < run.first),
    }
}

// Where a row stands at the first slot of a run.
fn place_between(rows: &[Row], from: usize, to: usize, run: &Run) -> Option<usize>
    ensures { IfSome result (λ at. at < length rows.now) }
{
    for at in from..to.min(rows.len()) {
        let row = &rows[at];
        if row.slot == run.first && row.list == run.list && is_of_log(row) {
            return Some(at);
        }
    }
    None
}

/// Whether a Drop of a run takes a row.
pub fn goes_with(run: &Run, row: &Row) -> bool
    ensures { result ≡ goes_with run.now row.now }
{
    contains(run, row) && is_of_log(row)
}

impl RowList {
    // Unmaps the rows that go with a run, wherever they stand, and takes them out. All rows are gone over once. Some of those that go may be
    // unmapped already.
    fn drop_each<M: Mapper>(&mut self, mapper: &mut M, run: &Run)
        requires { LacksGoing run.now self.old.items (M.held mapper.old) }
        ensures rows { self.new.items ≡ filter (λ row. not (goes_with run.now row)) self.old.items }
        ensures memory { self.new.memory ≡ self.old.memory }
        ensures held { M.held mapper.new ≡ owned self.new.items }
        ensures capacity { M.capacity mapper.new ≡ M.capacity mapper.old }
        ensures answers { M.answers mapper.new ≡ M.answers mapper.old }
        ensures faults { M.faults mapper.new ≡ M.faults mapper.old }
        ensures may_fail { M.may_fail mapper.new ≡ M.may_fail mapper.old }
    {
        cut_out(&mut self.rows, 0, self.gap);
        self.gap = 0;
        let stay = unmap_going(mapper, self.rows.as_mut_slice(), run);
        self.rows.truncate(stay);
    }
}

// Unmaps the rows that go with a run, of which some may be unmapped already, and moves the others to the front. How many these are.
fn unmap_going<M: Mapper>(mapper: &mut M, rows: &mut [Row], run: &Run) -> usize
    requires { LacksGoing run.now rows.old (M.held mapper.old) }
    ensures rows { take result rows.new ≡ filter (λ row. not (goes_with run.now row)) rows.old }
    ensures held { M.held mapper.new ≡ owned (filter (λ row. not (goes_with run.now row)) rows.old) }
    ensures capacity { M.capacity mapper.new ≡ M.capacity mapper.old }
    ensures answers { M.answers mapper.new ≡ M.answers mapper.old }
    ensures faults { M.faults mapper.new ≡ M.faults mapper.old }
    ensures may_fail { M.may_fail mapper.new ≡ M.may_fail mapper.old }
{
    let mut stay = 0;
    for at in 0..rows.len() {
        let row = rows[at];
        if goes_with(run, &row) {
            mapper.unmap(&row);
        } else {
            rows[stay] = row;
            stay += 1;
        }
    }
    stay
}
