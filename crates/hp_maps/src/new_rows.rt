//! The rows that records bring.
ghost use Rattle.std.specs.Prelude.{◌≡◌, ◌+◌, ◌*◌, ◌^◌, ◌<◌, ◌≤◌, ◌++◌, ◌∷◌, [], false, length, drop, count_by};
ghost use Rattle.std.specs.List.{All};
ghost use Rattle.std.specs.Option.{is_some};
ghost use Rattle.hp_log.specs.Log.{run_in};
ghost use Rattle.hp_log.specs.Rows.{rows_of, IsSmallRun};
ghost use Rattle.hp_maps.specs.Catching.{is_dropped, new_rows, undropped};
ghost use Rattle.hp_maps.specs.LastDrops.{AreLast};
ghost use Rattle.hp_maps.specs.Unmapping.{has_drop, is_drop};

use crate::last_drops::LastDrops;
use crate::row_list::RowList;
use crate::rows::{drops, is_drop};
use hp_base::{Row, Run};
use hp_log::{LogRecord, row_of};

// Up to how many Drops are gone over for each row.
const FEW: usize = 64;

/// Adds what the records after the first `n` bring, where there is room for it.
pub fn push_new_rows(rows: &mut RowList, index: &mut LastDrops, n: u64, records: &[LogRecord])
    requires small { All (λ entry. IsSmallRun (run_in entry)) records.now }
    requires few { n + length records.now < 2 ^ 64 }
    requires room { length rows.old.items + length (new_rows n records.now) ≤ rows.old.memory }
    ensures items { rows.new.items ≡ rows.old.items ++ new_rows n records.now }
    ensures capacity { rows.old.memory ≤ rows.new.memory }
{
    let mut drops = count_drops(records);
    let indexed = drops > FEW && index.note(records);
    let mut from = 0;
    for (at, entry) in records.iter().enumerate() {
        match entry {
            LogRecord::Add { run, .. } if indexed && drops > 0 => {
                push_indexed(rows, n + at as u64 + 1, run, index, records, at + 1);
            }
            LogRecord::Add { run, .. } => {
                from = push_of(
                    rows,
                    n + at as u64 + 1,
                    run,
                    &records[at + 1..],
                    drops,
                    from,
                );
            }
            LogRecord::Drop { .. } => drops -= 1,
        }
    }
}

// How many of the records are a Drop.
fn count_drops(records: &[LogRecord]) -> usize
    ensures { result ≡ count_by is_drop records.now }
{
    let mut count = 0;
    for entry in records {
        if is_drop(entry) {
            count += 1;
        }
    }
    count
}

// Adds the rows of a run that none of the records drops. Where none of them is a Drop, they aren't gone over.
#[tactic(auto, using(crate::proofs::CatchLemmas::all_undropped))]
fn push_of(
    rows: &mut RowList,
    generation: u64,
    run: &Run,
    later: &[LogRecord],
    drops: usize,
    from: usize,
) -> usize
    requires small { IsSmallRun run.now }
    requires drops { drops ≡ 0 → has_drop later.now ≡ false }
    requires room { length rows.old.items + length (undropped later.now (rows_of run.now generation))
        ≤ rows.old.memory }
    ensures items { rows.new.items ≡ rows.old.items ++ undropped later.now (rows_of run.now generation) }
    ensures capacity { rows.old.memory ≤ rows.new.memory }
{
    if drops == 0 {
        push_all(rows, generation, run);
        from
    } else {
        push_undropped(rows, generation, run, later, from)
    }
}

// Adds all rows of a run, where there is room for them.
fn push_all(rows: &mut RowList, generation: u64, run: &Run)
    requires small { IsSmallRun run.now }
    requires room { length rows.old.items + length (undropped [] (rows_of run.now generation)) ≤ rows.old.memory }
    ensures items { rows.new.items ≡ rows.old.items ++ undropped [] (rows_of run.now generation) }
    ensures capacity { rows.old.memory ≤ rows.new.memory }
{
    rows.push_run(generation, run);
}

// Adds the rows of a run that no record from a place on drops, by the index of these records.
fn push_indexed(
    rows: &mut RowList,
    generation: u64,
    run: &Run,
    index: &LastDrops,
    records: &[LogRecord],
    at: usize,
)
    requires small { IsSmallRun run.now }
    requires last { AreLast index.now records.now }
    requires room { length rows.old.items + length (undropped (drop at records.now) (rows_of run.now generation))
        ≤ rows.old.memory }
    ensures items { rows.new.items ≡ rows.old.items ++ undropped (drop at records.now) (rows_of run.now generation) }
    ensures capacity { rows.old.memory ≤ rows.new.memory }
{
    for n in 0..run.count {
        push_by_index(rows, row_of(run, generation, n), index, records, at);
    }
}

// Adds a row, where no record from a place on drops it.
fn push_by_index(rows: &mut RowList, row: Row, index: &LastDrops, records: &[LogRecord], at: usize)
    requires last { AreLast index.now records.now }
    requires room { length rows.old.items + length (undropped (drop at records.now) (row ∷ [])) ≤ rows.old.memory }
    ensures items { rows.new.items ≡ rows.old.items ++ undropped (drop at records.now) (row ∷ []) }
    ensures capacity { rows.old.memory ≤ rows.new.memory }
{
    if !index.drops_from(records, at, &row) {
        rows.push(row);
    }
}

/// Adds the rows of a run that none of the records drops, where there is room for them. The Drop of each is looked for from a
/// place on first, and then everywhere. Where the next one is to be looked for first.
pub fn push_undropped(
    rows: &mut RowList,
    generation: u64,
    run: &Run,
    later: &[LogRecord],
    from: usize,
) -> usize
    requires small { IsSmallRun run.now }
    requires room { length rows.old.items + length (undropped later.now (rows_of run.now generation))
        ≤ rows.old.memory }
    ensures items { rows.new.items ≡ rows.old.items ++ undropped later.now (rows_of run.now generation) }
    ensures capacity { rows.old.memory ≤ rows.new.memory }
{
    let mut from = from;
    for n in 0..run.count {
        from = push_if_undropped(rows, row_of(run, generation, n), later, from);
    }
    from
}

// Adds a row, where none of the records drops it. Where the Drop of the next row is to be looked for first: pages mostly go in
// the order in which they came, or the other way round.
fn push_if_undropped(rows: &mut RowList, row: Row, later: &[LogRecord], from: usize) -> usize
    requires room { length rows.old.items + length (undropped later.now (row ∷ [])) ≤ rows.old.memory }
    ensures items { rows.new.items ≡ rows.old.items ++ undropped later.now (row ∷ []) }
    ensures capacity { rows.old.memory ≤ rows.new.memory }
{
    match place_of_drop(later, from, &row) {
        Some(at) => at.saturating_sub(2),
        None => {
            rows.push(row);
            from
        }
    }
}

// The place of a record that drops a row, if there is one.
fn place_of_drop(records: &[LogRecord], from: usize, row: &Row) -> Option<usize>
    ensures { is_some result ≡ is_dropped records.now row.now }
{
    match place_behind(records, from, row) {
        Some(at) => Some(at),
        None => place_behind(&records[..from.min(records.len())], 0, row),
    }
}

fn place_behind(records: &[LogRecord], from: usize, row: &Row) -> Option<usize>
    ensures { is_some result ≡ is_dropped (drop from records.now) row.now }
{
    for at in from..records.len() {
        if drops(row, &records[at]) {
            return Some(at);
        }
    }
    None
}
