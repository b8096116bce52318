//! Rows that come and go, told as one event for each of their greatest stretches.
ghost use Rattle.std.specs.Prelude.{◌≡◌, ◌+◌, ◌*◌, ◌^◌, ◌<◌, ◌≤◌, ◌-◌, [], true, drop, length};
ghost use Rattle.std.specs.List.{All};
ghost use Rattle.hp_base.specs.declared.event.EventKind.TheVariants as kind;
ghost use Rattle.hp_base.specs.Mapping.{IsWithin, is_done};
ghost use Rattle.hp_log.specs.Log.{run_in};
ghost use Rattle.hp_log.specs.Rows.{IsSmallRun};
ghost use Rattle.hp_maps.specs.Events.{all_told, dropped_events, events_of, freed_by, rows_from};
ghost use Rattle.hp_maps.specs.RowsView.{HaveOwnSlots};
ghost use Rattle.hp_maps.specs.TellingInTurn.{mapped_events};
ghost use Rattle.hp_maps.specs.Unmapping.{AreHeld};

use hp_base::{Caught, Event, EventKind, Mapper, Row, Run, Tell};
use hp_log::LogRecord;

/// Adjacent rows that are told together: their event so far, and the last of them.
#[derive(Clone, Copy)]
pub struct Stretch {
    pub event: Event,
    pub last: Row,
}

mod finding;
mod in_turn;

use finding::{found_at, place_in_turn};
pub use in_turn::{tell_found, tell_last};

/// Tells rows that come, or that go. The mapper holds them: what comes is told once it is mapped, and what goes before it is
/// unmapped.
pub fn tell_rows<M: Mapper, T: Tell>(tell: &mut T, mapper: &M, kind: EventKind, rows: &[Row])
    requires held { AreHeld (M.held mapper.now) rows.now }
    requires near { All IsWithin rows.now }
    requires spare { length (events_of kind rows.now) ≤ T.spare tell.old }
    ensures told { T.told tell.new ≡ all_told (events_of kind rows.now) (T.told tell.old) }
    ensures spare { T.spare tell.old ≤ T.spare tell.new + length (events_of kind rows.now) }
{
    let mut stretch = None;
    for row in rows {
        stretch = tell_found(tell, kind, stretch, Some(*row));
    }
    tell_last(tell, kind, stretch);
}

/// Tells the new rows of a catch-up, where all of them are mapped. `before` and `calls` are the mapping calls before it
/// and after it.
pub fn tell_caught<M: Mapper, T: Tell>(
    tell: &mut T,
    mapper: &M,
    caught: &Caught,
    rows: &[Row],
    before: u64,
    calls: u64,
)
    requires held { AreHeld (M.held mapper.now) rows.now }
    requires near { All IsWithin rows.now }
    requires rose { is_done caught.now ≡ true → before ≤ calls }
    requires new { is_done caught.now ≡ true → calls ≤ before + length rows.now }
    requires spare { length (mapped_events (drop (length rows.now - (calls - before)) rows.now) caught.now) ≤ T.spare tell.old }
    ensures told { T.told tell.new
        ≡ all_told (mapped_events (drop (length rows.now - (calls - before)) rows.now) caught.now) (T.told tell.old) }
    ensures spare { T.spare tell.old ≤ T.spare tell.new
        + length (mapped_events (drop (length rows.now - (calls - before)) rows.now) caught.now) }
{
    match caught {
        Caught::Done => {
            let fresh = (calls - before) as usize;
            tell_rows(tell, mapper, EventKind::Alloc, &rows[rows.len() - fresh..]);
        }
        Caught::Refused { .. } | Caught::Elsewhere { .. } => {}
    }
}

/// Tells the rows of the log that records are about to unmap. The mapper still holds them. They are looked for from a place on
/// first.
pub fn tell_dropped<M: Mapper, T: Tell>(
    tell: &mut T,
    mapper: &M,
    rows: &[Row],
    from: usize,
    records: &[LogRecord],
)
    requires held { AreHeld (M.held mapper.now) rows.now }
    requires near { All IsWithin rows.now }
    requires once { HaveOwnSlots rows.now }
    requires small { All (λ entry. IsSmallRun (run_in entry)) records.now }
    requires spare { length (dropped_events rows.now [] records.now) ≤ T.spare tell.old }
    ensures told { T.told tell.new ≡ all_told (dropped_events rows.now [] records.now) (T.told tell.old) }
    ensures spare { T.spare tell.old ≤ T.spare tell.new + length (dropped_events rows.now [] records.now) }
{
    for (at, entry) in records.iter().enumerate() {
        tell_freed(tell, mapper, rows, from, &records[..at], entry);
    }
}

// Tells the rows that a record unmaps, where others came before it, by rising slot.
fn tell_freed<M: Mapper, T: Tell>(
    tell: &mut T,
    mapper: &M,
    rows: &[Row],
    from: usize,
    before: &[LogRecord],
    entry: &LogRecord,
)
    requires held { AreHeld (M.held mapper.now) rows.now }
    requires near { All IsWithin rows.now }
    requires once { HaveOwnSlots rows.now }
    requires small { IsSmallRun (run_in entry.now) }
    requires spare { length (events_of kind.Free (freed_by rows.now before.now entry.now)) ≤ T.spare tell.old }
    ensures told { T.told tell.new
        ≡ all_told (events_of kind.Free (freed_by rows.now before.now entry.now)) (T.told tell.old) }
    ensures spare { T.spare tell.old
        ≤ T.spare tell.new + length (events_of kind.Free (freed_by rows.now before.now entry.now)) }
{
    if let LogRecord::Drop { run } = entry {
        tell_run(tell, mapper, rows, from, before, run);
    }
}

// Tells the rows that stand at the slots of a run. Where they stand next to each other in that order, they are told as they stand.
fn tell_run<M: Mapper, T: Tell>(
    tell: &mut T,
    mapper: &M,
    rows: &[Row],
    from: usize,
    before: &[LogRecord],
    run: &Run,
)
    requires held { AreHeld (M.held mapper.now) rows.now }
    requires near { All IsWithin rows.now }
    requires once { HaveOwnSlots rows.now }
    requires small { IsSmallRun run.now }
    requires spare { length (events_of kind.Free (rows_from rows.now before.now run.now 0 run.now.count)) ≤ T.spare tell.old }
    ensures told { T.told tell.new
        ≡ all_told (events_of kind.Free (rows_from rows.now before.now run.now 0 run.now.count)) (T.told tell.old) }
    ensures spare { T.spare tell.old
        ≤ T.spare tell.new + length (events_of kind.Free (rows_from rows.now before.now run.now 0 run.now.count)) }
{
    match place_in_turn(rows, from, before, run) {
        Some(at) => {
            let end = at + run.count as usize;
            tell_rows(tell, mapper, EventKind::Free, &rows[at..end]);
        }
        None => tell_slots(tell, rows, from, before, run),
    }
}

// Tells the rows that stand at the slots of a run, wherever they are. Each is looked for after the one before it first.
fn tell_slots<T: Tell>(tell: &mut T, rows: &[Row], from: usize, before: &[LogRecord], run: &Run)
    requires near { All IsWithin rows.now }
    requires once { HaveOwnSlots rows.now }
    requires small { IsSmallRun run.now }
    requires spare { length (events_of kind.Free (rows_from rows.now before.now run.now 0 run.now.count)) ≤ T.spare tell.old }
    ensures told { T.told tell.new
        ≡ all_told (events_of kind.Free (rows_from rows.now before.now run.now 0 run.now.count)) (T.told tell.old) }
    ensures spare { T.spare tell.old
        ≤ T.spare tell.new + length (events_of kind.Free (rows_from rows.now before.now run.now 0 run.now.count)) }
{
    let mut stretch = None;
    let mut next = from;
    for n in 0..run.count {
        let found = found_at(rows, next, before, run.list, run.first + n);
        next = found.next;
        stretch = tell_found(tell, EventKind::Free, stretch, found.row);
    }
    tell_last(tell, EventKind::Free, stretch);
}
