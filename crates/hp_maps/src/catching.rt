//! Records that are taken in over rows and a mapper.
ghost use Rattle.std.specs.Prelude.{◌≡◌, ◌+◌, ◌^◌, ◌<◌, ◌≤◌, length, take, drop};
ghost use Rattle.hp_base.specs.Mapping.{is_done, owned};
ghost use Rattle.hp_base.specs.Streams.{CountsFault};
ghost use Rattle.hp_maps.specs.Catching.{HasAnswered, HasReason, kept, new_rows, number_after, rows_after, was_refused};
ghost use Rattle.hp_maps.specs.Unmapping.{CanMapRows, CanTakeIn, calls_after, rows_mapped};

use crate::last_drops::LastDrops;
use crate::mapping::map_rows;
use crate::new_rows::push_new_rows;
use crate::row_list::{RowList, drop_rows};
use hp_base::{Caught, Mapper};
use hp_log::LogRecord;

/// Takes in the records that stand after the first `n`: unmaps what they drop, and then maps what they bring. `calls`
/// is how many mapping calls there were.
pub fn take_in<M: Mapper>(
    mapper: &mut M,
    rows: &mut RowList,
    index: &mut LastDrops,
    n: u64,
    records: &[LogRecord],
    calls: &mut u64,
) -> Caught
    requires holds { M.held mapper.old ≡ owned rows.old.items }
    requires counted { calls.old ≡ length (M.answers mapper.old) }
    requires can { CanTakeIn rows.old.items n records.now (M.capacity mapper.old)
        rows.old.memory calls.old }
    ensures rows { rows.new.items
        ≡ rows_after (kept records.now rows.old.items) (new_rows n records.now) result }
    ensures answered { HasAnswered (new_rows n records.now) (M.answers mapper.old) (M.answers mapper.new) result }
    ensures holds { M.held mapper.new ≡ owned rows.new.items }
    ensures counted { calls.new ≡ length (M.answers mapper.new) }
    ensures capacity { M.capacity mapper.new ≡ M.capacity mapper.old }
    ensures memory { rows.old.memory ≤ rows.new.memory }
    ensures cause { CountsFault (M.faults mapper.old) (M.faults mapper.new) (was_refused result) }
    ensures may_fail { M.may_fail mapper.new ≡ M.may_fail mapper.old }
    ensures reason { HasReason (M.may_fail mapper.old) result }
{
    drop_rows(mapper, rows, records);
    let start = rows.len();
    push_new_rows(rows, index, n, records);
    map_behind(mapper, rows, start, calls)
}

/// Maps the rows from `start` on, or takes them out.
pub fn map_behind<M: Mapper>(
    mapper: &mut M,
    rows: &mut RowList,
    start: usize,
    calls: &mut u64,
) -> Caught
    requires can { CanMapRows rows.old.items start (M.held mapper.old) (M.capacity mapper.old) calls.old }
    requires counted { calls.old ≡ length (M.answers mapper.old) }
    ensures rows { rows.new.items ≡ rows_mapped rows.old.items start result }
    ensures answered { HasAnswered (drop start rows.old.items) (M.answers mapper.old) (M.answers mapper.new) result }
    ensures holds { M.held mapper.new ≡ owned rows.new.items }
    ensures counted { calls.new ≡ length (M.answers mapper.new) }
    ensures capacity { M.capacity mapper.new ≡ M.capacity mapper.old }
    ensures memory { rows.new.memory ≡ rows.old.memory }
    ensures cause { CountsFault (M.faults mapper.old) (M.faults mapper.new) (was_refused result) }
    ensures may_fail { M.may_fail mapper.new ≡ M.may_fail mapper.old }
    ensures reason { HasReason (M.may_fail mapper.old) result }
{
    let caught = map_rows(mapper, rows.as_slice(), start, *calls);
    *calls = calls_after(&caught, *calls, (rows.len() - start) as u64);
    keep_mapped(rows, start, &caught);
    caught
}

fn calls_after(caught: &Caught, calls: u64, more: u64) -> u64
    requires { calls + more < 2 ^ 64 }
    ensures { result ≡ calls_after calls more caught.now }
{
    match caught {
        Caught::Done => calls + more,
        Caught::Refused { call, .. } => *call,
        Caught::Elsewhere { call, .. } => *call,
    }
}

fn keep_mapped(rows: &mut RowList, start: usize, caught: &Caught)
    requires { start ≤ length rows.old.items }
    ensures items { rows.new.items ≡ rows_mapped rows.old.items start caught.now }
    ensures capacity { rows.new.memory ≡ rows.old.memory }
{
    match caught {
        Caught::Done => {}
        Caught::Refused { .. } | Caught::Elsewhere { .. } => rows.truncate(start),
    }
}

/// The number of records that are taken in at the end.
pub fn number_after(n: u64, to: u64, caught: &Caught) -> u64
    ensures { result ≡ number_after n to caught.now }
{
    match caught {
        Caught::Done => to,
        Caught::Refused { .. } | Caught::Elsewhere { .. } => n,
    }
}
