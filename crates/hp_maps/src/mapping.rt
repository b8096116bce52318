//! Rows that a mapper maps and unmaps.
ghost use Rattle.std.specs.Prelude.{◌≡◌, ◌⊎◌, ◌+◌, ◌*◌, ◌^◌, ◌<◌, ◌≤◌, ◌++◌, ◌∷◌, [], length, drop};
ghost use Rattle.hp_base.specs.Mapping.{CanMap, FailsSo, is_refused, own_place, owned, without_rows};
ghost use Rattle.hp_base.specs.Streams.{CountsFault};
ghost use Rattle.hp_maps.specs.Catching.{HasAnswered, HasReason, was_refused};
ghost use Rattle.hp_maps.specs.Unmapping.{CanMapRows, caught_by, held_own, is_own, rows_mapped};

use hp_base::{Caught, MapAnswer, Mapper, Row};

/// Unmaps rows.
pub fn unmap_rows<M: Mapper>(mapper: &mut M, rows: &[Row])
    ensures held { M.held mapper.new ≡ without_rows rows.now (M.held mapper.old) }
    ensures capacity { M.capacity mapper.new ≡ M.capacity mapper.old }
    ensures answers { M.answers mapper.new ≡ M.answers mapper.old }
    ensures faults { M.faults mapper.new ≡ M.faults mapper.old }
    ensures may_fail { M.may_fail mapper.new ≡ M.may_fail mapper.old }
{
    let mut at = 0;
    while at < rows.len() {
        mapper.unmap(&rows[at]);
        at += 1;
        at += mapper.unmap_first(&rows[at..]);
    }
}

/// Maps the rows from `start` on, one after the other. Where one is refused or comes out at another place, all of them
/// are unmapped again. `calls` is how many mapping calls there were.
pub fn map_rows<M: Mapper>(mapper: &mut M, rows: &[Row], start: usize, calls: u64) -> Caught
    requires can { CanMapRows rows.now start (M.held mapper.old) (M.capacity mapper.old) calls }
    requires counted { calls ≡ length (M.answers mapper.old) }
    ensures held { M.held mapper.new ≡ owned (rows_mapped rows.now start result) }
    ensures answered { HasAnswered (drop start rows.now) (M.answers mapper.old) (M.answers mapper.new) result }
    ensures capacity { M.capacity mapper.new ≡ M.capacity mapper.old }
    ensures cause { CountsFault (M.faults mapper.old) (M.faults mapper.new) (was_refused result) }
    ensures may_fail { M.may_fail mapper.new ≡ M.may_fail mapper.old }
    ensures reason { HasReason (M.may_fail mapper.old) result }
{
    let mut at = start;
    while at < rows.len() {
        let got = map_own(mapper, &rows[at]);
        if !is_own(&rows[at], got) {
            unmap_rows(mapper, &rows[start..at]);
            return failed(rows[at], calls + (at - start) as u64 + 1, got);
        }
        at += 1;
        at += mapper.map_first(&rows[at..]);
    }
    Caught::Done
}

// How catching up ends where a row got another answer than its own place.
fn failed(row: Row, call: u64, got: MapAnswer) -> Caught
    ensures { result ≡ caught_by row call got }
{
    match got {
        MapAnswer::Refused => Caught::Refused { row, call },
        MapAnswer::At { .. } => Caught::Elsewhere { row, call, got },
    }
}

// Maps a row. Where it comes out at another place, it is unmapped at once.
fn map_own<M: Mapper>(mapper: &mut M, row: &Row) -> MapAnswer
    requires { CanMap row.now (M.held mapper.old) (M.capacity mapper.old) (length (M.answers mapper.old)) }
    ensures held { M.held mapper.new ≡ held_own row.now result (M.held mapper.old) }
    ensures capacity { M.capacity mapper.new ≡ M.capacity mapper.old }
    ensures answers { M.answers mapper.new ≡ M.answers mapper.old ++ result ∷ [] }
    ensures cause { CountsFault (M.faults mapper.old) (M.faults mapper.new) (is_refused result) }
    ensures may_fail { M.may_fail mapper.new ≡ M.may_fail mapper.old }
    ensures told { (result ≡ own_place row.now)
        ⊎ FailsSo (M.may_fail mapper.old) (length (M.answers mapper.old) + 1) row.now result }
{
    let got = mapper.map(row);
    if !is_own(row, got) {
        mapper.unmap(row);
    }
    got
}

fn is_own(row: &Row, got: MapAnswer) -> bool
    ensures { result ≡ is_own row.now got }
{
    match got {
        MapAnswer::At { addr, page, socket } => {
            addr == row.addr && page == row.page && socket == row.socket
        }
        MapAnswer::Refused => false,
    }
}
