ghost use Rattle.std.specs.Prelude.{◌≡◌, ◌⊎◌, ◌+◌, ◌≤◌, ◌∷◌, ◌++◌, [], ℕ, List, Option, Some, filter, length, map, not, take, vec_capacity, vec_len};
ghost use Rattle.std.specs.List.{list_any};
ghost use Rattle.hp_base.specs.Mapping.{AreAdjacent, CanMap, CanMapAll, FailingCall, FailsSo, Held, held_after, is_refused, is_row, own_place, owned, without_row, without_rows};
ghost use Rattle.hp_base.specs.Streams.{CountsFault};
ghost use Rattle.hp_base.specs.declared.map_answer.MapAnswer.{MapAnswer};

use crate::answers::Answers;
use crate::failing_calls::FailingCalls;
use crate::held_rows::{HeldRun, has_row, push_first, push_row, take_first, take_row};
use crate::map_answer::MapAnswer;
use crate::row::Row;
use std::alloc::{AllocError, Global};
use std::marker::Model;

/// What maps the pages of a process, row by row, or rows next to each other at once. Own; it stands for mmap and munmap, as EAL calls them.
pub trait Mapper: Drop {
    /// The rows that it holds, in the order of mapping, each with the answer that it was mapped by.
    ghost held: { Self → List Held };

    /// How many rows it may hold.
    ghost capacity: { Self → ℕ };

    /// All answers that it gave, in their order. The number of its mapping calls is their number.
    ghost answers: { Self → List MapAnswer };

    /// How often mapping has failed.
    ghost faults: { Self → ℕ };

    /// The mapping calls, counted from 1, at which it may fail, and how, where that is told: it refuses the row, or maps
    /// it one page above its address. Where it is not told it may fail at any call, and map the row at any place. Mapping
    /// and unmapping never change this.
    ghost may_fail: { Self → Option (List FailingCall) };

    /// Maps a row, at its own place or another, or refuses it.
    fn map(&mut self, row: &Row) -> MapAnswer
        requires { CanMap row.now (held self.old) (capacity self.old) (length (answers self.old)) }
        ensures held { held self.new ≡ held_after row.now result (held self.old) }
        ensures capacity { capacity self.new ≡ capacity self.old }
        ensures answers { answers self.new ≡ answers self.old ++ result ∷ [] }
        ensures cause { CountsFault (faults self.old) (faults self.new) (is_refused result) }
        ensures may_fail { may_fail self.new ≡ may_fail self.old }

        // The row comes out at its own place, or the answer is one with which that call may fail.
        ensures told { (result ≡ own_place row.now)
            ⊎ FailsSo (may_fail self.old) (length (answers self.old) + 1) row.now result };

    /// Unmaps a row, if it is held.
    fn unmap(&mut self, row: &Row)
        ensures held { held self.new ≡ without_row row.now (held self.old) }
        ensures capacity { capacity self.new ≡ capacity self.old }
        ensures answers { answers self.new ≡ answers self.old }
        ensures faults { faults self.new ≡ faults self.old }
        ensures may_fail { may_fail self.new ≡ may_fail self.old };

    /// Maps as many of these rows as it can at once, each at its own place, and answers how many: the first ones, each by a call of its own.
    /// For the others it was not asked.
    fn map_first(&mut self, rows: &[Row]) -> usize
        requires { CanMapAll rows.now (held self.old) (capacity self.old) (length (answers self.old)) }
        ensures within { result ≤ length rows.now }
        ensures held { held self.new ≡ held self.old ++ owned (take result rows.now) }
        ensures capacity { capacity self.new ≡ capacity self.old }
        ensures answers { answers self.new ≡ answers self.old ++ map own_place (take result rows.now) }
        ensures faults { faults self.new ≡ faults self.old }
        ensures may_fail { may_fail self.new ≡ may_fail self.old };

    /// Unmaps as many of these rows as it can at once, and answers how many: the first ones, which are adjacent.
    fn unmap_first(&mut self, rows: &[Row]) -> usize
        ensures within { result ≤ length rows.now }
        ensures adjacent { AreAdjacent (take result rows.now) }
        ensures held { held self.new ≡ without_rows (take result rows.now) (held self.old) }
        ensures capacity { capacity self.new ≡ capacity self.old }
        ensures answers { answers self.new ≡ answers self.old }
        ensures faults { faults self.new ≡ faults self.old }
        ensures may_fail { may_fail self.new ≡ may_fail self.old };
}

/// A mapper that keeps its rows, each at its own place, and refuses at the calls that it is told. Own.
#[derive(Drop)]
pub struct MemMapper {
    // The rows in the order of mapping, those next to each other as one run.
    runs: Vec<HeldRun>,
    // Where a row was unmapped last: the next one is looked for there first.
    last: usize,
    capacity: usize,
    answers: Answers,
    failing: FailingCalls,
}

impl Model for MemMapper {
    ghost use Rattle.std.specs.Prelude.{vec_len, vec_capacity};
    ghost use Rattle.hp_base.specs.HeldRows.{rows_in};
    ghost use Rattle.hp_base.specs.MemMapping.{MapperState, IsMapper};

    ghost Value = { MapperState };

    ghost view = { λ a. record {
      rows = rows_in a.runs.items;
      capacity = a.capacity;
      fails = a.failing.fails.items;
      answers = a.answers;
      faults = a.failing.faults;
    } };

    ghost invariant = { λ a. IsMapper a.runs.items a.capacity (vec_capacity a.runs) a.failing.calls a.answers };
}

impl MemMapper {
    ghost use Rattle.std.specs.Prelude.{IfOk};
    ghost use Rattle.hp_base.specs.MemMapping.{MapperState};

    /// A mapper with room for so many rows, which holds none and refuses no call. It has memory for a sixteenth more runs, so that empty ones
    /// are taken out seldom. Own.
    pub fn new(alloc: Global, capacity: usize) -> Result<MemMapper, AllocError>
        ensures { IfOk result (λ mapper. mapper
            ≡ record { rows = []; capacity = capacity; fails = []; answers = []; faults = 0 }) }
    {
        Ok(MemMapper {
            runs: Vec::with_capacity(
                alloc,
                capacity.saturating_add(capacity / 16).saturating_add(1),
            )?,
            last: 0,
            capacity,
            answers: Answers::new(),
            failing: FailingCalls {
                fails: Vec::new(alloc),
                calls: 0,
                faults: 0,
            },
        })
    }

    /// From now on these mapping calls are refused, and no others. Calls are counted from 1, over the whole life of the
    /// mapper. Own.
    pub fn fail_at(&mut self, calls: Vec<u64>)
        ensures { self.new ≡ record self.old { fails = calls.items } }
    {
        self.failing.fails = calls;
    }

    /// Whether it holds a row. Rows are compared in all fields. Own.
    pub fn holds(&self, row: &Row) -> bool
        ensures { result ≡ list_any (is_row row.now) self.now.rows }
    {
        has_row(self.runs.as_slice(), row)
    }
}

impl Mapper for MemMapper {
    ghost use Rattle.hp_base.specs.Mapping.{IsFailing, refusals_at};
    ghost use Rattle.hp_base.specs.MemMapping.{after_map, after_mapping, after_unmap, after_unmapping, answer_to};

    ghost held = { λ m. owned m.rows };

    ghost capacity = { λ m. m.capacity };

    ghost answers = { λ m. m.answers };

    ghost faults = { λ m. m.faults };

    ghost may_fail = { λ m. Some (refusals_at m.fails) };

    fn map(&mut self, row: &Row) -> MapAnswer
        requires { CanMap row.now (owned self.old.rows) self.old.capacity (length self.old.answers) }
        ensures held { owned self.new.rows ≡ held_after row.now result (owned self.old.rows) }
        ensures capacity { self.new.capacity ≡ self.old.capacity }
        ensures answers { self.new.answers ≡ self.old.answers ++ result ∷ [] }
        ensures cause { CountsFault self.old.faults self.new.faults (is_refused result) }
        ensures may_fail { Some (refusals_at self.new.fails) ≡ Some (refusals_at self.old.fails) }
        ensures told { (result ≡ own_place row.now)
            ⊎ IsFailing (refusals_at self.old.fails) (length self.old.answers + 1) row.now result }

        // Which answer it is, and the mapper after it.
        ensures answer { result ≡ answer_to self.old row.now }
        ensures after { self.new ≡ after_map self.old row.now result }
    {
        if self.failing.next_fails() {
            self.answers = self.answers.with(MapAnswer::Refused);
            return MapAnswer::Refused;
        }
        let answer = own_place(row);
        push_row(&mut self.runs, *row);
        self.answers = self.answers.with(answer);
        answer
    }

    fn unmap(&mut self, row: &Row)
        ensures held { owned self.new.rows ≡ without_row row.now (owned self.old.rows) }
        ensures capacity { self.new.capacity ≡ self.old.capacity }
        ensures answers { self.new.answers ≡ self.old.answers }
        ensures faults { self.new.faults ≡ self.old.faults }
        ensures may_fail { Some (refusals_at self.new.fails) ≡ Some (refusals_at self.old.fails) }

        // The mapper without it.
        ensures after { self.new ≡ after_unmap self.old row.now }
    {
        self.last = take_row(&mut self.runs, self.last, row);
    }

    fn map_first(&mut self, rows: &[Row]) -> usize
        requires { CanMapAll rows.now (owned self.old.rows) self.old.capacity (length self.old.answers) }
        ensures within { result ≤ length rows.now }
        ensures held { owned self.new.rows ≡ owned self.old.rows ++ owned (take result rows.now) }
        ensures capacity { self.new.capacity ≡ self.old.capacity }
        ensures answers { self.new.answers ≡ self.old.answers ++ map own_place (take result rows.now) }
        ensures faults { self.new.faults ≡ self.old.faults }
        ensures may_fail { Some (refusals_at self.new.fails) ≡ Some (refusals_at self.old.fails) }

        // The mapper after it.
        ensures after { self.new ≡ after_mapping self.old (take result rows.now) }
    {
        if !self.failing.fails.is_empty() {
            return 0;
        }
        let count = push_first(&mut self.runs, rows);
        self.failing.add_calls(count as u64);
        self.answers.add_own(&rows[..count]);
        count
    }

    fn unmap_first(&mut self, rows: &[Row]) -> usize
        ensures within { result ≤ length rows.now }
        ensures adjacent { AreAdjacent (take result rows.now) }
        ensures held { owned self.new.rows ≡ without_rows (take result rows.now) (owned self.old.rows) }
        ensures capacity { self.new.capacity ≡ self.old.capacity }
        ensures answers { self.new.answers ≡ self.old.answers }
        ensures faults { self.new.faults ≡ self.old.faults }
        ensures may_fail { Some (refusals_at self.new.fails) ≡ Some (refusals_at self.old.fails) }

        // The mapper without them.
        ensures after { self.new ≡ after_unmapping self.old (take result rows.now) }
    {
        take_first(&mut self.runs, self.last, rows)
    }
}

pub fn own_place(row: &Row) -> MapAnswer
    ensures { result ≡ own_place row.now }
{
    MapAnswer::At {
        addr: row.addr,
        page: row.page,
        socket: row.socket,
    }
}
