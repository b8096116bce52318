//! The rows of a table in the order of mapping.
ghost use Rattle.std.specs.Prelude.{◌≡◌, ◌+◌, ◌-◌, ◌^◌, ◌<◌, ◌≤◌, ◌++◌, ◌∷◌, [], drop, length, take, vec_capacity, vec_len};
ghost use Rattle.std.specs.List.Sorted.{IsNonDecreasingBy, IsPermutation};
ghost use Rattle.hp_log.specs.Rows.{rows_of, IsSmallRun};
ghost use Rattle.hp_maps.specs.Chunks.{rows_beside};

use crate::chunks::is_of_chunk;
use core::mem::replace_with;
use hp_base::{Chunk, Row, Run};
use hp_log::row_of;
use std::alloc::{AllocError, Global};
use std::marker::Model;

/// Rows in the order of mapping. Where the first ones are taken out, a gap is left in front of the others, which is closed once
/// it is as long as they are.
#[derive(Drop)]
pub struct RowList {
    rows: Vec<Row>,
    // How many of these are taken out: the first ones.
    gap: usize,
    // From where on the next rows that go are looked for first.
    next: usize,
}

mod dropping;

pub use dropping::drop_rows;

impl Model for RowList {
    ghost use Rattle.std.specs.Prelude.{drop, vec_capacity, vec_len, ◌≤◌};
    ghost use Rattle.hp_maps.specs.RowsView.{RowsView};

    ghost Value = { RowsView };

    ghost view = { λ a. record { items = drop a.gap a.rows.items; memory = vec_capacity a.rows } };

    ghost invariant = { λ a. a.gap ≤ vec_len a.rows };
}

impl RowList {
    ghost use Rattle.std.specs.Prelude.{IfOk};
    ghost use Rattle.hp_maps.specs.RowsView.{AreNone};

    /// No rows, with memory for a sixteenth more than there may be, so that gaps are closed seldom.
    pub fn new(alloc: Global, capacity: usize) -> Result<RowList, AllocError>
        ensures { IfOk result (AreNone capacity) }
    {
        Ok(RowList {
            rows: Vec::with_capacity(alloc, capacity.saturating_add(capacity / 16))?,
            gap: 0,
            next: 0,
        })
    }

    /// All of them, in their order.
    pub fn as_slice(&self) -> &[Row]
        ensures { result.now ≡ self.now.items }
    {
        &self.rows.as_slice()[self.gap..]
    }

    /// How many there are. Their number fits into 63 bits, as all that stands in memory does.
    pub fn len(&self) -> usize
        ensures len { result ≡ length self.now.items }
        ensures small { self.now.memory < 2 ^ 63 }
    {
        self.rows.len() - self.gap
    }

    /// Hands them out.
    pub fn into_rows(self) -> Vec<Row>
        ensures { result.items ≡ self.items }
    {
        let mut rows = self.rows;
        cut_out(&mut rows, 0, self.gap);
        rows
    }

    /// From where on the next rows that go are looked for first: where the last ones went. Nothing else rests on it.
    pub fn next(&self) -> usize {
        self.next
    }

    /// Adds a row after all others, where there is memory for it.
    pub fn push(&mut self, row: Row)
        requires room { length self.old.items < self.old.memory }
        ensures items { self.new.items ≡ self.old.items ++ row ∷ [] }
        ensures memory { self.old.memory ≤ self.new.memory }
    {
        make_room(&mut self.rows, &mut self.gap, 1);
        self.rows.push_reserved(row);
    }

    /// Adds the rows of a run after all others, where there is memory for them.
    pub fn push_run(&mut self, generation: u64, run: &Run)
        requires small { IsSmallRun run.now }
        requires room { length self.old.items + run.now.count ≤ self.old.memory }
        ensures items { self.new.items ≡ self.old.items ++ rows_of run.now generation }
        ensures memory { self.new.memory ≡ self.old.memory }
    {
        make_room(&mut self.rows, &mut self.gap, run.count as usize);
        replace_with(&mut self.rows, (generation, *run), with_run);
    }

    /// Keeps the first `n` of them.
    pub fn truncate(&mut self, n: usize)
        requires { n ≤ length self.old.items }
        ensures items { self.new.items ≡ take n self.old.items }
        ensures memory { self.new.memory ≡ self.old.memory }
    {
        self.rows.truncate(self.gap + n);
    }

    /// Takes all of them out.
    pub fn clear(&mut self)
        ensures items { self.new.items ≡ [] }
        ensures memory { self.new.memory ≡ self.old.memory }
    {
        self.gap = 0;
        self.rows.clear();
    }

    /// Takes those from one place on up to another out. The next ones that go are looked for there first.
    pub fn cut(&mut self, from: usize, to: usize)
        requires from { from ≤ to }
        requires within { to ≤ length self.old.items }
        ensures items { self.new.items ≡ take from self.old.items ++ drop to self.old.items }
        ensures memory { self.new.memory ≡ self.old.memory }
    {
        self.next = from.saturating_sub(1);
        if from < self.len() - to {
            self.cut_forward(from, to);
        } else {
            self.cut_back(from, to);
        }
    }

    // Takes these rows out, where the rows before them move.
    fn cut_forward(&mut self, from: usize, to: usize)
        requires from { from ≤ to }
        requires within { to ≤ length self.old.items }
        ensures items { self.new.items ≡ take from self.old.items ++ drop to self.old.items }
        ensures memory { self.new.memory ≡ self.old.memory }
    {
        move_behind(&mut self.rows, self.gap, from, to);
        self.cut_front(to - from);
    }

    // Takes these rows out, where the rows after them move.
    fn cut_back(&mut self, from: usize, to: usize)
        requires from { from ≤ to }
        requires within { to ≤ length self.old.items }
        ensures items { self.new.items ≡ take from self.old.items ++ drop to self.old.items }
        ensures memory { self.new.memory ≡ self.old.memory }
    {
        cut_out(&mut self.rows, self.gap + from, self.gap + to);
    }

    // Takes the first ones out.
    fn cut_front(&mut self, to: usize)
        requires { to ≤ length self.old.items }
        ensures items { self.new.items ≡ drop to self.old.items }
        ensures memory { self.new.memory ≡ self.old.memory }
    {
        self.gap += to;
        if self.gap >= self.rows.len() - self.gap {
            self.close_gap();
        }
    }

    // Moves the rows to the front.
    fn close_gap(&mut self)
        ensures { self.new ≡ self.old }
    {
        cut_out(&mut self.rows, 0, self.gap);
        self.gap = 0;
    }

    /// Takes those of a chunk out.
    pub fn retain_beside(&mut self, chunk: &Chunk)
        ensures items { self.new.items ≡ rows_beside chunk.now self.old.items }
        ensures memory { self.new.memory ≡ self.old.memory }
    {
        cut_out(&mut self.rows, 0, self.gap);
        self.gap = 0;
        retain_beside(&mut self.rows, chunk);
    }

    /// Sorts them by address.
    pub fn sort_by_address(&mut self)
        ensures same { IsPermutation self.old.items self.new.items }
        ensures sorted { IsNonDecreasingBy (λ row. row.addr) self.new.items }
        ensures memory { self.new.memory ≡ self.old.memory }
    {
        cut_out(&mut self.rows, 0, self.gap);
        self.gap = 0;
        sort_by_address(&mut self.rows);
    }
}

// Moves the first rows after a gap, `from` in number, up to those from `to` on.
fn move_behind(rows: &mut Vec<Row>, gap: usize, from: usize, to: usize)
    requires from { from ≤ to }
    requires within { gap + to ≤ vec_len rows.old }
    ensures items { drop (gap + (to - from)) rows.new.items
        ≡ take from (drop gap rows.old.items) ++ drop (gap + to) rows.old.items }
    ensures len { vec_len rows.new ≡ vec_len rows.old }
    ensures memory { vec_capacity rows.new ≡ vec_capacity rows.old }
{
    rows.copy_within(gap..gap + from, gap + (to - from));
}

// Closes the gap, where no memory is left after the rows for so many more.
fn make_room(rows: &mut Vec<Row>, gap: &mut usize, more: usize)
    requires gap { gap.old ≤ vec_len rows.old }
    requires room { length (drop gap.old rows.old.items) + more ≤ vec_capacity rows.old }
    ensures gap { gap.new ≤ vec_len rows.new }
    ensures items { drop gap.new rows.new.items ≡ drop gap.old rows.old.items }
    ensures room { vec_len rows.new + more ≤ vec_capacity rows.new }
    ensures memory { vec_capacity rows.new ≡ vec_capacity rows.old }
{
    if rows.capacity() - rows.len() < more {
        cut_out(rows, 0, *gap);
        *gap = 0;
    }
}

// These rows, and those of a run, by the record of that generation, after them. The list is handed in and out, so that its length stands in
// no memory while it grows.
fn with_run(rows: Vec<Row>, of: (u64, Run)) -> (Vec<Row>, ())
    requires small { IsSmallRun of.1 }
    requires room { vec_len rows + of.1.count ≤ vec_capacity rows }
    ensures items { result.0.items ≡ rows.items ++ rows_of of.1 of.0 }
    ensures memory { vec_capacity result.0 ≡ vec_capacity rows }
{
    let mut rows = rows;
    for n in 0..of.1.count {
        rows.push_reserved(row_of(&of.1, of.0, n));
    }
    (rows, ())
}

// Takes rows out of the middle.
fn cut_out(rows: &mut Vec<Row>, start: usize, end: usize)
    requires from { start ≤ end }
    requires within { end ≤ vec_len rows.old }
    ensures items { rows.new.items ≡ take start rows.old.items ++ drop end rows.old.items }
    ensures memory { vec_capacity rows.new ≡ vec_capacity rows.old }
{
    if start < end {
        let len = rows.len();
        rows.as_mut_slice().copy_within(end..len, start);
        rows.truncate(len - (end - start));
    }
}

fn retain_beside(rows: &mut Vec<Row>, chunk: &Chunk)
    ensures rows { rows.new.items ≡ rows_beside chunk.now rows.old.items }
    ensures memory { vec_capacity rows.new ≡ vec_capacity rows.old }
{
    rows.retain(|row: &Row| !is_of_chunk(chunk, row));
}

fn sort_by_address(rows: &mut Vec<Row>)
    ensures same { IsPermutation rows.old.items rows.new.items }
    ensures sorted { IsNonDecreasingBy (λ row. row.addr) rows.new.items }
    ensures memory { vec_capacity rows.new ≡ vec_capacity rows.old }
{
    rows.sort_unstable_by_key(|row: &Row| row.addr);
}
