//! Which of some records drops the page of a slot last.
ghost use Rattle.std.specs.Prelude.{◌≡◌, ◌+◌, ◌<◌, ◌≤◌, ℕ, ◌&&◌, [], true, drop, get_or, length, nat_le, nat_lt, vec_capacity, vec_len, if◌then◌else◌};
ghost use Rattle.hp_maps.specs.Catching.{is_dropped};
ghost use Rattle.hp_maps.specs.LastDrops.{AreLast, AreNoted, number_of};

use hp_base::{Row, Run};
use hp_log::LogRecord;
use std::alloc::{AllocError, Global};
use std::marker::Model;

// How many lists there are, and how many slots each may have.
const LISTS: u32 = 128;

const SLOTS: u32 = 8192;

/// For each slot of a list, the number of the last of some records that drops its page, counted from 1, and 0 where none does.
#[derive(Drop)]
pub struct LastDrops {
    // By list and slot. What stands after the last one is 0.
    numbers: Vec<u32>,
}

impl Model for LastDrops {
    ghost use Rattle.std.specs.Prelude.{List, ℕ};

    ghost Value = { List ℕ };

    ghost view = { λ a. a.numbers.items };
}

impl LastDrops {
    /// No records, with memory for the numbers of all slots.
    pub fn new(alloc: Global) -> Result<LastDrops, AllocError> {
        Ok(LastDrops {
            numbers: Vec::with_capacity(alloc, (LISTS * SLOTS) as usize)?,
        })
    }

    /// Notes the numbers of these records in place of those before, if each Drop is of slots that have a number.
    pub fn note(&mut self, records: &[LogRecord]) -> bool
        ensures { result ≡ true → AreLast self.new records.now }
    {
        self.numbers.clear();
        note_all(&mut self.numbers, records)
    }

    /// Whether one of the records from a place on drops a row. The numbers are of these records.
    pub fn drops_from(&self, _records: &[LogRecord], at: usize, row: &Row) -> bool
        requires { AreLast self.now _records.now }
        ensures { result ≡ is_dropped (drop at _records.now) row.now }
    {
        at < number_of(self.numbers.as_slice(), row) as usize
    }
}

// The number of a row's slot.
fn number_of(numbers: &[u32], row: &Row) -> u32
    ensures { result ≡ number_of numbers.now row.now }
{
    if LISTS <= row.list {
        return 0;
    }
    if SLOTS <= row.slot {
        return 0;
    }
    number_at(numbers, (row.list * SLOTS + row.slot) as usize)
}

// The number at a place.
fn number_at(numbers: &[u32], place: usize) -> u32
    ensures { result ≡ get_or numbers.now place 0 }
{
    if place < numbers.len() {
        numbers[place]
    } else {
        0
    }
}

// Notes the numbers of these records, where none are noted yet, if each Drop is of slots that have a number.
#[tactic(auto, using(crate::proofs::IndexLemmas::last_of_none, crate::proofs::IndexLemmas::last_of_all))]
fn note_all(numbers: &mut Vec<u32>, records: &[LogRecord]) -> bool
    requires { numbers.old.items ≡ [] }
    ensures { result ≡ true → AreLast numbers.new.items records.now }
{
    for (at, entry) in records.iter().enumerate() {
        match entry {
            LogRecord::Add { .. } => {}
            LogRecord::Drop { run } => {
                if !note_run(numbers, run, at) {
                    return false;
                }
            }
        }
    }
    true
}

// Notes the number of a Drop at a place for its slots, if they have numbers and there is memory for them.
fn note_run(numbers: &mut Vec<u32>, run: &Run, at: usize) -> bool
    ensures { result ≡ true → AreNoted run.now (at + 1) numbers.old.items numbers.new.items }
{
    let Ok(number) = u32::try_from(at.saturating_add(1)) else {
        return false;
    };
    if run.list >= LISTS || run.first > SLOTS || run.count > SLOTS - run.first {
        return false;
    }
    let first = (run.list * SLOTS + run.first) as usize;
    let end = first + run.count as usize;
    if end > numbers.capacity() {
        return false;
    }
    extend(numbers, end);
    set_all(numbers.as_mut_slice(), first, end, number);
    true
}

// Sets the numbers from one place on up to another.
fn set_all(numbers: &mut [u32], first: usize, end: usize, number: u32)
    requires order { first ≤ end }
    requires within { end ≤ length numbers.old }
    ensures { (place : ℕ) → get_or numbers.new place 0
        ≡ (if nat_le first place && nat_lt place end then number else get_or numbers.old place 0) }
{
    for place in first..end {
        numbers[place] = number;
    }
}

// Adds zeros, until there are so many numbers.
fn extend(numbers: &mut Vec<u32>, len: usize)
    requires { len ≤ vec_capacity numbers.old }
    ensures long { len ≤ vec_len numbers.new }
    ensures same { (place : ℕ) → get_or numbers.new.items place 0 ≡ get_or numbers.old.items place 0 }
{
    for _place in numbers.len()..len {
        numbers.push_reserved(0);
    }
}
