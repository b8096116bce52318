//! The summary of a run.
ghost use Rattle.std.specs.Prelude.{◌≡◌, ◌+◌, ◌<◌, ◌≤◌, ◌^◌, if◌then◌else◌};
ghost use Rattle.hp_run.specs.AnswersKept.{count_more};
ghost use Rattle.hp_run.specs.Deeds.{is_done};
ghost use Rattle.hp_run.specs.Summary.{free_bytes, numbers_of, rest_of};
ghost use Rattle.hp_segs.specs.SegsView.{pages_left};

use crate::deed::Deed;
use crate::running::Counted;
use hp_heap::Heap;
use hp_script::{Act, Answer};
use hp_segs::Segs;
use std::fmt;

/// What a run came to. Own.
#[derive(Clone, Copy)]
pub struct Summary {
    /// What its lines have done.
    pub counts: Counts,
    /// What it left.
    pub rest: Rest,
}

/// How many lines a run had, and how many did what they asked for. Own.
#[derive(Clone, Copy)]
pub struct Counts {
    /// Its participant lines.
    pub lines: usize,
    /// How many allocations found memory.
    pub allocs: usize,
    /// How many frees freed an element.
    pub frees: usize,
    /// How many elements were resized.
    pub resized: usize,
}

/// What a run left. Own.
#[derive(Clone, Copy)]
pub struct Rest {
    /// The records of the log.
    pub records: usize,
    /// The pages left in the first pool.
    pub pool0: u64,
    /// The pages left in the second pool.
    pub pool1: u64,
    /// The free bytes of all heaps.
    pub free: u128,
}

impl Summary {
    /// The summary of what a run counted and left.
    pub fn of(counted: &Counted) -> Summary
        ensures { result ≡ numbers_of counted.now.counts counted.now.heaps.items counted.now.segs }
    {
        Summary {
            counts: counted.counts,
            rest: Rest::of(counted.heaps.as_slice(), &counted.segs),
        }
    }
}

impl Counts {
    // Of no line.
    pub(crate) const NONE: Counts = Counts {
        lines: 0,
        allocs: 0,
        frees: 0,
        resized: 0,
    };

    // With one line more.
    pub(crate) fn with(self, act: &Act<'_>, answer: &Answer) -> Counts
        requires lines { self.lines + 1 < 2 ^ 64 }
        requires allocs { self.allocs ≤ self.lines }
        requires frees { self.frees ≤ self.lines }
        requires resized { self.resized ≤ self.lines }
        ensures { result ≡ count_more self act.now answer.now }
    {
        Counts {
            lines: self.lines + 1,
            allocs: self.allocs + one_if(Deed::Allocated, act, answer),
            frees: self.frees + one_if(Deed::Freed, act, answer),
            resized: self.resized + one_if(Deed::Resized, act, answer),
        }
    }
}

impl Rest {
    // What is left in heaps and segments.
    fn of(heaps: &[Heap], segs: &Segs) -> Rest
        ensures { result ≡ rest_of heaps.now segs.now }
    {
        Rest {
            records: segs.records().len(),
            pool0: left_in(segs, 0),
            pool1: left_in(segs, 1),
            free: free_bytes(heaps),
        }
    }
}

/// The summary as the program writes it: eight lines of a word and a number.
impl fmt::Display for Summary {
    ghost use Rattle.std.specs.Prelude.{Some};
    ghost use Rattle.hp_run.specs.Summary.{numbers_text};

    ghost output = { λ summary. Some (numbers_text summary) };

    fn fmt<W: fmt::Write>(&self, f: &mut fmt::Formatter<W>) -> fmt::Result {
        write!(f, "{}{}", self.counts, self.rest)
    }
}

/// Its first four lines.
impl fmt::Display for Counts {
    ghost use Rattle.std.specs.Prelude.{Some};
    ghost use Rattle.hp_run.specs.Summary.{counts_text};

    ghost output = { λ counts. Some (counts_text counts) };

    fn fmt<W: fmt::Write>(&self, f: &mut fmt::Formatter<W>) -> fmt::Result {
        let Counts {
            lines,
            allocs,
            frees,
            resized,
        } = *self;
        write!(
            f,
            "lines {lines}\nallocs {allocs}\nfrees {frees}\nresized {resized}\n"
        )
    }
}

/// Its last four lines.
impl fmt::Display for Rest {
    ghost use Rattle.std.specs.Prelude.{Some};
    ghost use Rattle.hp_run.specs.Summary.{rest_text};

    ghost output = { λ rest. Some (rest_text rest) };

    fn fmt<W: fmt::Write>(&self, f: &mut fmt::Formatter<W>) -> fmt::Result {
        let Rest {
            records,
            pool0,
            pool1,
            free,
        } = *self;
        write!(
            f,
            "records {records}\npool0 {pool0}\npool1 {pool1}\nfree {free}\n"
        )
    }
}

// 1 where a line has done it, and 0 where it has not.
fn one_if(deed: Deed, act: &Act<'_>, answer: &Answer) -> usize
    ensures count { result ≡ (if is_done deed act.now answer.now then 1 else 0) }
    ensures most { result ≤ 1 }
{
    if deed.is_done(act, answer) { 1 } else { 0 }
}

// The pages left in the pool of that place; none where there is no such pool.
fn left_in(segs: &Segs, pool: usize) -> u64
    ensures { result ≡ pages_left segs.now pool }
{
    if pool < segs.pools().len() {
        segs.pages_left(pool)
    } else {
        0
    }
}

// The free bytes of all heaps: fewer than 2^64 of each.
fn free_bytes(heaps: &[Heap]) -> u128
    ensures { result ≡ free_bytes heaps.now }
{
    let mut free = 0;
    for heap in heaps {
        free += u128::from(heap.summary().free);
    }
    free
}
