//! The used mask and its calls.
ghost use Rattle.std.specs.Prelude.{◌≡◌, ◌<◌, ◌≤◌, ◌↔◌, IfNone, IfOk, IfSome, IsTrue, count_by, false, length, replicate, slice_set, true};
ghost use Rattle.hp_fbarray.specs.Mask.{HasNoFreeRun, HasNoUsed, IsFirstFreeRun, IsLongestFree, IsNextUsed, IsUsed};
ghost use Rattle.hp_fbarray.specs.FreeRuns.{first_free_run, longest_free_run};
ghost use Rattle.hp_fbarray.specs.Answers.{free_run, IfFound, IfTooShort};

use crate::free_run::FreeRun;
use crate::places::Places;
use crate::runs;
use std::alloc::{AllocError, Global};
use std::marker::Model;

/// The most places that a mask may have: the segments of all memseg lists together. Own.
pub const MAX_PLACES: usize = 16_384;

/// Which places of a fixed number are used, after the used mask of DPDK's `rte_fbarray`.
///
/// Places are counted from 0. Contracts see a mask as the list of its places, `true` where a place
/// is used and `false` where it is clear. No call but `new` takes memory.
#[derive(Drop)]
pub struct Mask {
    places: Places,
    // The number of places where none is clear. No search looks at a place below it.
    first_clear: usize,
}

impl Model for Mask {
    ghost use Rattle.std.specs.Prelude.{Bool, List};
    ghost use Rattle.hp_fbarray.specs.Searches.{IsFirstClear};

    ghost Value = { List Bool };

    ghost view = { λ mask. mask.places };

    ghost invariant = { λ mask. IsFirstClear mask.places mask.first_clear };
}

impl Mask {
    /// A mask of `n` places, all clear, as `rte_fbarray_init` makes one.
    pub fn new(alloc: Global, n: usize) -> Result<Mask, AllocError>
        requires within_limit { n ≤ MAX_PLACES }
        ensures clear { IfOk result (λ mask. mask ≡ replicate n false) }
    {
        let places = Places::new(alloc, n)?;
        Ok(Mask {
            places,
            first_clear: 0,
        })
    }

    /// Marks place `i` as used (`rte_fbarray_set_used`). A place that is used already stays so.
    pub fn set(&mut self, i: usize)
        requires { i < length self.old }
        ensures { self.new ≡ slice_set self.old i true }
    {
        self.places.put(i, true);
        if i == self.first_clear {
            self.first_clear = self.places.next(i, self.places.len(), false);
        }
    }

    /// Marks place `i` as clear (`rte_fbarray_set_free`). A place that is clear already stays so.
    pub fn clear(&mut self, i: usize)
        requires { i < length self.old }
        ensures { self.new ≡ slice_set self.old i false }
    {
        self.places.put(i, false);
        self.first_clear = self.first_clear.min(i);
    }

    /// Whether place `i` is used (`rte_fbarray_is_used`).
    pub fn is_set(&self, i: usize) -> bool
        requires { i < length self.now }
        ensures { IsTrue result ↔ IsUsed self.now i }
    {
        self.places.get(i)
    }

    /// The least start, at `from` or later, of `n` clear places that follow one another
    /// (`rte_fbarray_find_next_n_free`).
    ///
    /// For `n` = 0 that is `from` itself, wherever `from` is not past the end; at the end, where
    /// `from` is the number of places, only the empty run is left. For a `from` past the end there
    /// is no run, not even an empty one.
    pub fn find_n_free(&self, from: usize, n: usize) -> Option<usize>
        ensures first { IfSome result (IsFirstFreeRun self.now from n) }
        ensures none { IfNone result (HasNoFreeRun self.now from n) }

        // The answer as a value that definitions of other crates can compute with.
        ensures value { result ≡ first_free_run self.now from n }
    {
        if from > self.places.len() {
            return None;
        }
        match runs::search(&self.places, self.first_clear, from, n) {
            FreeRun::Found { start } => Some(start),
            FreeRun::TooShort { .. } => None,
        }
    }

    /// The least start of `n` clear places that follow one another, or, where there is no such run,
    /// how long the longest one is. One search answers both, as `find_n_free` from 0 and
    /// `longest_free` do (own).
    pub fn find_run(&self, n: usize) -> FreeRun
        ensures first { IfFound result (IsFirstFreeRun self.now 0 n) }
        ensures none { IfTooShort result (λ _. HasNoFreeRun self.now 0 n) }
        ensures longest { IfTooShort result (IsLongestFree self.now) }

        // The answer as a value that definitions of other crates can compute with.
        ensures value { result ≡ free_run self.now n }
    {
        runs::search(&self.places, self.first_clear, 0, n)
    }

    /// The least used place at `from` or later (`rte_fbarray_find_next_used`), and none where `from`
    /// is at the end or past it.
    pub fn find_next_used(&self, from: usize) -> Option<usize>
        ensures next { IfSome result (IsNextUsed self.now from) }
        ensures none { IfNone result (HasNoUsed self.now from) }
    {
        let len = self.places.len();
        if from >= len {
            return None;
        }
        let place = self.places.next(from, len, true);
        if place < len { Some(place) } else { None }
    }

    /// How many places are used. After the count of used elements that rte_fbarray keeps.
    pub fn count_used(&self) -> usize
        ensures { result ≡ count_by (λ used. used) self.now }
    {
        self.places.count_used()
    }

    /// The length, in places, of the longest stretch of clear places, and 0 where none is clear
    /// (the length of what `rte_fbarray_find_biggest_free` finds).
    pub fn longest_free(&self) -> usize
        ensures longest { IsLongestFree self.now result }

        // The answer as a value that definitions of other crates can compute with.
        ensures value { result ≡ longest_free_run self.now }
    {
        // No run is longer than the mask.
        match runs::search(&self.places, self.first_clear, 0, self.places.len() + 1) {
            FreeRun::Found { .. } => self.places.len(),
            FreeRun::TooShort { longest } => longest,
        }
    }
}
