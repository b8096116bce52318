//! A fixed number of places, kept 64 to a word.
ghost use Rattle.std.specs.Prelude.{◌≡◌, ◌*◌, ◌<◌, ◌≤◌, ◌^◌, ℕ, IfOk, count_by, false, length, replicate, slice_index, slice_index_or, slice_set, sum_by};
ghost use Rattle.std.specs.Int.RustNames.{count_ones};
ghost use Rattle.hp_fbarray.specs.Words.{IsNextIn};
ghost use Rattle.hp_fbarray.specs.Searches.{IsNextPlace};

use crate::word;
use std::alloc::{AllocError, Global};
use std::marker::Model;

// The places in a word.
const WORD: usize = 64;

/// Places that are used or clear.
///
/// Contracts see the list of the places, `true` where one is used.
#[derive(Drop)]
pub(crate) struct Places {
    words: Vec<u64>,
    len: usize,
}

impl Model for Places {
    ghost use Rattle.std.specs.Prelude.{Bool, List};
    ghost use Rattle.hp_fbarray.specs.Words.{HavePlaces, places_of};

    ghost Value = { List Bool };

    ghost view = { λ p. places_of p.words.items p.len };

    ghost invariant = { λ p. HavePlaces p.words.items p.len };
}

// The first place from `from` up to `end` that is used, or that is clear, and `end` where there is none.
fn next_place(words: &[u64], from: usize, end: usize, used: bool) -> usize
    requires enough { end ≤ 64 * length words.now }
    requires few { length words.now ≤ 256 }
    requires within { from ≤ end }
    ensures { IsNextIn words.now from end used result }
{
    let mut place = from;
    while place < end {
        let bit = word::next_bit(words[place / WORD], (place % WORD) as u32, used);
        place = place - place % WORD + bit as usize;
        if bit < 64 {
            return place.min(end);
        }
    }
    end
}

// How many bits of the words are 1.
fn count_ones(words: &[u64]) -> usize
    requires { length words.now ≤ 256 }
    ensures ones { result ≡ sum_by count_ones words.now }

    // Each word is a number of 64 bits.
    ensures fits { (i : ℕ) → slice_index words.now i < 2 ^ 64 }
{
    let mut ones: usize = 0;
    for word in words {
        ones += word.count_ones() as usize;
    }
    ones
}

impl Places {
    /// `len` places, all clear.
    pub(crate) fn new(alloc: Global, len: usize) -> Result<Places, AllocError>
        requires { len ≤ 16384 }
        ensures { IfOk result (λ places. places ≡ replicate len false) }
    {
        let words = vec![in alloc; 0_u64; len.div_ceil(WORD)]?;
        Ok(Places { words, len })
    }

    pub(crate) fn len(&self) -> usize
        ensures len { result ≡ length self.now }
        ensures few { length self.now ≤ 16384 }
    {
        self.len
    }

    /// Makes place `i` used, or clear.
    pub(crate) fn put(&mut self, i: usize, used: bool)
        requires { i < length self.old }
        ensures { self.new ≡ slice_set self.old i used }
    {
        let word = self.words[i / WORD];
        self.words[i / WORD] = word::with_bit(word, (i % WORD) as u32, used);
    }

    /// Whether place `i` is used.
    pub(crate) fn get(&self, i: usize) -> bool
        requires { i < length self.now }
        ensures { result ≡ slice_index_or self.now i false }
    {
        word::is_bit(self.words[i / WORD], (i % WORD) as u32)
    }

    /// The first place from `from` up to `end` that is used, or that is clear, and `end` where there
    /// is none.
    pub(crate) fn next(&self, from: usize, end: usize, used: bool) -> usize
        requires within { from ≤ end }
        requires end { end ≤ length self.now }
        ensures { IsNextPlace self.now from end used result }
    {
        next_place(self.words.as_slice(), from, end, used)
    }

    /// How many places are used.
    pub(crate) fn count_used(&self) -> usize
        ensures { result ≡ count_by (λ used. used) self.now }
    {
        count_ones(self.words.as_slice())
    }
}
