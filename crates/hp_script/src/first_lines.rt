ghost use Rattle.std.specs.Prelude.{◌≡◌, ℕ, ◌<◌, List, Some, None, if◌then◌else◌, get_or, length, vec_len, IfOk, OnOk};
ghost use Rattle.std.specs.Option.{option_or};
ghost use Rattle.std.specs.Str.{bytes_eq};
ghost use Rattle.hp_script.specs.Noted.{bucket_of, found_from, line_noted, AreEmpty, AreFiled};

use crate::noted_name::NotedName;
use std::alloc::{AllocError, Global};
use std::hash::{FoldHasher, Hasher};
use std::marker::Model;

// A name with its first line.
#[derive(Drop)]
struct Noted<'a> {
    name: NotedName<'a>,
    number: u32,
    // The number of the entry before it in its bucket, counted from 1, or 0 where it came first.
    before: u32,
}

/// The first line that makes each name: its number in the text, or its index among some lines. Contracts see the names with their
/// lines.
#[derive(Drop)]
pub struct FirstLines<'a> {
    alloc: Global,
    // How many buckets there are to be, once a line is noted.
    room: usize,
    noted: Vec<Noted<'a>>,
    // The number of the last entry of each bucket, counted from 1, or 0.
    lasts: Vec<u32>,
}

impl<'a> Model for FirstLines<'a> {
    ghost use Rattle.std.specs.Prelude.{ℕ, List};
    ghost use Rattle.hp_script.specs.Noted.{names_of, AreFiled};

    ghost Value = { List (List ℕ × ℕ) };

    ghost view = { λ a. names_of a.noted.items };

    ghost invariant = { λ a. AreFiled a.noted.items a.lasts.items };
}

impl<'a> FirstLines<'a> {
    ghost use Rattle.hp_script.specs.Known.{line_known};

    /// No line is noted. It takes no memory, and makes so many buckets once one is.
    pub fn new(alloc: Global, room: usize) -> FirstLines<'a>
        ensures { (name : List ℕ) → line_known result name ≡ None }
    {
        FirstLines {
            alloc,
            room,
            noted: Vec::new(alloc),
            lasts: Vec::new(alloc),
        }
    }

    /// The number or index of the first line that makes the name. Where no line is noted, the name is not hashed.
    pub fn line_of(&self, name: &[u8]) -> Option<usize>
        ensures { result ≡ line_known self.now name.now }
    {
        if self.lasts.is_empty() {
            return None;
        }
        let bucket = bucket_of(name, self.lasts.len());
        find_from(self.noted.as_slice(), self.lasts[bucket], name)
    }

    /// Notes the number or index of a line that makes the name, unless an earlier one does.
    pub fn note(&mut self, name: &'a [u8], number: usize) -> Result<(), AllocError>
        ensures { OnOk result ((other : List ℕ) → line_known self.new other
            ≡ option_or (line_known self.old other) (if bytes_eq name.entry.now other then Some number else None)) }
    {
        if self.lasts.is_empty() {
            self.lasts = empty_buckets(self.alloc, self.room)?;
        }
        file(&mut self.noted, &mut self.lasts, name, number)
    }
}

// Buckets without an entry, at least so many and at least one. A power of two spreads the names best.
fn empty_buckets(alloc: Global, room: usize) -> Result<Vec<u32>, AllocError>
    ensures { IfOk result (λ lasts. AreEmpty lasts.items) }
{
    vec![in alloc; 0u32; room.checked_next_power_of_two().unwrap_or(1).max(1)]
}

// Files a name with its line, unless it is there. Numbers above 2^32 - 1 have no room.
fn file<'a>(
    noted: &mut Vec<Noted<'a>>,
    lasts: &mut Vec<u32>,
    name: &'a [u8],
    number: usize,
) -> Result<(), AllocError>
    requires some { 0 < length lasts.old.items }
    requires filed { AreFiled noted.old.items lasts.old.items }
    ensures filed { AreFiled noted.new.items lasts.new.items }
    ensures noted { OnOk result ((other : List ℕ) → line_noted noted.new.items other
        ≡ option_or (line_noted noted.old.items other) (if bytes_eq name.entry.now other then Some number else None)) }
{
    let bucket = bucket_of(name, lasts.len());
    let before = lasts[bucket];
    if find_from(noted.as_slice(), before, name).is_some() {
        return Ok(());
    }
    let (Ok(number), Ok(last)) = (u32::try_from(number), u32::try_from(noted.len() + 1)) else {
        return Err(AllocError);
    };
    noted.push(Noted {
        name: NotedName::new(name),
        number,
        before,
    })?;
    lasts[bucket] = last;
    Ok(())
}

// The line of a name, from an entry of its bucket back.
fn find_from(noted: &[Noted<'_>], last: u32, name: &[u8]) -> Option<usize>
    ensures { result ≡ found_from noted.now (length noted.now) last name.now }
{
    let mut last = last;
    for _step in 0..noted.len() {
        if last == 0 {
            return None;
        }
        let Some(entry) = noted.get(last as usize - 1) else {
            return None;
        };
        if entry.name.is(name) {
            return Some(entry.number as usize);
        }
        last = entry.before;
    }
    None
}

// The bucket of a name, of so many.
#[tactic(auto, using(std::proofs::lemmas::Nat::and_le_r))]
fn bucket_of(name: &[u8], count: usize) -> usize
    requires some { 0 < count }
    ensures bucket { result ≡ bucket_of name.now count }
    ensures within { result < count }
{
    let mut hasher = FoldHasher::default();
    hasher.write(name);
    hasher.finish() as usize & (count - 1)
}
