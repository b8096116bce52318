ghost use Rattle.std.specs.Prelude.{◌≡◌, ℕ, ◌<◌, ◌≤◌, true};
ghost use Rattle.hp_freelist.specs.Lists.{empty_lists, is_listed};

use hp_freelist::Lists;

/// How many keys the lists have.
pub const KEYS: usize = 20_000;

/// Inserts all keys.
pub fn fill(lists: &mut Lists)
    requires room { KEYS ≤ lists.old.room }
    requires empty { lists.old.lists ≡ empty_lists }
    ensures listed { (key : ℕ) → key < KEYS → is_listed key lists.new.lists ≡ true }
    ensures room { KEYS ≤ lists.new.room }
{
    for key in 0..KEYS {
        lists.insert_head(key, whole_of(key));
    }
}

/// Removes a key and inserts it again, so many times, each time another one.
pub fn churn(lists: &mut Lists, steps: u64)
    requires listed { (key : ℕ) → key < KEYS → is_listed key lists.old.lists ≡ true }
    requires room { KEYS ≤ lists.old.room }
{
    let mut seed: u32 = 1;
    for _step in 0..steps {
        seed = seed.wrapping_mul(1_664_525).wrapping_add(1_013_904_223);
        let key = (seed >> 8) as usize % KEYS;
        reinsert(lists, key);
    }
}

// Removes a key and inserts it again.
fn reinsert(lists: &mut Lists, key: usize)
    requires key { key < KEYS }
    requires listed { (k : ℕ) → k < KEYS → is_listed k lists.old.lists ≡ true }
    requires room { KEYS ≤ lists.old.room }
    ensures listed { (k : ℕ) → k < KEYS → is_listed k lists.new.lists ≡ true }
    ensures room { KEYS ≤ lists.new.room }
{
    lists.remove(key);
    lists.insert_head(key, whole_of(key));
}

/// Searches for a key that is not there, past all others, so many times. It answers how many searches found none.
pub fn search(lists: &Lists, searches: u64) -> u64 {
    let mut none: u64 = 0;
    for _search in 0..searches {
        if lists.first_from(0, |key| key == KEYS).is_none() {
            none = none.saturating_add(1);
        }
    }
    none
}

// A whole size for a key, of a class that depends on it.
fn whole_of(key: usize) -> u64
    ensures { 192 ≤ result }
{
    192 + 64 * (key as u64 % 1_000)
}
