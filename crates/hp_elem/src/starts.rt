//! The table of starts: the key of the element that begins at an address, found in constant time.
ghost use Rattle.std.specs.Prelude.{◌≡◌, ℕ, List, ◌+◌, ◌<◌, ◌≤◌, Some, None, nat_eq};
ghost use Rattle.std.specs.HashMap.{get, spare};
ghost use Rattle.hp_elem.specs.Gaps.{IsCutAt, at_first};
ghost use Rattle.hp_elem.specs.Index.{with_start};

use std::collections::HashMap;

// Notes the element that begins at an address. There is room for one more.
pub(crate) fn put(starts: &mut HashMap<u64, usize>, addr: u64, key: usize)
    requires room { 0 < spare starts.old }
    ensures table { get nat_eq starts.new ≡ with_start addr (Some key) (get nat_eq starts.old) }
    ensures room { spare starts.old ≤ spare starts.new + 1 }
{
    let _ = starts.insert(addr, key);
}

// Forgets the element that begins at an address, and gives its key.
pub(crate) fn take(starts: &mut HashMap<u64, usize>, addr: u64) -> Option<usize>
    ensures taken { result ≡ get nat_eq starts.old addr }
    ensures table { get nat_eq starts.new ≡ with_start addr None (get nat_eq starts.old) }
    ensures room { spare starts.old ≤ spare starts.new }
{
    starts.remove(&addr)
}

// The element that begins at an address.
pub(crate) fn find(starts: &HashMap<u64, usize>, addr: u64) -> Option<usize>
    ensures { result ≡ get nat_eq starts.now addr }
{
    starts.get(&addr).copied()
}

// The element that begins at the start at a place, where there is one.
pub(crate) fn find_at(starts: &HashMap<u64, usize>, gaps: &[u64], place: usize) -> Option<usize>
    ensures { (low high : List ℕ) → IsCutAt gaps.now low high place → result ≡ at_first (get nat_eq starts.now) high }
{
    if place < gaps.len() {
        find(starts, gaps[place])
    } else {
        None
    }
}
