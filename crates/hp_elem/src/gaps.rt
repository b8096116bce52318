//! The starts of the elements with a gap in front of them, by rising address: the extents that elements cover.
ghost use Rattle.std.specs.Prelude.{◌≡◌, ℕ, ◌+◌, ◌<◌, ◌≤◌, ◌++◌, ◌∷◌, [], List, length, vec_len, vec_capacity, if◌then◌else◌};
ghost use Rattle.hp_elem.specs.Gaps.{SplitsAt, IsCutAt, without_first};

// How many of the starts lie below an address.
pub(crate) fn place_of(gaps: &[u64], addr: u64) -> usize
    ensures splits { SplitsAt gaps.now addr result }
    ensures within { result ≤ length gaps.now }
{
    let mut low = 0;
    let mut high = gaps.len();
    while low < high {
        let middle = low + (high - low) / 2;
        if gaps[middle] < addr {
            low = middle + 1;
        } else {
            high = middle;
        }
    }
    low
}

// Takes the start at a place out, where it is this address.
pub(crate) fn close(gaps: &mut Vec<u64>, place: usize, addr: u64)
    ensures gaps { (low high : List ℕ) → IsCutAt gaps.old.items low high place → gaps.new.items ≡ low ++ without_first addr high }
    ensures len { vec_len gaps.new ≤ vec_len gaps.old }
    ensures capacity { vec_capacity gaps.new ≡ vec_capacity gaps.old }
{
    if place < gaps.len() && gaps[place] == addr {
        gaps.remove(place);
    }
}

// Puts a start in at a place, where a gap opens. There is room for one more.
pub(crate) fn open(gaps: &mut Vec<u64>, place: usize, opens: bool, addr: u64)
    requires within { place ≤ vec_len gaps.old }
    requires room { vec_len gaps.old < vec_capacity gaps.old }
    ensures gaps { (low high : List ℕ) → IsCutAt gaps.old.items low high place
        → gaps.new.items ≡ low ++ ((if opens then addr ∷ [] else []) ++ high) }
    ensures capacity { vec_capacity gaps.new ≡ vec_capacity gaps.old }
{
    if opens {
        let _ = gaps.insert(place, addr);
    }
}
