ghost use Rattle.std.specs.Prelude.{◌≡◌, ◌≤◌, ℕ, true, false};
ghost use Rattle.std.specs.List.{AllByRecursion};
ghost use Rattle.hp_chain.specs.Chain.{has_key};
ghost use Rattle.hp_freelist.specs.Links.{list_from};
ghost use Rattle.hp_freelist.specs.Kept.{KeepsGreatest, HasWithin};
ghost use Rattle.hp_freelist.specs.Search.{keys_of, IsFirstPassing, SmallFails};

use crate::link::Link;

/// The first key that passes the test in the list from a key on.
pub fn first_in<F: Fn(usize) -> bool>(
    links: &Vec<Link>,
    first: Option<u32>,
    test: &F,
) -> Option<usize>
    requires { (key : ℕ) → has_key key (list_from links.now.items first) ≡ true → F.pre test.now key }
    ensures { IsFirstPassing (F.post test.now) (keys_of (list_from links.now.items first)) result }
{
    let mut next = first;
    for _step in 0..links.len() {
        let Some(key) = next else {
            return None;
        };
        let Some(link) = links.get(key as usize) else {
            return None;
        };
        if test(key as usize) {
            return Some(key as usize);
        }
        next = link.next;
    }
    None
}

/// The first key of a list that passes a test, where no key with at most so many bytes passes it: these are not asked, and a list that
/// has none above is not walked.
pub fn first_above<F: Fn(usize) -> bool>(
    links: &Vec<Link>,
    greatests: &Vec<usize>,
    first: Option<u32>,
    most: u64,
    test: &F,
) -> Option<usize>
    requires kept { KeepsGreatest greatests.now.items (list_from links.now.items first) }
    requires within { HasWithin links.now.items greatests.now.items first }
    requires callable { (key : ℕ) → has_key key (list_from links.now.items first) ≡ true → F.pre test.now key }
    requires small { SmallFails (F.post test.now) most (list_from links.now.items first) }
    ensures { IsFirstPassing (F.post test.now) (keys_of (list_from links.now.items first)) result }
{
    if has_above(links, greatests, first, most) {
        walk_above(links, first, most, test)
    } else {
        None
    }
}

/// Whether a list has an element with more bytes. Its greatest one is kept.
fn has_above(links: &Vec<Link>, greatests: &Vec<usize>, first: Option<u32>, most: u64) -> bool
    requires kept { KeepsGreatest greatests.now.items (list_from links.now.items first) }
    requires within { HasWithin links.now.items greatests.now.items first }
    ensures { result ≡ false → AllByRecursion (λ e. e.value ≤ most) (list_from links.now.items first) }
{
    let Some(first) = first else {
        return false;
    };
    links[greatests[first as usize]].whole > most
}

/// The first key that passes, by a walk. The size stands in the link, so most elements are passed over without a call of the test.
fn walk_above<F: Fn(usize) -> bool>(
    links: &Vec<Link>,
    first: Option<u32>,
    most: u64,
    test: &F,
) -> Option<usize>
    requires callable { (key : ℕ) → has_key key (list_from links.now.items first) ≡ true → F.pre test.now key }
    requires small { SmallFails (F.post test.now) most (list_from links.now.items first) }
    ensures { IsFirstPassing (F.post test.now) (keys_of (list_from links.now.items first)) result }
{
    let mut next = first;
    for _step in 0..links.len() {
        let Some(key) = next else {
            return None;
        };
        let Some(link) = links.get(key as usize) else {
            return None;
        };
        if passes(test, key as usize, link.whole, most) {
            return Some(key as usize);
        }
        next = link.next;
    }
    None
}

/// Whether a key passes. One with at most so many bytes is not asked.
fn passes<F: Fn(usize) -> bool>(test: &F, key: usize, whole: u64, most: u64) -> bool
    requires callable { F.pre test.now key }
    requires small { whole ≤ most → F.post test.now key false }
    ensures { F.post test.now key result }
{
    whole > most && test(key)
}
