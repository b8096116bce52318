ghost use Rattle.std.specs.Prelude.{◌≡◌, ◌<◌, ◌≤◌, ◌∷◌, OnOk, vec_len};
ghost use Rattle.hp_freelist.specs.Links.{list_from};
ghost use Rattle.hp_freelist.specs.Greatest.{IsGreatest};
ghost use Rattle.hp_freelist.specs.Kept.{KeepsGreatest, HasWithin, StoodAfter, IsMended, IsKeptOf};

use crate::link::Link;
use std::alloc::AllocError;

/// Makes room for what is kept of the keys below `n`.
pub fn widen(greatests: &mut Vec<usize>, n: usize) -> Result<(), AllocError>
    ensures kept { IsKeptOf greatests.old.items greatests.new.items }
    ensures room { OnOk result (n ≤ vec_len greatests.new) }
    ensures len { vec_len greatests.old ≤ vec_len greatests.new }
{
    if n <= greatests.len() {
        return Ok(());
    }
    greatests.resize(n, 0)
}

/// The key of the greatest of a list that begins with this key, and goes on with the list from `next` on.
pub fn greatest_with(
    greatests: &Vec<usize>,
    links: &Vec<Link>,
    key: usize,
    whole: u64,
    next: Option<u32>,
) -> usize
    requires kept { KeepsGreatest greatests.now.items (list_from links.now.items next) }
    requires within { HasWithin links.now.items greatests.now.items next }
    ensures { IsGreatest ((record { key = key; value = whole }) ∷ list_from links.now.items next) result }
{
    let Some(next) = next else {
        return key;
    };
    let greatest = greatests[next as usize];
    if links[greatest].whole > whole {
        greatest
    } else {
        key
    }
}

/// After a key left its list, in which it came after `prev`: those before it that had it for their greatest get another.
/// They stand together, and end where the key stood.
pub fn mend(greatests: &mut Vec<usize>, links: &Vec<Link>, key: usize, prev: Option<u32>)
    requires stood { StoodAfter links.now.items greatests.old.items key prev }
    ensures mended { IsMended links.now.items greatests.old.items greatests.new.items key prev }
    ensures len { vec_len greatests.new ≡ vec_len greatests.old }
{
    let mut before = prev;
    for _step in 0..links.len() {
        let Some(at) = before else {
            return;
        };
        let at = at as usize;
        if greatests[at] != key {
            return;
        }
        let link = links[at];
        greatests[at] = greatest_with(greatests, links, at, link.whole, link.next);
        before = link.prev;
    }
}
