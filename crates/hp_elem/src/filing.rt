//! How a key comes into its bucket, and out of it.
ghost use Rattle.std.specs.Prelude.{◌≡◌, ℕ, ◌<◌, ◌≤◌, Some, None, vec_len, slice_set, slice_index_or, is_none, if◌then◌else◌, ◌%◌};
ghost use Rattle.hp_elem.specs.declared.link.TheConstants.{MAX_KEYS};
ghost use Rattle.hp_elem.specs.Tags.{AreFiled, place_at, number_in, with_entry, IsLinkOf};

use crate::link::{Link, UNLINKED, set_link, set_next, set_prev};

// Files a key under another number, or under none.
pub(crate) fn refile(
    links: &mut Vec<Link>,
    firsts: &mut Vec<Option<u32>>,
    key: usize,
    number: Option<u32>,
)
    requires filed { AreFiled links.old.items firsts.old.items }
    requires room { key < vec_len links.old }
    requires few { vec_len links.old ≤ MAX_KEYS }
    ensures filed { AreFiled links.new.items firsts.new.items }
    ensures numbers { number_in (place_at links.new.items) ≡ with_entry key number (number_in (place_at links.old.items)) }
    ensures len { vec_len links.new ≡ vec_len links.old }
{
    clear(links, firsts, key);
    if let Some(number) = number {
        put(links, firsts, key, number);
    }
}

// Takes a key out of its bucket, where it is in one.
fn clear(links: &mut Vec<Link>, firsts: &mut Vec<Option<u32>>, key: usize)
    requires filed { AreFiled links.old.items firsts.old.items }
    requires room { key < vec_len links.old }
    ensures filed { AreFiled links.new.items firsts.new.items }
    ensures numbers { number_in (place_at links.new.items) ≡ with_entry key None (number_in (place_at links.old.items)) }
    ensures len { vec_len links.new ≡ vec_len links.old }
{
    if let Some(number) = links[key].number {
        take_out(links, firsts, key, number);
    }
}

// Files a key under a number: it is the first of its bucket.
fn put(links: &mut Vec<Link>, firsts: &mut Vec<Option<u32>>, key: usize, number: u32)
    requires filed { AreFiled links.old.items firsts.old.items }
    requires room { key < vec_len links.old }
    requires few { vec_len links.old ≤ MAX_KEYS }
    requires none { number_in (place_at links.old.items) key ≡ None }
    ensures filed { AreFiled links.new.items firsts.new.items }
    ensures numbers { number_in (place_at links.new.items) ≡ with_entry key (Some number) (number_in (place_at links.old.items)) }
    ensures len { vec_len links.new ≡ vec_len links.old }
{
    let bucket = number as usize % firsts.len();
    let next = firsts[bucket];
    let head = Some(key as u32);
    set_prev(links, next, head);
    let link = Link {
        prev: None,
        next,
        number: Some(number),
    };
    set_link(links, key, link);
    firsts[bucket] = head;
}

// Takes a key out of the bucket of its number: the two beside it name each other.
fn take_out(links: &mut Vec<Link>, firsts: &mut Vec<Option<u32>>, key: usize, number: u32)
    requires filed { AreFiled links.old.items firsts.old.items }
    requires number { number_in (place_at links.old.items) key ≡ Some number }
    ensures filed { AreFiled links.new.items firsts.new.items }
    ensures numbers { number_in (place_at links.new.items) ≡ with_entry key None (number_in (place_at links.old.items)) }
    ensures len { vec_len links.new ≡ vec_len links.old }
{
    let link = link_of(links, firsts, key);
    set_next(links, link.prev, link.next);
    set_prev(links, link.next, link.prev);
    set_link(links, key, UNLINKED);
    lead(firsts, link, number);
}

// What is kept of a key that is in a bucket.
fn link_of(links: &Vec<Link>, firsts: &Vec<Option<u32>>, key: usize) -> Link
    requires filed { AreFiled links.now.items firsts.now.items }
    requires number { (number : ℕ) × (number_in (place_at links.now.items) key ≡ Some number) }
    ensures { IsLinkOf links.now.items (vec_len links.now) key result }
{
    links[key]
}

// Where a key that leaves its bucket is the first of it, the next one becomes the first.
fn lead(firsts: &mut Vec<Option<u32>>, link: Link, number: u32)
    requires { 0 < vec_len firsts.old }
    ensures firsts { firsts.new.items ≡ (if is_none link.prev
        then slice_set firsts.old.items (number % vec_len firsts.old) link.next else firsts.old.items) }
{
    if link.prev.is_none() {
        let bucket = number as usize % firsts.len();
        firsts[bucket] = link.next;
    }
}
