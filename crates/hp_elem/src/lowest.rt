//! The walk along a bucket to the lowest element with a tag.
ghost use Rattle.std.specs.Prelude.{◌≡◌, ℕ, Some, true, option_map};
ghost use Rattle.hp_chain.specs.Chain.{has_key, AreApart};
ghost use Rattle.hp_elem.specs.Order.{IsOrdered};
ghost use Rattle.hp_elem.specs.Tags.{list_from, entry_of, tag_number, tagged_start, number_in, place_at, IsLowest};
ghost use Rattle.hp_elem.specs.Lowest.{with_span, with_start};
ghost use Rattle.hp_elem.specs.Lowest as lowest;

use crate::chain::Chain;
use crate::link::Link;
use crate::search::has_tag;
use hp_base::{Span, Tag};

// The lowest element so far: its key, and where it begins.
#[derive(Clone, Copy, Drop)]
pub(crate) struct Lowest {
    pub(crate) key: usize,
    pub(crate) addr: u64,
}

// Of the elements in the bucket from a key on, the lowest one that is busy with the tag. All elements with the tag are in it.
pub(crate) fn lowest_in(
    links: &Vec<Link>,
    first: Option<u32>,
    chain: &Chain,
    tag: Tag,
) -> Option<usize>
    requires ordered { IsOrdered chain.now.items chain.now.key_end }
    requires all { (key addr : ℕ) → entry_of (tagged_start tag.zone tag.number) chain.now.items key ≡ Some addr
        → has_key key (list_from links.now.items first) ≡ true }
    requires known { (key : ℕ) → has_key key (list_from links.now.items first) ≡ true → has_key key chain.now.items ≡ true }
    requires numbers { number_in (place_at links.now.items) ≡ tag_number chain.now.items }
    ensures { IsLowest (entry_of (tagged_start tag.zone tag.number) chain.now.items) result }
{
    let mut best = None;
    let mut next = first;
    for _step in 0..links.len() {
        let Some(key) = next else {
            return key_of(best);
        };
        let Some(link) = links.get(key as usize) else {
            return key_of(best);
        };
        best = lower_at(best, key as usize, link.number, chain, tag);
        next = link.next;
    }
    key_of(best)
}

fn key_of(best: Option<Lowest>) -> Option<usize>
    ensures { result ≡ option_map (λ b. b.key) best }
{
    match best {
        Some(best) => Some(best.key),
        None => None,
    }
}

// The lower of the one so far and the element under a key, where that one has the tag. One with another number is not looked at.
fn lower_at(
    best: Option<Lowest>,
    key: usize,
    number: Option<u32>,
    chain: &Chain,
    tag: Tag,
) -> Option<Lowest>
    requires apart { AreApart chain.now.items }
    requires known { has_key key chain.now.items ≡ true }
    requires number { number ≡ tag_number chain.now.items key }
    ensures { result ≡ with_start best key (entry_of (tagged_start tag.zone tag.number) chain.now.items key) }
{
    let Some(own) = number else {
        return best;
    };
    if own != tag.number {
        return best;
    }
    lower(best, key, &chain.get(key).span, tag)
}

// The lower of the one so far and another element, where that one has the tag.
fn lower(best: Option<Lowest>, key: usize, span: &Span, tag: Tag) -> Option<Lowest>
    ensures { result ≡ with_span tag.zone tag.number best key span.now }
{
    if has_tag(&span.state, tag) {
        lower_of(best, key, span.addr)
    } else {
        best
    }
}

fn lower_of(best: Option<Lowest>, key: usize, addr: u64) -> Option<Lowest>
    ensures { result ≡ lowest.lower_of best key addr }
{
    match best {
        Some(best) if best.addr <= addr => Some(best),
        _ => Some(Lowest { key, addr }),
    }
}
