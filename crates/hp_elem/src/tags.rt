ghost use Rattle.std.specs.Prelude.{◌≡◌, ℕ, [], ◌<◌, ◌≤◌, Some, None, length, IfOk, OnOk};
ghost use Rattle.hp_elem.specs.Items.{first_tagged};
ghost use Rattle.hp_elem.specs.Order.{IsOrdered};
ghost use Rattle.hp_elem.specs.Tags.{number_at, with_entry, tag_number, IsNoted};
ghost use Rattle.hp_elem.specs.Tags as tags;

use crate::chain::Chain;
use crate::filing::refile;
use crate::link::{Link, MAX_KEYS, UNLINKED};
use crate::lowest::lowest_in;
use hp_base::{SpanState, Tag};
use std::alloc::{AllocError, Global};
use std::marker::Model;

// An index of elements by the number of their tag: a bucket for each key that there is room for, each a chain of the keys
// whose numbers fall into it. Contracts see the number under each key.
#[derive(Drop)]
pub(crate) struct Tags {
    links: Vec<Link>,
    firsts: Vec<Option<u32>>,
}

impl Model for Tags {
    ghost use Rattle.std.specs.Prelude.{ℕ, ◌≤◌, List, Option, vec_len};
    ghost use Rattle.hp_elem.specs.declared.link.TheConstants.{MAX_KEYS};
    ghost use Rattle.hp_elem.specs.Tags.{numbers_of, AreFiled};

    ghost Value = { List (Option ℕ) };

    ghost view = { λ t. numbers_of t.links.items };

    ghost invariant = { λ t. AreFiled t.links.items t.firsts.items × (vec_len t.links ≤ MAX_KEYS) };
}

impl Tags {
    // No room for any key. It takes no memory.
    pub(crate) fn new(alloc: Global) -> Tags
        ensures { result ≡ [] }
    {
        Tags {
            links: Vec::new(alloc),
            firsts: Vec::new(alloc),
        }
    }

    // Room for the keys below `room`, none of which has a number.
    fn with_room(alloc: Global, room: usize) -> Result<Tags, AllocError>
        ensures none { IfOk result (λ t. (key : ℕ) → number_at t key ≡ None) }
        ensures room { IfOk result (λ t. length t ≡ room) }
    {
        if room > MAX_KEYS {
            return Err(AllocError);
        }
        Ok(Tags {
            links: vec![in alloc; UNLINKED; room]?,
            firsts: vec![in alloc; None; room]?,
        })
    }

    // The number that each key is below which it has room for.
    pub(crate) fn room(&self) -> usize
        ensures { result ≡ length self.now }
    {
        self.links.len()
    }

    // The index of the elements of a chain, with room for all its keys.
    fn of_chain(alloc: Global, chain: &Chain) -> Result<Tags, AllocError>
        requires ordered { IsOrdered chain.now.items chain.now.key_end }
        ensures numbers { IfOk result (λ t. number_at t ≡ tag_number chain.now.items) }
        ensures room { IfOk result (λ t. length t ≡ chain.now.key_end) }
    {
        let mut tags = Tags::with_room(alloc, chain.key_end())?;
        let mut next = chain.first();
        for _step in 0..chain.len() {
            let Some(key) = next else {
                return Ok(tags);
            };
            let node = chain.get(key);
            tags.set(key, number_of(&node.span.state));
            next = node.next;
        }
        Ok(tags)
    }

    // Makes room for all keys of a chain. Where there is too little, the index is built anew.
    pub(crate) fn cover(&mut self, alloc: Global, chain: &Chain) -> Result<(), AllocError>
        requires ordered { IsOrdered chain.now.items chain.now.key_end }
        requires noted { IsNoted chain.now.items chain.now.key_end self.old }
        ensures noted { IsNoted chain.now.items chain.now.key_end self.new }
        ensures room { OnOk result (chain.now.key_end ≤ length self.new) }
    {
        if self.room() < chain.key_end() {
            *self = Tags::of_chain(alloc, chain)?;
        }
        Ok(())
    }

    // Files a key under another number, or under none. A key that there is no room for stays out.
    pub(crate) fn set(&mut self, key: usize, number: Option<u32>)
        ensures number { key < length self.old → number_at self.new ≡ with_entry key number (number_at self.old) }
        ensures len { length self.new ≡ length self.old }
    {
        if key < self.links.len() {
            refile(&mut self.links, &mut self.firsts, key, number);
        }
    }

    // Files a key under no number, where there is a key.
    pub(crate) fn forget(&mut self, key: Option<usize>)
        ensures number { (k : ℕ) → key ≡ Some k → k < length self.old → number_at self.new ≡ with_entry k None (number_at self.old) }
        ensures len { length self.new ≡ length self.old }
    {
        if let Some(key) = key {
            self.set(key, None);
        }
    }

    // Of the elements that are busy with a tag, the one of lowest address.
    pub(crate) fn find(&self, chain: &Chain, tag: Tag) -> Option<usize>
        requires ordered { IsOrdered chain.now.items chain.now.key_end }
        requires numbers { number_at self.now ≡ tag_number chain.now.items }
        ensures { result ≡ first_tagged tag.zone tag.number chain.now.items }
    {
        if self.firsts.is_empty() {
            return None;
        }
        let bucket = tag.number as usize % self.firsts.len();
        lowest_in(&self.links, self.firsts[bucket], chain, tag)
    }
}

// The number of a busy element's tag.
pub(crate) fn number_of(state: &SpanState) -> Option<u32>
    ensures { result ≡ tags.number_of state.now }
{
    match state {
        SpanState::Free { .. } => None,
        SpanState::Busy { tag, .. } => Some(tag.number),
    }
}
