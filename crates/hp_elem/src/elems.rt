ghost use Rattle.std.specs.Prelude.{◌≡◌, ℕ, ◌+◌, ◌<◌, ◌≤◌, ◌^◌, [], Option, Some, None, true, false, length, OnOk, OnErr, IfSome};
ghost use Rattle.hp_base.specs.declared.span.SpanState.TheVariants.{Free, Busy};
ghost use Rattle.hp_chain.specs.Chain.{first_key, has_key};
ghost use Rattle.hp_chain.specs.Edits.{without_key};
ghost use Rattle.hp_elem.specs.Items.{IsAt, AreAt, Stands, IsInside, Touches, after_split, after_join, key_at, first_tagged, after_set, after_add};
ghost use Rattle.hp_elem.specs.Order.{IsOrdered, FitsBeside};
ghost use Rattle.hp_elem.specs.Index.{IsWalkStart};

use crate::chain::Chain;
use crate::node::Node;
use crate::tags::{Tags, number_of};
use crate::{gaps, starts};
use hp_base::{Span, SpanState, Tag};
use std::alloc::{AllocError, Global};
use std::collections::HashMap;
use std::marker::Model;

/// The elements of a heap. After the elements that struct malloc_heap of rte_malloc links by address.
#[derive(Drop)]
pub struct Elems {
    pub(crate) chain: Chain,
    pub(crate) starts: HashMap<u64, usize>,
    // The starts of the elements with a gap in front of them, rising.
    gaps: Vec<u64>,
    // The busy elements by the number of their tag. Out of use where a `reserve` made more keys and had no memory for it.
    tags: Tags,
    stamps: u64,
    spare: usize,
}

impl Model for Elems {
    ghost use Rattle.std.specs.Prelude.{length, nat_eq, vec_capacity};
    ghost use Rattle.std.specs.HashMap.{get, spare as spare_of};
    ghost use Rattle.hp_elem.specs.View.{ElemsView};
    ghost use Rattle.hp_elem.specs.Index.{IsIndexed, HasSpare};
    ghost use Rattle.hp_elem.specs.Tags.{IsNoted};

    ghost Value = { ElemsView };

    ghost view = { λ e. record { items = e.chain.items; stamps = e.stamps; spare = e.spare; key_end = e.chain.key_end } };

    ghost invariant = { λ e. IsIndexed e.chain.items e.chain.key_end (get nat_eq e.starts) e.gaps.items
        × HasSpare e.spare (length e.chain.items) e.chain.key_end (spare_of e.starts) (vec_capacity e.gaps)
        × IsNoted e.chain.items e.chain.key_end e.tags };
}

impl Elems {
    /// No elements, and no room for any. It takes no memory. Own.
    pub fn new(alloc: Global) -> Elems
        ensures items { result.items ≡ [] }
        ensures stamps { result.stamps ≡ 0 }
        ensures spare { result.spare ≡ 0 }
        ensures key_end { result.key_end ≡ 0 }
    {
        Elems {
            chain: Chain::new(alloc),
            starts: HashMap::new(alloc),
            gaps: Vec::new(alloc),
            tags: Tags::new(alloc),
            stamps: 0,
            spare: 0,
        }
    }

    /// Makes room for `n` more elements: the next `n` of `add` and `split` take no memory. Own.
    pub fn reserve(&mut self, n: usize) -> Result<(), AllocError>
        ensures room { OnOk result (n ≤ self.new.spare) }
        ensures err { OnErr result (self.new.spare ≡ self.old.spare) }

        // The room never shrinks, and nothing else changes.
        ensures spare { self.old.spare ≤ self.new.spare }
        ensures key_end { self.old.key_end ≤ self.new.key_end }
        ensures items { self.new.items ≡ self.old.items }
        ensures stamps { self.new.stamps ≡ self.old.stamps }
        ensures ordered { IsOrdered self.new.items self.new.key_end }
    {
        if n <= self.spare {
            return Ok(());
        }
        self.chain.reserve(n)?;
        self.starts.reserve(n)?;
        self.gaps.reserve(self.chain.key_end() - self.gaps.len())?;
        let alloc = *self.gaps.allocator();
        self.tags.cover(alloc, &self.chain)?;
        self.spare = n;
        Ok(())
    }

    /// The number that every key is below, those that `add` and `split` give until the next `reserve` among them. Own.
    pub fn key_end(&self) -> usize
        ensures key_end { result ≡ self.now.key_end }
        ensures ordered { IsOrdered self.now.items self.now.key_end }
    {
        self.chain.key_end()
    }

    /// How many elements there are. Own.
    pub fn len(&self) -> usize
        ensures { result ≡ length self.now.items }
    {
        self.chain.len()
    }

    /// The element of lowest address. After `first` of struct malloc_heap.
    pub fn first(&self) -> Option<usize>
        ensures { result ≡ first_key self.now.items None }
    {
        self.chain.first()
    }

    /// The header of the element under a key: the element, and the keys of its neighbours. After struct malloc_elem.
    pub fn get(&self, key: usize) -> &Node
        requires known { has_key key self.now.items ≡ true }
        ensures stands { Stands self.now.items key result.now }
    {
        self.chain.get(key)
    }

    /// The element that contains an address. An element's start and the address of its data are found in constant
    /// time; another address by a walk from the start of its extent. Own.
    pub fn at(&self, addr: u64) -> Option<usize>
        ensures { result ≡ key_at addr self.now.items }
    {
        if let Some(key) = self.near(addr) {
            return Some(key);
        }
        self.chain.find_address(self.walk_start(addr), addr)
    }

    // Where a walk to an address begins: the start of the last extent that begins below it.
    fn walk_start(&self, addr: u64) -> Option<usize>
        ensures { IsWalkStart self.now.items addr result }
    {
        let place = gaps::place_of(self.gaps.as_slice(), addr);
        if place == 0 {
            return self.chain.first();
        }
        let start = self.gaps[place - 1];
        let key = starts::find(&self.starts, start);
        if start <= addr && key.is_some() {
            key
        } else {
            self.chain.first()
        }
    }

    /// The element that is busy with a tag, of several the one of lowest address. Who asked for it is not compared. It
    /// looks at the busy elements alone whose numbers fall into one bucket, of which there are as many as keys. Own.
    pub fn find_tag(&self, tag: Tag) -> Option<usize>
        ensures { result ≡ first_tagged tag.zone tag.number self.now.items }
    {
        if self.chain.key_end() <= self.tags.room() {
            self.tags.find(&self.chain, tag)
        } else {
            self.chain.find_tag(tag)
        }
    }

    /// Adds an element where no other one has a byte. The key is its own.
    pub fn add(&mut self, span: Span) -> usize
        requires spare { 0 < self.old.spare }
        requires fits { FitsBeside span self.old.items }
        ensures items { self.new.items ≡ after_add (record { key = result; value = span }) self.old.items }
        ensures fresh { has_key result self.old.items ≡ false }
        ensures within { result < self.old.key_end }

        ensures spare { self.new.spare + 1 ≡ self.old.spare }
        ensures stamps { self.new.stamps ≡ self.old.stamps }
        ensures key_end { self.new.key_end ≡ self.old.key_end }
        ensures ordered { IsOrdered self.new.items self.new.key_end }
    {
        let place = gaps::place_of(self.gaps.as_slice(), span.addr);
        let next = starts::find_at(&self.starts, self.gaps.as_slice(), place);
        let before = self.chain.end_before(next);
        let key = self.chain.insert(span, next);
        starts::put(&mut self.starts, span.addr, key);
        gaps::close(&mut self.gaps, place, span.addr + span.whole);
        gaps::open(&mut self.gaps, place, before < span.addr, span.addr);
        self.tags.set(key, number_of(&span.state));
        self.spare -= 1;
        key
    }

    /// Cuts the element in two at an address inside it. Both parts have its state, and the key is that of the second.
    /// After split_elem of malloc_elem.
    pub fn split(&mut self, key: usize, at: u64) -> usize
        requires spare { 0 < self.old.spare }
        requires inside { IsAt (IsInside at) key self.old.items }
        ensures items { self.new.items ≡ after_split key at result self.old.items }
        ensures fresh { has_key result self.old.items ≡ false }
        ensures within { result < self.old.key_end }

        ensures spare { self.new.spare + 1 ≡ self.old.spare }
        ensures stamps { self.new.stamps ≡ self.old.stamps }
        ensures key_end { self.new.key_end ≡ self.old.key_end }
        ensures ordered { IsOrdered self.new.items self.new.key_end }
    {
        let number = number_of(&self.chain.get(key).span.state);
        let second = self.chain.split(key, at);
        starts::put(&mut self.starts, at, second);
        self.tags.set(second, number);
        self.spare -= 1;
        second
    }

    /// Joins the next element to one. The two are one element with the state of the first, and the key of the next
    /// is no longer in use. After join_elem of malloc_elem.
    pub fn join_next(&mut self, key: usize)
        requires next { AreAt Touches key self.old.items }
        ensures items { self.new.items ≡ after_join key self.old.items }

        ensures spare { self.new.spare ≡ self.old.spare }
        ensures stamps { self.new.stamps ≡ self.old.stamps }
        ensures key_end { self.new.key_end ≡ self.old.key_end }
        ensures ordered { IsOrdered self.new.items self.new.key_end }
    {
        let Span { addr, whole, .. } = self.chain.get(key).span;
        let next_addr = addr + whole;
        self.chain.join_next(key);
        let next = starts::take(&mut self.starts, next_addr);
        self.tags.forget(next);
    }

    /// Takes the element out, and its key is no longer in use. After malloc_elem_hide_region of malloc_elem.
    pub fn hide(&mut self, key: usize)
        requires known { has_key key self.old.items ≡ true }
        ensures items { self.new.items ≡ without_key key self.old.items }

        ensures spare { self.new.spare ≡ self.old.spare }
        ensures stamps { self.new.stamps ≡ self.old.stamps }
        ensures key_end { self.new.key_end ≡ self.old.key_end }
        ensures ordered { IsOrdered self.new.items self.new.key_end }
    {
        let Span { addr, whole, .. } = self.chain.get(key).span;
        let end = addr + whole;
        let place = gaps::place_of(self.gaps.as_slice(), addr);
        let adjacent = starts::find(&self.starts, end).is_some();
        self.chain.remove(key);
        starts::take(&mut self.starts, addr);
        gaps::close(&mut self.gaps, place, addr);
        gaps::open(&mut self.gaps, place, adjacent, end);
        self.tags.set(key, None);
    }

    /// Makes the element busy: `pad` bytes lie in front of its header, its data are `size` bytes, and `tag` says who
    /// asked for it. After ELEM_BUSY of malloc_elem.h; the tag is own.
    pub fn set_busy(&mut self, key: usize, pad: u64, size: u64, tag: Tag)
        requires known { has_key key self.old.items ≡ true }
        ensures items { self.new.items ≡ after_set key (Busy pad size tag) self.old.items }

        ensures spare { self.new.spare ≡ self.old.spare }
        ensures stamps { self.new.stamps ≡ self.old.stamps }
        ensures key_end { self.new.key_end ≡ self.old.key_end }
        ensures ordered { IsOrdered self.new.items self.new.key_end }
    {
        self.chain
            .set_state(key, SpanState::Busy { pad, size, tag });
        self.tags.set(key, Some(tag.number));
    }

    /// Makes the element free, with the next stamp. Stamps are counted from 1. After ELEM_FREE of malloc_elem.h; stamps
    /// are own.
    pub fn set_free(&mut self, key: usize)
        requires known { has_key key self.old.items ≡ true }
        requires stamps_left { self.old.stamps + 1 < 2 ^ 64 }
        ensures items { self.new.items ≡ after_set key (Free (self.old.stamps + 1)) self.old.items }
        ensures stamps { self.new.stamps ≡ self.old.stamps + 1 }

        ensures spare { self.new.spare ≡ self.old.spare }
        ensures key_end { self.new.key_end ≡ self.old.key_end }
        ensures ordered { IsOrdered self.new.items self.new.key_end }
    {
        self.stamps += 1;
        let stamp = self.stamps;
        self.chain.set_state(key, SpanState::Free { stamp });
        self.tags.set(key, None);
    }
}
