ghost use Rattle.std.specs.Prelude.{◌≡◌, ℕ, ◌+◌, ◌<◌, ◌≤◌, ◌^◌, ◌++◌, [], Option, Some, None, true, false, length, OnOk};
ghost use Rattle.hp_base.specs.declared.span.Span.{Span};
ghost use Rattle.hp_chain.specs.Chain.{AreApart, first_key, has_key};
ghost use Rattle.hp_chain.specs.Edits.{without_key};
ghost use Rattle.hp_elem.specs.Order.{IsOrdered};
ghost use Rattle.hp_elem.specs.Index.{reach};
ghost use Rattle.hp_elem.specs.Items.{Items, IsAt, AreAt, Stands, IsBetween, IsInside, HasKey, IsCutFrom, key_at, first_tagged, after_split, after_join, after_set, before};

use crate::edits::{end_unless, link_between, set_state, set_whole, unlink};
use crate::node::Node;
use crate::search;
use hp_base::{Span, SpanState, Tag};
use slab::Slab;
use std::alloc::{AllocError, Global};
use std::marker::Model;

/// Elements in an order, each linked to its neighbours. Contracts see them as a list. Own.
#[derive(Drop)]
pub(crate) struct Chain {
    slots: Slab<Node>,
    first: Option<usize>,
    last: Option<usize>,
}

impl Model for Chain {
    ghost use Rattle.hp_elem.specs.View.{ChainView};
    ghost use Rattle.hp_elem.specs.Links.{IsLinked, items_of};

    ghost Value = { ChainView };

    ghost view = { λ c. record { items = items_of c.slots c.first; key_end = c.slots.capacity } };

    ghost invariant = { λ c. IsLinked c.slots c.first c.last (items_of c.slots c.first) };
}

impl Chain {
    /// No elements, and no room for any.
    pub(crate) fn new(alloc: Global) -> Chain
        ensures items { result.items ≡ [] }
        ensures key_end { result.key_end ≡ 0 }
    {
        Chain {
            slots: Slab::new(alloc),
            first: None,
            last: None,
        }
    }

    /// Makes room for `additional` more.
    pub(crate) fn reserve(&mut self, additional: usize) -> Result<(), AllocError>
        ensures room { OnOk result (length self.new.items + additional ≤ self.new.key_end) }
        ensures items { self.new.items ≡ self.old.items }
        ensures key_end { self.old.key_end ≤ self.new.key_end }
    {
        self.slots.reserve(additional)
    }

    /// How many there are.
    pub(crate) fn len(&self) -> usize
        ensures { result ≡ length self.now.items }
    {
        self.slots.len()
    }

    /// The number that every key is below.
    pub(crate) fn key_end(&self) -> usize
        ensures { result ≡ self.now.key_end }
    {
        self.slots.capacity()
    }

    /// The first one.
    pub(crate) fn first(&self) -> Option<usize>
        ensures { result ≡ first_key self.now.items None }
    {
        self.first
    }

    /// The header under a key.
    pub(crate) fn get(&self, key: usize) -> &Node
        requires known { has_key key self.now.items ≡ true }
        ensures stands { Stands self.now.items key result.now }
    {
        &self.slots[key]
    }

    /// Puts one in front of another, or after all where there is no other.
    pub(crate) fn insert(&mut self, span: Span, next: Option<usize>) -> usize
        requires room { length self.old.items < self.old.key_end }
        requires next { HasKey next self.old.items }
        ensures items { self.new.items ≡ before next (record { key = result; value = span }) self.old.items }
        ensures fresh { has_key result self.old.items ≡ false }
        ensures within { result < self.old.key_end }
        ensures apart { AreApart self.new.items }
        ensures key_end { self.new.key_end ≡ self.old.key_end }
    {
        let prev = self.prev_of(next);
        let key = link_between(&mut self.slots, prev, span, next);
        self.first = end_unless(prev, self.first, Some(key));
        self.last = end_unless(next, self.last, Some(key));
        key
    }

    // The key before another one, or the last of all where there is no other.
    fn prev_of(&self, next: Option<usize>) -> Option<usize>
        requires next { HasKey next self.now.items }
        ensures { IsBetween self.now.items result next }
    {
        match next {
            Some(next) => self.slots[next].prev,
            None => self.last,
        }
    }

    /// Where the one before another ends, or the last of all where there is no other; 0 where there is none before.
    pub(crate) fn end_before(&self, next: Option<usize>) -> u64
        requires next { HasKey next self.now.items }
        requires ordered { IsOrdered self.now.items self.now.key_end }
        ensures { (front back : Items) → self.now.items ≡ front ++ back → next ≡ first_key back None
            → result ≡ reach 0 front }
    {
        match self.prev_of(next) {
            Some(prev) => {
                let Span { addr, whole, .. } = self.get(prev).span;
                addr + whole
            }
            None => 0,
        }
    }

    /// Cuts one in two at an address inside it. The key is that of the second part.
    pub(crate) fn split(&mut self, key: usize, at: u64) -> usize
        requires room { length self.old.items < self.old.key_end }
        requires inside { IsAt (IsInside at) key self.old.items }
        ensures items { self.new.items ≡ after_split key at result self.old.items }
        ensures fresh { has_key result self.old.items ≡ false }
        ensures within { result < self.old.key_end }
        ensures apart { AreApart self.new.items }
        ensures key_end { self.new.key_end ≡ self.old.key_end }
    {
        let Node { span, next, .. } = self.slots[key];
        let lower = at - span.addr;
        set_whole(&mut self.slots, key, lower);
        let upper = Span {
            addr: at,
            whole: span.whole - lower,
            ..span
        };
        let second = link_between(&mut self.slots, Some(key), upper, next);
        self.last = end_unless(next, self.last, Some(second));
        second
    }

    /// Joins the next one to one, which keeps its state.
    pub(crate) fn join_next(&mut self, key: usize)
        requires next { AreAt (λ one next. one.whole + next.whole < 2 ^ 64) key self.old.items }
        ensures items { self.new.items ≡ after_join key self.old.items }
        ensures apart { AreApart self.new.items }
        ensures key_end { self.new.key_end ≡ self.old.key_end }
    {
        let Node { span, next, .. } = self.slots[key];
        let next = next.unwrap();
        let Node {
            span: taken,
            next: behind,
            ..
        } = self.slots[next];
        let whole = span.whole + taken.whole;
        unlink(&mut self.slots, next);
        set_whole(&mut self.slots, key, whole);
        self.last = end_unless(behind, self.last, Some(key));
    }

    /// Takes one out.
    pub(crate) fn remove(&mut self, key: usize)
        requires known { has_key key self.old.items ≡ true }
        ensures items { self.new.items ≡ without_key key self.old.items }
        ensures apart { AreApart self.new.items }
        ensures key_end { self.new.key_end ≡ self.old.key_end }
    {
        let Node { prev, next, .. } = self.slots[key];
        unlink(&mut self.slots, key);
        self.first = end_unless(prev, self.first, next);
        self.last = end_unless(next, self.last, prev);
    }

    /// Gives one another state.
    pub(crate) fn set_state(&mut self, key: usize, state: SpanState)
        requires known { has_key key self.old.items ≡ true }
        ensures items { self.new.items ≡ after_set key state self.old.items }
        ensures apart { AreApart self.new.items }
        ensures key_end { self.new.key_end ≡ self.old.key_end }
    {
        set_state(&mut self.slots, key, state);
    }

    /// The one that contains an address, from a key on. The walk ends where one begins above the address.
    pub(crate) fn find_address(&self, from: Option<usize>, addr: u64) -> Option<usize>
        requires from { IsCutFrom self.now.items from }
        requires ordered { IsOrdered self.now.items self.now.key_end }
        ensures { (front back : Items) → self.now.items ≡ front ++ back → from ≡ first_key back None
            → result ≡ key_at addr back }
    {
        search::find_address(&self.slots, from, addr)
    }

    /// The first one that is busy with a tag.
    pub(crate) fn find_tag(&self, tag: Tag) -> Option<usize>
        ensures { result ≡ first_tagged tag.zone tag.number self.now.items }
    {
        search::find_tag(&self.slots, self.first, tag)
    }
}
