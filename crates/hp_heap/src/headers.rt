ghost use Rattle.std.specs.Prelude.{◌≡◌, ℕ, ◌+◌, ◌<◌, ◌≤◌, ◌^◌, [], true, false, Option, Some, None, OnOk};
ghost use Rattle.hp_base.specs.declared.span.SpanState.TheVariants.{Free, Busy};
ghost use Rattle.hp_chain.specs.Chain.{first_key, has_key, AreApart};
ghost use Rattle.hp_chain.specs.Edits.{without_key};
ghost use Rattle.hp_elem.specs.Items.{IsAt, AreAt, Stands, after_split, after_join, after_set, after_add, key_at, key_from, first_tagged};
ghost use Rattle.hp_elem.specs.Order.{FitsBeside, IsRising};
ghost use Rattle.std.specs.List.{filter};
ghost use Rattle.hp_heap.specs.PlainHeap.{is_free};
ghost use Rattle.hp_heap.specs.Statistics.{greatest_whole, statistics_of_ranges};
ghost use Rattle.hp_heap.specs.Headers.{spans_of, exact_lists, IsFree, IsBusy, CanSplit, CanJoin, CanInsert, FindsFirstFree};

use crate::totals::Totals;
use hp_base::{HEADER, Span, Stats, Tag, class_of};
use hp_elem::{Elems, Node};
use hp_freelist::Lists;
use std::alloc::{AllocError, Global};
use std::marker::Model;

/// The elements of a heap with their free lists, which contracts do not see: each list has the free elements of its
/// class, the one inserted last at the head. A free element is made busy before it is cut or joined, and what comes of
/// it is inserted again, so only `take` and `insert` change the lists. Own.
#[derive(Drop)]
pub(crate) struct Headers {
    elems: Elems,
    lists: Lists,
    totals: Totals,
    // The class whose list an element was inserted into last. A hint: any number may stand here.
    latest: u8,
}

impl Model for Headers {
    ghost use Rattle.hp_heap.specs.Headers.{HeadersView};
    ghost use Rattle.hp_heap.specs.Tie.{spare_of, starts_of};
    ghost use Rattle.hp_heap.specs.Totals.{AreKept};

    ghost Value = { HeadersView };

    ghost view = { λ h. record { items = h.elems.items; lists = starts_of h.elems.items h.lists.lists; spare = spare_of h.elems h.lists; insertions = h.elems.stamps } };

    ghost invariant = { λ h. AreKept h.elems h.lists h.totals };
}

impl Headers {
    /// No elements, and no room for any. It takes no memory.
    pub(crate) fn new(alloc: Global) -> Headers
        ensures items { result.items ≡ [] }
        ensures lists { result.lists ≡ exact_lists [] }
        ensures spare { result.spare ≡ 0 }
        ensures insertions { result.insertions ≡ 0 }
    {
        Headers {
            elems: Elems::new(alloc),
            lists: Lists::new(alloc),
            totals: Totals {
                total: 0,
                free: 0,
                frees: 0,
            },
            latest: 0,
        }
    }

    /// Makes room for `n` more elements. After a refusal there may be no room at all.
    pub(crate) fn reserve(&mut self, n: usize) -> Result<(), AllocError>
        ensures room { OnOk result (n ≤ self.new.spare) }
        ensures spare { OnOk result (self.old.spare ≤ self.new.spare) }
        ensures items { self.new.items ≡ self.old.items }
        ensures lists { self.new.lists ≡ self.old.lists }
        ensures insertions { self.new.insertions ≡ self.old.insertions }
    {
        self.elems.reserve(n)?;
        self.lists.reserve(self.elems.key_end())
    }

    /// The statistics of the elements, in constant time. Of the sums that are kept, and of the greatest that the free lists keep.
    pub(crate) fn statistics(&self) -> Stats
        ensures { result ≡ statistics_of_ranges (spans_of self.now.items) }
    {
        let Totals { total, free, frees } = self.totals;
        Stats {
            total,
            free,
            used: total - free,
            greatest: self.greatest(),
            busy: self.elems.len() as u64 - frees,
            frees,
        }
    }

    // The bytes of the greatest free element, 0 where there is none.
    fn greatest(&self) -> u64
        ensures { result ≡ greatest_whole (filter is_free (spans_of self.now.items)) }
    {
        match self.lists.greatest() {
            Some(key) => self.elems.get(key).span.whole,
            None => 0,
        }
    }

    /// What holds of all headers: the linked lists are exactly the free lists that the elements have to have. It does
    /// nothing.
    pub(crate) fn sound(&self)
        ensures { self.now.lists ≡ exact_lists (spans_of self.now.items) }
    {
        let _ = &self.lists;
    }

    /// The element of lowest address.
    pub(crate) fn first(&self) -> Option<usize>
        ensures { result ≡ first_key self.now.items None }
    {
        self.elems.first()
    }

    /// The header of the element under a key: the element, and the keys of its neighbours.
    pub(crate) fn get(&self, key: usize) -> &Node
        requires known { has_key key self.now.items ≡ true }
        ensures stands { Stands self.now.items key result.now }
    {
        self.elems.get(key)
    }

    /// The element that contains an address.
    pub(crate) fn at(&self, addr: u64) -> Option<usize>
        ensures { result ≡ key_at addr self.now.items }
    {
        self.elems.at(addr)
    }

    /// The element that begins at an address.
    pub(crate) fn starting_at(&self, addr: u64) -> Option<usize>
        ensures { result ≡ key_from addr self.now.items }
    {
        self.elems.starting_at(addr)
    }

    /// The element that is busy with a tag, of several the one of lowest address. Who asked for it is not compared.
    pub(crate) fn find_tag(&self, tag: Tag) -> Option<usize>
        ensures { result ≡ first_tagged tag.zone tag.number self.now.items }
    {
        self.elems.find_tag(tag)
    }

    /// The first free element that passes the test, in the order of the search: from the list of a class upwards, and in
    /// each list the one inserted last first.
    pub(crate) fn first_from<F: Fn(usize) -> bool>(&self, class: u8, test: F) -> Option<usize>
        requires class { class ≤ 12 }
        requires callable { (key : ℕ) → IsAt IsFree key self.now.items → F.pre test key }
        ensures { FindsFirstFree (F.post test) class self.now.items result }
    {
        self.lists.first_from(class, test)
    }

    /// The class whose list an element was inserted into last, or any other one.
    pub(crate) fn latest_class(&self) -> u8
        ensures { result ≤ 12 }
    {
        self.latest.min(12)
    }

    /// The first free element from a class on that passes a test, where none with at most so many bytes passes it: these are not looked at.
    pub(crate) fn first_above<F: Fn(usize) -> bool>(
        &self,
        class: u8,
        most: u64,
        test: F,
    ) -> Option<usize>
        requires class { class ≤ 12 }
        requires callable { (key : ℕ) → IsAt IsFree key self.now.items → F.pre test key }
        requires small { (key : ℕ) → IsAt (λ span. span.whole ≤ most) key self.now.items → F.post test key false }
        ensures { FindsFirstFree (F.post test) class self.now.items result }
    {
        self.lists.first_above(class, most, test)
    }

    /// Makes a free element busy: it leaves its free list.
    pub(crate) fn take(&mut self, key: usize, pad: u64, size: u64, tag: Tag)
        requires free { IsAt IsFree key self.old.items }
        ensures items { self.new.items ≡ after_set key (Busy pad size tag) self.old.items }
        ensures spare { self.new.spare ≡ self.old.spare }
        ensures insertions { self.new.insertions ≡ self.old.insertions }
        ensures apart { AreApart self.new.items }
    {
        let whole = self.elems.get(key).span.whole;
        self.lists.remove(key);
        self.elems.set_busy(key, pad, size, tag);
        self.totals = Totals {
            free: self.totals.free - whole,
            frees: self.totals.frees - 1,
            ..self.totals
        };
    }

    /// Makes a busy element free, with the next stamp, at the head of its free list.
    pub(crate) fn insert(&mut self, key: usize)
        requires busy { IsAt CanInsert key self.old.items }
        requires stamps { self.old.insertions + 1 < 2 ^ 64 }
        ensures items { self.new.items ≡ after_set key (Free (self.old.insertions + 1)) self.old.items }
        ensures spare { self.new.spare ≡ self.old.spare }
        ensures insertions { self.new.insertions ≡ self.old.insertions + 1 }
        ensures apart { AreApart self.new.items }
    {
        let whole = self.elems.get(key).span.whole;
        self.latest = class_of(whole - HEADER);
        self.elems.set_free(key);
        self.lists.insert_head(key, whole);
        self.totals = Totals {
            free: self.totals.free + whole,
            frees: self.totals.frees + 1,
            ..self.totals
        };
    }

    /// Gives a busy element another pad, size and tag.
    pub(crate) fn set_busy(&mut self, key: usize, pad: u64, size: u64, tag: Tag)
        requires busy { IsAt IsBusy key self.old.items }
        ensures items { self.new.items ≡ after_set key (Busy pad size tag) self.old.items }
        ensures spare { self.new.spare ≡ self.old.spare }
        ensures insertions { self.new.insertions ≡ self.old.insertions }
        ensures apart { AreApart self.new.items }
    {
        self.elems.set_busy(key, pad, size, tag);
    }

    /// Cuts a busy element in two at an address inside it. Both parts have its state, and the key is that of the second.
    pub(crate) fn split(&mut self, key: usize, at: u64) -> usize
        requires spare { 0 < self.old.spare }
        requires busy { IsAt (CanSplit at) key self.old.items }
        ensures items { self.new.items ≡ after_split key at result self.old.items }
        ensures fresh { has_key result self.old.items ≡ false }
        ensures spare { self.new.spare + 1 ≡ self.old.spare }
        ensures insertions { self.new.insertions ≡ self.old.insertions }
        ensures apart { AreApart self.new.items }
    {
        self.elems.split(key, at)
    }

    /// Joins the next element to a busy one, both of one segment list. The two are one element with the state of the
    /// first, and the key of the next is no longer in use.
    pub(crate) fn join(&mut self, key: usize)
        requires busy { AreAt CanJoin key self.old.items }
        ensures items { self.new.items ≡ after_join key self.old.items }
        ensures spare { self.new.spare ≡ self.old.spare }
        ensures insertions { self.new.insertions ≡ self.old.insertions }
        ensures apart { AreApart self.new.items }
    {
        self.elems.join_next(key);
    }

    /// Takes a busy element out, and its key is no longer in use.
    pub(crate) fn hide(&mut self, key: usize)
        requires busy { IsAt IsBusy key self.old.items }
        ensures items { self.new.items ≡ without_key key self.old.items }
        ensures spare { self.new.spare ≡ self.old.spare }
        ensures insertions { self.new.insertions ≡ self.old.insertions }
        ensures apart { AreApart self.new.items }
    {
        let whole = self.elems.get(key).span.whole;
        self.elems.hide(key);
        self.totals.total -= whole;
    }

    /// Adds a busy element where no other one has a byte. The key is its own.
    pub(crate) fn add(&mut self, span: Span) -> usize
        requires spare { 0 < self.old.spare }
        requires busy { IsBusy span }
        requires fits { FitsBeside span self.old.items }
        ensures items { self.new.items ≡ after_add (record { key = result; value = span }) self.old.items }
        ensures fresh { has_key result self.old.items ≡ false }
        ensures spare { self.new.spare + 1 ≡ self.old.spare }
        ensures insertions { self.new.insertions ≡ self.old.insertions }
        ensures apart { AreApart self.new.items }
        ensures rising { IsRising 0 self.new.items }
    {
        let whole = span.whole;
        let key = self.elems.add(span);
        self.totals.total += whole;
        key
    }
}
