ghost use Rattle.std.specs.Prelude.{◌≡◌, ℕ, ◌+◌, ◌<◌, ◌≤◌, true, false, [], length, IfSome, IfNone, OnOk, OnErr};
ghost use Rattle.std.specs.List.{AllByRecursion};
ghost use Rattle.hp_freelist.specs.Lists.{empty_lists, is_listed, with_head, without};
ghost use Rattle.hp_freelist.specs.Search.{keys_from, IsFirstPassing, SmallFails};
ghost use Rattle.hp_freelist.specs.Greatest.{all_elements, IsGreatest};

use crate::greatest::{greatest_with, mend, widen};
use crate::heads::Heads;
use crate::link::{Link, grow};
use crate::linked::{insert, take_out};
use crate::search::{first_above, first_in};
use hp_base::{HEADER, LINE, class_of};
use std::alloc::{AllocError, Global};
use std::marker::Model;

/// The thirteen free lists of a heap, one for each size class: keys of elements with their whole sizes in bytes, the one
/// inserted last at the head. After the array `free_head` of `struct malloc_heap` in rte_malloc, which has
/// RTE_HEAP_NUM_FREELISTS lists; there the links stand in the headers.
#[derive(Drop)]
pub struct Lists {
    links: Vec<Link>,
    heads: Heads,
    // Under each key of a list, the key of the greatest of the list from it on, of several the first.
    greatests: Vec<usize>,
}

impl Model for Lists {
    ghost use Rattle.std.specs.Prelude.{◌≤◌, vec_len};
    ghost use Rattle.hp_freelist.specs.declared.link.TheConstants.{MAX_KEYS};
    ghost use Rattle.hp_freelist.specs.Lists.{FreeLists};
    ghost use Rattle.hp_freelist.specs.Links.{lists_of, IsLinked};
    ghost use Rattle.hp_freelist.specs.Kept.{IsKept};

    ghost Value = { FreeLists };

    ghost view = { λ l. record { lists = lists_of l.links.items l.heads; room = vec_len l.links } };

    ghost invariant = { λ l. IsLinked l.links.items l.heads (lists_of l.links.items l.heads) × IsKept l.links.items l.greatests.items (lists_of l.links.items l.heads) × (vec_len l.links ≤ MAX_KEYS) };
}

impl Lists {
    /// Empty lists, which take no memory, and no room for any key. Own.
    pub fn new(alloc: Global) -> Lists
        ensures lists { result.lists ≡ empty_lists }
        ensures room { result.room ≡ 0 }
        ensures count { length result.lists ≡ 13 }
    {
        Lists {
            links: Vec::new(alloc),
            heads: Heads::new(),
            greatests: Vec::new(alloc),
        }
    }

    /// Makes room for the keys below `n`. Own.
    pub fn reserve(&mut self, n: usize) -> Result<(), AllocError>
        ensures room { OnOk result (n ≤ self.new.room) }
        ensures kept { self.old.room ≤ self.new.room }
        ensures lists { self.new.lists ≡ self.old.lists }
        ensures count { length self.new.lists ≡ 13 }
        ensures err { OnErr result (self.new.room ≡ self.old.room) }
    {
        widen(&mut self.greatests, n)?;
        grow(&mut self.links, n)
    }

    /// Inserts a key at the head of the list of its class, in constant time. After malloc_elem_free_list_insert of
    /// rte_malloc.
    pub fn insert_head(&mut self, key: usize, whole: u64)
        requires room { key < self.old.room }
        requires unlisted { is_listed key self.old.lists ≡ false }
        requires least { HEADER + LINE ≤ whole }
        ensures lists { self.new.lists ≡ with_head key whole self.old.lists }
        ensures room { self.new.room ≡ self.old.room }
        ensures count { length self.new.lists ≡ 13 }
    {
        let next = self.heads.first(class_of(whole - HEADER));
        let greatest = greatest_with(&self.greatests, &self.links, key, whole, next);
        self.greatests[key] = greatest;
        insert(&mut self.links, &mut self.heads, key, whole);
    }

    /// Removes a key from its list. It takes a step for each key before it in the list that had it for the greatest from there
    /// on: none where the key stands at the head. After malloc_elem_free_list_remove of rte_malloc.
    pub fn remove(&mut self, key: usize)
        requires { is_listed key self.old.lists ≡ true }
        ensures lists { self.new.lists ≡ without key self.old.lists }
        ensures room { self.new.room ≡ self.old.room }
        ensures count { length self.new.lists ≡ 13 }
    {
        let prev = self.links[key].prev;
        take_out(&mut self.links, &mut self.heads, key);
        mend(&mut self.greatests, &self.links, key, prev);
    }

    /// The first key that passes the test, from the list of a class upwards and in each list from its head. It looks at keys
    /// of those classes alone, and passes over empty lists. After find_suitable_element of rte_malloc.
    pub fn first_from<F: Fn(usize) -> bool>(&self, class: u8, test: F) -> Option<usize>
        requires class { class ≤ 12 }
        requires callable { (key : ℕ) → is_listed key self.now.lists ≡ true → F.pre test key }
        ensures { IsFirstPassing (F.post test) (keys_from class self.now.lists) result }
    {
        let mut from = class;
        while let Some(next) = self.heads.next_from(from) {
            let found = first_in(&self.links, self.heads.first(next), &test);
            if found.is_some() {
                return found;
            }
            from = next + 1;
        }
        None
    }

    /// The first key from a class on that passes a test, where no key with at most so many bytes passes it: these are not asked, and
    /// lists of such keys alone are passed over in constant time. After find_suitable_element of rte_malloc.
    pub fn first_above<F: Fn(usize) -> bool>(&self, class: u8, most: u64, test: F) -> Option<usize>
        requires class { class ≤ 12 }
        requires callable { (key : ℕ) → is_listed key self.now.lists ≡ true → F.pre test key }
        requires small { AllByRecursion (SmallFails (F.post test) most) self.now.lists }
        ensures { IsFirstPassing (F.post test) (keys_from class self.now.lists) result }
    {
        let mut at = class;
        while let Some(next) = self.heads.next_from(at) {
            let first = self.heads.first(next);
            let found = first_above(&self.links, &self.greatests, first, most, &test);
            if found.is_some() {
                return found;
            }
            at = next + 1;
        }
        None
    }

    /// The key of the greatest whole size, and of several the first, from class 0 on. It is kept, so this takes constant time. Own.
    pub fn greatest(&self) -> Option<usize>
        ensures greatest { IfSome result (IsGreatest (all_elements self.now.lists)) }
        ensures none { IfNone result (all_elements self.now.lists ≡ []) }
    {
        let Some(class) = self.heads.last() else {
            return None;
        };
        match self.heads.first(class) {
            Some(first) => Some(self.greatests[first as usize]),
            None => None,
        }
    }
}
