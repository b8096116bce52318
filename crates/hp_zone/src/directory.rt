//! The directory of heaps and its calls.
ghost use Rattle.std.specs.Prelude.{◌≡◌, ◌+◌, ◌<◌, ◌≤◌, ◌↔◌, ◌^◌, IsTrue, IfOk, IfSome, IfNone, OnOk, OnErr, length, vec_len, vec_capacity};
ghost use Rattle.hp_zone.specs.declared.name_change.NameChange.TheVariants.{Unnamed, Range, RangeGone};
ghost use Rattle.hp_zone.specs.Directory.{
  GivesName,
  HasPlace,
  HasRange,
  IsDirectory,
  IsFoundAt,
  IsNamed,
  IsNotFound,
  MayAdd,
  MayInsert,
  MayOpen,
  MayRemove,
  heap_at,
  opened,
  with_change,
  with_more,
  with_room,
};

use crate::heap_name::{HeapName, HeapRange};
use crate::heaps::{lowest_unnamed, place_of_heap, take_range};
use crate::limits::FIRST_EXTERNAL_SOCKET;
use crate::name_change::NameChange;
use crate::opening::opening_heaps;
use hp_base::{MAX_HEAPS, Name};
use std::alloc::{AllocError, Global};
use std::marker::Model;

/// The directory of heaps: the name and the socket number of each index, and the ranges of external heaps, with a log of all changes.
/// Memory is taken by `reserve` alone, which sets aside what a name or a range needs and its removal too. After the heaps of
/// rte_malloc.
#[derive(Drop)]
pub struct Directory {
    // In a box, so that the value takes eight bytes wherever it goes.
    parts: Box<Parts>,
}

#[derive(Drop)]
struct Parts {
    // Those that it was opened with, which have the first heaps.
    sockets: Vec<u32>,
    heaps: Vec<Option<HeapName>>,
    ranges: Vec<HeapRange>,
    // The socket number of the next heap, or 2^32.
    next: u64,
    log: Vec<NameChange>,
    spare: usize,
}

impl Model for Directory {
    ghost use Rattle.std.specs.Prelude.{vec_capacity};
    ghost use Rattle.hp_zone.specs.Directory.{DirectoryView};

    ghost Value = { DirectoryView };

    ghost use Rattle.hp_zone.specs.Heaps.{directory_of, IsKept};

    ghost view = { λ d. directory_of d.parts.value.sockets.items d.parts.value.heaps.items d.parts.value.ranges.items d.parts.value.next
        d.parts.value.log.items d.parts.value.spare };

    ghost invariant = { λ d. IsKept (directory_of d.parts.value.sockets.items d.parts.value.heaps.items d.parts.value.ranges.items
        d.parts.value.next d.parts.value.log.items d.parts.value.spare) (vec_capacity d.parts.value.ranges) (vec_capacity d.parts.value.log) };
}

impl Directory {
    // The heaps of these sockets.
    pub(crate) fn new(alloc: Global, sockets: &[u32]) -> Result<Directory, AllocError>
        requires { MayOpen sockets.now }
        ensures { IfOk result (λ directory. directory ≡ opened sockets.now) }
    {
        let opened = sockets.to_vec(alloc)?;
        let mut log = Vec::new(alloc);
        log.reserve(MAX_HEAPS)?;
        let heaps = opening_heaps(alloc, sockets)?;
        let parts = Parts {
            sockets: opened,
            heaps,
            ranges: Vec::new(alloc),
            next: u64::from(FIRST_EXTERNAL_SOCKET),
            log,
            spare: 0,
        };
        Ok(Directory {
            parts: Box::new(alloc, parts)?,
        })
    }

    /// The index and the socket number of the heap of that name. After rte_malloc_heap_get_socket.
    pub fn lookup(&self, name: &[u8]) -> Option<(u32, u32)>
        ensures found { IfSome result (λ heap. IsFoundAt self.now.plain name.now heap.0 heap.1) }
        ensures none { IfNone result (IsNotFound self.now.plain name.now) }
    {
        let parts = &*self.parts;
        let Some(index) = place_of_heap(&parts.heaps, name) else {
            return None;
        };
        let Some(heap) = parts.heaps[index] else {
            unreachable!()
        };
        Some((index as u32, heap.socket))
    }

    /// The name and the socket number of the heap of that index, where it has a name. Own.
    pub fn at(&self, index: u32) -> Option<(&Name, u32)>
        ensures named { IfSome result (λ heap. IsNamed self.now.plain index (record { name = heap.0.now; socket = heap.1 })) }
        ensures none { IfNone result (heap_at self.now.plain index ≡ None) }
    {
        match self.parts.heaps.get(index as usize) {
            Some(Some(heap)) => Some((&heap.name, heap.socket)),
            _ => None,
        }
    }

    /// Sets memory aside for one name or range, if there is none yet, and for its removal. Own.
    pub fn reserve(&mut self) -> Result<(), AllocError>
        ensures ok { OnOk result (self.new ≡ with_room self.old) }
        ensures err { OnErr result (self.new ≡ self.old) }
    {
        let spare = self.parts.spare.max(1);
        self.parts.ranges.reserve(spare)?;
        let Some(places) = self.parts.ranges.len().checked_add(2 * spare + MAX_HEAPS) else {
            return Err(AllocError);
        };
        self.parts.log.reserve(places)?;
        self.parts.spare = spare;
        Ok(())
    }

    /// Whether another heap may get a name: one of the 32 indexes has none, and the next socket number has 32 bits. Own.
    pub fn has_place(&self) -> bool
        ensures { IsTrue result ↔ HasPlace self.now.plain }
    {
        let parts = &*self.parts;
        parts.next < 1 << 32 && lowest_unnamed(&parts.heaps).is_some()
    }

    /// Gives a heap a name, in memory that is set aside, and gives its index and its socket number: the lowest index without a name, and
    /// the next number, which no heap gets again. After rte_malloc_heap_create; the choice is own.
    pub fn insert(&mut self, name: Name) -> (u32, u32)
        requires { MayInsert self.old name }
        ensures { GivesName self.old self.new name result.0 result.1 }
    {
        let parts = &mut *self.parts;
        let Some(place) = lowest_unnamed(&parts.heaps) else {
            unreachable!()
        };
        let index = place as u32;
        let socket = parts.next as u32;
        parts.heaps[place] = Some(HeapName { name, socket });
        parts.next += 1;
        parts.log.push_reserved(NameChange::Named {
            index,
            socket,
            name,
        });
        parts.spare -= 1;
        (index, socket)
    }

    /// Takes the name of an external heap away, which has no range. It takes no memory. After rte_malloc_heap_destroy.
    pub fn remove(&mut self, index: u32)
        requires { MayRemove self.old.plain index }
        ensures { self.new ≡ with_change self.old (Unnamed index) }
    {
        let parts = &mut *self.parts;
        parts.heaps[index as usize] = None;
        parts.log.push_reserved(NameChange::Unnamed { index });
    }

    /// Adds a range to a heap that has a name, in memory that is set aside. After rte_malloc_heap_memory_add.
    pub fn add_range(&mut self, index: u32, addr: u64, len: u64, page: u64)
        requires { MayAdd self.old index }
        ensures { self.new ≡ with_more self.old (Range index addr len page) }
    {
        let parts = &mut *self.parts;
        parts.ranges.push_reserved(HeapRange {
            index,
            addr,
            len,
            page,
        });
        parts.log.push_reserved(NameChange::Range {
            index,
            addr,
            len,
            page,
        });
        parts.spare -= 1;
    }

    /// Takes the range of a heap at an address away, the first one if there were several. It takes no memory. After
    /// rte_malloc_heap_memory_remove.
    pub fn remove_range(&mut self, index: u32, addr: u64)
        requires { HasRange self.old.plain index addr }
        ensures { self.new ≡ with_change self.old (RangeGone index addr) }
    {
        let parts = &mut *self.parts;
        take_range(&mut parts.ranges, index, addr);
        parts
            .log
            .push_reserved(NameChange::RangeGone { index, addr });
    }

    /// The ranges of all heaps, in the order in which they came. Own.
    pub fn ranges(&self) -> &[HeapRange]
        ensures { result.now ≡ self.now.plain.ranges }
    {
        &self.parts.ranges
    }

    /// All changes so far, in their order. Nothing is ever taken out. Own.
    pub fn log(&self) -> &[NameChange]
        ensures log { result.now ≡ self.now.log }
        ensures sound { IsDirectory self.now }
    {
        &self.parts.log
    }

    /// For how many names or ranges memory is set aside. Own.
    pub fn room(&self) -> usize
        ensures { result ≡ self.now.room }
    {
        self.parts.spare
    }
}
