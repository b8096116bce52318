ghost use Rattle.std.specs.Prelude.{◌≡◌, ◌≤◌, ◌<◌, ◌++◌, [], Some, None, IfOk, OnOk, OnErr};
ghost use Rattle.std.specs.Borrow.{sem};
ghost use Rattle.hp_heap.specs.Boxed.{heap_at};
ghost use Rattle.hp_heap.specs.ChunkOrder.{AreInOrder};
ghost use Rattle.hp_heap.specs.History.{IsSound, SameButSpare};
ghost use Rattle.hp_heap.specs.Lending.{LendsBody, LendsPlace};
ghost use Rattle.hp_heap.specs.Lists.{free_lists};
ghost use Rattle.hp_heap.specs.PlainHeap.{opening_heap};
ghost use Rattle.hp_heap.specs.Statistics.{statistics_of};
ghost use Rattle.hp_heap.specs.Tiling.{range_at};

use crate::body::Body;
use crate::elements::Elements;
use crate::entry::Entry;
use crate::socket_name::{opening_name, opening_socket};
use hp_base::{Chunk, Name, Span, Stats};
use std::alloc::{AllocError, Global};
use std::marker::Model;

// Where what a heap keeps is: nowhere before the first `reserve`, and then in a box.
#[derive(Drop)]
enum Place {
    // The index, and the socket whose pages the heap takes, where it does.
    Nowhere(u32, Option<u32>),
    Made(Box<Body>),
}

impl Place {
    // What a heap keeps, which is there as soon as there is room for a call.
    fn body(&mut self) -> &mut Body
        requires room { 0 < (heap_at self.old).spare }
        ensures* lends { sem 𝓛 (LendsPlace self.entry result) }
        ensures value { result.now ≡ heap_at self.old }
    {
        match self {
            Place::Made(body) => body.as_mut(),
            Place::Nowhere(_, _) => unreachable!(),
        }
    }
}

/// A heap, after malloc_heap of rte_malloc: its segments, tiled by its elements, their free lists, and the history of
/// all its calls. Addresses and sizes are bytes. Each call with a `Caller` is one entry of the history, uses one of
/// the calls that `reserve` made room for, and takes no memory. What it keeps stands in a box that the first `reserve`
/// makes, so that a heap is small wherever it goes.
#[derive(Drop)]
pub struct Heap {
    alloc: Global,
    place: Place,
}

impl Model for Heap {
    ghost use Rattle.hp_heap.specs.Boxed.{heap_at};
    ghost use Rattle.hp_heap.specs.History.{HeapView};

    ghost Value = { HeapView };

    ghost view = { λ heap. heap_at heap.place };
}

impl Heap {
    /// The heap of a socket, without memory, under the name `socket_<n>`. After the heaps that rte_eal_malloc_heap_init
    /// makes.
    pub fn socket(alloc: Global, index: u32, socket: u32) -> Heap
        ensures plain { result.plain ≡ opening_heap index (Some socket) }
        ensures lists { result.lists ≡ free_lists result.plain }
        ensures history { result.history ≡ [] }
        ensures spare { result.spare ≡ 0 }
    {
        Heap {
            alloc,
            place: Place::Nowhere(index, Some(socket)),
        }
    }

    /// A heap for external memory, without memory and without a name. After rte_malloc_heap_create.
    pub fn vacant(alloc: Global, index: u32) -> Heap
        ensures plain { result.plain ≡ opening_heap index None }
        ensures lists { result.lists ≡ free_lists result.plain }
        ensures history { result.history ≡ [] }
        ensures spare { result.spare ≡ 0 }
    {
        Heap {
            alloc,
            place: Place::Nowhere(index, None),
        }
    }

    // What it keeps, which is there as soon as there is room for a call.
    pub(crate) fn body(&mut self) -> &mut Body
        requires room { 0 < self.old.spare }
        ensures* lends { sem 𝓛 (LendsBody self.entry result) }
        ensures value { result.now ≡ self.old }
    {
        self.place.body()
    }

    /// Makes room for `calls` more calls. After a refusal there may be no room at all.
    pub fn reserve(&mut self, calls: usize) -> Result<(), AllocError>
        ensures spare { OnOk result (calls ≤ self.new.spare) }
        ensures room { OnOk result (self.old.spare ≤ self.new.spare) }
        ensures same { SameButSpare self.old self.new }
    {
        match &mut self.place {
            Place::Made(body) => body.reserve(calls),
            Place::Nowhere(index, serves) => {
                let body = first_body(self.alloc, *index, *serves, calls)?;
                self.place = Place::Made(body);
                Ok(())
            }
        }
    }

    /// How many calls there is room for. Own.
    pub fn spare(&self) -> usize
        ensures { result ≡ self.now.spare }
    {
        match &self.place {
            Place::Made(body) => body.spare(),
            Place::Nowhere(_, _) => 0,
        }
    }

    /// Appends its elements, by address. Own.
    pub fn elements(&self, out: &mut Vec<Span>) -> Result<(), AllocError>
        ensures elements { OnOk result (out.new.items ≡ out.old.items ++ self.now.plain.ranges) }
        ensures err { OnErr result (out.new.items ≡ out.old.items) }
    {
        match &self.place {
            Place::Made(body) => body.elements(out),
            Place::Nowhere(_, _) => Ok(()),
        }
    }

    /// A walk over its elements, by address, which copies none. Own.
    pub fn walk(&self) -> Elements<'_>
        ensures { result ≡ self.now.plain.ranges }
    {
        match &self.place {
            Place::Made(body) => body.walk(),
            Place::Nowhere(_, _) => Elements::none(),
        }
    }

    /// All calls so far, in their order. Own.
    pub fn history(&self) -> &[Entry]
        ensures { result.now ≡ self.now.history }
    {
        match &self.place {
            Place::Made(body) => body.history(),
            Place::Nowhere(_, _) => &[],
        }
    }

    /// What holds of every heap: its elements tile its segments, its free lists are exact, and it stands for its
    /// history. It does nothing. Own; it stands for rte_malloc_validate.
    pub fn sound(&self)
        ensures { IsSound self.now }
    {
        if let Place::Made(body) = &self.place {
            body.sound();
        }
    }

    /// Its place among the heaps. Own.
    pub fn index(&self) -> u32
        ensures { result ≡ self.now.plain.index }
    {
        match &self.place {
            Place::Made(body) => body.index(),
            Place::Nowhere(index, _) => *index,
        }
    }

    /// The socket whose pages it takes, or none where it takes external memory. Own.
    pub fn serves(&self) -> Option<u32>
        ensures { result ≡ self.now.plain.serves }
    {
        match &self.place {
            Place::Made(body) => body.serves(),
            Place::Nowhere(_, serves) => *serves,
        }
    }

    /// Its name, where it has one. Own.
    pub fn name(&self) -> Option<Name>
        ensures { result ≡ self.now.plain.name }
    {
        match &self.place {
            Place::Made(body) => body.name(),
            Place::Nowhere(_, serves) => opening_name(*serves),
        }
    }

    /// Its socket number. Own.
    pub fn socket_number(&self) -> u32
        ensures { result ≡ self.now.plain.socket }
    {
        match &self.place {
            Place::Made(body) => body.socket_number(),
            Place::Nowhere(_, serves) => opening_socket(*serves),
        }
    }

    /// Its statistics, without an entry in the history. After malloc_heap_get_stats of malloc_heap.c.
    pub fn summary(&self) -> Stats
        ensures { result ≡ statistics_of self.now.plain }
    {
        match &self.place {
            Place::Made(body) => body.summary(),
            Place::Nowhere(_, _) => NO_STATISTICS,
        }
    }

    /// Its chunks with their marks, by rising address; none in the heap of a socket. Own.
    pub fn chunks(&self) -> &[Chunk]
        ensures chunks { result.now ≡ self.now.plain.chunks }
        ensures order { AreInOrder result.now }
    {
        match &self.place {
            Place::Made(body) => body.chunks(),
            Place::Nowhere(_, _) => &[],
        }
    }

    /// The element that contains an address, without an entry in the history. Own.
    pub fn lookup(&self, addr: u64) -> Option<Span>
        ensures { result ≡ range_at addr self.now.plain }
    {
        match &self.place {
            Place::Made(body) => body.lookup(addr),
            Place::Nowhere(_, _) => None,
        }
    }
}

// The statistics of a heap before its first call.
const NO_STATISTICS: Stats = Stats {
    total: 0,
    free: 0,
    used: 0,
    greatest: 0,
    busy: 0,
    frees: 0,
};

// What a heap keeps before its first call, with room for so many.
fn first_body(
    alloc: Global,
    index: u32,
    serves: Option<u32>,
    calls: usize,
) -> Result<Box<Body>, AllocError>
    ensures room { IfOk result (λ made. calls ≤ made.value.spare) }
    ensures plain { IfOk result (λ made. made.value.plain ≡ opening_heap index serves) }
    ensures lists { IfOk result (λ made. made.value.lists ≡ free_lists (opening_heap index serves)) }
    ensures history { IfOk result (λ made. made.value.history ≡ []) }
{
    let mut body = Body::new(alloc, index, serves);
    body.reserve(calls)?;
    Ok(Box::new(alloc, body)?)
}
