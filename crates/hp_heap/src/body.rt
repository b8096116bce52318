ghost use Rattle.std.specs.Prelude.{◌≡◌, ◌+◌, ◌≤◌, ◌<◌, ◌∷◌, ◌++◌, [], OnOk, OnErr, vec_len, vec_capacity};
ghost use Rattle.hp_heap.specs.PlainHeap.{opening_heap};
ghost use Rattle.hp_heap.specs.Lists.{free_lists};
ghost use Rattle.hp_heap.specs.Statistics.{statistics_of};
ghost use Rattle.hp_heap.specs.History.{IsSound, SameButSpare};

use crate::elements::{Elements, append};
use crate::entry::{Entry, HeapAnswer, HeapCall};
use crate::headers::Headers;
use crate::page_list::PageList;
use crate::socket_name::{opening_name, opening_socket};
use hp_base::{Caller, Chunk, Name, Span, Stats};
use std::alloc::{AllocError, Global};
use std::marker::Model;

// For how many calls a heap takes memory at least, where it takes any.
const CALLS_AT_ONCE: usize = 32;

// For how many calls its history takes memory at least. A block so large is not copied where it grows, and what is not used of it
// costs no page.
const ENTRIES_AT_ONCE: usize = 4096;

// What a heap is once it had room for a call. Contracts see it as the heap.
#[derive(Drop)]
pub(crate) struct Body {
    pub(crate) index: u32,
    // The socket whose pages it takes, or none where it takes chunks of external memory.
    pub(crate) serves: Option<u32>,
    pub(crate) name: Option<Name>,
    pub(crate) socket: u32,
    pub(crate) chunks: Vec<Chunk>,
    // The segment lists of its pages, where it takes those of a socket.
    pub(crate) page_lists: Vec<PageList>,
    pub(crate) headers: Headers,
    pub(crate) history: Vec<Entry>,
    pub(crate) spare: usize,
}

impl Model for Body {
    ghost use Rattle.hp_heap.specs.History.{HeapView};

    ghost Value = { HeapView };

    ghost use Rattle.hp_heap.specs.Inside.{view_of, IsHeap};

    ghost view = { view_of };

    ghost invariant = { IsHeap };
}

impl Body {
    // That of a heap before its first call, without memory.
    pub(crate) fn new(alloc: Global, index: u32, serves: Option<u32>) -> Body
        ensures plain { result.plain ≡ opening_heap index serves }
        ensures lists { result.lists ≡ free_lists result.plain }
        ensures history { result.history ≡ [] }
        ensures spare { result.spare ≡ 0 }
    {
        Body {
            index,
            serves,
            name: opening_name(serves),
            socket: opening_socket(serves),
            chunks: Vec::new(alloc),
            page_lists: Vec::new(alloc),
            headers: Headers::new(alloc),
            history: Vec::new(alloc),
            spare: 0,
        }
    }

    // Makes room for `calls` more calls. After a refusal there may be no room at all.
    pub(crate) fn reserve(&mut self, calls: usize) -> Result<(), AllocError>
        ensures spare { OnOk result (calls ≤ self.new.spare) }
        ensures room { OnOk result (self.old.spare ≤ self.new.spare) }
        ensures same { SameButSpare self.old self.new }
    {
        if calls <= self.spare {
            return Ok(());
        }
        // Room for some calls more than are asked for, so that a heap in use asks for memory seldom.
        let calls = calls.max(CALLS_AT_ONCE);
        self.spare = 0;
        let Some(elements) = calls.checked_mul(2) else {
            return Err(AllocError);
        };
        self.headers.reserve(elements)?;
        self.page_lists.reserve(calls)?;
        self.chunks.reserve(calls)?;
        self.history.reserve(calls.max(ENTRIES_AT_ONCE))?;
        self.spare = calls;
        Ok(())
    }

    // How many calls there is room for.
    pub(crate) fn spare(&self) -> usize
        ensures { result ≡ self.now.spare }
    {
        self.spare
    }

    // Appends its elements, by address.
    pub(crate) fn elements(&self, out: &mut Vec<Span>) -> Result<(), AllocError>
        ensures elements { OnOk result (out.new.items ≡ out.old.items ++ self.now.plain.ranges) }
        ensures err { OnErr result (out.new.items ≡ out.old.items) }
    {
        append(&self.headers, out)
    }

    // A walk over its elements, by address, which copies none.
    pub(crate) fn walk(&self) -> Elements<'_>
        ensures { result ≡ self.now.plain.ranges }
    {
        Elements::new(&self.headers)
    }

    // All calls so far, in their order.
    pub(crate) fn history(&self) -> &[Entry]
        ensures { result.now ≡ self.now.history }
    {
        &self.history
    }

    // What holds of every heap: its elements tile its segments, its free lists are exact, and it stands for its
    // history. It does nothing.
    pub(crate) fn sound(&self)
        ensures { IsSound self.now }
    {
        let _ = &self.history;
    }

    // Its place among the heaps.
    pub(crate) fn index(&self) -> u32
        ensures { result ≡ self.now.plain.index }
    {
        self.index
    }

    // The socket whose pages it takes, or none where it takes external memory.
    pub(crate) fn serves(&self) -> Option<u32>
        ensures { result ≡ self.now.plain.serves }
    {
        self.serves
    }

    // Its name, where it has one.
    pub(crate) fn name(&self) -> Option<Name>
        ensures { result ≡ self.now.plain.name }
    {
        self.name
    }

    // Its socket number.
    pub(crate) fn socket_number(&self) -> u32
        ensures { result ≡ self.now.plain.socket }
    {
        self.socket
    }

    // Its statistics, without an entry in the history. After malloc_heap_get_stats of malloc_heap.c.
    pub(crate) fn summary(&self) -> Stats
        ensures { result ≡ statistics_of self.now.plain }
    {
        self.headers.statistics()
    }
}

// One more entry of the history, for which there is room.
pub(crate) fn record(history: &mut Vec<Entry>, caller: Caller, call: HeapCall, answer: HeapAnswer)
    requires { vec_len history.old < vec_capacity history.old }
    ensures entry { history.new.items ≡ history.old.items
        ++ record { caller = caller; call = call; answer = answer } ∷ [] }
    ensures room { vec_capacity history.new ≡ vec_capacity history.old }
    ensures len { vec_len history.new ≡ vec_len history.old + 1 }
{
    history.push_reserved(Entry {
        caller,
        call,
        answer,
    });
}
