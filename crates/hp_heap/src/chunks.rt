ghost use Rattle.std.specs.Prelude.{◌≡◌, ◌<◌, ◌==◌, not, IsSomeAnd, IfSome};
ghost use Rattle.std.specs.List.{filter, find};
ghost use Rattle.hp_chain.specs.Chain.{AreApart};
ghost use Rattle.hp_heap.specs.Tiling.{in_range};
ghost use Rattle.hp_heap.specs.Headers.{spans_of};
ghost use Rattle.hp_heap.specs.Finding.{IsOfHeap};
ghost use Rattle.hp_heap.specs.Chunks.{chunk_of};
ghost use Rattle.hp_heap.specs.ChunkOrder.{AreInOrder};
ghost use Rattle.hp_heap.specs.ChunkKeeping.{whole_of, IsFreeFrom};
ghost use Rattle.hp_heap.specs.Allowed.{IsAllowed};
ghost use Rattle.hp_heap.specs.History.{IsCall};

use crate::body::{Body, record};
use crate::chunk_list::{chunk_of, put, set_marks, take, with_mark, without_mark};
use crate::entry::{HeapAnswer, HeapCall};
use crate::headers::Headers;
use crate::pages::insert_new;
use crate::state::NO_TAG;
use hp_base::{Caller, Chunk, Span, SpanState};

impl Body {
    // The chunks with their marks, by rising address.
    pub(crate) fn chunks(&self) -> &[Chunk]
        ensures chunks { result.now ≡ self.now.plain.chunks }
        ensures order { AreInOrder result.now }
    {
        self.chunks.as_slice()
    }

    // Adds a chunk, as a heap does.
    pub(crate) fn add_chunk(&mut self, caller: Caller, chunk: Chunk)
        requires allowed { IsAllowed caller.participant (HeapCall.Chunk chunk) self.old.plain }
        requires spare { 0 < self.old.spare }
        ensures { IsCall caller (HeapCall.Chunk chunk) HeapAnswer.Done self.old self.new }
    {
        insert_new(&mut self.headers, whole_of(&chunk));
        self.headers.sound();
        put(&mut self.chunks, chunk);
        record(
            &mut self.history,
            caller,
            HeapCall::Chunk { chunk },
            HeapAnswer::Done,
        );
        self.spare -= 1;
    }

    // Takes a chunk out, as a heap does.
    pub(crate) fn remove_chunk(&mut self, caller: Caller, list: u32)
        requires allowed { IsSomeAnd (chunk_of list self.old.plain)
            (λ chunk. IsAllowed caller.participant (HeapCall.Unchunk chunk.addr chunk.len) self.old.plain) }
        requires spare { 0 < self.old.spare }
        ensures { IfSome (chunk_of list self.old.plain)
            (λ chunk. IsCall caller (HeapCall.Unchunk chunk.addr chunk.len) HeapAnswer.Done self.old self.new) }
    {
        let Chunk { addr, len, .. } = chunk_of(&self.chunks, list);
        take_whole(&mut self.headers, addr);
        self.headers.sound();
        take(&mut self.chunks, list);
        record(
            &mut self.history,
            caller,
            HeapCall::Unchunk { addr, len },
            HeapAnswer::Done,
        );
        self.spare -= 1;
    }

    // The caller attaches a chunk.
    pub(crate) fn share(&mut self, caller: Caller, list: u32)
        requires allowed { IsSomeAnd (chunk_of list self.old.plain)
            (λ chunk. IsAllowed caller.participant (HeapCall.Share chunk.addr chunk.len) self.old.plain) }
        requires spare { 0 < self.old.spare }
        ensures { IfSome (chunk_of list self.old.plain)
            (λ chunk. IsCall caller (HeapCall.Share chunk.addr chunk.len) HeapAnswer.Done self.old self.new) }
    {
        let Chunk {
            addr,
            len,
            attached,
            ..
        } = chunk_of(&self.chunks, list);
        set_marks(
            &mut self.chunks,
            list,
            with_mark(caller.participant, attached),
        );
        record(
            &mut self.history,
            caller,
            HeapCall::Share { addr, len },
            HeapAnswer::Done,
        );
        self.spare -= 1;
    }

    // The caller leaves a chunk.
    pub(crate) fn unshare(&mut self, caller: Caller, list: u32)
        requires allowed { IsSomeAnd (chunk_of list self.old.plain)
            (λ chunk. IsAllowed caller.participant (HeapCall.Unshare chunk.addr chunk.len) self.old.plain) }
        requires spare { 0 < self.old.spare }
        ensures { IfSome (chunk_of list self.old.plain)
            (λ chunk. IsCall caller (HeapCall.Unshare chunk.addr chunk.len) HeapAnswer.Done self.old self.new) }
    {
        let Chunk {
            addr,
            len,
            attached,
            ..
        } = chunk_of(&self.chunks, list);
        set_marks(
            &mut self.chunks,
            list,
            without_mark(caller.participant, attached),
        );
        record(
            &mut self.history,
            caller,
            HeapCall::Unshare { addr, len },
            HeapAnswer::Done,
        );
        self.spare -= 1;
    }
}

// A chunk as one element, which is busy until it is inserted.
fn whole_of(chunk: &Chunk) -> Span
    ensures { result ≡ whole_of chunk.now }
{
    Span {
        addr: chunk.addr,
        whole: chunk.len,
        list: chunk.list,
        page: chunk.page,
        state: SpanState::Busy {
            pad: 0,
            size: 0,
            tag: NO_TAG,
        },
    }
}

// Takes out the free element that begins at an address.
fn take_whole(headers: &mut Headers, addr: u64)
    requires of_heap { IsOfHeap headers.old }
    requires free { IsSomeAnd (find (in_range addr) (spans_of headers.old.items)) (IsFreeFrom addr) }
    ensures ranges { spans_of headers.new.items ≡ filter (λ range. not (range.addr == addr)) (spans_of headers.old.items) }
    ensures spare { headers.new.spare ≡ headers.old.spare }
    ensures insertions { headers.new.insertions ≡ headers.old.insertions }
    ensures apart { AreApart headers.new.items }
{
    let Some(key) = headers.at(addr) else {
        unreachable!()
    };
    headers.take(key, 0, 0, NO_TAG);
    headers.hide(key);
}
