//! The calls of a heap that stand in its history, of its name and of chunks.
ghost use Rattle.std.specs.Prelude.{◌≡◌, ◌<◌, IsSomeAnd, IfSome};
ghost use Rattle.hp_heap.specs.Allowed.{IsAllowed};
ghost use Rattle.hp_heap.specs.Chunks.{chunk_of};
ghost use Rattle.hp_heap.specs.History.{IsCall};

use crate::entry::{HeapAnswer, HeapCall};
use crate::heap::Heap;
use hp_base::{Caller, Chunk, Name};

impl Heap {
    /// Gives it a name and a socket number. After rte_malloc_heap_create.
    pub fn set_name(&mut self, caller: Caller, name: Name, socket: u32)
        requires { 0 < self.old.spare }
        ensures { IsCall caller (HeapCall.Name name socket) HeapAnswer.Done self.old self.new }
    {
        self.body().set_name(caller, name, socket)
    }

    /// Takes its name and its socket number away. After rte_malloc_heap_destroy.
    pub fn clear_name(&mut self, caller: Caller)
        requires { 0 < self.old.spare }
        ensures { IsCall caller HeapCall.Unname HeapAnswer.Done self.old self.new }
    {
        self.body().clear_name(caller)
    }

    /// Adds a chunk of external memory, which no participant has attached yet: it is one free element. After
    /// rte_malloc_heap_memory_add.
    pub fn add_chunk(&mut self, caller: Caller, chunk: Chunk)
        requires allowed { IsAllowed caller.participant (HeapCall.Chunk chunk) self.old.plain }
        requires spare { 0 < self.old.spare }
        ensures { IsCall caller (HeapCall.Chunk chunk) HeapAnswer.Done self.old self.new }
    {
        self.body().add_chunk(caller, chunk)
    }

    /// Takes out the chunk of a segment list, which is wholly free and which no participant has attached. After
    /// rte_malloc_heap_memory_remove.
    pub fn remove_chunk(&mut self, caller: Caller, list: u32)
        requires allowed { IsSomeAnd (chunk_of list self.old.plain)
            (λ chunk. IsAllowed caller.participant (HeapCall.Unchunk chunk.addr chunk.len) self.old.plain) }
        requires spare { 0 < self.old.spare }
        ensures { IfSome (chunk_of list self.old.plain)
            (λ chunk. IsCall caller (HeapCall.Unchunk chunk.addr chunk.len) HeapAnswer.Done self.old self.new) }
    {
        self.body().remove_chunk(caller, list)
    }

    /// The caller attaches the chunk of a segment list. After rte_malloc_heap_memory_attach; that a caller is given
    /// elements of attached chunks alone is own.
    pub fn share(&mut self, caller: Caller, list: u32)
        requires allowed { IsSomeAnd (chunk_of list self.old.plain)
            (λ chunk. IsAllowed caller.participant (HeapCall.Share chunk.addr chunk.len) self.old.plain) }
        requires spare { 0 < self.old.spare }
        ensures { IfSome (chunk_of list self.old.plain)
            (λ chunk. IsCall caller (HeapCall.Share chunk.addr chunk.len) HeapAnswer.Done self.old self.new) }
    {
        self.body().share(caller, list)
    }

    /// The caller leaves the chunk of a segment list. After rte_malloc_heap_memory_detach.
    pub fn unshare(&mut self, caller: Caller, list: u32)
        requires allowed { IsSomeAnd (chunk_of list self.old.plain)
            (λ chunk. IsAllowed caller.participant (HeapCall.Unshare chunk.addr chunk.len) self.old.plain) }
        requires spare { 0 < self.old.spare }
        ensures { IfSome (chunk_of list self.old.plain)
            (λ chunk. IsCall caller (HeapCall.Unshare chunk.addr chunk.len) HeapAnswer.Done self.old self.new) }
    {
        self.body().unshare(caller, list)
    }
}
