//! What of its table is memory of external heaps: it maps a chunk of the heap in its hand, and unmaps it.
ghost use Rattle.std.specs.Prelude.{◌≡◌, IfErr, None, OnErr, OnOk};
ghost use Rattle.hp_base.specs.Mapping.{AreApart};
ghost use Rattle.hp_external.specs.Attaching.{Attaches, Detaches, IsAttachFault, IsDetachFault, IsOwnChunkAt, Leaves, MayAttach};
ghost use Rattle.hp_external.specs.Naming.{IsThatHeap, MayCall};
ghost use Rattle.hp_serve.specs.Party.{with_maps};

use super::Server;
use hp_base::{Caller, Mapper, Row};
use hp_external::{AttachFault, DetachFault, memory_attach, memory_detach, memory_leave};
use hp_heap::Heap;
use hp_zone::Names;

impl<'p, M: Mapper> Server<'p, M> {
    /// What it has mapped, in the order of mapping: rows of the log, and of chunks. Own.
    pub fn rows(&self) -> &[Row]
        ensures rows { result.now ≡ self.now.maps.rows }
        ensures apart { AreApart self.now.maps.rows }
    {
        self.maps.rows()
    }

    /// It attaches the chunk with that address and length of an external heap, by the names and the heap in its hand. After
    /// rte_malloc_heap_memory_attach.
    pub fn attach_memory(
        &mut self,
        names: &Names,
        heap: &mut Heap,
        caller: Caller,
        text: &[u8],
        addr: u64,
        len: u64,
    ) -> Result<(), AttachFault>
        requires caller { MayCall caller heap.old }
        requires named { IsThatHeap names.now.heaps.plain text.now heap.old.plain }
        requires table { MayAttach caller.participant addr len heap.old.plain self.old.maps }
        ensures attached { OnOk result (Attaches caller names.now.heaps.plain text.now addr len heap.old heap.new self.old.maps
            self.new.maps) }
        ensures refused { IfErr result (IsAttachFault caller.participant names.now.heaps.plain text.now addr len heap.old.plain self.old.maps
            self.new.maps) }
        ensures err { OnErr result (heap.new ≡ heap.old) }
        ensures only { self.new ≡ with_maps self.new.maps self.old }
    {
        memory_attach(names, heap, &mut self.maps, caller, text, addr, len)
    }

    /// It leaves the chunk with that address and length of an external heap, in which it has no element. After
    /// rte_malloc_heap_memory_detach.
    pub fn detach_memory(
        &mut self,
        names: &Names,
        heap: &mut Heap,
        caller: Caller,
        text: &[u8],
        addr: u64,
        len: u64,
    ) -> Result<(), DetachFault>
        requires caller { MayCall caller heap.old }
        requires named { IsThatHeap names.now.heaps.plain text.now heap.old.plain }
        ensures detached { OnOk result (Detaches caller names.now.heaps.plain text.now addr len heap.old heap.new self.old.maps
            self.new.maps) }
        ensures refused { IfErr result (IsDetachFault caller.participant names.now.heaps.plain text.now addr len heap.old.plain) }
        ensures err { OnErr result ((heap.new ≡ heap.old) × (self.new ≡ self.old)) }
        ensures only { self.new ≡ with_maps self.new.maps self.old }
    {
        memory_detach(names, heap, &mut self.maps, caller, text, addr, len)
    }

    /// It leaves a chunk that it has attached, whatever elements it has there, as one that detaches does. Own.
    pub fn leave_memory(&mut self, heap: &mut Heap, caller: Caller, addr: u64, len: u64)
        requires caller { MayCall caller heap.old }
        requires external { heap.old.plain.serves ≡ None }
        requires marked { IsOwnChunkAt caller.participant addr len heap.old.plain }
        ensures left { Leaves caller addr len heap.old heap.new self.old.maps self.new.maps }
        ensures only { self.new ≡ with_maps self.new.maps self.old }
    {
        memory_leave(heap, &mut self.maps, caller, addr, len);
    }
}
