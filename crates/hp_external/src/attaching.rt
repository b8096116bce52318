//! A participant attaches a chunk and leaves it.
ghost use Rattle.std.specs.Prelude.{◌≡◌, ◌≢◌, ℕ, List, None, IfErr, OnOk, OnErr};
ghost use Rattle.hp_base.specs.declared.row.Row.{Row};
ghost use Rattle.hp_zone.specs.declared.heap_name.HeapRange.{HeapRange};
ghost use Rattle.hp_segs.specs.declared.external_range.ExternalRange.{ExternalRange};
ghost use Rattle.hp_external.specs.Attaching.{Attaches, Detaches, IsAttachFault, IsDetachFault, IsOwnChunkAt, Leaves, MayAttach};
ghost use Rattle.hp_external.specs.Naming.{IsThatHeap, MayCall};
ghost use Rattle.hp_external.specs.Tie.{IsTiedHeap};

use crate::fault::{AttachFault, DetachFault};
use crate::looks::lowest_data;
use crate::naming::{chunk_at, named_chunk};
use hp_base::{Caller, Caught, Mapper, has_bit};
use hp_heap::Heap;
use hp_maps::LocalMaps;
use hp_zone::Names;

/// The caller attaches the chunk with that address and length of an external heap: its table maps each page, and the heap has the caller's
/// mark. Refused in this order: no heap has the name; the heap is a socket's or has no such chunk; the caller has it attached; the mapper
/// refused a page or mapped it elsewhere. It takes no memory. After rte_malloc_heap_memory_attach.
pub fn memory_attach<M: Mapper>(
    names: &Names,
    heap: &mut Heap,
    maps: &mut LocalMaps<M>,
    caller: Caller,
    text: &[u8],
    addr: u64,
    len: u64,
) -> Result<(), AttachFault>
    requires caller { MayCall caller heap.old }
    requires named { IsThatHeap names.now.heaps.plain text.now heap.old.plain }
    requires table { MayAttach caller.participant addr len heap.old.plain maps.old }
    ensures attached { OnOk result (Attaches caller names.now.heaps.plain text.now addr len heap.old heap.new maps.old maps.new) }
    ensures refused { IfErr result (IsAttachFault caller.participant names.now.heaps.plain text.now addr len heap.old.plain maps.old maps.new) }
    ensures err { OnErr result (heap.new ≡ heap.old) }

    // Whatever is claimed, the heap stays tied to the caller's table and to those of others.
    ensures tied { (claims : List ExternalRange)
        → IsTiedHeap names.now.heaps.plain.ranges claims caller.participant maps.old.rows heap.old.plain
        → IsTiedHeap names.now.heaps.plain.ranges claims caller.participant maps.new.rows heap.new.plain }
    ensures others { (claims : List ExternalRange) (participant : ℕ) (rows : List Row) → participant ≢ caller.participant
        → IsTiedHeap names.now.heaps.plain.ranges claims participant rows heap.old.plain
        → IsTiedHeap names.now.heaps.plain.ranges claims participant rows heap.new.plain }
{
    let chunk = named_chunk(&names.heaps, heap, text, addr, len)?;
    if has_bit(u32::from(chunk.attached), u32::from(caller.participant)) {
        return Err(AttachFault::Already);
    }
    heap.sound();
    match maps.attach_chunk(&chunk) {
        Caught::Done => heap.share(caller, chunk.list),
        Caught::Refused { call, .. } => return Err(AttachFault::MapRefused { call }),
        Caught::Elsewhere { call, .. } => return Err(AttachFault::MapRefused { call }),
    }
    Ok(())
}

/// The caller leaves the chunk with that address and length of an external heap: its table unmaps it, and the heap loses the caller's mark.
/// Refused in this order: no heap has the name; the heap is a socket's or has no such chunk; the caller has not attached it; a busy element
/// of the chunk was allocated by the caller. It takes no memory. After rte_malloc_heap_memory_detach.
pub fn memory_detach<M: Mapper>(
    names: &Names,
    heap: &mut Heap,
    maps: &mut LocalMaps<M>,
    caller: Caller,
    text: &[u8],
    addr: u64,
    len: u64,
) -> Result<(), DetachFault>
    requires caller { MayCall caller heap.old }
    requires named { IsThatHeap names.now.heaps.plain text.now heap.old.plain }
    ensures detached { OnOk result (Detaches caller names.now.heaps.plain text.now addr len heap.old heap.new maps.old maps.new) }
    ensures refused { IfErr result (IsDetachFault caller.participant names.now.heaps.plain text.now addr len heap.old.plain) }
    ensures err { OnErr result ((heap.new ≡ heap.old) × (maps.new ≡ maps.old)) }
    ensures tied { (claims : List ExternalRange)
        → IsTiedHeap names.now.heaps.plain.ranges claims caller.participant maps.old.rows heap.old.plain
        → IsTiedHeap names.now.heaps.plain.ranges claims caller.participant maps.new.rows heap.new.plain }
    ensures others { (claims : List ExternalRange) (participant : ℕ) (rows : List Row) → participant ≢ caller.participant
        → IsTiedHeap names.now.heaps.plain.ranges claims participant rows heap.old.plain
        → IsTiedHeap names.now.heaps.plain.ranges claims participant rows heap.new.plain }
{
    let chunk = named_chunk(&names.heaps, heap, text, addr, len)?;
    if !has_bit(u32::from(chunk.attached), u32::from(caller.participant)) {
        return Err(DetachFault::NotAttached);
    }
    if let Some(data) = lowest_data(heap, Some(caller.participant), chunk.list) {
        return Err(DetachFault::InUse { addr: data });
    }
    heap.sound();
    maps.detach_chunk(&chunk);
    heap.unshare(caller, chunk.list);
    Ok(())
}

/// The caller, which detaches from all memory, leaves the chunk with that address and length of the external heap, which it has attached:
/// its table unmaps it, and the heap loses the caller's mark. Its elements stay. It takes no memory, and no name is asked for. Own.
pub fn memory_leave<M: Mapper>(
    heap: &mut Heap,
    maps: &mut LocalMaps<M>,
    caller: Caller,
    addr: u64,
    len: u64,
)
    requires caller { MayCall caller heap.old }
    requires external { heap.old.plain.serves ≡ None }
    requires marked { IsOwnChunkAt caller.participant addr len heap.old.plain }
    ensures left { Leaves caller addr len heap.old heap.new maps.old maps.new }
    ensures tied { (directory : List HeapRange) (claims : List ExternalRange)
        → IsTiedHeap directory claims caller.participant maps.old.rows heap.old.plain
        → IsTiedHeap directory claims caller.participant maps.new.rows heap.new.plain }
    ensures others { (directory : List HeapRange) (claims : List ExternalRange) (participant : ℕ) (rows : List Row)
        → participant ≢ caller.participant → IsTiedHeap directory claims participant rows heap.old.plain
        → IsTiedHeap directory claims participant rows heap.new.plain }
{
    let Some(chunk) = chunk_at(heap, addr, len) else {
        unreachable!()
    };
    heap.sound();
    maps.detach_chunk(&chunk);
    heap.unshare(caller, chunk.list);
}
