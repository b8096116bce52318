//! Memory goes from an external heap.
ghost use Rattle.std.specs.Prelude.{◌≡◌, ℕ, List, IfErr, OnOk, OnErr};
ghost use Rattle.hp_base.specs.declared.row.Row.{Row};
ghost use Rattle.hp_external.specs.Naming.{IsThatHeap, MayCall};
ghost use Rattle.hp_external.specs.Removing.{IsRemoveFault, Removes};
ghost use Rattle.hp_external.specs.Tie.{AreClaimed, AreListed, IsTiedHeap};

use crate::fault::RemoveFault;
use crate::looks::{lowest_data, lowest_mark};
use crate::naming::{chunk_at, external_heap};
use hp_base::Caller;
use hp_heap::Heap;
use hp_segs::Segs;
use hp_zone::Names;

/// Takes the chunk with that address and length from an external heap. Refused in this order: the text is no name; no heap has it; the heap
/// is a socket's; it has no such chunk; an element of the chunk is busy; a participant has the chunk attached. It takes no memory. After
/// rte_malloc_heap_memory_remove.
pub fn memory_remove(
    names: &mut Names,
    heap: &mut Heap,
    segs: &mut Segs,
    caller: Caller,
    text: &[u8],
    addr: u64,
    len: u64,
) -> Result<(), RemoveFault>
    requires caller { MayCall caller heap.old }
    requires named { IsThatHeap names.old.heaps.plain text.now heap.old.plain }
    requires listed { AreListed names.old.heaps.plain.ranges heap.old.plain }
    requires claimed { AreClaimed segs.old.ranges heap.old.plain.chunks }
    ensures removed { OnOk result (Removes caller text.now addr len names.old names.new segs.old segs.new heap.old heap.new) }
    ensures refused { IfErr result (IsRemoveFault names.old.heaps.plain text.now heap.old.plain addr len) }
    ensures err { OnErr result ((names.new ≡ names.old) × (segs.new ≡ segs.old) × (heap.new ≡ heap.old)) }
    ensures tied { (participant : ℕ) (rows : List Row)
        → IsTiedHeap names.old.heaps.plain.ranges segs.old.ranges participant rows heap.old.plain
        → IsTiedHeap names.new.heaps.plain.ranges segs.new.ranges participant rows heap.new.plain }
{
    external_heap(&names.heaps, text)?;
    let Some(chunk) = chunk_at(heap, addr, len) else {
        return Err(RemoveFault::NoChunk);
    };
    if let Some(data) = lowest_data(heap, None, chunk.list) {
        return Err(RemoveFault::Busy { addr: data });
    }
    if let Some(participant) = lowest_mark(chunk.attached) {
        return Err(RemoveFault::StillAttached { participant });
    }
    heap.sound();
    names.heaps.remove_range(heap.index(), addr);
    heap.remove_chunk(caller, chunk.list);
    segs.release_range(chunk.list);
    Ok(())
}
