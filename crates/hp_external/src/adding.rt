//! Memory comes to an external heap.
ghost use Rattle.std.specs.Prelude.{◌≡◌, ℕ, List, IfErr, OnOk, OnErr};
ghost use Rattle.hp_base.specs.declared.row.Row.{Row};
ghost use Rattle.hp_segs.specs.Ranges.{range_plan};
ghost use Rattle.hp_external.specs.Adding.{Adds, IsAddFault};
ghost use Rattle.hp_external.specs.Naming.{IsThatHeap, MayCall};
ghost use Rattle.hp_external.specs.Tie.{AreClaimed, IsTiedHeap};

use crate::fault::AddFault;
use crate::naming::external_heap;
use hp_base::{Caller, Chunk};
use hp_heap::Heap;
use hp_segs::Segs;
use hp_zone::Names;

/// Adds memory of `len` bytes from `addr` on, in pages of `page` bytes, to an external heap, as one chunk that no participant has attached.
/// Refused in this order: the text is no name; no heap has it; the heap is a socket's; the memory is not whole pages of external memory; it
/// shares a byte with a slot of a segment list; no list or too few segments are left; memory ran out. After rte_malloc_heap_memory_add.
pub fn memory_add(
    names: &mut Names,
    heap: &mut Heap,
    segs: &mut Segs,
    caller: Caller,
    text: &[u8],
    addr: u64,
    len: u64,
    page: u64,
) -> Result<(), AddFault>
    requires caller { MayCall caller heap.old }
    requires named { IsThatHeap names.old.heaps.plain text.now heap.old.plain }
    requires claimed { AreClaimed segs.old.ranges heap.old.plain.chunks }
    ensures added { OnOk result (Adds caller text.now addr len page names.old names.new segs.old segs.new heap.old heap.new) }
    ensures refused { IfErr result (IsAddFault names.old.heaps.plain text.now (range_plan addr len page segs.old)) }
    ensures err { OnErr result ((names.new ≡ names.old) × (segs.new ≡ segs.old) × (heap.new ≡ heap.old)) }

    // Whatever tables there are, the heap stays tied to them.
    ensures tied { (participant : ℕ) (rows : List Row)
        → IsTiedHeap names.old.heaps.plain.ranges segs.old.ranges participant rows heap.old.plain
        → IsTiedHeap names.new.heaps.plain.ranges segs.new.ranges participant rows heap.new.plain }
{
    let (_, socket) = external_heap(&names.heaps, text)?;
    let _records = segs.records();
    heap.sound();
    let list = segs.claim_range(addr, len, page, socket)?;
    if names.heaps.reserve().is_err() {
        segs.release_range(list);
        return Err(AddFault::OutOfMemory);
    }
    names.heaps.add_range(heap.index(), addr, len, page);
    heap.add_chunk(
        caller,
        Chunk {
            list,
            addr,
            len,
            page,
            socket,
            attached: 0,
        },
    );
    Ok(())
}
