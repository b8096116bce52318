//! External heaps come and go.
ghost use Rattle.std.specs.Prelude.{◌≡◌, ◌≢◌, ◌<◌, ℕ, List, IfNone, IfSome, IfOk, IfErr, OnOk, OnErr};
ghost use Rattle.hp_base.specs.declared.limits.TheConstants.{MAX_HEAPS};
ghost use Rattle.hp_base.specs.declared.row.Row.{Row};
ghost use Rattle.hp_heap.specs.PlainHeap.{PlainHeap};
ghost use Rattle.hp_segs.specs.declared.external_range.ExternalRange.{ExternalRange};
ghost use Rattle.hp_external.specs.Creating.{AllHaveNames, Creates, Destroys, IsCreateFault, IsDestroyFault, IsPlaceFor};
ghost use Rattle.hp_external.specs.declared.fault.CreateFault.TheVariants as create;
ghost use Rattle.hp_zone.specs.Directory.{IsLowestUnnamed};
ghost use Rattle.hp_external.specs.Naming.{IsThatHeap, MayCall};
ghost use Rattle.hp_external.specs.Tie.{AreListed, IsTiedHeap};

use crate::fault::{CreateFault, DestroyFault};
use crate::naming::{external_heap, heap_name};
use hp_base::{Caller, MAX_HEAPS};
use hp_heap::Heap;
use hp_zone::Names;

// The lowest index whose heap has no name.
fn lowest_vacant(names: &Names) -> Option<u32>
    ensures found { IfSome result (IsLowestUnnamed names.now.heaps.plain) }
    ensures few { IfSome result (λ index. index < MAX_HEAPS) }
    ensures none { IfNone result (AllHaveNames names.now.heaps.plain) }
{
    // The log hands out that there are as many indexes.
    let _log = names.heaps.log();
    for index in 0..MAX_HEAPS as u32 {
        if names.heaps.at(index).is_none() {
            return Some(index);
        }
    }
    None
}

/// The index that `create` would give a heap of that name, or why it would make none, but for want of memory. Who makes a heap takes it by
/// this index first, so that it can name it in the same hold of the names. Own.
pub fn place_for(names: &Names, text: &[u8]) -> Result<u32, CreateFault>
    ensures place { IfOk result (IsPlaceFor names.now.heaps.plain text.now) }
    ensures refused { IfErr result (λ fault. IsCreateFault names.now.heaps.plain text.now fault × (fault ≢ create.OutOfMemory)) }
{
    if heap_name(text).is_none() {
        return Err(CreateFault::BadName);
    }
    if names.heaps.lookup(text).is_some() {
        return Err(CreateFault::Exists);
    }
    if !names.heaps.has_place() {
        return Err(CreateFault::NoSpace {
            limit: MAX_HEAPS as u32,
        });
    }
    match lowest_vacant(names) {
        Some(index) => Ok(index),
        None => unreachable!(),
    }
}

/// Makes an external heap, without memory, and gives its index and its socket number. Refused in this order: the text is no name of 1 to 31
/// bytes; a heap has it; there is no place for another heap; memory ran out. After rte_malloc_heap_create.
pub fn create(names: &mut Names, text: &[u8]) -> Result<(u32, u32), CreateFault>
    ensures created { IfOk result (λ heap. Creates names.old names.new text.now heap.0 heap.1) }
    ensures refused { IfErr result (IsCreateFault names.old.heaps.plain text.now) }
    ensures err { OnErr result (names.new ≡ names.old) }

    // No heap's tie is touched.
    ensures tied { (claims : List ExternalRange) (participant : ℕ) (rows : List Row) (heap : PlainHeap)
        → IsTiedHeap names.old.heaps.plain.ranges claims participant rows heap
        → IsTiedHeap names.new.heaps.plain.ranges claims participant rows heap }
{
    let Some(name) = heap_name(text) else {
        return Err(CreateFault::BadName);
    };
    if names.heaps.lookup(text).is_some() {
        return Err(CreateFault::Exists);
    }
    if !names.heaps.has_place() {
        return Err(CreateFault::NoSpace {
            limit: MAX_HEAPS as u32,
        });
    }
    if names.heaps.reserve().is_err() {
        return Err(CreateFault::OutOfMemory);
    }
    Ok(names.heaps.insert(name))
}

/// Destroys an external heap, which has no memory left. Refused in this order: the text is no name; no heap has it; the heap is a socket's;
/// it has chunks. It takes no memory. After rte_malloc_heap_destroy.
pub fn destroy(
    names: &mut Names,
    heap: &mut Heap,
    caller: Caller,
    text: &[u8],
) -> Result<(), DestroyFault>
    requires caller { MayCall caller heap.old }
    requires named { IsThatHeap names.old.heaps.plain text.now heap.old.plain }
    requires listed { AreListed names.old.heaps.plain.ranges heap.old.plain }
    ensures destroyed { OnOk result (Destroys caller text.now names.old names.new heap.old heap.new) }
    ensures refused { IfErr result (IsDestroyFault names.old.heaps.plain text.now heap.old.plain) }
    ensures err { OnErr result ((names.new ≡ names.old) × (heap.new ≡ heap.old)) }
    ensures tied { (claims : List ExternalRange) (participant : ℕ) (rows : List Row)
        → IsTiedHeap names.old.heaps.plain.ranges claims participant rows heap.old.plain
        → IsTiedHeap names.new.heaps.plain.ranges claims participant rows heap.new.plain }
{
    external_heap(&names.heaps, text)?;
    let chunks = heap.chunks().len();
    if chunks > 0 {
        return Err(DestroyFault::Busy {
            chunks: chunks.min(u32::MAX as usize) as u32,
        });
    }
    names.heaps.remove(heap.index());
    heap.clear_name(caller);
    Ok(())
}
