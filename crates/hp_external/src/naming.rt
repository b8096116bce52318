//! Which heap and which chunk are meant.
ghost use Rattle.std.specs.Prelude.{◌≡◌, ◌↔◌, ℕ, IsSome, IfSome, IfOk, IfErr};
ghost use Rattle.hp_zone.specs.Zones.{IsZoneName};
ghost use Rattle.std.specs.List.{find};
ghost use Rattle.hp_heap.specs.ChunkOrder.{AreInOrder};
ghost use Rattle.hp_heap.specs.Chunks.{chunk_at, is_chunk_at};
ghost use Rattle.hp_external.specs.Naming.{IsChunkFault, IsExternalName, IsHeapFault, IsNameFault, IsNamedChunk};

use crate::fault::{ChunkFault, NameFault};
use hp_base::{Chunk, Name};
use hp_heap::Heap;
use hp_zone::{Directory, FIRST_EXTERNAL_SOCKET, MAX_ZONE_NAME};

// The name with this text, where it may be that of a heap.
pub(crate) fn heap_name(text: &[u8]) -> Option<Name>
    ensures accepted { IsSome result ↔ IsZoneName text.now }
    ensures text { IfSome result (λ name. name ≡ text.now) }
{
    if text.len() > MAX_ZONE_NAME {
        return None;
    }
    Name::new(text)
}

/// The index and the socket number of the external heap of that name, or why there is none: the text is no name; no heap has it; the heap
/// is a socket's. Who calls on the heap takes it by this index. Own.
pub fn external_heap(directory: &Directory, text: &[u8]) -> Result<(u32, u32), NameFault>
    ensures name { IfOk result (λ heap. IsZoneName text.now) }
    ensures found { IfOk result (λ heap. IsExternalName directory.now.plain text.now heap.0 heap.1) }
    ensures refused { IfErr result (IsNameFault directory.now.plain text.now) }
{
    if heap_name(text).is_none() {
        return Err(NameFault::BadName);
    }
    let Some((index, socket)) = directory.lookup(text) else {
        return Err(NameFault::NotFound);
    };
    if socket < FIRST_EXTERNAL_SOCKET {
        return Err(NameFault::SocketHeap);
    }
    Ok((index, socket))
}

// The chunk of a heap with that address and length.
#[tactic(auto, unfolding(hp_heap::specs::Chunks::chunk_at))]
pub(crate) fn chunk_at(heap: &Heap, addr: u64, len: u64) -> Option<Chunk>
    ensures chunk { result ≡ chunk_at addr len heap.now.plain }
    ensures order { AreInOrder heap.now.plain.chunks }
{
    first_at(heap.chunks(), addr, len)
}

// The first of chunks with that address and length.
#[tactic(auto, using(crate::proofs::ListLemmas::find_step, crate::proofs::ListLemmas::find_here, crate::proofs::ListLemmas::find_end))]
fn first_at(chunks: &[Chunk], addr: u64, len: u64) -> Option<Chunk>
    ensures { result ≡ find (is_chunk_at addr len) chunks.now }
{
    for chunk in chunks {
        if is_at(chunk, addr, len) {
            return Some(*chunk);
        }
    }
    None
}

fn is_at(chunk: &Chunk, addr: u64, len: u64) -> bool
    ensures { result ≡ is_chunk_at addr len chunk.now }
{
    chunk.addr == addr && chunk.len == len
}

/// The index of the external heap of that name, whose chunks may be attached, or why there is none: no heap has the name; the heap is a
/// socket's, which has no chunk. The text is not judged. Own.
pub fn chunk_heap(directory: &Directory, text: &[u8]) -> Result<u32, ChunkFault>
    ensures found { IfOk result (λ index. (socket : ℕ) × IsExternalName directory.now.plain text.now index socket) }
    ensures refused { IfErr result (IsHeapFault directory.now.plain text.now) }
{
    let Some((index, socket)) = directory.lookup(text) else {
        return Err(ChunkFault::NotFound);
    };
    if socket < FIRST_EXTERNAL_SOCKET {
        return Err(ChunkFault::NoChunk);
    }
    Ok(index)
}

// The chunk of the external heap of that name with that address and length, or why there is none.
pub(crate) fn named_chunk(
    directory: &Directory,
    heap: &Heap,
    text: &[u8],
    addr: u64,
    len: u64,
) -> Result<Chunk, ChunkFault>
    ensures found { IfOk result (IsNamedChunk directory.now.plain text.now heap.now.plain addr len) }
    ensures order { IfOk result (λ chunk. AreInOrder heap.now.plain.chunks) }
    ensures refused { IfErr result (IsChunkFault directory.now.plain text.now heap.now.plain addr len) }
{
    let Some((_, socket)) = directory.lookup(text) else {
        return Err(ChunkFault::NotFound);
    };
    if socket < FIRST_EXTERNAL_SOCKET {
        return Err(ChunkFault::NoChunk);
    }
    match chunk_at(heap, addr, len) {
        Some(chunk) => Ok(chunk),
        None => Err(ChunkFault::NoChunk),
    }
}
