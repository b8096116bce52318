//! The chunks that a participant has attached, as it notes them.
ghost use Rattle.std.specs.Prelude.{◌≡◌, ◌<◌, IfOk, length};
ghost use Rattle.hp_base.specs.declared.limits.TheConstants.{MAX_HEAPS};
ghost use Rattle.hp_proc.specs.Contexts.{with_chunks};
ghost use Rattle.hp_proc.specs.OwnChunks.{AreOwnChunks, chunks_of, first_of, is_before, with_own_chunk, without_own_chunk};

use crate::line_context::LineContext;
use crate::own_chunk::OwnChunk;
use std::alloc::{AllocError, Global};

// Whether a chunk stands before another: in a heap of a lower index, or in the same at a lower address.
fn is_before(first: &OwnChunk, second: &OwnChunk) -> bool
    ensures { result ≡ is_before first.now second.now }
{
    if first.heap < second.heap {
        return true;
    }
    first.heap == second.heap && first.addr < second.addr
}

// Chunks with one more at its place.
fn with_chunk(
    alloc: Global,
    chunks: &[OwnChunk],
    chunk: &OwnChunk,
) -> Result<Vec<OwnChunk>, AllocError>
    ensures { IfOk result (λ all. all.items ≡ with_own_chunk chunk.now chunks.now) }
{
    let mut all = Vec::with_capacity(alloc, chunks.len())?;
    for other in chunks {
        if is_before(other, chunk) {
            all.push(*other)?;
        }
    }
    all.push(*chunk)?;
    for other in chunks {
        if is_before(chunk, other) {
            all.push(*other)?;
        }
    }
    Ok(all)
}

// Chunks without one.
fn leave_out(chunks: &mut Vec<OwnChunk>, chunk: &OwnChunk)
    ensures { chunks.new.items ≡ without_own_chunk chunk.now chunks.old.items }
{
    chunks.retain(|other: &OwnChunk| is_before(other, chunk) || is_before(chunk, other));
}

// How many of them are of a heap.
fn count_in(chunks: &[OwnChunk], heap: u32) -> usize
    ensures { result ≡ length (chunks_of heap chunks.now) }
{
    let mut count = 0;
    for chunk in chunks {
        if chunk.heap == heap {
            count += 1;
        }
    }
    count
}

impl<'p> LineContext<'p> {
    // The chunks that it has attached with one more, each at its place.
    pub(crate) fn chunks_with(&self, chunk: OwnChunk) -> Result<Vec<OwnChunk>, AllocError>
        requires few { chunk.heap < MAX_HEAPS }
        ensures are { IfOk result (λ chunks. chunks.items ≡ with_own_chunk chunk self.now.standing.chunks) }
        ensures sound { IfOk result (λ chunks. AreOwnChunks chunks.items) }
    {
        let chunks = with_chunk(self.alloc, self.chunks.as_slice(), &chunk)?;
        Ok(chunks)
    }

    // Notes which chunks it has attached.
    pub(crate) fn note_chunks(&mut self, chunks: Vec<OwnChunk>)
        requires sound { AreOwnChunks chunks.items }
        ensures { self.new ≡ with_chunks chunks.items self.old }
    {
        self.chunks = chunks;
    }

    // Notes that it has left a chunk.
    pub(crate) fn forget_chunk(&mut self, chunk: &OwnChunk)
        ensures { self.new ≡ with_chunks (without_own_chunk chunk.now self.old.standing.chunks) self.old }
    {
        leave_out(&mut self.chunks, chunk);
    }

    // The first of the chunks that it has attached. Each stands before those after it.
    pub(crate) fn first_chunk(&self) -> Option<OwnChunk>
        ensures first { result ≡ first_of self.now.standing.chunks }
        ensures sound { AreOwnChunks self.now.standing.chunks }
    {
        match self.chunks.first() {
            Some(chunk) => Some(*chunk),
            None => None,
        }
    }

    // How many chunks of a heap it has attached.
    pub(crate) fn chunks_in(&self, heap: u32) -> usize
        ensures { result ≡ length (chunks_of heap self.now.standing.chunks) }
    {
        count_in(self.chunks.as_slice(), heap)
    }
}
