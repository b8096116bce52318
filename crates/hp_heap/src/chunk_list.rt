ghost use Rattle.std.specs.Prelude.{◌≡◌, ◌≢◌, ◌+◌, ◌<◌, not, nat_lt, Some, IsSome, vec_len, vec_capacity};
ghost use Rattle.std.specs.List.{filter, find, AllByRecursion, position_or_len};
ghost use Rattle.hp_heap.specs.Chunks.{with_chunk, with_mark, without_mark};
ghost use Rattle.hp_heap.specs.ChunkOrder.{AreRisingFrom};
ghost use Rattle.hp_heap.specs.ChunkKeeping.{is_of, HaveOwnLists, with_marks_of};

use crate::choice::has_attached;
use hp_base::Chunk;

/// Puts a chunk among others by its address. There is room for one more.
pub fn put(chunks: &mut Vec<Chunk>, chunk: Chunk)
    requires rising { AreRisingFrom 0 chunks.old.items }
    requires elsewhere { AllByRecursion (λ other. other.addr ≢ chunk.addr) chunks.old.items }
    requires room { vec_len chunks.old < vec_capacity chunks.old }
    ensures chunks { chunks.new.items ≡ with_chunk chunk chunks.old.items }
    ensures len { vec_len chunks.new ≡ vec_len chunks.old + 1 }
    ensures capacity { vec_capacity chunks.new ≡ vec_capacity chunks.old }
{
    let place = place_above(chunks.as_slice(), chunk.addr);
    let _ = chunks.insert(place, chunk);
}

/// The chunk of a segment list.
pub fn chunk_of(chunks: &Vec<Chunk>, list: u32) -> Chunk
    requires { IsSome (find (is_of list) chunks.now.items) }
    ensures { find (is_of list) chunks.now.items ≡ Some result }
{
    chunks[place_of(chunks.as_slice(), list)]
}

/// Takes out the chunk of a segment list.
pub fn take(chunks: &mut Vec<Chunk>, list: u32)
    requires own { HaveOwnLists chunks.old.items }
    requires there { IsSome (find (is_of list) chunks.old.items) }
    ensures chunks { chunks.new.items ≡ filter (λ chunk. not (is_of list chunk)) chunks.old.items }
    ensures len { vec_len chunks.new + 1 ≡ vec_len chunks.old }
    ensures capacity { vec_capacity chunks.new ≡ vec_capacity chunks.old }
{
    let place = place_of(chunks.as_slice(), list);
    chunks.remove(place);
}

/// Gives the chunk of a segment list other marks.
pub fn set_marks(chunks: &mut Vec<Chunk>, list: u32, attached: u16)
    requires own { HaveOwnLists chunks.old.items }
    requires there { IsSome (find (is_of list) chunks.old.items) }
    ensures chunks { chunks.new.items ≡ with_marks_of list attached chunks.old.items }
    ensures len { vec_len chunks.new ≡ vec_len chunks.old }
    ensures capacity { vec_capacity chunks.new ≡ vec_capacity chunks.old }
{
    let place = place_of(chunks.as_slice(), list);
    chunks[place].attached = attached;
}

/// Marks with that of a participant.
pub fn with_mark(participant: u8, marks: u16) -> u16
    requires { participant < 16 }
    ensures { result ≡ with_mark participant marks }
{
    if has_attached(marks, participant) {
        marks
    } else {
        marks | (1 << participant)
    }
}

/// Marks without that of a participant.
pub fn without_mark(participant: u8, marks: u16) -> u16
    requires { participant < 16 }
    ensures { result ≡ without_mark participant marks }
{
    if has_attached(marks, participant) {
        marks - (1 << participant)
    } else {
        marks
    }
}

// The place of the first chunk that begins above an address, or that after all.
fn place_above(chunks: &[Chunk], addr: u64) -> usize
    ensures { result ≡ position_or_len (λ chunk. nat_lt addr chunk.addr) chunks.now }
{
    let place = chunks.iter().position(|chunk| chunk.addr > addr);
    place.unwrap_or(chunks.len())
}

// The place of the chunk of a segment list, or that after all.
fn place_of(chunks: &[Chunk], list: u32) -> usize
    ensures { result ≡ position_or_len (is_of list) chunks.now }
{
    let place = chunks.iter().position(|chunk| chunk.list == list);
    place.unwrap_or(chunks.len())
}
