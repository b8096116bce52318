//! What is looked at before a call, and the tables.
ghost use Rattle.std.specs.Prelude.{◌≡◌, ◌<◌, true};
ghost use Rattle.std.specs.List.{list_any};
ghost use Rattle.hp_external.specs.Attaching.{MayAttach};
ghost use Rattle.hp_external.specs.Naming.{IsThatHeap};
ghost use Rattle.test_maps.specs.World.{is_in, is_unmarked_at};

use super::world::World;
use hp_base::{Chunk, MemMapper, Row, has_bit};
use hp_heap::Heap;
use hp_maps::LocalMaps;
use hp_zone::{FIRST_EXTERNAL_SOCKET, Names};

/// Whether the tables of the two participants have so many rows.
pub fn have_rows(all: &World, first: usize, second: usize) -> bool {
    all.first.rows().len() == first && all.second.rows().len() == second
}

/// Whether this heap is the one of that name, where it is an external heap's.
pub fn is_that(names: &Names, heap: &Heap, text: &[u8]) -> bool
    ensures { result ≡ true → IsThatHeap names.now.heaps.plain text.now heap.now.plain }
{
    let Some((index, socket)) = names.heaps.lookup(text) else {
        return true;
    };
    if socket < FIRST_EXTERNAL_SOCKET {
        return true;
    }
    if index != heap.index() {
        return false;
    }
    heap.serves().is_none()
}

/// Whether a table of 2,048 rows may attach memory of a heap, by address and length, if the participant has not.
pub fn may_attach(
    heap: &Heap,
    maps: &LocalMaps<MemMapper>,
    participant: u8,
    addr: u64,
    len: u64,
) -> bool
    requires room { maps.now.capacity ≡ 2048 }
    requires participant { participant < 16 }
    ensures { result ≡ true → MayAttach participant addr len heap.now.plain maps.now }
{
    heap.sound();
    if !has_unmarked(heap.chunks(), participant, addr, len) {
        return true;
    }
    let rows = maps.rows();
    if maps.calls() > 1 << 63 || rows.len() > 1024 || addr > 1 << 62 || len > 0x40_0000 {
        return false;
    }
    !has_row_in(rows, addr, addr + len)
}

// Whether there is a chunk with that address and length that the participant has not attached.
fn has_unmarked(chunks: &[Chunk], participant: u8, addr: u64, len: u64) -> bool
    requires { participant < 16 }
    ensures { result ≡ list_any (is_unmarked_at participant addr len) chunks.now }
{
    chunks
        .iter()
        .any(|chunk| is_unmarked_at(chunk, participant, addr, len))
}

fn is_unmarked_at(chunk: &Chunk, participant: u8, addr: u64, len: u64) -> bool
    requires { participant < 16 }
    ensures { result ≡ is_unmarked_at participant addr len chunk.now }
{
    chunk.addr == addr
        && chunk.len == len
        && !has_bit(u32::from(chunk.attached), u32::from(participant))
}

// Whether a row begins from an address on, and before another.
fn has_row_in(rows: &[Row], addr: u64, end: u64) -> bool
    ensures { result ≡ list_any (is_in addr end) rows.now }
{
    rows.iter().any(|row| is_in(row, addr, end))
}

fn is_in(row: &Row, addr: u64, end: u64) -> bool
    ensures { result ≡ is_in addr end row.now }
{
    addr <= row.addr && row.addr < end
}
