//! The values that the calls are over.
ghost use Rattle.std.specs.Prelude.{◌≡◌, [], IfOk};
ghost use Rattle.test_maps.specs.World.{IsWorld};

use hp_base::{MemMapper, PoolLine};
use hp_heap::Heap;
use hp_maps::LocalMaps;
use hp_segs::Segs;
use hp_zone::Names;
use std::alloc::{AllocError, Global};

/// The names of socket 0, a heap for external memory, the segment value of a pool of four pages, and the tables of two participants.
#[derive(Drop)]
pub struct World {
    pub names: Names,
    pub heap: Heap,
    pub segs: Segs,
    pub first: LocalMaps<MemMapper>,
    pub second: LocalMaps<MemMapper>,
}

const POOL: PoolLine = PoolLine {
    socket: 0,
    page: 0x20_0000,
    pages: 4,
    slots: 4,
};

// A table of up to 2,048 rows over memory, which refuses these mapping calls.
fn empty_table(alloc: Global, fails: &[u64]) -> Result<LocalMaps<MemMapper>, AllocError>
    ensures rows { IfOk result (λ maps. maps.rows ≡ []) }
    ensures capacity { IfOk result (λ maps. maps.capacity ≡ 2048) }
{
    let calls = fails.to_vec(alloc)?;
    let mut mapper = MemMapper::new(alloc, 2048)?;
    mapper.fail_at(calls);
    LocalMaps::new(alloc, mapper, 2048)
}

/// Nothing has happened yet. These mapping calls of the first table are refused.
pub fn opening_world(alloc: Global, fails: &[u64]) -> Result<World, AllocError>
    ensures { IfOk result (λ all. IsWorld all.names.heaps all.heap all.segs all.first all.second) }
{
    let first = empty_table(alloc, fails)?;
    let second = empty_table(alloc, &[])?;
    let names = Names::new(alloc, &[0])?;
    let segs = Segs::new(alloc, [POOL].as_slice(), 2, 0)?;
    Ok(World {
        names,
        heap: Heap::vacant(alloc, 1),
        segs,
        first,
        second,
    })
}
