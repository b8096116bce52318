//! The names that are shared: memzones and heaps.
ghost use Rattle.std.specs.Prelude.{◌≡◌, IfOk};
ghost use Rattle.hp_zone.specs.Directory.{MayOpen, opened};
ghost use Rattle.hp_zone.specs.Zones.{no_zones};

use crate::directory::Directory;
use crate::zones::Zones;
use std::alloc::{AllocError, Global};

/// All names of memory: the memzones, and the directory of the heaps. Contracts see a record of both. After rte_memzone and the heaps of
/// rte_malloc, which every process finds in shared memory.
#[derive(Drop)]
pub struct Names {
    pub zones: Zones,
    pub heaps: Directory,
}

impl Names {
    /// No memzone, and the heaps of these sockets, whose numbers rise and are below 256. After the heaps that rte_eal_malloc_heap_init
    /// makes.
    pub fn new(alloc: Global, sockets: &[u32]) -> Result<Names, AllocError>
        requires { MayOpen sockets.now }
        ensures heaps { IfOk result (λ names. names.heaps ≡ opened sockets.now) }
        ensures zones { IfOk result (λ names. names.zones ≡ no_zones) }
    {
        let heaps = Directory::new(alloc, sockets)?;
        Ok(Names {
            zones: Zones::new(alloc),
            heaps,
        })
    }
}
