//! The pools and their calls.
ghost use Rattle.std.specs.Prelude.{◌≡◌, ℕ, ◌+◌, ◌<◌, ◌≤◌, ◌↔◌, [], IfNone, IfSome, IsNone, IsOk, IsSome, OnErr, OnOk};
ghost use Rattle.hp_pool.specs.Pools.{Adds, Gives, HasFree, HasOut, IsCounted, Takes, free_pages, pool_of};
ghost use Rattle.hp_pool.specs.Place.{IsPlaceOf};

use crate::{Pool, PoolAddFault, TakeFault};
use std::alloc::Global;
use std::marker::Model;

/// The hugepage pools of the machine, at most one for each socket and page size.
///
/// A page that is taken is out until it is given back. Contracts see a list of pools, and speak of it
/// by the pool of a socket and page size. The counts are after what the EAL of DPDK keeps of each
/// hugepage size and socket (`hugepage_info`). No call but `add` takes memory.
#[derive(Drop)]
pub struct Pools {
    pools: Vec<Pool>,
}

impl Model for Pools {
    ghost use Rattle.std.specs.Prelude.{List};
    ghost use Rattle.hp_pool.specs.declared.pool.Pool.{Pool as OnePool};
    ghost use Rattle.hp_pool.specs.Pools.{AreSingle, IsCounted};

    ghost Value = { List OnePool };

    ghost view = { λ pools. pools.pools.items };

    ghost invariant = { λ pools. IsCounted pools.pools.items × AreSingle pools.pools.items };
}

// The place of the pool of this socket and page size.
fn place_of(pools: &[Pool], socket: u32, page: u64) -> Option<usize>
    ensures found { IfSome result (IsPlaceOf pools.now socket page) }
    ensures none { IfNone result (pool_of pools.now socket page ≡ None) }
{
    pools
        .iter()
        .position(|pool| pool.socket == socket && pool.page == page)
}

impl Pools {
    /// No pools. Own.
    pub fn new(alloc: Global) -> Pools
        ensures { result ≡ [] }
    {
        Pools {
            pools: Vec::new(alloc),
        }
    }

    /// Adds a pool of `pages` pages, all free, each of `page` bytes (own).
    ///
    /// It refuses a second pool of one socket and page size, and that before it asks for memory.
    pub fn add(&mut self, socket: u32, page: u64, pages: u64) -> Result<(), PoolAddFault>
        ensures added { OnOk result (Adds self.old self.new socket page pages) }
        ensures exists { (result ≡ Err PoolAddFault.Exists)
            ↔ IsSome (free_pages self.old socket page) }
        ensures err { OnErr result (self.new ≡ self.old) }
    {
        if place_of(self.pools.as_slice(), socket, page).is_some() {
            return Err(PoolAddFault::Exists);
        }
        let pool = Pool {
            socket,
            page,
            pages,
            free: pages,
        };
        self.pools.push(pool)?;
        Ok(())
    }

    /// Takes `n` pages of `page` bytes out of a pool, all or none, as `eal_memalloc_alloc_seg_bulk`
    /// does where it is asked for the exact number.
    pub fn take(&mut self, socket: u32, page: u64, n: u64) -> Result<(), TakeFault>
        ensures taken { OnOk result (Takes self.old self.new socket page n) }
        ensures succeeds { IsOk result ↔ HasFree self.old socket page n }

        // A missing pool is reported before too few pages.
        ensures no_pool { (result ≡ Err TakeFault.NoPool)
            ↔ IsNone (free_pages self.old socket page) }
        ensures too_few { (have need : ℕ) → (result ≡ Err (TakeFault.TooFew have need))
            ↔ ((free_pages self.old socket page ≡ Some have) × (need ≡ n) × (have < n)) }
        ensures err { OnErr result (self.new ≡ self.old) }
    {
        let Some(place) = place_of(self.pools.as_slice(), socket, page) else {
            return Err(TakeFault::NoPool);
        };
        let pool = &mut self.pools[place];
        if pool.free < n {
            return Err(TakeFault::TooFew {
                have: pool.free,
                need: n,
            });
        }
        pool.free -= n;
        Ok(())
    }

    /// Gives `n` pages of `page` bytes back to the pool that they were taken from (own).
    pub fn give(&mut self, socket: u32, page: u64, n: u64)
        requires out { HasOut self.old socket page n }
        ensures { Gives self.old self.new socket page n }
    {
        let Some(place) = place_of(self.pools.as_slice(), socket, page) else {
            unreachable!()
        };
        let pool = &mut self.pools[place];
        let out = pool.pages - pool.free;
        prove!(n <= out);
        pool.free += n;
    }

    /// How many pages of a pool are free, and `None` where there is no such pool (own).
    pub fn have(&self, socket: u32, page: u64) -> Option<u64>
        ensures free { result ≡ free_pages self.now socket page }

        // No pool has more free pages than pages.
        ensures counted { IsCounted self.now }
    {
        let place = place_of(self.pools.as_slice(), socket, page)?;
        Some(self.pools[place].free)
    }

    /// How many pages of a pool are free, where the caller knows at which place the pool stands: the pools stand in the
    /// order in which they were added. Where another pool stands there, it is looked for (own).
    pub fn have_at(&self, place: usize, socket: u32, page: u64) -> Option<u64>
        ensures { result ≡ free_pages self.now socket page }
    {
        match self.pools.get(place) {
            Some(pool) if pool.socket == socket && pool.page == page => Some(pool.free),
            _ => self.have(socket, page),
        }
    }
}
