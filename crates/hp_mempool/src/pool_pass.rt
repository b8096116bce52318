ghost use Rattle.std.specs.Prelude.{◌≡◌, length};

use crate::roles::Token;
use std::marker::Model;

/// A worker's pass to a pool, with the worker's cache. By it alone the worker gets and puts objects. It may go to another thread. After the
/// cache of a lcore in rte_mempool.
#[derive(Drop)]
pub struct PoolPass {
    // For how many objects the cache has a place.
    pub(crate) places: u32,
    pub(crate) cache: Vec<u32>,
    pub(crate) token: Token,
}

impl Model for PoolPass {
    ghost use Rattle.hp_mempool.specs.PassView.{PassView};

    ghost Value = { PassView };

    ghost use Rattle.hp_mempool.specs.PassInside.{pass_view, IsPass};

    ghost view = { pass_view };

    ghost invariant = { IsPass };
}

impl PoolPass {
    /// How many objects are in the cache. After rte_mempool_default_cache.
    pub fn cached(&self) -> usize
        ensures { result ≡ length self.now.cached }
    {
        self.cache.len()
    }
}
