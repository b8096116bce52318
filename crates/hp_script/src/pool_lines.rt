use hp_base::PoolLine;
use std::alloc::{AllocError, Global};
use std::marker::Model;

/// The pools so far, in the order of their lines.
#[derive(Drop)]
pub struct PoolLines {
    pools: Vec<PoolLine>,
    // The slots of all their lists.
    segments: u64,
}

impl Model for PoolLines {
    ghost use Rattle.std.specs.Prelude.{◌≡◌, ◌≤◌, List, length};
    ghost use Rattle.hp_base.specs.declared.pool_line.PoolLine.{PoolLine};
    ghost use Rattle.hp_script.specs.Counts.{segments_of};

    ghost Value = { List PoolLine };

    ghost view = { λ a. a.pools.items };

    ghost invariant = { λ a. (a.segments ≡ segments_of a.pools.items) × (a.segments ≤ 16384) × (length a.pools.items ≤ 128) };
}

impl PoolLines {
    ghost use Rattle.std.specs.Prelude.{◌≡◌, ◌<◌, ◌≤◌, ◌+◌, ◌++◌, ◌∷◌, [], length, if◌then◌else◌, is_ok};
    ghost use Rattle.std.specs.List.{list_any};
    ghost use Rattle.hp_script.specs.Counts.{is_same_pool, segments_of};

    /// No pool.
    pub fn new(alloc: Global) -> PoolLines
        ensures { result ≡ [] }
    {
        PoolLines {
            pools: Vec::new(alloc),
            segments: 0,
        }
    }

    /// Whether there is a pool of this one's socket and page.
    pub fn has(&self, pool: PoolLine) -> bool
        ensures { result ≡ list_any (is_same_pool pool) self.now }
    {
        self.pools.iter().any(|other| other.socket == pool.socket && other.page == pool.page)
    }

    /// The number of lists.
    pub fn len(&self) -> usize
        ensures { result ≡ length self.now }
    {
        self.pools.len()
    }

    /// The number of segments.
    pub fn segments(&self) -> u64
        ensures value { result ≡ segments_of self.now }
        ensures most { result ≤ 16384 }
    {
        self.segments
    }

    /// Adds a pool, where there is room for its segments.
    pub fn push(&mut self, pool: PoolLine) -> Result<(), AllocError>
        requires lists { length self.old < 128 }
        requires segments { segments_of self.old + pool.slots ≤ 16384 }
        ensures { self.new ≡ (if is_ok result then self.old ++ pool ∷ [] else self.old) }
    {
        self.pools.push(pool)?;
        self.segments += u64::from(pool.slots);
        Ok(())
    }

    /// The pools.
    pub fn into_pools(self) -> Vec<PoolLine>
        ensures pools { result.items ≡ self }
        ensures few_lists { length result.items ≤ 128 }
        ensures few_segments { segments_of result.items ≤ 16384 }
    {
        let PoolLines { pools, segments: _ } = self;
        pools
    }
}
