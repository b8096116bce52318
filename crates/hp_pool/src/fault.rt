//! Why a call of the pools is refused, in the order in which it is judged.
ghost use Rattle.std.specs.Prelude.{◌≡◌};
ghost use Rattle.hp_pool.specs.declared.fault.PoolAddFault.TheVariants.{OutOfMemory};

use std::alloc::AllocFailed;

/// Why a pool is not added (own).
#[derive(Clone, Copy, PartialEq, Eq)]
pub enum PoolAddFault {
    /// There is a pool of that socket and page size already.
    Exists,
    /// Memory ran out.
    OutOfMemory,
}

impl<T: Drop> From<AllocFailed<T>> for PoolAddFault {
    ghost from_gives = { λ _ fault. fault ≡ OutOfMemory };

    fn from(_failed: AllocFailed<T>) -> PoolAddFault {
        PoolAddFault::OutOfMemory
    }
}

/// Why no pages are taken from a pool (own).
#[derive(Clone, Copy, PartialEq, Eq)]
pub enum TakeFault {
    /// There is no pool of that socket and page size.
    NoPool,
    /// The pool has fewer free pages than were asked for.
    TooFew {
        /// The free pages of the pool.
        have: u64,
        /// The pages that were asked for.
        need: u64,
    },
}
