//! What stands against a pool that is asked for.
ghost use Rattle.std.specs.Prelude.{◌≡◌, ◌+◌, ◌≤◌, MatchResult};
ghost use Rattle.hp_mempool.specs.Asked.{IsFirstFault, IsFitFor, asked_of, stride_of};
ghost use Rattle.hp_mempool.specs.declared.judging.TheConstants.{MAX_SIZE, OBJECT_HEADER};

use crate::fault::PoolFault;
use hp_base::round64;

/// The most objects of a pool. Own.
pub const MAX_OBJECTS: u32 = 65_536;

/// The most bytes of an object. Own.
pub const MAX_SIZE: u64 = 65_536;

/// The most objects in a worker's cache. After RTE_MEMPOOL_CACHE_MAX_SIZE.
pub const MAX_CACHE: u32 = 512;

/// The bytes before the data of an object. After the header of rte_mempool.
pub const OBJECT_HEADER: u64 = 64;

// The first fault that stands against a pool in a zone of so many bytes, or how far its objects are apart.
pub(crate) fn judge(have: u64, n: u32, size: u64, cache: u32) -> Result<u64, PoolFault>
    ensures { MatchResult result (IsFitFor (asked_of n size cache have)) (IsFirstFault (asked_of n size cache have)) }
{
    if n == 0 || n > MAX_OBJECTS {
        return Err(PoolFault::BadCount { n });
    }
    if size == 0 || size > MAX_SIZE {
        return Err(PoolFault::BadSize { size });
    }
    if cache > MAX_CACHE {
        return Err(PoolFault::BadCache { cache });
    }
    let stride = stride_of(size);
    let need = u64::from(n) * stride;
    if have < need {
        return Err(PoolFault::TooSmall { have, need });
    }
    Ok(stride)
}

// How far objects of that size are apart.
pub(crate) fn stride_of(size: u64) -> u64
    requires { size ≤ MAX_SIZE }
    ensures stride { result ≡ stride_of size }
    ensures few { result ≤ MAX_SIZE + OBJECT_HEADER }
{
    let Some(rounded) = round64(size) else {
        unreachable!()
    };
    rounded + OBJECT_HEADER
}
