//! Why a pool is not made.

/// Why a pool is not made, in the order in which it is judged. After the errors of rte_mempool_create; the order and the numbers are own.
#[derive(Clone, Copy, Debug, PartialEq, Eq)]
pub enum PoolFault {
    /// No object, or more than 65,536 (EINVAL).
    BadCount { n: u32 },
    /// Objects of no byte, or of more than 65,536 (EINVAL).
    BadSize { size: u64 },
    /// A cache for more than 512 objects (EINVAL).
    BadCache { cache: u32 },
    /// The zone is shorter than the objects with their headers (ENOMEM).
    TooSmall { have: u64, need: u64 },
    /// There was no memory for the queue of numbers.
    OutOfMemory,
}
