//! Why a call on memzones is refused.

/// Why a memzone is not reserved, in the order in which it is judged. After the errors of rte_memzone_reserve_bounded; the order is own.
#[derive(Clone, Copy, PartialEq, Eq)]
pub enum ZoneFault {
    /// The name has no byte (own) or more than 31 (ENAMETOOLONG).
    NameLong,
    /// A memzone has the name already (EEXIST).
    Exists,
    /// There are as many memzones as there may be (ENOSPC).
    NoSpace {
        /// The most memzones at once.
        limit: u32,
    },
    /// The alignment is neither 0 nor a power of two (EINVAL).
    BadAlign,
    /// The bound is neither 0 nor a power of two of at least the rounded length (EINVAL).
    BadBound,
}

/// No memzone has the name. After the null pointer of rte_memzone_lookup.
#[derive(Clone, Copy)]
pub struct NotFound;
