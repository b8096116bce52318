/// The most participants of a run. Own.
pub const MAX_PARTICIPANTS: u8 = 16;

/// The most heaps, those of sockets and external ones together. After RTE_MAX_HEAPS.
pub const MAX_HEAPS: usize = 32;

/// The number of sockets: a socket of a pool line or of a participant is below it, and external heaps have numbers above.
/// After RTE_MAX_NUMA_NODES.
pub const MAX_SOCKETS: u32 = 32;

/// The most segment lists, those of pools and of external memory together. After RTE_MAX_MEMSEG_LISTS.
pub const MAX_LISTS: usize = 128;

/// The most segments of one list, and the most pages of one pool. After RTE_MAX_MEMSEG_PER_LIST.
pub const MAX_LIST_SEGMENTS: u64 = 8_192;

/// The most segments of all lists together. Own.
pub const MAX_SEGMENTS: u64 = 16_384;

/// The most participant lines of a workload. Own.
pub const MAX_LINES: usize = 20_000;

/// The most bytes of a workload. Own.
pub const MAX_WORKLOAD_BYTES: usize = 1_048_576;

/// The greatest number of a message or a mapping call that a plan may name. Own.
pub const MAX_COUNT: u64 = 1_000_000;

/// The longest deadline of a growth, in milliseconds: an hour. Own.
pub const MAX_DEADLINE: u64 = 3_600_000;

/// The latest reading of a clock, in milliseconds. Own.
pub const MAX_READING: u64 = 1 << 63;
