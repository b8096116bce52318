/// The most memzones at once. After RTE_MAX_MEMZONE.
pub const MAX_ZONES: usize = 2_560;

/// The most bytes of the name of a memzone or of a heap. After RTE_MEMZONE_NAMESIZE and RTE_HEAP_NAME_MAX_LEN, which count a zero at
/// the end.
pub const MAX_ZONE_NAME: usize = 31;

/// The socket number of the first external heap; those of sockets are below it. After EXTERNAL_HEAP_MIN_SOCKET_ID of rte_malloc.
pub const FIRST_EXTERNAL_SOCKET: u32 = 256;
