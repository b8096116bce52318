/// The statistics of a heap: bytes in all, free, used and of the greatest free element, and the numbers of busy
/// and of free elements. Headers count. After rte_malloc_get_socket_stats.
#[derive(Clone, Copy, PartialEq, Eq)]
pub struct Stats {
    pub total: u64,
    pub free: u64,
    pub used: u64,
    pub greatest: u64,
    pub busy: u64,
    pub frees: u64,
}
