//! One pool as plain data.

/// The hugepages of one socket and page size, as contracts see them (own).
#[derive(Clone, Copy)]
pub struct Pool {
    /// The NUMA socket.
    pub socket: u32,
    /// The page size in bytes.
    pub page: u64,
    /// The pages of the pool in all, those that are out among them.
    pub pages: u64,
    /// The pages that can still be taken.
    pub free: u64,
}
