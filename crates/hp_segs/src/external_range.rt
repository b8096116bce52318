/// External memory with a segment list of its own, outside the log: `len` bytes from `addr` on, in pages of `page`
/// bytes. After the external segment lists of rte_malloc_heap_memory_add.
#[derive(Clone, Copy)]
pub struct ExternalRange {
    pub list: u32,
    pub addr: u64,
    pub len: u64,
    pub page: u64,
    pub socket: u32,
}
