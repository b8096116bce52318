/// A piece of external memory, as rte_malloc_heap_memory_add brings it: a segment list of its own, outside the
/// log of segments. `addr`, `len` and `page` are bytes.
#[derive(Clone, Copy)]
pub struct Chunk {
    pub list: u32,
    pub addr: u64,
    pub len: u64,
    pub page: u64,
    pub socket: u32,
    /// Bit p is set where participant p has attached the chunk.
    pub attached: u16,
}
