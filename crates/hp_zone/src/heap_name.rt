use hp_base::Name;

/// What the directory says of a heap that has a name: the name, and the socket number. After malloc_heap of rte_malloc.
#[derive(Clone, Copy)]
pub struct HeapName {
    pub name: Name,
    pub socket: u32,
}

/// Memory of the external heap of an index: `len` bytes from `addr` on, in pages of `page` bytes. After what
/// rte_malloc_heap_memory_add is given.
#[derive(Clone, Copy)]
pub struct HeapRange {
    pub index: u32,
    pub addr: u64,
    pub len: u64,
    pub page: u64,
}
