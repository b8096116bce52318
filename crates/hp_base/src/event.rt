/// Whether memory comes or goes. After rte_mem_event.
#[derive(Clone, Copy, PartialEq, Eq)]
pub enum EventKind {
    /// It was mapped.
    Alloc,
    /// It is about to be unmapped.
    Free,
}

/// Memory that comes or goes: `len` bytes from `addr` on. After the memory event callbacks of rte_memory.
#[derive(Clone, Copy, PartialEq, Eq)]
pub struct Event {
    pub kind: EventKind,
    pub addr: u64,
    pub len: u64,
}
