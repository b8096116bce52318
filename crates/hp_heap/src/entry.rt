use hp_base::{Caller, Chunk, Name, Request, Run, Stats, Tag};

/// One call of a heap, with who made it and what it answered. Own.
#[derive(Clone, Copy)]
pub struct Entry {
    pub caller: Caller,
    pub call: HeapCall,
    pub answer: HeapAnswer,
}

/// The calls of a heap. Addresses and sizes are bytes. Own.
#[derive(Clone, Copy)]
pub enum HeapCall {
    /// An allocation, for the line of the tag.
    Alloc { request: Request, tag: Tag },
    /// A search for the busy element with the zone mark and the number of the tag.
    Find { tag: Tag },
    /// A free of the element with its data at `addr`; `zone` where a memzone goes.
    Free { addr: u64, zone: bool },
    /// A resize in place of the element with its data at `addr`.
    Resize { addr: u64, size: u64 },
    /// A run of pages comes.
    Grow { run: Run },
    /// The whole pages of the free element that contains `addr` go.
    Cut { addr: u64 },
    /// The statistics are asked for.
    Stats,
    /// The heap gets a name and a socket number.
    Name { name: Name, socket: u32 },
    /// It loses both.
    Unname,
    /// A chunk of external memory comes.
    Chunk { chunk: Chunk },
    /// The chunk with this address and length goes.
    Unchunk { addr: u64, len: u64 },
    /// The caller attaches that chunk.
    Share { addr: u64, len: u64 },
    /// The caller leaves that chunk.
    Unshare { addr: u64, len: u64 },
}

/// What calls of a heap answer. Own.
#[derive(Clone, Copy)]
pub enum HeapAnswer {
    /// An allocation or a search found this address.
    Address { addr: u64 },
    /// An allocation, a search or a cut found nothing.
    Nothing,
    /// The call was done, and there is nothing to tell.
    Done,
    /// A free met no element with this address.
    NotAnElement,
    /// A free met the element of a memzone.
    IsZone,
    /// The element has the new size.
    Yes,
    /// It keeps the old one.
    No,
    /// These pages went.
    Pages { run: Run },
    /// The statistics.
    Statistics { stats: Stats },
}
