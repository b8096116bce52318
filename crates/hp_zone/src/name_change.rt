use hp_base::Name;

/// A change of the directory of heaps, of which its log has one for each call that changed it. Own.
#[derive(Clone, Copy)]
pub enum NameChange {
    /// The heap of that index got the name and the socket number.
    Named {
        index: u32,
        socket: u32,
        name: Name,
    },
    /// The heap of that index lost its name.
    Unnamed {
        index: u32,
    },
    /// Memory came to the heap of that index: `len` bytes from `addr` on, in pages of `page` bytes.
    Range {
        index: u32,
        addr: u64,
        len: u64,
        page: u64,
    },
    /// The range of that heap that begins at `addr` went.
    RangeGone {
        index: u32,
        addr: u64,
    },
}
