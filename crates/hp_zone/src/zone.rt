use hp_base::Name;

/// A memzone: memory under a name, after rte_memzone. `addr` is the address of its data, `len` its rounded length in bytes, `socket` the
/// socket number of its heap, and `heap` the index of that heap.
#[derive(Clone, Copy, PartialEq, Eq)]
pub struct Zone {
    pub name: Name,
    pub addr: u64,
    pub len: u64,
    pub socket: u32,
    pub heap: u32,
}

/// A change of the memzones, of which their log has one for each call that changed them. Own.
#[derive(Clone, Copy)]
pub enum ZoneChange {
    /// The zone was reserved.
    Put { zone: Zone },
    /// The zone of that name was freed.
    Gone { name: Name },
}
