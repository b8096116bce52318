/// Why there is no store. Own.
#[derive(Clone, Copy, PartialEq, Eq)]
pub enum StoreFault {
    /// It would have more bytes than a store may have.
    TooLarge { limit: usize },
    /// Memory ran out.
    OutOfMemory,
}

/// Why the data of an element are not lent. Own.
#[derive(Clone, Copy, PartialEq, Eq)]
pub enum ByteFault {
    /// No busy element has its data at this address.
    NotAnElement { addr: u64 },
    /// The data of the element at this address are not wholly in the store.
    Outside { addr: u64 },
    /// Two elements are asked for, and they are one.
    Same { addr: u64 },
}
