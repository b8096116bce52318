//! Why a call on watchers or validators is refused.

/// Why a watcher is not registered, in the order in which it is judged. After the errors of rte_mem_event_callback_register; the order is
/// own.
#[derive(Clone, Copy)]
pub enum WatchFault {
    /// The name has no byte or more than 63 (ENAMETOOLONG).
    NameLong {
        /// How many bytes it has.
        len: usize,
    },
    /// A watcher has the name already (EEXIST).
    Exists,
    /// There are as many watchers as there may be (own).
    Full {
        /// The most watchers at once.
        limit: u32,
    },
    /// No memory is left (ENOMEM).
    OutOfMemory,
}

/// Why no watcher is unregistered, in the order in which it is judged. After the errors of rte_mem_event_callback_unregister.
#[derive(Clone, Copy)]
pub enum UnwatchFault {
    /// The name has no byte or more than 63 (ENAMETOOLONG).
    NameLong {
        /// How many bytes it has.
        len: usize,
    },
    /// No watcher has the name (ENOENT).
    NotFound,
}

/// Why a validator is not registered, in the order in which it is judged. After the errors of rte_mem_alloc_validator_register; the order
/// is own.
#[derive(Clone, Copy)]
pub enum LimitFault {
    /// The name has no byte or more than 63 (ENAMETOOLONG).
    NameLong {
        /// How many bytes it has.
        len: usize,
    },
    /// A validator of the socket has the name already (EEXIST).
    Exists,
    /// No memory is left (ENOMEM).
    OutOfMemory,
}

/// No validator of the socket has the name (ENOENT). After rte_mem_alloc_validator_unregister.
#[derive(Clone, Copy)]
pub struct NotFound;
