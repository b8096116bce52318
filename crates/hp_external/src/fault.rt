//! Why a call on external heaps is refused, in the order in which it is judged.
ghost use Rattle.std.specs.Prelude.{◌≡◌};
ghost use Rattle.hp_external.specs.Naming.{add_name_fault, attach_chunk_fault, destroy_name_fault, detach_chunk_fault, remove_name_fault};
ghost use Rattle.hp_external.specs.Adding.{range_fault};

use hp_base::Row;
use hp_segs::RangeFault;

/// Why a text names no external heap. After EINVAL, ENOENT and EPERM of rte_malloc_heap_destroy; the order is own.
#[derive(Clone, Copy, PartialEq, Eq)]
pub enum NameFault {
    /// The text is empty (own) or longer than 31 bytes.
    BadName,
    /// No heap has the name.
    NotFound,
    /// It is the name of a socket's heap.
    SocketHeap,
}

/// Why a text, an address and a length name no chunk of an external heap. After ENOENT of rte_malloc_heap_memory_attach.
#[derive(Clone, Copy, PartialEq, Eq)]
pub enum ChunkFault {
    /// No heap has the name.
    NotFound,
    /// The heap is a socket's, or has no chunk with this address and length.
    NoChunk,
}

/// Why no external heap is made. After the errors of rte_malloc_heap_create; the order is own.
#[derive(Clone, Copy, PartialEq, Eq)]
pub enum CreateFault {
    /// The name is empty (own) or longer than 31 bytes (EINVAL).
    BadName,
    /// A heap has the name already (EEXIST).
    Exists,
    /// Each index has a heap, or the socket numbers are used up (ENOSPC).
    NoSpace {
        /// The most heaps at once.
        limit: u32,
    },
    /// Memory ran out.
    OutOfMemory,
}

/// Why an external heap is not destroyed. After the errors of rte_malloc_heap_destroy; the order is own.
#[derive(Clone, Copy, PartialEq, Eq)]
pub enum DestroyFault {
    /// The name is empty (own) or longer than 31 bytes (EINVAL).
    BadName,
    /// No heap has the name (ENOENT).
    NotFound,
    /// It is the name of a socket's heap (EPERM).
    SocketHeap,
    /// The heap still has memory (EBUSY).
    Busy {
        /// How many chunks it has.
        chunks: u32,
    },
}

impl From<NameFault> for DestroyFault {
    ghost from_gives = { λ fault given. given ≡ destroy_name_fault fault };

    fn from(fault: NameFault) -> DestroyFault {
        match fault {
            NameFault::BadName => DestroyFault::BadName,
            NameFault::NotFound => DestroyFault::NotFound,
            NameFault::SocketHeap => DestroyFault::SocketHeap,
        }
    }
}

/// Why memory does not come to an external heap. After the errors of rte_malloc_heap_memory_add; the order is own.
#[derive(Clone, Copy, PartialEq, Eq)]
pub enum AddFault {
    /// The name is empty (own) or longer than 31 bytes (EINVAL).
    BadName,
    /// No heap has the name (ENOENT).
    NotFound,
    /// It is the name of a socket's heap (EPERM).
    SocketHeap,
    /// The memory is not whole pages of external memory (EINVAL).
    BadRange,
    /// A slot of a segment list shares a byte with the memory (EEXIST); this is the lowest one.
    Overlaps { row: Row },
    /// No segment list or too few segments are left (ENOSPC).
    NoSpace,
    /// Memory ran out.
    OutOfMemory,
}

impl From<NameFault> for AddFault {
    ghost from_gives = { λ fault given. given ≡ add_name_fault fault };

    fn from(fault: NameFault) -> AddFault {
        match fault {
            NameFault::BadName => AddFault::BadName,
            NameFault::NotFound => AddFault::NotFound,
            NameFault::SocketHeap => AddFault::SocketHeap,
        }
    }
}

impl From<RangeFault> for AddFault {
    ghost from_gives = { λ fault given. given ≡ range_fault fault };

    fn from(fault: RangeFault) -> AddFault {
        match fault {
            RangeFault::BadRange => AddFault::BadRange,
            RangeFault::Overlaps { row } => AddFault::Overlaps { row },
            RangeFault::NoSpace => AddFault::NoSpace,
            RangeFault::OutOfMemory => AddFault::OutOfMemory,
        }
    }
}

/// Why memory does not go from an external heap. After the errors of rte_malloc_heap_memory_remove; the order is own.
#[derive(Clone, Copy, PartialEq, Eq)]
pub enum RemoveFault {
    /// The name is empty (own) or longer than 31 bytes (EINVAL).
    BadName,
    /// No heap has the name (ENOENT).
    NotFound,
    /// It is the name of a socket's heap (EPERM).
    SocketHeap,
    /// The heap has no chunk with this address and length (ENOENT).
    NoChunk,
    /// An element of the chunk is busy (EBUSY).
    Busy {
        /// The lowest address of the data of such an element.
        addr: u64,
    },
    /// A participant has the chunk attached (EBUSY; that it is asked here is own).
    StillAttached {
        /// The lowest such participant.
        participant: u8,
    },
}

impl From<NameFault> for RemoveFault {
    ghost from_gives = { λ fault given. given ≡ remove_name_fault fault };

    fn from(fault: NameFault) -> RemoveFault {
        match fault {
            NameFault::BadName => RemoveFault::BadName,
            NameFault::NotFound => RemoveFault::NotFound,
            NameFault::SocketHeap => RemoveFault::SocketHeap,
        }
    }
}

/// Why a participant does not attach a chunk. After the errors of rte_malloc_heap_memory_attach; the order is own.
#[derive(Clone, Copy, PartialEq, Eq)]
pub enum AttachFault {
    /// No heap has the name (ENOENT).
    NotFound,
    /// The heap is a socket's, or has no chunk with this address and length (EPERM, ENOENT).
    NoChunk,
    /// The participant has it attached already (own).
    Already,
    /// The mapper refused a page of the chunk, or mapped it at another place.
    MapRefused {
        /// The mapper's number of that mapping call, from 1.
        call: u64,
    },
}

impl From<ChunkFault> for AttachFault {
    ghost from_gives = { λ fault given. given ≡ attach_chunk_fault fault };

    fn from(fault: ChunkFault) -> AttachFault {
        match fault {
            ChunkFault::NotFound => AttachFault::NotFound,
            ChunkFault::NoChunk => AttachFault::NoChunk,
        }
    }
}

/// Why a participant does not leave a chunk. After the errors of rte_malloc_heap_memory_detach; the order is own.
#[derive(Clone, Copy, PartialEq, Eq)]
pub enum DetachFault {
    /// No heap has the name (ENOENT).
    NotFound,
    /// The heap is a socket's, or has no chunk with this address and length (EPERM, ENOENT).
    NoChunk,
    /// The participant has not attached it (own).
    NotAttached,
    /// An element of the chunk is busy that the participant allocated (own).
    InUse {
        /// The lowest address of the data of such an element.
        addr: u64,
    },
}

impl From<ChunkFault> for DetachFault {
    ghost from_gives = { λ fault given. given ≡ detach_chunk_fault fault };

    fn from(fault: ChunkFault) -> DetachFault {
        match fault {
            ChunkFault::NotFound => DetachFault::NotFound,
            ChunkFault::NoChunk => DetachFault::NoChunk,
        }
    }
}
