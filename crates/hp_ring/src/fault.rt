/// Why a ring is not made, in the order in which it is judged. After the errors of rte_ring_create; the order and the numbers are own.
#[derive(Clone, Copy, PartialEq, Eq)]
pub enum RingFault {
    /// No slot, or more than 4,096 (EINVAL).
    BadSlots { slots: u32 },
    /// No sender, or more than 2 (EINVAL).
    BadSenders { senders: u8 },
    /// The zone is shorter than the ring (ENOMEM).
    TooSmall { have: u64, need: u64 },
    /// There was no memory for the ring.
    OutOfMemory,
}
