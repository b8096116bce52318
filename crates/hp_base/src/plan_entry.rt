/// The kinds of message between the primary process and its secondaries. After the requests and replies of malloc_mp.c,
/// by which EAL synchronises dynamic memory between processes; that a plan names them is own.
#[derive(Clone, Copy, PartialEq, Eq)]
pub enum MsgKind {
    /// A request for memory.
    Alloc,
    /// A notice that memory may go back.
    Free,
    /// The coordinator's call to catch up with the log.
    Sync,
    /// The reply to a SYNC.
    Reply,
    /// The coordinator's answer to a request.
    Answer,
}

/// One planned disturbance of a run. Messages and mapping calls are counted from 1, `line` is the line of the
/// workload that plans it. Own.
#[derive(Clone, Copy, PartialEq, Eq)]
pub enum PlanEntry {
    /// The k-th message of the kind that concerns the participant is lost, or comes twice.
    Message {
        kind: MsgKind,
        party: u8,
        k: u64,
        twice: bool,
        line: u32,
    },
    /// The participant's call-th mapping is refused, or comes out elsewhere.
    Mapping {
        party: u8,
        call: u64,
        elsewhere: bool,
        line: u32,
    },
}
