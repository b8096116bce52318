/// Who asked for an element, and by which line of the workload. Own; it stands for the name that rte_malloc
/// takes.
#[derive(Clone, Copy, PartialEq, Eq)]
pub struct Tag {
    /// The participant whose line makes the call.
    pub who: u8,
    /// Whether the element is a memzone's.
    pub zone: bool,
    /// The number of the line, from 1.
    pub number: u32,
}

/// The participant that makes a call of a heap, and the number of that call among its own, from 1. Own.
#[derive(Clone, Copy)]
pub struct Caller {
    pub participant: u8,
    pub number: u64,
}
