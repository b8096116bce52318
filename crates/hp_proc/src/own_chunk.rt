/// A chunk that a participant has attached: the index of its external heap, its address and its length in bytes. Own.
#[derive(Clone, Copy)]
pub struct OwnChunk {
    pub heap: u32,
    pub addr: u64,
    pub len: u64,
}
