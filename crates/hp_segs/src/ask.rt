use hp_base::Request;

/// A participant's request that the heap of a socket grow: pages of `page` bytes for the memory of `request`. `number`
/// counts the participant's own asks, from 1. After struct malloc_req_alloc of malloc_mp.h.
#[derive(Clone, Copy, PartialEq, Eq)]
pub struct Ask {
    pub from: u8,
    pub number: u64,
    pub heap: u32,
    pub socket: u32,
    pub page: u64,
    pub request: Request,
}
