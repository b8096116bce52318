use hp_base::Request;

/// What a participant asks the coordinator for: pages of `page` bytes for the heap of a socket, in which a request has a place. `heap` is
/// the heap's index. After struct malloc_req_alloc of malloc_mp.h.
#[derive(Clone, Copy)]
pub struct PagesAsked {
    pub heap: u32,
    pub socket: u32,
    pub page: u64,
    pub request: Request,
}
