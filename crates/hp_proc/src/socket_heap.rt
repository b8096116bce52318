/// The heap of a socket: its index among the heaps, and the number of the socket. After the heaps that
/// malloc_heap_alloc tries.
#[derive(Clone, Copy)]
pub struct SocketHeap {
    pub index: u32,
    pub socket: u32,
}
