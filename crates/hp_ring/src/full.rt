/// A ring had no room for a bulk. After ENOBUFS of rte_ring_enqueue.
#[derive(Clone, Copy, PartialEq, Eq)]
pub struct Full;
