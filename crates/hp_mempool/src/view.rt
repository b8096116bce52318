use std::collections::LinkedList;

// What a pass of a pool's queue knows: the numbers that it has, in the order in which they came; how many numbers the pool has; and its
// part of the pool, `part` of 2^`halvings`. No value of it is made.
pub struct View {
    pub has: LinkedList<u32>,
    pub total: u64,
    pub part: u64,
    pub halvings: u64,
}
