/// The most workers of an exercise. Own.
pub const MAX_WORKERS: u32 = 16;

/// The most rounds of a worker. Own.
pub const MAX_ROUNDS: u32 = 100_000;

// How many workers do how many rounds each, with how many objects, and how many places the cache of each has.
#[derive(Clone, Copy)]
pub(crate) struct Load {
    pub(crate) workers: u32,
    pub(crate) rounds: u32,
    pub(crate) objects: u32,
    pub(crate) cache: u32,
}
