//! Sums over the elements of a heap, which are kept beside their headers.

/// The bytes of all elements, those of the free ones, and how many are free. Own.
#[derive(Clone, Copy, Drop)]
pub(crate) struct Totals {
    pub(crate) total: u64,
    pub(crate) free: u64,
    pub(crate) frees: u64,
}
