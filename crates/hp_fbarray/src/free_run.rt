//! What a search for a run of clear places gives.

/// The answer of [`Mask::find_run`](crate::Mask::find_run). Own.
#[derive(Clone, Copy, PartialEq, Eq)]
pub enum FreeRun {
    /// The least start of a run of enough clear places.
    Found { start: usize },
    /// No run is long enough: the length, in places, of the longest one.
    TooShort { longest: usize },
}
