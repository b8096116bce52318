/// How a wait ended that no refusal of memory ends: at that reading of the clock, and whether somebody met a refusal meanwhile. Own.
#[derive(Clone, Copy)]
pub(crate) struct Waited {
    /// The last reading, in milliseconds.
    pub reading: u64,
    /// Somebody stopped: the participant itself, or one of those that it let serve.
    pub stopped: bool,
}
