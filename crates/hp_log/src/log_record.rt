use hp_base::Run;

/// A record of the log of segments. Its generation is its place in the log, from 1. Own.
#[derive(Clone, Copy, PartialEq, Eq)]
pub enum LogRecord {
    /// The slots of the run are mapped, for that heap.
    Add { run: Run, heap: u32 },
    /// The slots of the run are unmapped.
    Drop { run: Run },
}
