/// What the words of the program ask for. Own.
#[derive(Clone, Copy, PartialEq, Eq)]
pub enum Form {
    /// Run a workload in one thread, and report it.
    Solo,
    /// Run a workload, each participant on a thread of its own, and report it.
    Run,
    /// Read a workload, and say how many participant lines it has.
    Check,
    /// Generate a workload of so many participant lines from a start.
    Text { start: u64, lines: u32 },
    /// Generate it, run it in one thread, and sum the run up.
    Summary { start: u64, lines: u32 },
}
