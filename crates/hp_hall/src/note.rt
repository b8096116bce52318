use hp_stats::StatPair;

/// What a participant did in a hall that changes no slot and no mailbox, as it is noted. Readings and deadlines are in milliseconds. Own.
#[derive(Clone, Copy)]
pub enum Note {
    /// It read its clock.
    Read { now: u64 },
    /// It looked up how many records a participant has acknowledged.
    Loaded { participant: u8, number: u64 },
    /// It acknowledged so many records.
    Acked { number: u64 },
    /// It told that its table has lost what the records after its number drop, as far as it has seen them.
    Unmapped,
    /// It told that its table has no row.
    Emptied,
    /// It told that so many of its lines are done.
    Stored { lines: u32 },
    /// It looked up how many of its lines a participant has told to be done.
    LoadedDone { participant: u8, lines: u32 },
    /// It published statistics of the heap of that index, which it had in hand.
    Published { heap: u32, pair: StatPair },
    /// It read the newest statistics of the heap of that index.
    ReadStats { heap: u32, pair: StatPair },
    /// It let those above it serve, or those below, and something moved, or nothing; `None` where one of them stopped.
    Yielded { above: bool, moved: Option<bool> },
    /// It ended a turn in which something moved, or nothing, to wait until a deadline, or for none.
    Paused { moved: bool, until: Option<u64> },
}
