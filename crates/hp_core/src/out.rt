/// What participant 0 has to do after a step of the coordinator. After the messages that the
/// primary sends in malloc_mp.c: mp_malloc_sync, mp_malloc_rollback and mp_malloc_response.
#[derive(Clone, Copy, PartialEq, Eq)]
pub enum Out {
    /// Nothing.
    Nothing,
    /// It catches its own table up with the log to this generation, and says so by SelfMapped.
    MapSelf {
        generation: u64,
    },
    /// It sends SYNC to the members: bit p stands for participant p. `round` is 1 for a growth and 2 for a drop.
    Sync {
        generation: u64,
        round: u8,
        members: u16,
    },
    /// It sends RESULT to the asker. `what` is 2 for the answer to an ask for memory and 3 for that to a notice that memory
    /// may go back; `good` is whether it was granted, or has gone back.
    Answer {
        to: u8,
        number: u64,
        what: u8,
        good: bool,
    },
}
