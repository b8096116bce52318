use hp_base::Caught;
use hp_segs::Ask;

/// What the coordinator is told. Readings of the clock are milliseconds. After the requests and
/// the replies that the primary handles in malloc_mp.c.
#[derive(Clone, Copy)]
pub enum CoreEvent {
    /// A participant asks for memory.
    Grow { ask: Ask },
    /// A participant has given memory up, which may go back.
    Shrink { from: u8, number: u64 },
    /// Participant 0 has caught up with the log, as it was told, or failed to.
    SelfMapped { caught: Caught, now: u64 },
    /// A reply came, a deadline has passed, or an ask is held: `acks` are the numbers of the participants 0 to 15, as they
    /// stand in their acknowledgement words.
    Poll { now: u64, acks: [u64; 16] },
}
