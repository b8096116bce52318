use crate::ask::Ask;
use hp_base::{MapAnswer, Name};

/// Why an ask was refused. Addresses and lengths are bytes, readings of clocks are milliseconds. Own.
#[derive(Clone, Copy)]
pub enum Cause {
    /// The socket has no segment list of the page size.
    NoList,
    /// The pool has `have` free pages, and `need` are asked for.
    TooFew {
        have: u64,
        need: u64,
    },
    /// The longest free stretch of the list is `longest` slots, and `need` are asked for.
    ListFull {
        longest: u64,
        need: u64,
    },
    /// The first run lies at `addr` with `len` bytes, and the request has no place there.
    CannotHold {
        addr: u64,
        len: u64,
    },
    /// An allocation validator with the limit `limit` denied `total` bytes on the socket.
    Denied {
        validator: Name,
        limit: u64,
        total: u64,
    },
    /// The participant's mapping call of that number, for the page at `addr`, answered `got`.
    MapFailed {
        participant: u8,
        call: u64,
        addr: u64,
        got: MapAnswer,
    },
    /// The participant had not acknowledged the growth when the deadline had passed.
    Late {
        participant: u8,
        from: u64,
        to: u64,
    },
    /// The asker took the ask back, after it had waited for the answer.
    Withdrawn {
        from: u64,
        to: u64,
    },
}

/// How an ask ended. Own.
#[derive(Clone, Copy)]
pub enum Outcome {
    /// Memory was granted by the record of that generation.
    Granted { generation: u64 },
    /// Nothing was granted.
    Refused { cause: Cause },
    /// The ask came when the participant's asks up to `done` were closed.
    Stale { done: u64 },
    /// Memory that was given up had gone back by the record of that generation.
    Freed { generation: u64 },
}

/// One logged outcome: of whose ask, and of which number. Own.
#[derive(Clone, Copy)]
pub struct AskLog {
    pub from: u8,
    pub number: u64,
    pub outcome: Outcome,
    /// The number of records when it was logged, without the `Drop` of a growth that it cancelled.
    pub at: u64,
    /// The ask that was granted or refused.
    pub ask: Option<Ask>,
}
