//! What a segment value shows, and how its asks ended.

use hp_base::MapAnswer;
use hp_segs::{Cause, Outcome, RowState, Segs};

/// What is seen of the first slot, the first pool and the logs.
#[derive(Clone, Copy, PartialEq, Eq)]
pub struct Seen {
    pub state: Option<RowState>,
    pub pages_left: u64,
    pub total: u64,
    pub retiring: usize,
    pub records: usize,
    pub asks: usize,
}

/// A value of four pages without a record.
pub const NEW: Seen = Seen {
    state: None,
    pages_left: 4,
    total: 0,
    retiring: 0,
    records: 0,
    asks: 0,
};

pub fn look(segs: &Segs) -> Seen {
    Seen {
        state: segs.state(0, 0),
        pages_left: pages_left(segs),
        total: segs.total_of(0),
        retiring: segs.retiring(),
        records: segs.records().len(),
        asks: segs.asks().len(),
    }
}

// The free pages of the first pool.
fn pages_left(segs: &Segs) -> u64 {
    if segs.pools().len() > 0 {
        segs.pages_left(0)
    } else {
        0
    }
}

/// How an ask ended.
#[derive(Clone, Copy, PartialEq, Eq)]
pub enum End {
    Granted(u64),
    Freed(u64),
    Stale(u64),
    NoList,
    // There were so many pages, or free slots one after another, where it needed so many.
    TooFew(u64, u64),
    ListFull(u64, u64),
    // The run at that address, of so many bytes, has no place for it.
    CannotHold(u64, u64),
    // So many bytes were allowed, where there would have been so many.
    Denied(u64, u64),
    // The participant had not acknowledged between these readings.
    Late(u8, u64, u64),
    // The participant's mapping call of that number, for the page at that address, was answered so.
    MapFailed(u8, u64, u64, MapAnswer),
    // The asker took its ask back, which it had sent at the one reading, at the other.
    Withdrawn(u64, u64),
}

pub fn end_of(outcome: &Outcome) -> End {
    match outcome {
        Outcome::Granted { generation } => End::Granted(*generation),
        Outcome::Freed { generation } => End::Freed(*generation),
        Outcome::Stale { done } => End::Stale(*done),
        Outcome::Refused { cause } => end_for(cause),
    }
}

pub fn end_for(cause: &Cause) -> End {
    match cause {
        Cause::NoList => End::NoList,
        Cause::TooFew { have, need } => End::TooFew(*have, *need),
        Cause::ListFull { longest, need } => End::ListFull(*longest, *need),
        Cause::CannotHold { addr, len } => End::CannotHold(*addr, *len),
        Cause::Denied { limit, total, .. } => End::Denied(*limit, *total),
        Cause::Late {
            participant,
            from,
            to,
        } => End::Late(*participant, *from, *to),
        Cause::MapFailed {
            participant,
            call,
            addr,
            got,
        } => End::MapFailed(*participant, *call, *addr, *got),
        Cause::Withdrawn { from, to } => End::Withdrawn(*from, *to),
    }
}
