//! How asks end, and what a segment value shows.

use hp_base::MapAnswer;
use hp_segs::{AskLog, Cause, Outcome, RowState, Segs};

/// How an ask ended.
#[derive(Clone, Copy, PartialEq, Eq)]
pub(crate) enum End {
    Granted(u64),
    Freed(u64),
    Stale(u64),
    // The participant's mapping call of that number, for the page at that address, was answered so.
    MapFailed(u8, u64, u64, MapAnswer),
    // The participant had not acknowledged between these readings.
    Late(u8, u64, u64),
    // The asker took its ask back, which it had sent at the one reading, at the other.
    Withdrawn(u64, u64),
    Other,
}

/// What a segment value shows.
#[derive(Clone, Copy, PartialEq, Eq)]
pub(crate) struct SegsShown {
    // How many records the log has.
    pub records: usize,
    // The free pages of the first pool.
    pub left: u64,
    // The state of the first slot of the first list.
    pub state: Option<RowState>,
    // How many outcomes are logged, and the last one, with the number of its participant and of its ask.
    pub outcomes: usize,
    pub last: Option<(u8, u64, End)>,
}

/// What that value shows.
pub(crate) fn shown_in(segs: &Segs) -> SegsShown {
    let asks = segs.asks();
    SegsShown {
        records: segs.records().len(),
        left: pages_left(segs),
        state: segs.state(0, 0),
        outcomes: asks.len(),
        last: asks.last().map(ended),
    }
}

// The free pages of the first pool.
fn pages_left(segs: &Segs) -> u64 {
    if segs.pools().is_empty() {
        0
    } else {
        segs.pages_left(0)
    }
}

// Whose ask of which number ended, and how.
fn ended(entry: &AskLog) -> (u8, u64, End) {
    (entry.from, entry.number, end_of(&entry.outcome))
}

fn end_of(outcome: &Outcome) -> End {
    match outcome {
        Outcome::Granted { generation } => End::Granted(*generation),
        Outcome::Freed { generation } => End::Freed(*generation),
        Outcome::Stale { done } => End::Stale(*done),
        Outcome::Refused { cause } => end_for(cause),
    }
}

fn end_for(cause: &Cause) -> End {
    match cause {
        Cause::MapFailed {
            participant,
            call,
            addr,
            got,
        } => End::MapFailed(*participant, *call, *addr, *got),
        Cause::Late {
            participant,
            from,
            to,
        } => End::Late(*participant, *from, *to),
        Cause::Withdrawn { from, to } => End::Withdrawn(*from, *to),
        _ => End::Other,
    }
}
