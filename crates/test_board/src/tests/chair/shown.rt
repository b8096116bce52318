//! What a segment value shows once a growth is over.

use hp_segs::{AskLog, Cause, Outcome, RowState, Segs};

/// How an ask ended.
#[derive(Clone, Copy, PartialEq, Eq)]
pub enum End {
    // By the record of that generation.
    Granted(u64),
    // This participant's mapping call of that number failed.
    MapFailed(u8, u64),
    Other,
}

/// What the value shows: how many records the log has, the free pages of the pool, the state of the first slot, how many outcomes are
/// logged, and the last one, with its participant.
#[derive(Clone, Copy, PartialEq, Eq)]
pub struct Shown {
    pub records: usize,
    pub left: u64,
    pub state: Option<RowState>,
    pub outcomes: usize,
    pub last: Option<(u8, End)>,
}

fn end_of(outcome: &Outcome) -> End {
    match outcome {
        Outcome::Granted { generation } => End::Granted(*generation),
        Outcome::Refused {
            cause: Cause::MapFailed {
                participant,
                call,
                ..
            },
        } => End::MapFailed(*participant, *call),
        _ => End::Other,
    }
}

fn ended(entry: &AskLog) -> (u8, End) {
    (entry.from, end_of(&entry.outcome))
}

// The free pages of the first pool.
fn pages_left(segs: &Segs) -> u64 {
    if segs.pools().is_empty() {
        0
    } else {
        segs.pages_left(0)
    }
}

/// What that value shows.
pub fn shown_in(segs: &Segs) -> Shown {
    let asks = segs.asks();
    Shown {
        records: segs.records().len(),
        left: pages_left(segs),
        state: segs.state(0, 0),
        outcomes: asks.len(),
        last: asks.last().map(ended),
    }
}
