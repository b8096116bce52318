//! What a coordinator answers, and how an ask ended, in few words.

use hp_core::Out;
use hp_segs::{Cause, Outcome};

/// Nobody has acknowledged anything, and all have acknowledged everything.
pub const NONE: [u64; 16] = [0; 16];

pub const ALL: [u64; 16] = [u64::MAX; 16];

/// How an ask ended, without its numbers.
#[derive(Clone, Copy, PartialEq, Eq)]
pub enum End {
    Granted,
    Freed,
    Stale,
    TooFew,
    MapFailed,
    Late(u8, u64, u64),
    Withdrawn,
    Other,
}

pub fn end_of(outcome: &Outcome) -> End {
    match outcome {
        Outcome::Granted { .. } => End::Granted,
        Outcome::Freed { .. } => End::Freed,
        Outcome::Stale { .. } => End::Stale,
        Outcome::Refused { cause } => match cause {
            Cause::TooFew { .. } => End::TooFew,
            Cause::MapFailed { .. } => End::MapFailed,
            Cause::Late {
                participant,
                from,
                to,
            } => End::Late(*participant, *from, *to),
            Cause::Withdrawn { .. } => End::Withdrawn,
            _ => End::Other,
        },
    }
}

/// What a coordinator answers.
#[derive(Clone, Copy)]
pub enum Said {
    Nothing,
    // Participant 0 is to catch up, for the record of that number.
    Map(u64),
    // SYNC of a record and a round goes to these members, as bits.
    Sync(u64, u8, u16),
    // The ask of a participant is granted, or not. Its notice is answered.
    Grant(u8, u64, bool),
    Freed(u8, u64),
}

pub fn out_of(said: Said) -> Out {
    match said {
        Said::Nothing => Out::Nothing,
        Said::Map(generation) => Out::MapSelf { generation },
        Said::Sync(generation, round, members) => Out::Sync {
            generation,
            round,
            members,
        },
        Said::Grant(to, number, good) => Out::Answer {
            to,
            number,
            what: 2,
            good,
        },
        Said::Freed(to, number) => Out::Answer {
            to,
            number,
            what: 3,
            good: true,
        },
    }
}
