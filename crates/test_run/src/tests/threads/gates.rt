//! Gates that hold lines up until another participant has got further.

use hp_base::Gate;
use std::sync::atomic::{AtomicU64, Ordering};
use std::thread;

// After so many turns a gate lets go whatever the other has done.
const MOST_TURNS: u32 = 100_000_000;

/// It holds each of two lines back, inside one call, until it was asked for the other one, and remembers which of them it was asked for, and
/// whether it had to let go before.
#[derive(Drop)]
pub struct MeetingGate {
    one: u32,
    other: u32,
    asked_one: AtomicU64,
    asked_other: AtomicU64,
    forced: AtomicU64,
}

impl MeetingGate {
    pub fn new(one: u32, other: u32) -> MeetingGate {
        MeetingGate {
            one,
            other,
            asked_one: AtomicU64::new(0),
            asked_other: AtomicU64::new(0),
            forced: AtomicU64::new(0),
        }
    }

    /// Whether it was asked for both lines, and held each until the other was asked for.
    pub fn have_met(&self) -> bool {
        is_set(&self.asked_one) && is_set(&self.asked_other) && !is_set(&self.forced)
    }

    // It waits for a mark.
    fn hold(&self, mark: &AtomicU64) {
        for _turn in 0..MOST_TURNS {
            if is_set(mark) {
                return;
            }
            thread::yield_now();
        }
        set(&self.forced);
    }
}

impl Gate for MeetingGate {
    fn ready(&self, participant: u8, line: u32) -> bool {
        let _ = participant;
        if line == self.one {
            set(&self.asked_one);
            self.hold(&self.asked_other);
        }
        if line == self.other {
            set(&self.asked_other);
            self.hold(&self.asked_one);
        }
        true
    }
}

/// It refuses a line of one participant until another one has come to its second line, and lets that one begin its first line only once it has
/// refused.
#[derive(Drop)]
pub struct RefusingGate {
    refused: u32,
    first: u32,
    second: u32,
    has_refused: AtomicU64,
    reached: AtomicU64,
}

impl RefusingGate {
    pub fn new(refused: u32, first: u32, second: u32) -> RefusingGate {
        RefusingGate {
            refused,
            first,
            second,
            has_refused: AtomicU64::new(0),
            reached: AtomicU64::new(0),
        }
    }

    /// Whether it has refused the line once at least.
    pub fn has_refused(&self) -> bool {
        is_set(&self.has_refused)
    }

    // Whether the line that it refuses may be done by now.
    fn lets_go(&self) -> bool {
        if is_set(&self.reached) {
            return true;
        }
        set(&self.has_refused);
        false
    }
}

impl Gate for RefusingGate {
    fn ready(&self, participant: u8, line: u32) -> bool {
        let _ = participant;
        if line == self.refused {
            return self.lets_go();
        }
        if line == self.second {
            set(&self.reached);
        }
        line != self.first || self.has_refused()
    }
}

// Whether a mark is set.
fn is_set(mark: &AtomicU64) -> bool {
    mark.load(Ordering::SeqCst) != 0
}

fn set(mark: &AtomicU64) {
    mark.store(1, Ordering::SeqCst);
}
