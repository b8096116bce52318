//! A clock that stands still for many readings.
ghost use Rattle.std.specs.Prelude.{◌≤◌, ◌^◌};

use hp_base::Clock;

// How many readings it stands still for, and what it reads from then on.
const STILL: u64 = 10_000_000;

const LATE: u64 = 1 << 62;

/// A clock that reads 0 for its first 10,000,000 readings, and 2^62 from then on: who waits out a deadline sees that.
#[derive(Clone, Copy, Drop)]
pub struct StandingClock {
    left: u64,
    last: u64,

    ghost small: { last ≤ 2 ^ 62 },
}

impl StandingClock {
    pub fn new() -> StandingClock {
        StandingClock {
            left: STILL,
            last: 0,
        }
    }
}

impl Clock for StandingClock {
    ghost last = { λ clock. clock.last };

    fn now(&mut self) -> u64 {
        if self.left > 0 {
            self.left -= 1;
        } else {
            self.last = LATE;
        }
        self.last
    }
}
