ghost use Rattle.std.specs.Prelude.{◌≡◌, ◌≤◌, ◌^◌, ℕ};

use crate::limits::MAX_READING;
use std::marker::Model;

/// A clock in milliseconds, whose readings never fall. They have no other meaning. After rte_get_timer_cycles; the unit
/// is own.
pub trait Clock: Drop {
    /// Its last reading, or 0 before the first.
    ghost last: { Self → ℕ };

    /// A reading, in milliseconds.
    fn now(&mut self) -> u64
        ensures rises { last self.old ≤ result }
        ensures small { result ≤ 2 ^ 63 }
        ensures last { last self.new ≡ result };
}

/// A clock whose first reading is 0, and whose later ones are a step of milliseconds more each, at most 2^63. Own.
#[derive(Drop)]
pub struct StepClock {
    step: u64,
    last: u64,
    next: u64,
}

impl Model for StepClock {
    ghost use Rattle.hp_base.specs.Clocks.{ClockState, IsClock};

    ghost Value = { ClockState };

    ghost view = { λ a. record { step = a.step; last = a.last; next = a.next } };

    ghost invariant = { λ a. IsClock a.last a.next };
}

impl StepClock {
    ghost use Rattle.hp_base.specs.Clocks.{ClockState};

    /// A clock that was not read yet. Own.
    pub fn new(step: u64) -> StepClock
        ensures { result ≡ record { step = step; last = 0; next = 0 } }
    {
        StepClock {
            step,
            last: 0,
            next: 0,
        }
    }
}

impl Clock for StepClock {
    ghost use Rattle.hp_base.specs.Clocks.{after_reading};

    ghost last = { λ clock. clock.last };

    fn now(&mut self) -> u64
        ensures rises { self.old.last ≤ result }
        ensures small { result ≤ 2 ^ 63 }
        ensures last { self.new.last ≡ result }

        // Which reading it is, and the clock after it.
        ensures reading { result ≡ self.old.next }
        ensures after { self.new ≡ after_reading self.old }
    {
        let reading = self.next;
        self.last = reading;
        self.next = reading.saturating_add(self.step).min(MAX_READING);
        reading
    }
}
