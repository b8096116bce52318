use std::marker::Model;

/// The deadline of a run: 1 to 3,600,000 milliseconds.
#[derive(Clone, Copy)]
pub struct Deadline {
    ms: u64,
}

impl Model for Deadline {
    ghost use Rattle.std.specs.Prelude.{ℕ, ◌≤◌};

    ghost Value = { ℕ };

    ghost view = { λ a. a.ms };

    ghost invariant = { λ a. (1 ≤ a.ms) × (a.ms ≤ 3600000) };

    ghost inverse = { λ n. record { ms = n } };
}

impl Deadline {
    ghost use Rattle.std.specs.Prelude.{◌≡◌, ◌≤◌};

    /// A deadline of so many milliseconds.
    pub fn new(ms: u64) -> Deadline
        requires some { 1 ≤ ms }
        requires most { ms ≤ 3600000 }
        ensures { result ≡ ms }
    {
        Deadline { ms }
    }

    /// Its milliseconds.
    pub fn ms(self) -> u64
        ensures value { result ≡ self }
        ensures some { 1 ≤ result }
        ensures most { result ≤ 3600000 }
    {
        self.ms
    }
}
