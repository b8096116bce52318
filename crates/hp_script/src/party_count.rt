use std::marker::Model;

/// The declared number of participants, 1 to 16.
#[derive(Clone, Copy)]
pub struct PartyCount {
    number: u8,
}

impl Model for PartyCount {
    ghost use Rattle.std.specs.Prelude.{ℕ, ◌≤◌};

    ghost Value = { ℕ };

    ghost view = { λ a. a.number };

    ghost invariant = { λ a. (1 ≤ a.number) × (a.number ≤ 16) };

    ghost inverse = { λ n. record { number = n } };
}

impl PartyCount {
    ghost use Rattle.std.specs.Prelude.{◌≡◌, ◌≤◌};

    /// So many participants.
    pub fn new(number: u8) -> PartyCount
        requires some { 1 ≤ number }
        requires most { number ≤ 16 }
        ensures { result ≡ number }
    {
        PartyCount { number }
    }

    /// Their number.
    pub fn number(self) -> u8
        ensures value { result ≡ self }
        ensures some { 1 ≤ result }
        ensures most { result ≤ 16 }
    {
        self.number
    }
}
