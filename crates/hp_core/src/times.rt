ghost use Rattle.std.specs.Prelude.{◌≡◌};
ghost use Rattle.hp_core.specs.Rounds.{has_passed};

// How long a round waits, the reading when its first SYNC was sent, and the present one, in milliseconds.
#[derive(Clone, Copy)]
pub(crate) struct Times {
    pub deadline: u64,
    pub since: u64,
    pub present: u64,
}

impl Times {
    // Whether the deadline has passed.
    pub fn has_passed(&self) -> bool
        ensures { result ≡ has_passed self.now }
    {
        self.since <= self.present && self.deadline <= self.present - self.since
    }
}
