ghost use Rattle.std.specs.Prelude.{◌≡◌, ◌+◌, ◌-◌, ◌^◌, min, if◌then◌else◌};
ghost use Rattle.hp_base.specs.Streams.{list_has};

/// Which calls of a source, a sink or a mapper in memory fail, by their number from 1, and how many calls there were.
#[derive(Drop)]
pub struct FailingCalls {
    pub fails: Vec<u64>,
    pub calls: u64,
    pub faults: u64,
}

impl FailingCalls {
    /// Counts a call, and answers whether it fails. Both counts stand still at 2^64 - 1.
    pub fn next_fails(&mut self) -> bool
        ensures result { result ≡ list_has self.new.calls self.old.fails.items }
        ensures calls { self.new.calls ≡ min (self.old.calls + 1) (2 ^ 64 - 1) }
        ensures faults { self.new.faults
            ≡ (if result then min (self.old.faults + 1) (2 ^ 64 - 1) else self.old.faults) }
        ensures fails { self.new.fails ≡ self.old.fails }
    {
        self.calls = self.calls.saturating_add(1);
        let failed = self.fails.contains(&self.calls);
        if failed {
            self.add_fault();
        }
        failed
    }

    /// Counts a fault that no plan names.
    pub fn add_fault(&mut self)
        ensures faults { self.new.faults ≡ min (self.old.faults + 1) (2 ^ 64 - 1) }
        ensures calls { self.new.calls ≡ self.old.calls }
        ensures fails { self.new.fails ≡ self.old.fails }
    {
        self.faults = self.faults.saturating_add(1);
    }

    /// Counts calls of which none fails. The count stands still at 2^64 - 1.
    pub fn add_calls(&mut self, count: u64)
        ensures calls { self.new.calls ≡ min (self.old.calls + count) (2 ^ 64 - 1) }
        ensures faults { self.new.faults ≡ self.old.faults }
        ensures fails { self.new.fails ≡ self.old.fails }
    {
        self.calls = self.calls.saturating_add(count);
    }
}
