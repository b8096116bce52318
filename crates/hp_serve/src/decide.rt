/// What decides whether the bytes that a socket would have are allowed, as the closure of an allocation validator does: it is asked for the
/// socket, the validator's limit and the bytes. After rte_mem_alloc_validator_t.
pub trait Decide: Drop {
    ghost use Rattle.std.specs.Prelude.{ℕ, Bool};

    ghost decides: { Self → ℕ → ℕ → ℕ → Bool → Type 0 };

    /// Whether they are allowed.
    fn decide(&self, socket: u32, limit: u64, total: u64) -> bool
        ensures { Self.decides self.now socket limit total result };
}

/// A decision that is the same whatever is asked. Own.
#[derive(Clone, Copy, Drop)]
pub struct Decision {
    /// Whether all is allowed.
    pub allows: bool,
}

impl Decide for Decision {
    ghost use Rattle.std.specs.Prelude.{◌≡◌};

    ghost decides = { λ own socket limit total given. given ≡ own.allows };

    fn decide(&self, _socket: u32, _limit: u64, _total: u64) -> bool {
        self.allows
    }
}
