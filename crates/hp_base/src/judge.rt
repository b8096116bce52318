ghost use Rattle.std.specs.Prelude.{◌≡◌, ◌<◌, ℕ, List, Option, IfSome};

use crate::name::Name;

/// Who may deny a growth of a socket's memory. After the allocation validators of rte_memory
/// (rte_mem_alloc_validator_register).
pub trait Judge {
    /// When the judge may be asked.
    ghost may_ask: { Self → Type 0 };

    /// Which answers the judge may give for a socket and the bytes that it would have: the name and the limit of the
    /// validator that denies them, or that none does. It may have several, since a validator need not answer the same
    /// each time.
    ghost denies: { Self → ℕ → ℕ → Option (List ℕ × ℕ) → Type 0 };

    /// Whether a total of bytes on a socket is denied: the name and the limit of the validator that does.
    fn ask(&self, socket: u32, total: u64) -> Option<(Name, u64)>
        requires may_ask { may_ask self.now }
        ensures { denies self.now socket total result };

    /// A validator denies only what is above its limit.
    ghost limits: { (judge : Self) (socket total : ℕ) (answer : Option (List ℕ × ℕ)) → denies judge socket total answer
        → IfSome answer (λ denied. denied.1 < total) };
}

/// It denies nothing. Own.
#[derive(Clone, Copy)]
pub struct NoLimits;

impl Judge for NoLimits {
    ghost use Rattle.std.specs.Prelude.{None};
    ghost use Rattle.std.proofs.Common.{subst, sym};

    ghost may_ask = { λ _. Unit {0} };

    ghost denies = { λ _ _ _ answer. answer ≡ None };

    ghost limits = { λ _ _ total answer is.
        subst (λ (given : Option (List ℕ × ℕ)). IfSome given (λ denied. denied.1 < total)) (sym is) tt };

    fn ask(&self, _socket: u32, _total: u64) -> Option<(Name, u64)> {
        None
    }
}
