ghost use Rattle.std.specs.Prelude.{◌≡◌, ◌+◌, ◌<◌, ◌≤◌, ℕ, List};
ghost use Rattle.hp_base.specs.Telling.{Listener, told_after};

use crate::event::Event;

/// What is told of memory that comes and goes. It keeps lists of events, one for each that listens. After the memory
/// event callbacks of rte_memory.
pub trait Tell {
    /// Who listens: its name, the rows that were mapped when it began to, and the events that it was told since.
    ghost told: { Self → List Listener };

    /// How many events more it has room for.
    ghost spare: { Self → ℕ };

    /// Tells each of those that listen an event. Nothing else of them changes.
    fn tell(&mut self, event: Event)
        requires { 0 < spare self.old }
        ensures told { told self.new ≡ told_after event (told self.old) }
        ensures spare { spare self.old ≤ spare self.new + 1 };
}

/// It has no list, and keeps nothing. Own.
#[derive(Clone, Copy)]
pub struct Silent;

impl Tell for Silent {
    ghost use Rattle.std.specs.Prelude.{[], ◌^◌};

    ghost told = { λ _. [] };

    ghost spare = { λ _. 2 ^ 64 };

    fn tell(&mut self, _event: Event) {}
}
