ghost use Rattle.std.specs.Prelude.{◌≡◌};
ghost use Rattle.hp_core.specs.Asks.{asker, number_of};

use hp_segs::Ask;

/// An ask of a participant: for memory, or a notice that memory may go back. Own.
#[derive(Clone, Copy)]
pub enum Asked {
    Grow { ask: Ask },
    Shrink { from: u8, number: u64 },
}

impl Asked {
    // The participant that asks.
    pub(crate) fn from(&self) -> u8
        ensures { result ≡ asker self.now }
    {
        match self {
            Asked::Grow { ask } => ask.from,
            Asked::Shrink { from, .. } => *from,
        }
    }

    // The number of the ask.
    pub(crate) fn number(&self) -> u64
        ensures { result ≡ number_of self.now }
    {
        match self {
            Asked::Grow { ask } => ask.number,
            Asked::Shrink { number, .. } => *number,
        }
    }
}
