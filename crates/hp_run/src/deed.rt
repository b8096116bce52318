ghost use Rattle.std.specs.Prelude.{◌≡◌};
ghost use Rattle.hp_run.specs.Deeds.{is_done};

use hp_script::{Act, Answer};

/// What a line may have done. Own.
#[derive(Clone, Copy)]
pub enum Deed {
    /// Memory was allocated.
    Allocated,
    /// An element was freed.
    Freed,
    /// An element was resized in place.
    Resized,
}

impl Deed {
    /// Whether a line of that act and that answer has done it.
    pub fn is_done(self, act: &Act<'_>, answer: &Answer) -> bool
        ensures { result ≡ is_done self act.now answer.now }
    {
        match self {
            Deed::Allocated => matches!((act, answer), (Act::Alloc { .. }, Answer::Address { .. })),
            Deed::Freed => matches!((act, answer), (Act::Free { .. }, Answer::Done)),
            Deed::Resized => matches!((act, answer), (Act::Resize { .. }, Answer::Yes)),
        }
    }
}
