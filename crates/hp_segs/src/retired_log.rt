ghost use Rattle.std.specs.Prelude.{◌≡◌, [], ◌∷◌, ◌++◌};

use hp_base::Run;
use std::marker::Model;
use std::snapshot::Snapshot;

// All runs that were given up, in order, each with the heap that gave it up. Contracts see the list; of its bytes it keeps
// none but which of two cases it is, since what was given up stands in snapshots.
#[cycle(retired_log)]
#[derive(Drop)]
pub(crate) struct RetiredLog {
    past: RetiredPast,
}

#[cycle(retired_log)]
#[derive(Drop)]
enum RetiredPast {
    Nothing,
    // What was given up before, the heap, and its run.
    Retired(Snapshot<RetiredLog>, Snapshot<u32>, Snapshot<Run>),
}

impl Model for RetiredLog {
    ghost use Rattle.std.specs.Prelude.{List, ℕ, length};
    ghost use Rattle.std.proofs.Common.{arith, length-append};
    ghost use Rattle.hp_base.specs.declared.row.Run.{Run};

    ghost Value = { List (ℕ × Run) };

    ghost use Rattle.hp_segs.specs.RetiredKept.{retired_in};

    ghost view = { λ a. retired_in a.past };

    ghost size = { length };

    ghost size_decreases = { λ a h. Prim.grind (arith, length-append) };
}

impl RetiredLog {
    // Nothing was given up yet.
    pub fn new() -> RetiredLog
        ensures { result ≡ [] }
    {
        RetiredLog {
            past: RetiredPast::Nothing,
        }
    }

    // These runs, and one of a heap.
    pub fn with(&self, heap: u32, run: &Run) -> RetiredLog
        ensures { result ≡ self.now ++ (heap, run.now) ∷ [] }
    {
        RetiredLog {
            past: RetiredPast::Retired(Snapshot::of(self), Snapshot::of(&heap), Snapshot::of(run)),
        }
    }
}
