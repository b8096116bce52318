ghost use Rattle.std.specs.Prelude.{◌≡◌};
ghost use Rattle.hp_hall.specs.Values.{pair_in};

use hp_base::Stats;
use hp_hall::Kept;
use hp_stats::StatPair;

// The count of a heap's entries, with its statistics, and zeros of another value.
pub(crate) fn pair_now(kept: &Kept) -> StatPair
    ensures { result ≡ pair_in kept.now }
{
    match kept {
        Kept::Heap { heap, .. } => StatPair {
            entries: heap.history().len() as u64,
            stats: heap.summary(),
        },
        Kept::Segments { .. } | Kept::Names { .. } => StatPair {
            entries: 0,
            stats: Stats {
                total: 0,
                free: 0,
                used: 0,
                greatest: 0,
                busy: 0,
                frees: 0,
            },
        },
    }
}
