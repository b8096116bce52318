ghost use Rattle.std.specs.Prelude.{◌≡◌};
ghost use Rattle.hp_stats.specs.Pairs.{no_pair};

use crossbeam_utils::atomic::Words;
use hp_base::Stats;

/// A count of a heap's entries, with the statistics after them. Own.
#[derive(Clone, Copy)]
pub struct StatPair {
    pub entries: u64,
    pub stats: Stats,
}

impl Words<7> for StatPair {
    ghost use Rattle.hp_stats.specs.PairWords.{words_of};

    ghost words = { words_of };

    fn to_words(self) -> [u64; 7] {
        let stats = self.stats;
        [
            self.entries,
            stats.total,
            stats.free,
            stats.used,
            stats.greatest,
            stats.busy,
            stats.frees,
        ]
    }

    fn from_words(bits: &[u64; 7]) -> StatPair {
        let stats = Stats {
            total: bits[1],
            free: bits[2],
            used: bits[3],
            greatest: bits[4],
            busy: bits[5],
            frees: bits[6],
        };
        StatPair {
            entries: bits[0],
            stats,
        }
    }
}

// What a cell has before anything is published.
pub(crate) fn zeros() -> StatPair
    ensures { result ≡ no_pair }
{
    let stats = Stats {
        total: 0,
        free: 0,
        used: 0,
        greatest: 0,
        busy: 0,
        frees: 0,
    };
    StatPair { entries: 0, stats }
}
