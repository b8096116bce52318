//! What an ask is answered.
ghost use Rattle.std.specs.Prelude.{◌≡◌};
ghost use Rattle.hp_core.specs.Asks.{answer_of, is_good};

use crate::out::Out;
use hp_segs::{Outcome, Segs};

// Whether memory was granted or has gone back.
fn is_good(outcome: &Outcome) -> bool
    ensures { result ≡ is_good outcome.now }
{
    match outcome {
        Outcome::Granted { .. } | Outcome::Freed { .. } => true,
        Outcome::Refused { .. } | Outcome::Stale { .. } => false,
    }
}

// The answer to an ask, by its logged outcome.
pub(crate) fn answer(segs: &Segs, from: u8, number: u64, what: u8) -> Out
    ensures { result ≡ answer_of segs.now.asks from number what }
{
    match segs.outcome(from, number) {
        None => Out::Nothing,
        Some(outcome) => Out::Answer {
            to: from,
            number,
            what,
            good: is_good(&outcome),
        },
    }
}
