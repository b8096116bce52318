//! Statistics that a hall publishes and reads.
ghost use Rattle.std.specs.Prelude.{◌≡◌};
ghost use Rattle.hp_stats.specs.StatViews.{sees};
ghost use Rattle.hp_hall.specs.HallCalls.{IsKeptAfter};
ghost use Rattle.hp_hall.specs.Values.{pair_in};
ghost use Rattle.hp_chair.specs.Publishing.{MayTellOf};

use hp_hall::Kept;
use hp_stats::{StatCells, StatPair, StatPass};
use std::sync::Wait;

// Publishes the pair of a heap by the pen beside it, and tells the pass of it.
pub fn publish_by<R: Wait>(
    rt: &R,
    cells: &StatCells,
    pass: &mut StatPass,
    heap: u32,
    kept: &mut Kept,
) -> StatPair
    requires may { MayTellOf cells.now heap kept.old }
    requires pass { pass.old.cells ≡ cells.now }
    ensures pair { result ≡ pair_in kept.old }
    ensures told { pass.new ≡ sees heap (pair_in kept.old) pass.old }
    ensures kept { IsKeptAfter kept.old kept.new }
{
    match kept {
        Kept::Heap { heap: held, pen } => {
            let entries = held.history().len() as u64;
            let stats = held.summary();
            cells.publish(rt, pen, pass, heap, entries, &stats);
            StatPair { entries, stats }
        }
        Kept::Segments { .. } | Kept::Names { .. } => unreachable!(),
    }
}
