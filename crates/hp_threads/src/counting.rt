//! What all participants have read of the statistics of heaps, which meets what was published once all have come home.
ghost use Rattle.std.specs.Prelude.{◌≡◌};
ghost use Rattle.std.specs.List.{All};
ghost use Rattle.hp_threads.specs.Counting.{ArePensOf, WerePublished};

use hp_stats::{StatCells, StatPass, StatPen};
use std::sync::Wait;

// What a pass has read of each heap meets the heap's pen.
fn meet_pens<R: Wait>(rt: &R, cells: &StatCells, pens: &mut Vec<StatPen>, pass: StatPass)
    requires pens { ArePensOf cells.now pens.old.items }
    requires pass { pass.cells ≡ cells.now }
    ensures published { WerePublished pens.old.items pass }
    ensures pens { pens.new.items ≡ pens.old.items }
{
    let mut pass = pass;
    for heap in 0..pens.len() {
        cells.meet(rt, &mut pens[heap], &mut pass, heap as u32);
    }
}

/// What each participant has read of each heap meets the heap's pen. Own.
pub fn count_all<R: Wait>(rt: &R, cells: &StatCells, pens: Vec<StatPen>, passes: Vec<StatPass>)
    requires pens { ArePensOf cells.now pens.items }
    requires passes { All (λ pass. pass.cells ≡ cells.now) passes.items }
    ensures { All (WerePublished pens.items) passes.items }
{
    let mut pens = pens;
    let mut passes = passes;
    while !passes.is_empty() {
        meet_pens(rt, cells, &mut pens, passes.remove(0));
    }
}
