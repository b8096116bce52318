//! Steps of one thread.
ghost use Rattle.std.specs.Prelude.{◌≡◌, ◌≤◌, length};
ghost use Rattle.hp_stats.specs.StatViews.{IsPenOf, last_count};

use super::{Counter, ZEROS, opened, stats_of};
use hp_base::Stats;
use hp_stats::{StatCells, StatPass};
use std::sync::Wait;
use std::test::Fail;

// What a pass reads of a heap.
fn seen<R: Wait>(rt: &R, cells: &StatCells, pass: &mut StatPass, heap: u32) -> (u64, Stats)
    requires pass { (pass.old.cells ≡ cells.now) × (length cells.now ≡ 3) }
    ensures { pass.new.cells ≡ pass.old.cells }
{
    cells.read(rt, pass, heap % 3)
}

// What two passes read of heap 1 and one of heap 2, before heap 1 has published and afterwards.
fn read_around<R: Wait>(rt: &R, counter: Counter) -> [(u64, Stats); 5] {
    let Counter {
        cells,
        mut pen,
        mut first,
        mut second,
    } = counter;
    let before = seen(rt, &cells, &mut second, 1);
    cells.publish(rt, &mut pen, &mut first, 1, 5, &stats_of(5));
    let own = seen(rt, &cells, &mut first, 1);
    let newest = seen(rt, &cells, &mut second, 1);
    let again = seen(rt, &cells, &mut second, 1);
    let other = seen(rt, &cells, &mut second, 2);
    [before, own, newest, again, other]
}

#[test]
fn reads_zeros_and_then_the_newest_pair_of_each_heap(rt: HostRuntime) -> Result<(), Fail> {
    let newest = (5, stats_of(5));
    let wanted = [(0, ZEROS), newest, newest, newest, (0, ZEROS)];
    assert!(rt; read_around(&rt, opened(rt.alloc())?) == wanted);
    Ok(())
}
