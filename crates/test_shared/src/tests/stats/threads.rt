//! A pen that publishes on one thread, and a pass that reads beside it on another.
ghost use Rattle.std.specs.Prelude.{◌≡◌, ◌<◌, ◌≤◌, [], length};
ghost use Rattle.hp_stats.specs.StatViews.{IsPenOf, last_count};

use super::{Counter, ZEROS, opened, stats_of};
use hp_base::Stats;
use hp_stats::{StatCells, StatPass, StatPen};
use std::sync::Wait;
use std::test::Fail;
use std::thread;
use std::thread::{Threads, join};

// Publishes that many pairs of heap 1, each with a count one greater than the last.
fn publish_all<R: Wait>(
    rt: &R,
    cells: &StatCells,
    pen: StatPen,
    pass: StatPass,
    count: u64,
) -> StatPen
    requires pen { IsPenOf cells.now 1 pen × (pen.published ≡ []) }
    requires pass { pass.cells ≡ cells.now }
    ensures { IsPenOf cells.now 1 result }
{
    let mut pen = pen;
    let mut pass = pass;
    for entries in 0..count {
        let next = entries + 1;
        cells.publish(rt, &mut pen, &mut pass, 1, next, &stats_of(next));
    }
    pen
}

// Whether statistics are those that go with a count.
fn go_with(entries: u64, stats: Stats) -> bool {
    if entries == 0 {
        stats == ZEROS
    } else {
        stats == stats_of(entries)
    }
}

// Reads heap 1 until that count comes, and says whether each pair went with its count and no count fell.
fn read_all<R: Wait>(rt: &R, cells: &StatCells, pass: StatPass, count: u64) -> (StatPass, bool)
    requires { (pass.cells ≡ cells.now) × (1 < length cells.now) }
    ensures { result.0.cells ≡ pass.cells }
{
    let mut pass = pass;
    let mut last = 0;
    let mut whole = true;
    for _ in rt.forever() {
        if !whole || last >= count {
            break;
        }
        let (entries, stats) = cells.read(rt, &mut pass, 1);
        whole = last <= entries && go_with(entries, stats);
        last = entries;
        thread::yield_now();
    }
    (pass, whole)
}

// Whether what is read beside a pen that publishes that many pairs is in order and whole. The pen is compared with the reader's pass.
fn shared<R: Threads + Wait + Sync>(rt: &R, counter: Counter, count: u64) -> bool {
    let Counter {
        cells,
        pen,
        first,
        second,
    } = counter;
    both(rt, &cells, pen, first, second, count)
}

fn both<R: Threads + Wait + Sync>(
    rt: &R,
    cells: &StatCells,
    pen: StatPen,
    first: StatPass,
    second: StatPass,
    count: u64,
) -> bool
    requires pen { IsPenOf cells.now 1 pen × (pen.published ≡ []) }
    requires first { first.cells ≡ cells.now }
    requires second { (second.cells ≡ cells.now) × (1 < length cells.now) }
{
    let (mut pen, (mut second, whole)) = join(
        rt,
        move || -> StatPen
            requires pen { IsPenOf cells.now 1 pen × (pen.published ≡ []) }
            requires pass { first.cells ≡ cells.now }
            ensures { IsPenOf cells.entry.now 1 result }
        { publish_all(rt, cells, pen, first, count) },
        move || -> (StatPass, bool)
            requires { (second.cells ≡ cells.now) × (1 < length cells.now) }
            ensures { result.0.cells ≡ second.cells }
        { read_all(rt, cells, second, count) },
    );
    cells.meet(rt, &mut pen, &mut second, 1);
    whole
}

#[test]
fn what_is_read_beside_a_pen_is_in_order_and_whole(rt: HostRuntime) -> Result<(), Fail> {
    assert!(rt; shared(&rt, opened(rt.alloc())?, 10_000));
    Ok(())
}
