//! Lines that one hall tells to be done are found by the other, and statistics that it publishes of a heap in its hand are read by the other.
ghost use Rattle.std.specs.Prelude.{IfOk};
ghost use Rattle.test_board.specs.Seating.{HasGoneOn, MayTell};

use super::HEAP;
use hp_base::{Caller, Stats};
use hp_hall::{Hall, Kept};
use hp_heap::Heap;
use std::alloc::AllocError;

/// How many lines of the first the second finds done, before that has told of one and after; and of how many calls the statistics of heap 0
// are that it reads, before the first, which has the heap in its hand, has published any and after.
type Told = ((u32, u32), (u64, u64));

// What the second finds of the first one's lines.
fn lines_told<H: Hall>(first: &mut H, second: &mut H) -> (u32, u32)
    requires first { MayTell 0 (H.state first.old) }
    requires second { MayTell 1 (H.state second.old) }
    ensures serves { (H.state first.new).serves 0 }
    ensures home { (H.state first.new).may_take 0 }
    ensures second { (H.state second.new).serves 1 }
{
    let before = second.load_done(1, 0);
    first.store_done(0, 1);
    (before, second.load_done(1, 0))
}

// The first call of participant 0, of that heap.
fn called(heap: &mut Heap) -> Result<Stats, AllocError>
    ensures { IfOk result (λ stats. HasGoneOn heap.old heap.new) }
{
    heap.reserve(1)?;
    let stats = heap.stats(Caller {
        participant: 0,
        number: 1,
    });
    Ok(stats)
}

// What the second reads of the heap that the first has in its hand.
fn heap_told<H: Hall>(first: &mut H, second: &mut H) -> Result<(u64, u64), AllocError>
    requires serves { (H.state first.old).serves 0 }
    requires home { (H.state first.old).may_take 0 }
    requires second { (H.state second.old).serves 1 }
{
    let (mut heap, pen) = first.take(0, HEAP).into_heap();
    let before = second.read(1, 0).0;
    let _stats = called(&mut heap)?;
    let mut kept = Kept::Heap { heap, pen };
    first.publish(0, 0, &mut kept);
    Ok((before, second.read(1, 0).0))
}

/// What the second finds of both.
pub fn told<H: Hall>(first: &mut H, second: &mut H) -> Result<Told, AllocError>
    requires first { MayTell 0 (H.state first.old) }
    requires second { MayTell 1 (H.state second.old) }
{
    let lines = lines_told(first, second);
    Ok((lines, heap_told(first, second)?))
}
