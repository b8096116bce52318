//! Two participants in a hall of plain values, by hand.
ghost use Rattle.std.specs.Prelude.{◌≡◌, ◌<◌, ℕ, true, [], Contains, IfOk, Some, None, length, slice_get};
ghost use Rattle.hp_heap.specs.History.{HeapView};
ghost use Rattle.hp_heap.specs.PlainHeap.{opening_heap};
ghost use Rattle.hp_plain.specs.HallView.{joined_in, own_at, part_in, seen_in};
ghost use Rattle.test_solo.specs.Untouched.{IsUnasked, IsUntouched, nothing_held};
ghost use Rattle.hp_segs.specs.SegsView.{granted_by, is_member};
ghost use Rattle.hp_segs.specs.Standing.{standing_of};
ghost use Rattle.hp_segs.specs.declared.outcome.AskLog.{AskLog};
ghost use Rattle.hp_plain.specs.Opening.{AreHome, AreInOrder, AreUnused};

mod cases;
mod ends;
mod memory;
mod messages;
mod notes;
mod steps;
mod values;

use hp_base::{MAX_HEAPS, PoolLine, Request};
use hp_heap::Heap;
use hp_plain::PlainHall;
use hp_segs::{Ask, Cause, Segs};
use hp_zone::Names;
use std::alloc::{AllocError, Global};
use std::test::Fail;

const PAGE: u64 = 0x20_0000;

// All heaps, without memory.
fn vacant_heaps(alloc: Global) -> Result<Vec<Heap>, AllocError>
    ensures order { IfOk result (λ heaps. AreInOrder heaps.items) }
    ensures unused { IfOk result (λ heaps. AreUnused heaps.items) }
    ensures opened { IfOk result (λ heaps. (number : ℕ) (heap : HeapView) → slice_get heaps.items number ≡ Some heap → heap.plain ≡ opening_heap number None) }
{
    let mut heaps = Vec::with_capacity(alloc, MAX_HEAPS)?;
    for index in 0..MAX_HEAPS as u32 {
        heaps.push_reserved(Heap::vacant(alloc, index));
    }
    Ok(heaps)
}

// A segment value with two participants in its roster and the two records of a growth that failed. No heap has anything of it, and nobody
// is armed.
fn failed_segs(alloc: Global) -> Result<Segs, Fail>
    ensures unasked { IfOk result (λ segs. IsUnasked segs) }
    ensures ungranted { IfOk result (λ segs. (entry : AskLog) → Contains segs.asks entry → granted_by entry.outcome ≡ None) }
    ensures bare { IfOk result (λ segs. (heap : ℕ) → standing_of heap segs ≡ nothing_held) }
    ensures two { IfOk result (λ segs. length segs.log ≡ 2) }
    ensures member { IfOk result (λ segs. is_member segs.roster 1 ≡ true) }
    ensures unclaimed { IfOk result (λ segs. segs.ranges ≡ []) }
{
    let request = Request::new(1000, 0, 0, 0).ok().ok_or("a good request")?;
    let ask = Ask {
        from: 0,
        number: 1,
        heap: 3,
        socket: 0,
        page: PAGE,
        request,
    };
    let pool = PoolLine {
        socket: 0,
        page: PAGE,
        pages: 4,
        slots: 4,
    };
    let mut segs = Segs::new(alloc, [pool].as_slice(), 2, 0)?;
    segs.reserve_records(3)?;
    let Ok(run) = segs.plan_run(&ask) else {
        return Err("a planned run".into());
    };
    segs.open_run(&ask, &run);
    let late = Cause::Late {
        participant: 0,
        from: 0,
        to: 1000,
    };
    segs.cancel(late);
    Ok(segs)
}

// A hall of two participants.
fn hall_of_two(alloc: Global) -> Result<PlainHall, Fail>
    ensures two { IfOk result (λ hall. length hall.owns ≡ 2) }
    ensures home { IfOk result (λ hall. AreHome hall) }
    ensures untouched { IfOk result (λ hall. (who number : ℕ) → IsUntouched (part_in hall who number)) }
    ensures nothing_yet { IfOk result (λ hall. (own_at hall 1).number ≡ 0) }
    ensures records { IfOk result (λ hall. length (seen_in hall) ≡ 2) }
    ensures joined { IfOk result (λ hall. joined_in hall 1 ≡ true) }
    ensures clock { IfOk result (λ hall. hall.clock ≡ 0) }
{
    let segs = failed_segs(alloc)?;
    let heaps = vacant_heaps(alloc)?;
    let names = Names::new(alloc, &[])?;
    let hall = PlainHall::new(alloc, 2, heaps, segs, names)?;
    Ok(hall)
}
