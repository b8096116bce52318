//! A participant gives up a run of a heap that it holds, under the segment slot.
ghost use Rattle.std.specs.Prelude.{◌≡◌, ◌≢◌, ℕ, [], ◌∷◌, Some};
ghost use Rattle.hp_segs.specs.Standing.{Holding};
ghost use Rattle.hp_heap.specs.PlainHeap.{PlainHeap};
ghost use Rattle.hp_segs.specs.SegsView.{SegsView};
ghost use Rattle.hp_segs.specs.Steps.{after_retire};
ghost use Rattle.hp_serve.specs.Asking.{GivesUp, HasSettledAsks, IsCutFrom};
ghost use Rattle.hp_serve.specs.Serving.{gives_segments, takes_segments};
ghost use Rattle.hp_hall.specs.HallState.{Did, HasMapped};
ghost use Rattle.hp_serve.specs.SegmentSlot.{MayHold, StaysButParts};

use crate::calls::{give_back, take_segments};
use hp_base::Run;
use hp_hall::Hall;

/// The rows of a run that was cut from a heap become Retiring. After malloc_heap_free_pages of malloc_heap.c.
pub(crate) fn retire_run<H: Hall>(hall: &mut H, me: u8, heap: u32, run: &Run)
    requires may { MayHold me (H.state hall.old) }
    requires cut { (holding : Holding) × (left : PlainHeap) × (((H.state hall.old).part me heap).holding ≡ Some holding)
        × IsCutFrom heap run.now holding left }
    ensures gives_up { GivesUp heap run.now ((H.state hall.old).part me heap) ((H.state hall.new).part me heap) }
    ensures others { (other : ℕ) → other ≢ heap → (H.state hall.new).part me other ≡ (H.state hall.old).part me other }
    ensures did { (taken : SegsView) × Did me (takes_segments taken ∷ gives_segments (after_retire heap run.now taken) ∷ [])
        (H.state hall.old) (H.state hall.new) }
    ensures settled { HasSettledAsks ((H.state hall.old).part me) ((H.state hall.old).heard me)
        → HasSettledAsks ((H.state hall.new).part me) ((H.state hall.new).heard me) }
    ensures mapped { HasMapped me (H.state hall.new) }
    ensures stays { StaysButParts me (H.state hall.old) (H.state hall.new) }
    ensures goes_on { H.goes_on hall.old hall.new }
{
    let mut segs = take_segments(hall, me);
    segs.retire(heap, run);
    give_back(hall, me, segs);
}
