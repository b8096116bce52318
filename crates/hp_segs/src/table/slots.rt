//! Places of a mask.
ghost use Rattle.std.specs.Prelude.{◌≡◌, ◌+◌, ◌<◌, ◌≤◌, ◌^◌, length};
ghost use Rattle.hp_segs.specs.Masks.{with_places};

use hp_fbarray::Mask;

// Marks `count` places from `first` on as used, or as clear.
#[tactic(auto, using(crate::proofs::SlotFacts::MaskLemmas::with_places_more, crate::proofs::SlotFacts::MaskLemmas::length_with_places))]
pub(crate) fn mark(mask: &mut Mask, first: u32, count: u32, used: bool)
    requires within { first + count ≤ length mask.old }
    requires slots { first + count < 2 ^ 32 }
    ensures { mask.new ≡ with_places mask.old first count used }
{
    for n in 0..count {
        let place = (first + n) as usize;
        if used {
            mask.set(place);
        } else {
            mask.clear(place);
        }
    }
}
