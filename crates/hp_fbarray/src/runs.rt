//! The search for runs of clear places.
ghost use Rattle.std.specs.Prelude.{◌≤◌, length};
ghost use Rattle.hp_fbarray.specs.Mask.{IsFirstFreeRun};
ghost use Rattle.hp_fbarray.specs.Searches.{IsFirstClear, IsTooShort};
ghost use Rattle.hp_fbarray.specs.Answers.{IfFound, IfTooShort};

use crate::free_run::FreeRun;
use crate::places::Places;

// The first run of `n` clear places from `from` on, or the length of the longest one there. Nothing
// is looked at below the first clear place.
pub(crate) fn search(places: &Places, first_clear: usize, from: usize, n: usize) -> FreeRun
    requires within { from ≤ length places.now }
    requires first_clear { IsFirstClear places.now first_clear }
    ensures found { IfFound result (IsFirstFreeRun places.now from n) }
    ensures short { IfTooShort result (IsTooShort places.now from n) }
{
    if n == 0 {
        return FreeRun::Found { start: from };
    }
    let len = places.len();
    let mut longest: usize = 0;
    // No run that begins from `from` up to `place` is longer than `longest`.
    let mut place = from.max(first_clear);
    while place < len {
        let start = places.next(place, len, false);
        // No more than n places are looked at.
        place = places.next(start, start + n.min(len - start), true);
        if place - start >= n {
            return FreeRun::Found { start };
        }
        longest = longest.max(place - start);
    }
    FreeRun::TooShort { longest }
}
