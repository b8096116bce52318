//! A slot that one hall holds is refused to the other, until it was given back.
ghost use Rattle.hp_serve.specs.SegmentSlot.{MayHold};

use hp_hall::{Hall, Slot};
use hp_serve::{put_back, take_segments};

/// The lock word that the second finds while the first holds the segment value, and whether the slot is free afterwards.
pub type Found = (Option<u64>, bool);

/// What the second finds.
pub fn found<H: Hall>(first: &mut H, second: &mut H) -> Found
    requires first { MayHold 0 (H.state first.old) }
    requires second { MayHold 1 (H.state second.old) }
{
    let segs = take_segments(first, 0);
    let Err(busy) = second.try_take(1, Slot::Segments) else {
        return (None, false);
    };
    put_back(first, 0, segs);
    (Some(busy.word), second.try_take(1, Slot::Segments).is_ok())
}
