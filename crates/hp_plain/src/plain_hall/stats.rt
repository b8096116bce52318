//! The statistics of a hall's heaps.
ghost use Rattle.std.specs.Prelude.{◌≡◌, ◌<◌, IfOk, slice_get};
ghost use Rattle.hp_base.specs.declared.limits.TheConstants.{MAX_HEAPS};
ghost use Rattle.hp_plain.specs.HallSteps.{with_note};
ghost use Rattle.hp_plain.specs.HallView.{newest_in, slot_at};
ghost use Rattle.hp_hall.specs.Values.{pair_in};
ghost use Rattle.hp_plain.specs.Publishing.{AreFirstPens, IsPublished, MayTell, TellsIn};

use super::PlainHall;
use crate::pairs::pair_now;
use crate::slot_state::SlotState;
use hp_base::MAX_HEAPS;
use hp_hall::{Kept, Note};
use hp_stats::{StatCells, StatPair, StatParts, StatPen};
use std::alloc::{AllocError, Global};

// A pen for each heap, by which nothing was published. No cell is kept, since a step with one may wait.
pub fn first_pens(alloc: Global) -> Result<Vec<StatPen>, AllocError>
    ensures { IfOk result (λ pens. AreFirstPens pens.items) }
{
    let StatParts {
        cells: _,
        pens,
        passes: _,
    } = StatCells::new(alloc, MAX_HEAPS as u32, 1)?;
    Ok(pens)
}

impl PlainHall {
    // A participant publishes the pair of a heap that it holds, and it is noted.
    pub(crate) fn publish_at(&mut self, me: u8, heap: u32, kept: &Kept)
        requires may { MayTell (slot_at self.old heap) }
        ensures { IsPublished me heap (pair_in kept.now) self.old self.new }
    {
        let pair = pair_now(kept);
        tell_in(&mut self.slots, heap as usize, pair);
        self.mail = self.mail.with_note(me, Note::Published { heap, pair });
    }

    // A participant reads the newest pair of a heap, and it is noted.
    pub(crate) fn read_pair(&mut self, me: u8, heap: u32) -> StatPair
        requires heap { heap < MAX_HEAPS }
        ensures pair { result ≡ newest_in (slot_at self.old heap) }
        ensures hall { self.new ≡ with_note me (Note.ReadStats heap result) self.old }
    {
        let pair = self.slots[heap as usize].newest();
        self.mail = self.mail.with_note(me, Note::ReadStats { heap, pair });
        pair
    }
}

// The holder of the value of a slot publishes a pair.
fn tell_in(slots: &mut Vec<SlotState>, number: usize, pair: StatPair)
    requires { MayTell (slice_get slots.old.items number) }
    ensures { TellsIn number pair slots.old.items slots.new.items }
{
    slots[number].tell(pair);
}
