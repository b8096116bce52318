ghost use Rattle.std.specs.Prelude.{◌≡◌, ◌<◌, Some, length, slice_get, slice_set};
ghost use Rattle.hp_plain.specs.HallSteps.{after_give, after_take, home_slot, out_slot};
ghost use Rattle.hp_plain.specs.HallView.{IsHall, IsHome, newest_in, slot_at};
ghost use Rattle.hp_hall.specs.Slots.{IsSlot, slot_number};
ghost use Rattle.hp_hall.specs.Values.{Fits, pair_in};

use super::PlainHall;
use crate::slot_state::SlotState;
use hp_hall::{Kept, Slot};

impl PlainHall {
    // A participant takes the value of a slot, and it is noted.
    pub(crate) fn take_at(&mut self, me: u8, slot: Slot) -> Kept
        requires slot { IsSlot slot }
        requires home { IsHome (slot_at self.old (slot_number slot)) }
        ensures kept { slot_at self.old (slot_number slot) ≡ Some (home_slot result) }
        ensures fits { Fits (slot_number slot) result }
        ensures hall { self.new ≡ after_take me (slot_number slot) result self.old }
    {
        let number = slot.number();
        let kept = take_from(&mut self.slots, me, number);
        self.mail = self.mail.with_take(me, number, &kept);
        kept
    }

    // A participant gives a value back to its slot, where that leaves a hall and its pair was published last, and it is noted.
    pub(crate) fn give_at(&mut self, me: u8, slot: Slot, kept: Kept)
        requires slot { IsSlot slot }
        requires told { newest_in (slot_at self.old (slot_number slot)) ≡ pair_in kept }
        requires hall { IsHall (after_give me (slot_number slot) kept self.old) }
        ensures { self.new ≡ after_give me (slot_number slot) kept self.old }
    {
        let number = slot.number();
        self.mail = self.mail.with_give(me, number, &kept);
        give_to(&mut self.slots, number, kept);
    }
}

// The value of a slot goes out, to a participant.
fn take_from(slots: &mut Vec<SlotState>, who: u8, number: usize) -> Kept
    requires { IsHome (slice_get slots.old.items number) }
    ensures kept { slice_get slots.old.items number ≡ Some (home_slot result) }
    ensures slots { slots.new.items ≡ slice_set slots.old.items number (out_slot who result) }
{
    slots[number].take(who)
}

// A value comes into a slot.
fn give_to(slots: &mut Vec<SlotState>, number: usize, kept: Kept)
    requires below { number < length slots.old.items }
    requires told { newest_in (slice_get slots.old.items number) ≡ pair_in kept }
    ensures { slots.new.items ≡ slice_set slots.old.items number (home_slot kept) }
{
    slots[number].give(kept);
}
