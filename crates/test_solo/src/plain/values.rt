//! Values that are taken and given back, and numbers that are told, through the trait.
ghost use Rattle.std.specs.Prelude.{◌≡◌, ◌≢◌, ◌<◌, ℕ, [], ◌∷◌, OnOk, Some, length, true};
ghost use Rattle.hp_base.specs.declared.limits.TheConstants.{MAX_HEAPS};
ghost use Rattle.hp_hall.specs.Giving.{GivesSegments, Knows};
ghost use Rattle.hp_hall.specs.HallCalls.{GivesOnceTold};
ghost use Rattle.hp_hall.specs.HallState.{Did, OthersStay, SlotsStayBut, known_to};
ghost use Rattle.hp_hall.specs.Mail.{Notes};
ghost use Rattle.hp_plain.specs.HallView.{IsHome, own_at, part_in, slot_at};
ghost use Rattle.hp_plain.specs.Opening.{AreHome};
ghost use Rattle.hp_plain.specs.PlainState.{plain_state};
ghost use Rattle.test_solo.specs.Untouched.{IsUntouched};

use hp_base::Caller;
use hp_hall::{Busy, Hall, Kept, Note, Slot};
use hp_heap::Heap;
use hp_plain::PlainHall;
use hp_segs::Segs;
use hp_stats::StatPen;
use std::alloc::AllocError;

// A participant publishes the statistics of a heap that it has in hand, and gives the heap back.
fn publish_and_give(hall: &mut PlainHall, me: u8, index: u32, heap: Heap, pen: StatPen)
    requires me { me < length hall.old.owns }
    requires index { index < MAX_HEAPS }
    requires gives { GivesOnceTold (known_to me (plain_state hall.old)) index (record { heap = heap; pen = pen }) }
    ensures home { IsHome (slot_at hall.new index) }
    ensures slots { SlotsStayBut index (plain_state hall.old) (plain_state hall.new) }
    ensures others { OthersStay me (plain_state hall.old) (plain_state hall.new) }
{
    heap.sound();
    let mut kept = Kept::Heap { heap, pen };
    hall.publish(me, index, &mut kept);
    hall.give(me, Slot::Heap(index), kept);
}

/// A participant takes the heap of an index, asks for its statistics as the first of its calls, and gives it back.
pub fn call_first(hall: &mut PlainHall, me: u8, index: u32) -> Result<(), AllocError>
    requires me { me < length hall.old.owns }
    requires index { index < MAX_HEAPS }
    requires home { AreHome hall.old }
    requires first { (heap : ℕ) → IsUntouched (part_in hall.old me heap) }
    ensures home { OnOk result (AreHome hall.new) }
    ensures count { length hall.new.owns ≡ length hall.old.owns }
    ensures others { OnOk result (OthersStay me (plain_state hall.old) (plain_state hall.new)) }
{
    let (mut heap, pen) = hall.take(me, Slot::Heap(index)).into_heap();
    heap.reserve(1)?;
    let _stats = heap.stats(Caller {
        participant: me,
        number: 1,
    });
    publish_and_give(hall, me, index, heap, pen);
    Ok(())
}

// A participant that has told that its table has no row leaves the roster, where it is in it.
fn leave(segs: &mut Segs, me: u8)
    requires declared { me < 16 }
    requires secondary { 0 < me }
    ensures { (knows : Knows) → knows.who ≡ me → knows.emptied ≡ true → GivesSegments knows segs.old segs.new }
{
    if !segs.is_member(me) {
        return;
    }
    segs.leave_roster(me);
}

// A participant that has acknowledged all records since it took the segment value joins the roster, where it is out.
fn join(segs: &mut Segs, me: u8, records: u64)
    requires declared { me < 16 }
    requires all { records ≡ length segs.old.log }
    ensures { (knows : Knows) → knows.who ≡ me → knows.number ≡ records → knows.acked ≡ Some records → GivesSegments knows segs.old segs.new }
{
    if segs.is_member(me) {
        return;
    }
    segs.join_roster(me, records);
}

/// A participant takes the segment value, tells that its table has no row, leaves the roster, and gives the value back.
pub fn take_and_leave(hall: &mut PlainHall, me: u8)
    requires me { me < length hall.old.owns }
    requires secondary { 0 < me }
    requires there { IsHome (slot_at hall.old MAX_HEAPS) }
    ensures home { (number : ℕ) → IsHome (slot_at hall.old number) → IsHome (slot_at hall.new number) }
    ensures slots { SlotsStayBut MAX_HEAPS (plain_state hall.old) (plain_state hall.new) }
    ensures own { own_at hall.new me ≡ own_at hall.old me }
    ensures others { OthersStay me (plain_state hall.old) (plain_state hall.new) }
    ensures count { length hall.new.owns ≡ length hall.old.owns }
{
    hall.sound();
    let mut segs = hall.take(me, Slot::Segments).into_segments();
    hall.emptied(me, &[]);
    leave(&mut segs, me);
    hall.give(me, Slot::Segments, Kept::Segments { segs });
}

/// A participant takes the heap of an index; while it holds that, another takes the segment value, leaves the roster and gives the value
/// back; then the first asks for the heap's statistics as the first of its calls, and gives it back.
pub fn call_across(hall: &mut PlainHall, me: u8, other: u8, index: u32) -> Result<(), AllocError>
    requires me { me < length hall.old.owns }
    requires other { other < length hall.old.owns }
    requires apart { me ≢ other }
    requires secondary { 0 < other }
    requires index { index < MAX_HEAPS }
    requires home { AreHome hall.old }
    requires first { (heap : ℕ) → IsUntouched (part_in hall.old me heap) }
    ensures home { OnOk result (AreHome hall.new) }
    ensures count { length hall.new.owns ≡ length hall.old.owns }
{
    let (mut heap, pen) = hall.take(me, Slot::Heap(index)).into_heap();
    take_and_leave(hall, other);
    heap.reserve(1)?;
    let _stats = heap.stats(Caller {
        participant: me,
        number: 1,
    });
    publish_and_give(hall, me, index, heap, pen);
    Ok(())
}

// A participant that has acknowledged nothing takes the segment value, acknowledges all records, joins the roster where
// it is out, and gives the value back.
fn take_in_and_join(hall: &mut PlainHall, me: u8)
    requires me { me < length hall.old.owns }
    requires nothing_yet { (own_at hall.old me).number ≡ 0 }
    requires home { AreHome hall.old }
    ensures home { AreHome hall.new }
    ensures count { length hall.new.owns ≡ length hall.old.owns }
{
    hall.sound();
    let mut segs = hall.take(me, Slot::Segments).into_segments();
    let records = segs.records().len() as u64;
    hall.ack(me, records);
    join(&mut segs, me, records);
    hall.give(me, Slot::Segments, Kept::Segments { segs });
}

/// A participant tries the segment value, looks whether one is in the roster, and gives the value back as it was.
pub fn try_roster(hall: &mut PlainHall, me: u8, who: u8) -> Result<bool, Busy>
    requires me { me < length hall.old.owns }
    requires who { who < 16 }
    requires home { AreHome hall.old }
    ensures home { OnOk result (AreHome hall.new) }
    ensures own { own_at hall.new me ≡ own_at hall.old me }
    ensures others { OthersStay me (plain_state hall.old) (plain_state hall.new) }
    ensures count { length hall.new.owns ≡ length hall.old.owns }
{
    let segs = hall.try_take(me, Slot::Segments)?.into_segments();
    let is_member = segs.is_member(who);
    hall.give(me, Slot::Segments, Kept::Segments { segs });
    Ok(is_member)
}

/// What a participant knows of the number of another, or of its own.
pub fn number_of(hall: &mut PlainHall, me: u8, other: u8) -> u64
    requires me { me < length hall.old.owns }
    requires other { other < length hall.old.owns }
    requires home { AreHome hall.old }
    ensures home { AreHome hall.new }
    ensures count { length hall.new.owns ≡ length hall.old.owns }
    ensures number { (own_at hall.new other).number ≡ result }
    ensures did { Did me (Notes (Note.Loaded other result) ∷ []) (plain_state hall.old) (plain_state hall.new) }
    ensures others { OthersStay me (plain_state hall.old) (plain_state hall.new) }
{
    hall.load_ack(me, other)
}

/// What participant 0 knows of the number of 1, and 1 of that of 0.
pub fn numbers(hall: &mut PlainHall) -> (u64, u64)
    requires two { length hall.old.owns ≡ 2 }
    requires home { AreHome hall.old }
    ensures two { length hall.new.owns ≡ 2 }
    ensures home { AreHome hall.new }
{
    (number_of(hall, 0, 1), number_of(hall, 1, 0))
}

/// Participant 1 takes in all records and joins the roster, where it has acknowledged none: whether it had none.
pub fn join_first(hall: &mut PlainHall) -> bool
    requires two { length hall.old.owns ≡ 2 }
    requires home { AreHome hall.old }
    ensures two { length hall.new.owns ≡ 2 }
    ensures home { AreHome hall.new }
{
    if number_of(hall, 1, 1) != 0 {
        return false;
    }
    take_in_and_join(hall, 1);
    true
}

/// A participant tells that its table has lost what the records after its number drop.
pub fn note_unmapped(hall: &mut PlainHall, me: u8)
    requires me { me < length hall.old.owns }
    requires home { AreHome hall.old }
    ensures count { length hall.new.owns ≡ length hall.old.owns }
    ensures home { AreHome hall.new }
{
    hall.note_unmapped(me);
}

/// A participant tells that so many of its lines are done: how many another then knows of, or none where more were told before.
pub fn tell_done(hall: &mut PlainHall, me: u8, other: u8, lines: u32) -> Option<u32>
    requires me { me < length hall.old.owns }
    requires other { other < length hall.old.owns }
    requires home { AreHome hall.old }
    ensures count { length hall.new.owns ≡ length hall.old.owns }
    ensures home { AreHome hall.new }
{
    if hall.load_done(me, me) > lines {
        return None;
    }
    hall.sound();
    hall.store_done(me, lines);
    Some(hall.load_done(other, me))
}

/// How many entries of a heap a participant reads of, whoever holds it.
pub fn entries_read(hall: &mut PlainHall, me: u8, heap: u32) -> u64
    requires me { me < length hall.old.owns }
    requires heap { heap < MAX_HEAPS }
    requires home { AreHome hall.old }
    ensures count { length hall.new.owns ≡ length hall.old.owns }
    ensures home { AreHome hall.new }
{
    let (entries, _stats) = hall.read(me, heap);
    entries
}
