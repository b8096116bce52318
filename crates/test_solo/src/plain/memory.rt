//! External memory that is claimed and released by who has the names in hand.
ghost use Rattle.std.specs.Prelude.{◌≡◌, ◌<◌, IfSome, IsTrue, true, length};
ghost use Rattle.std.specs.Result.{result_ok};
ghost use Rattle.hp_base.specs.declared.limits.TheConstants.{MAX_HEAPS};
ghost use Rattle.hp_hall.specs.Giving.{GivesSegments, Knows};
ghost use Rattle.hp_hall.specs.HallState.{SlotsStayBut};
ghost use Rattle.hp_hall.specs.Holding.{AgreeWith};
ghost use Rattle.hp_plain.specs.HallView.{IsHome, part_in, slot_at};
ghost use Rattle.hp_plain.specs.Opening.{AreHome};
ghost use Rattle.hp_plain.specs.PlainState.{plain_state};
ghost use Rattle.test_solo.specs.Claiming.{IsClaimed, released};
ghost use Rattle.hp_segs.specs.Ranges.{is_claimed};

use super::PAGE;
use hp_hall::{Hall, Kept, Slot};
use hp_plain::PlainHall;
use hp_segs::{RangeFault, Segs};
use hp_zone::Names;

// The socket of external memory.
const SOCKET: u32 = 256;

// A participant that has the names in hand claims some pages of external memory, where they get a list.
fn claim(segs: &mut Segs, addr: u64, pages: u64) -> Result<u32, RangeFault>
    requires few { pages < 16 }
    ensures gives { (knows : Knows) → knows.naming ≡ true → GivesSegments knows segs.old segs.new }
    ensures claimed { IsClaimed (result_ok result) segs.old segs.new }
{
    segs.claim_range(addr, pages * PAGE, PAGE, SOCKET)
}

// It releases the memory of a list, where it has one.
fn release(segs: &mut Segs, list: Option<u32>)
    requires claimed { IfSome list (λ list. IsTrue (is_claimed segs.old list)) }
    ensures { segs.new ≡ released list segs.old }
{
    if let Some(list) = list {
        segs.release_range(list);
    }
}

// A participant that has the names in hand takes the segment value, claims some pages of external memory, and gives the value back; then it
// takes that again, and releases what it has claimed. So the names agree with what it knows as they did before. The list, where the pages got
// one.
fn claim_and_release(
    hall: &mut PlainHall,
    me: u8,
    _names: &Names,
    addr: u64,
    pages: u64,
) -> Option<u32>
    requires me { me < length hall.old.owns }
    requires few { pages < 16 }
    requires home { IsHome (slot_at hall.old MAX_HEAPS) }
    requires agrees { AgreeWith (part_in hall.old me) _names.now }
    ensures agrees { AgreeWith (part_in hall.new me) _names.now }
    ensures home { IsHome (slot_at hall.new MAX_HEAPS) }
    ensures slots { SlotsStayBut MAX_HEAPS (plain_state hall.old) (plain_state hall.new) }
    ensures count { length hall.new.owns ≡ length hall.old.owns }
{
    let mut segs = hall.take(me, Slot::Segments).into_segments();
    let list = claim(&mut segs, addr, pages).ok();
    hall.sound();
    hall.give(me, Slot::Segments, Kept::Segments { segs });
    let mut again = hall.take(me, Slot::Segments).into_segments();
    release(&mut again, list);
    hall.sound();
    hall.give(me, Slot::Segments, Kept::Segments { segs: again });
    list
}

/// A participant takes the names, claims some pages of external memory, releases them, and gives the names back: the list, where the pages got
/// one.
pub fn claim_memory(hall: &mut PlainHall, me: u8, addr: u64, pages: u64) -> Option<u32>
    requires me { me < length hall.old.owns }
    requires few { pages < 16 }
    requires home { AreHome hall.old }
    ensures count { length hall.new.owns ≡ length hall.old.owns }
    ensures home { AreHome hall.new }
{
    let names = hall.take(me, Slot::NamesSlot).into_names();
    let list = claim_and_release(hall, me, &names, addr, pages);
    hall.sound();
    hall.give(me, Slot::NamesSlot, Kept::Names { names });
    list
}
