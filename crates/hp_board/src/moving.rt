ghost use Rattle.std.specs.Prelude.{◌≡◌, [], IfOk, OnOk, vec_len, vec_capacity};
ghost use Rattle.hp_base.specs.declared.limits.TheConstants.{MAX_HEAPS};
ghost use Rattle.hp_board.specs.Moved.{slots_of};

use hp_hall::Kept;
use hp_heap::Heap;
use hp_segs::Segs;
use hp_stats::StatPen;
use hp_zone::Names;
use std::alloc::{AllocError, Global};

// Moves the heaps into slots, in their order and each with its pen, the segment value into the slot after them, and the names into the last
// one. The vectors of heaps and of pens keep their room.
pub fn into_slots(
    alloc: Global,
    heaps: &mut Vec<Heap>,
    pens: &mut Vec<StatPen>,
    segs: Segs,
    names: Names,
) -> Result<Vec<Option<Kept>>, AllocError>
    requires count { vec_len heaps.old ≡ MAX_HEAPS }
    requires pens { vec_len pens.old ≡ MAX_HEAPS }
    ensures slots { IfOk result (λ slots. slots.items ≡ slots_of heaps.old.items pens.old.items segs names) }
    ensures emptied { OnOk result ((heaps.new.items ≡ []) × (pens.new.items ≡ [])) }
    ensures room { (vec_capacity heaps.new ≡ vec_capacity heaps.old) × (vec_capacity pens.new ≡ vec_capacity pens.old) }
{
    let room = heaps.len() + 2;
    let mut slots = Vec::with_capacity(alloc, room)?;
    while !heaps.is_empty() {
        slots.push_reserved(Some(Kept::Heap {
            heap: heaps.remove(0),
            pen: pens.remove(0),
        }));
    }
    slots.push_reserved(Some(Kept::Segments { segs }));
    slots.push_reserved(Some(Kept::Names { names }));
    Ok(slots)
}
