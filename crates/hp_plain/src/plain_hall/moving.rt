ghost use Rattle.std.specs.Prelude.{◌≡◌, ◌≤◌, [], ◌∷◌, IfOk, OnOk, vec_capacity, length};
ghost use Rattle.hp_base.specs.declared.limits.TheConstants.{MAX_HEAPS};
ghost use Rattle.hp_plain.specs.HallSteps.{home_slot};
ghost use Rattle.hp_plain.specs.Moved.{AreLast, AreSlotsOf, IsFirstHeap, IsHeapFirst, IsMovedIn};
ghost use Rattle.hp_plain.specs.Opening.{HandsOut};
ghost use Rattle.hp_plain.specs.Publishing.{AreFirstPens};

use crate::slot_state::SlotState;
use hp_base::MAX_HEAPS;
use hp_hall::Kept;
use hp_heap::Heap;
use hp_segs::Segs;
use hp_stats::StatPen;
use hp_zone::Names;
use std::alloc::{AllocError, Global};

// Moves the heaps, in their order and each with its pen, the segment value and the names into slots. The heaps' vector keeps its room.
pub fn into_slots(
    alloc: Global,
    heaps: &mut Vec<Heap>,
    pens: Vec<StatPen>,
    segs: Segs,
    names: Names,
) -> Result<Vec<SlotState>, AllocError>
    requires count { length heaps.old.items ≡ MAX_HEAPS }
    requires pens { AreFirstPens pens.items }
    ensures slots { IfOk result (λ slots. IsMovedIn heaps.old.items pens.items segs names slots.items) }
    ensures emptied { OnOk result (heaps.new.items ≡ []) }
    ensures room { vec_capacity heaps.new ≡ vec_capacity heaps.old }
{
    let mut pens = pens;
    let mut slots = Vec::with_capacity(alloc, MAX_HEAPS + 2)?;
    while !heaps.is_empty() {
        slots.push_reserved(SlotState::new(Kept::Heap {
            heap: heaps.remove(0),
            pen: pens.remove(0),
        }));
    }
    slots.push_reserved(SlotState::new(Kept::Segments { segs }));
    slots.push_reserved(SlotState::new(Kept::Names { names }));
    Ok(slots)
}

// Moves the heaps out of their slots into the vector, in their order, and hands out the segment value and the names.
pub fn from_slots(slots: Vec<SlotState>, heaps: &mut Vec<Heap>) -> (Segs, Names)
    requires slots { AreSlotsOf MAX_HEAPS slots.items }
    requires empty { heaps.old.items ≡ [] }
    requires room { MAX_HEAPS ≤ vec_capacity heaps.old }
    ensures { HandsOut slots.items heaps.new.items result.0 result.1 }
{
    let mut slots = slots;
    for _heap in 0..MAX_HEAPS {
        heaps.push_reserved(next_heap(&mut slots));
    }
    last_values(slots)
}

// The heap in the first slot comes out, and its pen goes.
fn next_heap(slots: &mut Vec<SlotState>) -> Heap
    requires { IsFirstHeap slots.old.items }
    ensures { IsHeapFirst result slots.old.items slots.new.items }
{
    let (heap, _pen) = slots.remove(0).into_kept().into_heap();
    heap
}

// The segment value and the names come out of the only slots.
fn last_values(slots: Vec<SlotState>) -> (Segs, Names)
    requires { AreLast slots.items }
    ensures { slots.items ≡ home_slot (Kept.Segments result.0) ∷ home_slot (Kept.Names result.1) ∷ [] }
{
    let mut slots = slots;
    let segs = slots.remove(0).into_kept().into_segments();
    let names = slots.remove(0).into_kept().into_names();
    (segs, names)
}
