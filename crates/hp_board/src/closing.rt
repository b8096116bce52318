ghost use Rattle.std.specs.Prelude.{◌≡◌, ℕ, ◌<◌, ◌≤◌, [], true, false, Some, Contains, All, length, vec_len, vec_capacity, slice_index_or};
ghost use Rattle.std.specs.List.{slice_get};
ghost use Rattle.std.specs.Slots.{slots_items, slots_filled, slots_len, IsFull};
ghost use mathlib.Core.Option.{some};
ghost use lib.ListN.{get_elem?};
ghost use Rattle.hp_heap.specs.History.{HeapView};
ghost use Rattle.hp_base.specs.declared.limits.TheConstants.{MAX_HEAPS};
ghost use Rattle.hp_board.specs.declared.words.TheConstants.{SLOTS, WORDS};
ghost use Rattle.hp_board.specs.Closing.{
  AreHeaps,
  AreLeftNames,
  AreLeftSegs,
  AreOwnedAtLast,
  HaveMoved,
  IsAmong,
  IsFreeSeat,
  IsNotedUpTo,
  KeepCallsOf,
  KeepsTableOf,
  handed_out,
};
ghost use Rattle.hp_board.specs.SeatView.{SeatView};
ghost use Rattle.hp_board.specs.Gathered.{IsSeatOf, HaveValues, AreFrom};

use crate::board::Board;
use crate::plays::{Gather, SharedSlots, Token};
use crate::seat::Seat;
use atomic_table::Closed as ClosedSlots;
use hp_base::MAX_HEAPS;
use hp_hall::{Kept, NAMES_SLOT};
use hp_heap::Heap;
use hp_segs::Segs;
use hp_stats::StatPen;
use hp_zone::Names;
use std::alloc::Global;

/// What a closed board hands out. Own.
#[derive(Drop)]
pub struct Closed {
    /// The heaps, each at the number of its slot.
    pub heaps: Vec<Heap>,
    /// The pens by which their statistics were published, each at the number of its heap's slot.
    pub pens: Vec<StatPen>,
    /// The segment value.
    pub segs: Segs,
    /// The names.
    pub names: Names,
}

impl Board {
    /// Ends the board, and hands out its heaps, in the vector in which they came, their pens, in one that is handed in with room for them, its
    /// segment value and its names. It takes no memory. Own.
    pub fn close(self, seats: Vec<Seat>, pens: Vec<StatPen>) -> Closed
        requires free { All (IsFreeSeat self) seats.items }
        requires everyone { (who : ℕ) → who < self.opening.participants → IsAmong seats.items who }
        requires room { (pens.items ≡ []) × (MAX_HEAPS ≤ vec_capacity pens) }

        // Every heap is tiled, has exact lists and stands for its legal history; and what was published by its pen are pairs of it.
        ensures heaps { AreHeaps self.opening result.heaps.items result.pens.items }

        // Of each participant the heaps have the calls that it made, once and in order.
        ensures calls { (seat : SeatView) → Contains seats.items seat → KeepCallsOf result.heaps.items seat.mine }

        // The segment value is sound, and each participant in its roster has taken in each record that was granted. Its log begins with
        // what each participant has seen of it, and no table of a participant in its roster lacks a row that is in use.
        ensures segs { AreLeftSegs self.opening seats.items result.segs }
        ensures tables { (seat : SeatView) → Contains seats.items seat → KeepsTableOf result.segs seat.mine }
        ensures noted { (seat other : SeatView) → Contains seats.items seat → Contains seats.items other
            → IsNotedUpTo result.heaps.items seat.mine other.mine }

        // Each heap has the pages of its own segments; the runs of its growths and cuts are those that were granted for it and given up.
        ensures owned { AreOwnedAtLast seats.items result.heaps.items result.segs }

        // The names begin with what each participant has seen of them, and each zone that was reserved lies where an allocation was answered.
        ensures names { AreLeftNames self.opening seats.items result.heaps.items result.segs result.names }

        // All that was taken and given, in one order: for each slot a chain of holds.
        ensures moved { HaveMoved self.opening seats.items (handed_out result.heaps.items result.pens.items result.segs result.names) }
    {
        let Board { table, heaps } = self;
        let token = gather(&table.shared, seats);
        let mut heaps = heaps;
        let mut pens = pens;
        let (segs, names) = fill(&mut heaps, &mut pens, table.close_with(token));
        Closed {
            heaps,
            pens,
            segs,
            names,
        }
    }
}

// One token that has the parts of all seats.
fn gather(shared: &SharedSlots, seats: Vec<Seat>) -> Token
    requires some { 0 < vec_len seats }
    requires seats { All (IsSeatOf shared.now.table_id) seats.items }
    requires words { shared.now.table_id.words ≡ WORDS }
    ensures table { result.table_id ≡ shared.now.table_id }
    ensures parts { (seat : SeatView) → Contains seats.items seat → Contains result.me.0.parts seat.mine }
{
    let mut seats = seats;
    let Some(seat) = seats.pop() else {
        unreachable!()
    };
    let mut token = seat.into_token();
    while let Some(seat) = seats.pop() {
        shared.join_seat::<Gather>(&mut token, seat.into_token());
    }
    token
}

// Moves the heaps of a closed table and their pens into the vectors, in their order, and hands out its segment value and its names.
fn fill(
    heaps: &mut Vec<Heap>,
    pens: &mut Vec<StatPen>,
    closed: ClosedSlots<Option<Kept>, Global>,
) -> (Segs, Names)
    requires empty { (heaps.old.items ≡ []) × (pens.old.items ≡ []) }
    requires room { (MAX_HEAPS ≤ vec_capacity heaps.old) × (MAX_HEAPS ≤ vec_capacity pens.old) }
    requires count { slots_len closed.slots ≡ SLOTS }
    requires full { IsFull closed.slots }
    requires values { HaveValues (slots_items closed.slots) }
    ensures { AreFrom (slots_items closed.slots) (handed_out heaps.new.items pens.new.items result.0 result.1) }
{
    let mut closed = closed;
    for number in 0..MAX_HEAPS {
        let (heap, pen) = closed.take(number).unwrap().into_heap();
        heaps.push_reserved(heap);
        pens.push_reserved(pen);
    }
    let segs = closed.take(MAX_HEAPS).unwrap().into_segments();
    let names = closed.take(NAMES_SLOT).unwrap().into_names();
    closed.free();
    (segs, names)
}
