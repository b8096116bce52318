ghost use Rattle.std.specs.Prelude.{◌≡◌, IfOk, IfErr};
ghost use Rattle.hp_hall.specs.Slots.{slot_number, IsSlot};
ghost use Rattle.hp_heap.specs.History.{entries_of};
ghost use Rattle.hp_board.specs.Giving.{IsGiveAt};
ghost use Rattle.hp_hall.specs.Values.{history_of};
ghost use Rattle.hp_board.specs.Agreement.{AgreesFrom};
ghost use Rattle.hp_board.specs.Handed.{HasTakenLater, HasTakenOut, IsHanded, IsHeldWord};
ghost use Rattle.hp_board.specs.Knowing.{HasMappedHeld, knows_of};
ghost use Rattle.hp_board.specs.Views.{after_give, after_look, made_in, value_of};

use hp_board::{Board, Seat};
use hp_hall::{Busy, Kept, Slot};
use std::sync::Wait;
use std::thread;

/// Tries to lock a slot by one compare and exchange of its lock word, and hands out its value. It refuses only where the word
/// was held at that one step. After rte_spinlock_trylock.
pub fn try_take(board: &Board, seat: &mut Seat, slot: Slot) -> Result<Kept, Busy>
    requires board { seat.old.board ≡ board.now.id }
    requires slot { IsSlot slot }

    // A value that is handed out is the slot's: a heap has the entries that this participant made there and the pages of its own
    // segments, and a segment value or names go on from what it has seen.
    ensures handed { IfOk result (λ kept. IsHanded seat.old.mine (slot_number slot) kept seat.new.mine) }
    ensures taken { IfOk result (λ kept. HasTakenOut (slot_number slot) kept seat.old.mine seat.new.mine) }

    // A word that was found held names the holder, and the seat notes it; nothing else changes.
    ensures busy { IfErr result (λ busy. IsHeldWord seat.old.mine (slot_number slot) busy.word) }
    ensures noted { IfErr result (λ busy. seat.new.mine ≡ after_look (slot_number slot) busy.word seat.old.mine) }
    ensures board { seat.new.board ≡ seat.old.board }
{
    match board.try_lock(seat, slot) {
        Ok(kept) => Ok(kept),
        Err(word) => Err(Busy { word }),
    }
}

/// Locks a slot once it is unlocked, and hands out its value. It waits for as long as another participant, or this one, holds
/// the slot. After rte_spinlock_lock.
pub fn take<R: Wait>(rt: &R, board: &Board, seat: &mut Seat, slot: Slot) -> Kept
    requires board { seat.old.board ≡ board.now.id }
    requires slot { IsSlot slot }
    ensures handed { IsHanded seat.old.mine (slot_number slot) result seat.new.mine }
    ensures taken { HasTakenLater (slot_number slot) result seat.old.mine seat.new.mine }
    ensures board { seat.new.board ≡ seat.old.board }
{
    for _ in rt.forever() {
        if let Ok(kept) = try_take(board, seat, slot) {
            return kept;
        }
        thread::yield_now();
    }
    unreachable!()
}

/// Gives a value back and unlocks its slot, by one store of 0 to the lock word. After rte_spinlock_unlock.
pub fn give(board: &Board, seat: &mut Seat, slot: Slot, kept: Kept)
    requires board { seat.old.board ≡ board.now.id }
    requires slot { IsSlot slot }

    // The seat holds the slot. A heap has entries of this participant more than the taken one, and the pages and runs that the seat
    // knows it to have, and still its pen, by which nothing but pairs of it was published; all that the names speak of is as taken, but
    // where the seat holds these, and nobody's marks but its own have changed; a segment value moved by the log, by the roster, by ownership
    // or, under the names, by external memory; and names have zones more only where an allocation of this participant was answered,
    // and agree with what the seat knows of the heaps and of the external memory that is claimed.
    requires gives { IsGiveAt (knows_of seat.old.mine) (slot_number slot) kept }
    ensures given { seat.new.mine ≡ after_give (slot_number slot) kept seat.old.mine }
    ensures own { entries_of seat.old.mine.who (history_of kept) ≡ made_in (slot_number slot) seat.new.mine }

    // Rows become agreed only by numbers of all members that this seat has loaded.
    ensures agreed { AgreesFrom seat.old.mine (value_of (slot_number slot) seat.old.mine.held) kept }

    // Where this participant is in the roster, its own table has the pages of the heaps that it still holds.
    ensures mapped { HasMappedHeld seat.new.mine }
    ensures board { seat.new.board ≡ seat.old.board }
{
    board.unlock(seat, slot, kept);
}
