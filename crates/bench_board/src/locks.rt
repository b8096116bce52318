//! What two participants find at slots that are locked.
ghost use Rattle.std.specs.Prelude.{◌≡◌};
ghost use Rattle.hp_hall.specs.Slots.{IsSlot};

use crate::opening::opening_board;
use crate::session::three;
use hp_board::{Board, Seat};
use hp_turn::{Slot, try_take};
use std::alloc::{AllocError, Global};

// The lock word that a participant finds at a slot, or that it has taken it.
fn found(board: &Board, seat: &mut Seat, slot: Slot) -> Option<u64>
    requires board { seat.old.board ≡ board.now.id }
    requires slot { IsSlot slot }
    ensures { seat.new.board ≡ seat.old.board }
{
    match try_take(board, seat, slot) {
        Ok(_) => None,
        Err(busy) => Some(busy.word),
    }
}

// The second of two locks heap 0, the first tries to, and locks heap 31: what each finds.
fn find_three(board: &Board, first: &mut Seat, second: &mut Seat) -> [Option<u64>; 3]
    requires first { first.old.board ≡ board.now.id }
    requires second { second.old.board ≡ board.now.id }
{
    let taken = found(board, second, Slot::Heap(0));
    let busy = found(board, first, Slot::Heap(0));
    [taken, busy, found(board, first, Slot::Heap(31))]
}

// Whether they hold what they locked, and no more.
fn hold_theirs(first: &Seat, second: &Seat) -> bool {
    second.holds(Slot::Heap(0)) && !first.holds(Slot::Heap(0)) && first.holds(Slot::Heap(31))
}

/// Whether a locked slot names its holder, and both hold what they locked.
pub fn named(alloc: Global) -> Result<bool, AllocError> {
    let (board, seats) = opening_board(alloc)?;
    let Some((mut first, mut second, _)) = three(seats) else {
        return Err(AllocError);
    };
    let found = find_three(&board, &mut first, &mut second);
    Ok(found == [None, Some(2), None] && hold_theirs(&first, &second))
}
