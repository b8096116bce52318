//! A participant attaches the external memory: from then on it is given elements of that.
ghost use Rattle.std.specs.Prelude.{◌≡◌, ◌<◌, true};
ghost use Rattle.test_board.specs.Zoned.{HasCallsBeside};
ghost use Rattle.test_board.specs.Zoning.{IsFree};

use super::OUTSIDE;
use super::zones::{call, stands};
use hp_board::{Board, Seat};
use hp_heap::Heap;
use hp_turn::{Kept, give, take};
use std::sync::Wait;

// The heap's first chunk gets the mark of a participant, as its first call.
fn marked(heap: &mut Heap, who: u8) -> bool
    requires participant { who < 16 }
    ensures { result ≡ true → HasCallsBeside who 0 1 heap.old heap.new }
{
    if heap.reserve(1).is_err() {
        return false;
    }
    stands(heap);
    if heap.serves().is_some() {
        return false;
    }
    let Some(chunk) = heap.chunks().first() else {
        return false;
    };
    let list = chunk.list;
    heap.share(call(who, 1), list);
    true
}

/// It marks the memory in one hold of the heap, without the names.
pub fn attach<R: Wait>(rt: &R, board: &Board, seat: &mut Seat, who: u8) -> bool
    requires new { IsFree board.now.id who 0 seat.old }
    requires participant { who < 16 }
    ensures { result ≡ true → IsFree board.now.id who 1 seat.new }
{
    let kept = take(rt, board, seat, OUTSIDE);
    let (heap, pen) = kept.into_heap();
    let mut heap = heap;
    if !marked(&mut heap, who) {
        return false;
    }
    give(board, seat, OUTSIDE, Kept::Heap { heap, pen });
    true
}
