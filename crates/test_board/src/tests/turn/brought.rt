//! What the third participant does before the others start: with the names in hand it makes an external heap and gives it memory.
ghost use Rattle.std.specs.Prelude.{◌≡◌, ◌<◌, List, true, IfSome};
ghost use Rattle.hp_base.specs.declared.limits.TheConstants.{MAX_HEAPS};
ghost use Rattle.hp_external.specs.Naming.{IsThatHeap};
ghost use Rattle.hp_segs.specs.declared.external_range.ExternalRange.{ExternalRange};
ghost use Rattle.test_board.specs.Playing.{IsBack};
ghost use Rattle.test_board.specs.Zoned.{AgreeStill, HasCalls, HasClaimed, HaveHeaps};
ghost use Rattle.test_board.specs.Zoning.{IsFree};

use super::zones::{call, stands};
use super::{NAMES, OUTSIDE, PAGE, SEGMENTS};
use hp_base::Name;
use hp_board::{Board, Seat};
use hp_external::{create, memory_add};
use hp_heap::Heap;
use hp_segs::Segs;
use hp_turn::{Kept, give, take};
use hp_zone::{FIRST_EXTERNAL_SOCKET, Names};
use std::sync::Wait;

// Where the memory lies, and its two pages.
const AT: u64 = 0x70_0000_0000;

const LEN: u64 = 2 * PAGE;

// Whether this heap is the one of that name, where it is an external heap's.
fn is_that(names: &Names, heap: &Heap, text: &[u8]) -> bool
    ensures { result ≡ true → IsThatHeap names.now.heaps.plain text.now heap.now.plain }
{
    let Some((index, socket)) = names.heaps.lookup(text) else {
        return true;
    };
    if socket < FIRST_EXTERNAL_SOCKET {
        return true;
    }
    if index != heap.index() {
        return false;
    }
    heap.serves().is_none()
}

// The heap gets the name that the names give it, as its first call of two.
fn named(names: &mut Names, heap: &mut Heap, text: &[u8]) -> bool
    requires index { heap.old.plain.index < MAX_HEAPS }
    ensures names { result ≡ true → HaveHeaps names.old names.new }
    ensures heap { result ≡ true → HasCalls 2 0 1 heap.old heap.new }
    ensures room { result ≡ true → 0 < heap.new.spare }
    ensures agreed { result ≡ true → (claims : List ExternalRange) → AgreeStill heap.old heap.new names.old names.new claims claims }
{
    if heap.reserve(2).is_err() {
        return false;
    }
    stands(heap);
    let Some(name) = Name::new(text) else {
        return false;
    };
    let Ok((index, socket)) = create(names, text) else {
        return false;
    };
    if index != heap.index() {
        return false;
    }
    heap.set_name(call(2, 1), name, socket);
    true
}

// The heap, which has no memory yet, gets some that is claimed for it, as its second call.
fn filled(names: &mut Names, heap: &mut Heap, segs: &mut Segs, text: &[u8]) -> bool
    requires room { 0 < heap.old.spare }
    requires index { heap.old.plain.index < MAX_HEAPS }
    ensures names { result ≡ true → HaveHeaps names.old names.new }
    ensures heap { result ≡ true → HasCalls 2 1 2 heap.old heap.new }
    ensures segs { result ≡ true → HasClaimed segs.old segs.new }
    ensures agreed { result ≡ true → AgreeStill heap.old heap.new names.old names.new segs.old.ranges segs.new.ranges }
{
    if !heap.chunks().is_empty() {
        return false;
    }
    if !is_that(names, heap, text) {
        return false;
    }
    stands(heap);
    let added = memory_add(names, heap, segs, call(2, 2), text, AT, LEN, PAGE);
    added.is_ok()
}

/// All of it. Where something is refused, the third participant does not come back.
pub fn bring<R: Wait>(rt: &R, board: &Board, seat: Seat) -> Option<Seat>
    requires new { IsFree board.now.id 2 0 seat }
    ensures back { IfSome result (IsBack board.now.id 2) }
{
    let mut seat = seat;
    let kept_names = take(rt, board, &mut seat, NAMES);
    let kept_heap = take(rt, board, &mut seat, OUTSIDE);
    let kept_segs = take(rt, board, &mut seat, SEGMENTS);
    let mut names = kept_names.into_names();
    let (heap, pen) = kept_heap.into_heap();
    let mut segs = kept_segs.into_segments();
    let mut heap = heap;
    if !named(&mut names, &mut heap, b"outside") {
        return None;
    }
    if !filled(&mut names, &mut heap, &mut segs, b"outside") {
        return None;
    }
    give(board, &mut seat, SEGMENTS, Kept::Segments { segs });
    give(board, &mut seat, OUTSIDE, Kept::Heap { heap, pen });
    give(board, &mut seat, NAMES, Kept::Names { names });
    Some(seat)
}
