//! The turns of a participant that reserves and frees a memzone of one name, again and again.
ghost use Rattle.std.specs.Prelude.{◌≡◌, ◌+◌, ◌<◌, ◌^◌, true, false, Some, IfSome};
ghost use Rattle.test_board.specs.Zoning.{HoldsNames, IsFree};
ghost use Rattle.test_board.specs.Playing.{IsBack};

use super::attached::attach;
use super::zones::{allocated, freed, gone, put};
use super::{NAMES, OUTSIDE};
use hp_base::Request;
use hp_board::{Board, Seat};
use hp_turn::{Kept, give, take};
use hp_zone::Names;
use std::sync::Wait;
use std::thread;

/// How often each participant reserves the memzone.
pub const TURNS: u64 = 10;

// With the names in hand, which it gives back: an element is allocated in the heap, and put under the name.
fn reserve_with<R: Wait>(
    rt: &R,
    board: &Board,
    seat: &mut Seat,
    who: u8,
    names: Names,
    made: u64,
    request: &Request,
) -> bool
    requires hand { HoldsNames board.now.id who made names seat.old }
    requires few { made < 2 ^ 63 }
    ensures { result ≡ true → IsFree board.now.id who (made + 1) seat.new }
{
    let kept = take(rt, board, seat, OUTSIDE);
    let (heap, pen) = kept.into_heap();
    let mut heap = heap;
    let Some(addr) = allocated(&mut heap, who, made, request) else {
        return false;
    };
    give(board, seat, OUTSIDE, Kept::Heap { heap, pen });
    let mut names = names;
    if !put(&mut names, b"ring", addr) {
        return false;
    }
    give(board, seat, NAMES, Kept::Names { names });
    true
}

// A try: the names go back as they were where the other has the memzone. Whether it was reserved.
fn try_reserve<R: Wait>(
    rt: &R,
    board: &Board,
    seat: &mut Seat,
    who: u8,
    made: u64,
    request: &Request,
) -> Option<bool>
    requires free { IsFree board.now.id who made seat.old }
    requires few { made < 2 ^ 63 }
    ensures reserved { result ≡ Some true → IsFree board.now.id who (made + 1) seat.new }
    ensures refused { result ≡ Some false → IsFree board.now.id who made seat.new }
{
    let kept = take(rt, board, seat, NAMES);
    let names = kept.into_names();
    if names.zones.lookup(b"ring").is_some() {
        give(board, seat, NAMES, Kept::Names { names });
        return Some(false);
    }
    if !reserve_with(rt, board, seat, who, names, made, request) {
        return None;
    }
    Some(true)
}

// The memzone is reserved, once the other has none.
fn reserve<R: Wait>(
    rt: &R,
    board: &Board,
    seat: &mut Seat,
    who: u8,
    made: u64,
    request: &Request,
) -> bool
    requires free { IsFree board.now.id who made seat.old }
    requires few { made < 2 ^ 63 }
    ensures { result ≡ true → IsFree board.now.id who (made + 1) seat.new }
{
    for _ in rt.forever() {
        match try_reserve(rt, board, seat, who, made, request) {
            Some(true) => return true,
            Some(false) => thread::yield_now(),
            None => return false,
        }
    }
    unreachable!()
}

// The memzone goes, and its element is freed.
fn free<R: Wait>(rt: &R, board: &Board, seat: &mut Seat, who: u8, made: u64) -> bool
    requires free { IsFree board.now.id who made seat.old }
    requires few { made < 2 ^ 63 }
    ensures { result ≡ true → IsFree board.now.id who (made + 2) seat.new }
{
    let kept_names = take(rt, board, seat, NAMES);
    let kept = take(rt, board, seat, OUTSIDE);
    let mut names = kept_names.into_names();
    let (heap, pen) = kept.into_heap();
    let mut heap = heap;
    let Some(addr) = gone(&mut names, b"ring") else {
        return false;
    };
    if !freed(&mut heap, who, made, addr) {
        return false;
    }
    give(board, seat, OUTSIDE, Kept::Heap { heap, pen });
    give(board, seat, NAMES, Kept::Names { names });
    true
}

/// What a participant does on its thread. Where a call is refused it does not come back.
pub fn work<R: Wait>(rt: &R, board: &Board, seat: Seat, who: u8, request: &Request) -> Option<Seat>
    requires new { IsFree board.now.id who 0 seat }
    requires participant { who < 16 }
    ensures back { IfSome result (IsBack board.now.id who) }
{
    let mut seat = seat;
    if !attach(rt, board, &mut seat, who) {
        return None;
    }
    let mut made = 1;
    for _ in 0..TURNS {
        if !reserve(rt, board, &mut seat, who, made, request) {
            return None;
        }
        if !free(rt, board, &mut seat, who, made + 1) {
            return None;
        }
        made += 3;
    }
    Some(seat)
}
