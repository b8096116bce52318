ghost use Rattle.std.specs.Prelude.{◌≡◌, ◌+◌, ◌≤◌, ◌<◌, ◌^◌};
ghost use Rattle.bench_board.specs.Rounds.{CallsUpTo, IsBack, IsWorking};

use hp_base::{Caller, Request, Tag};
use hp_board::{Board, Seat};
use hp_heap::Heap;
use hp_turn::{Kept, Slot, give, take};
use std::sync::Wait;

// The heap of socket 0, which all participants share.
pub const SLOT: Slot = Slot::Heap(0);

const ROUNDS: u64 = 100;

// A participant's call with a number.
fn call(who: u8, number: u64) -> Caller
    ensures { result ≡ record { participant = who; number = number } }
{
    Caller {
        participant: who,
        number,
    }
}

// Allocates and frees, if there is memory for the two calls, and says how many entries the caller has made then.
fn alloc_and_free(heap: Heap, who: u8, made: u64, request: &Request) -> (Heap, u64)
    requires { made < 2 ^ 63 }
    ensures calls { CallsUpTo who made result.1 heap result.0 }
    ensures few { result.1 ≤ made + 2 }
{
    let mut heap = heap;
    if heap.reserve(2).is_err() {
        return (heap, made);
    }
    let tag = Tag {
        who,
        zone: false,
        number: 1,
    };
    let address = heap.alloc(call(who, made + 1), request, tag);
    let _ = heap.free(call(who, made + 2), address.unwrap_or(0));
    (heap, made + 2)
}

// One round of a participant, which says how many entries it has made then.
pub fn round<R: Wait>(rt: &R, board: &Board, seat: &mut Seat, made: u64, request: &Request) -> u64
    requires working { IsWorking board.now.id seat.old.mine.who made seat.old }
    requires few { made < 2 ^ 63 }
    ensures working { IsWorking board.now.id seat.old.mine.who result seat.new }
    ensures few { result ≤ made + 2 }
{
    let who = seat.participant();
    let kept = take(rt, board, seat, SLOT);
    let (heap, pen) = kept.into_heap();
    let (heap, made) = alloc_and_free(heap, who, made, request);
    give(board, seat, SLOT, Kept::Heap { heap, pen });
    made
}

// What a participant does on its thread.
pub fn work<R: Wait>(rt: &R, board: &Board, seat: Seat, request: &Request) -> Seat
    requires new { IsWorking board.now.id seat.mine.who 0 seat }
    ensures back { IsBack board.now.id seat.mine.who result }
{
    let mut seat = seat;
    let mut made = 0;
    for _ in 0..ROUNDS {
        made = round(rt, board, &mut seat, made, request);
    }
    seat
}
