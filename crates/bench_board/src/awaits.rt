ghost use Rattle.std.specs.Prelude.{◌<◌};
ghost use Rattle.bench_board.specs.Rounds.{IsBack, IsWorking};

use crate::opening::opening_board;
use crate::rounds::{SLOT, round};
use crate::session::three;
use hp_base::Request;
use hp_board::{Board, Seat};
use hp_turn::{Kept, give, take};
use std::alloc::{AllocError, Global};
use std::sync::Wait;
use std::thread;
use std::thread::{Threads, join};

// How many entries the shared heap has, which goes back as it was.
fn entries_in<R: Wait>(rt: &R, board: &Board, seat: &mut Seat, made: u64) -> usize
    requires working { IsWorking board.now.id seat.old.mine.who made seat.old }
    ensures working { IsWorking board.now.id seat.old.mine.who made seat.new }
{
    let kept = take(rt, board, seat, SLOT);
    let (heap, pen) = kept.into_heap();
    let count = heap.history().len();
    give(board, seat, SLOT, Kept::Heap { heap, pen });
    count
}

// A participant that makes a round, and tells then that its first line is done.
fn do_a_line<R: Wait>(rt: &R, board: &Board, seat: Seat, request: &Request) -> Seat
    requires new { IsWorking board.now.id seat.mine.who 0 seat }
    ensures back { IsBack board.now.id seat.mine.who result }
{
    let mut seat = seat;
    let _ = round(rt, board, &mut seat, 0, request);
    board.store_done(&mut seat, 1);
    seat
}

// Waits until a line of participant 0 is done.
fn wait_for_a_line<R: Wait>(rt: &R, board: &Board, seat: &mut Seat)
    requires working { IsWorking board.now.id seat.old.mine.who 0 seat.old }
    requires some { 0 < seat.old.mine.opening.participants }
    ensures working { IsWorking board.now.id seat.old.mine.who 0 seat.new }
{
    for _ in rt.forever() {
        if board.load_done(seat, 0) > 0 {
            return;
        }
        thread::yield_now();
    }
    unreachable!()
}

// Awaits the first line of participant 0, and says how many entries the shared heap has then.
fn await_a_line<R: Wait>(rt: &R, board: &Board, seat: Seat) -> (Seat, usize)
    requires new { IsWorking board.now.id seat.mine.who 0 seat }
    requires some { 0 < seat.mine.opening.participants }
    ensures back { IsBack board.now.id seat.mine.who result.0 }
{
    let mut seat = seat;
    wait_for_a_line(rt, board, &mut seat);
    let count = entries_in(rt, board, &mut seat, 0);
    (seat, count)
}

// Participant 1 awaits the first line of participant 0, each on a thread: how many entries it finds.
pub fn awaited<R: Threads + Wait + Sync>(rt: &R, alloc: Global) -> Result<usize, AllocError> {
    let Ok(request) = Request::new(1000, 0, 0, 0) else {
        return Err(AllocError);
    };
    let (board, seats) = opening_board(alloc)?;
    let Some((first, second, _)) = three(seats) else {
        return Err(AllocError);
    };
    let (_, (_, count)) = both(rt, &board, first, second, &request);
    Ok(count)
}

// One does a line and the other awaits it, each on a thread.
fn both<R: Threads + Wait + Sync>(
    rt: &R,
    board: &Board,
    first: Seat,
    second: Seat,
    request: &Request,
) -> (Seat, (Seat, usize))
    requires first { IsWorking board.now.id first.mine.who 0 first }
    requires second { IsWorking board.now.id second.mine.who 0 second }
    requires some { 0 < second.mine.opening.participants }
{
    join(
        rt,
        move || -> Seat
            requires { IsWorking board.now.id first.mine.who 0 first }
            ensures { IsBack board.entry.now.id first.mine.who result }
        { do_a_line(rt, board, first, request) },
        move || -> (Seat, usize)
            requires { IsWorking board.now.id second.mine.who 0 second × (0 < second.mine.opening.participants) }
            ensures { IsBack board.entry.now.id second.mine.who result.0 }
        { await_a_line(rt, board, second) },
    )
}
