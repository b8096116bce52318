ghost use Rattle.std.specs.Prelude.{◌≡◌, ◌<◌};
ghost use Rattle.bench_board.specs.Visits.{IsReady, IsReadyAgain};

use crate::members::{change, follow};
use hp_board::{Board, Seat};
use std::sync::Wait;
use std::thread;

// The primary takes in the log again and again.
pub fn stay<R: Wait>(rt: &R, board: &Board, seat: Seat, times: u64) -> Seat
    requires ready { IsReady board.now.id seat }
    ensures ready { IsReadyAgain board.now.id seat result }
{
    let mut primary = seat;
    for _ in 0..times {
        follow(rt, board, &mut primary);
        thread::yield_now();
    }
    primary
}

// A secondary attaches where it is out and detaches where it is in, and goes back again, so many times.
pub fn come_and_go<R: Wait>(rt: &R, board: &Board, seat: Seat, times: u64) -> Seat
    requires ready { IsReady board.now.id seat }
    requires secondary { 0 < seat.mine.who }
    ensures ready { IsReadyAgain board.now.id seat result }
{
    let mut seat = seat;
    for _ in 0..times {
        change(rt, board, &mut seat);
        follow(rt, board, &mut seat);
        change(rt, board, &mut seat);
        thread::yield_now();
    }
    seat
}
