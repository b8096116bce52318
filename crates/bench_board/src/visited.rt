ghost use Rattle.std.specs.Prelude.{◌≡◌, ◌<◌};
ghost use Rattle.bench_board.specs.Visits.{IsReady, IsReadyAgain};

use crate::opening::opening_board;
use crate::session::{gathered, three};
use crate::visits::{come_and_go, stay};
use hp_base::MAX_HEAPS;
use hp_board::{Board, Closed, Seat};
use std::alloc::{AllocError, Global};
use std::sync::Wait;
use std::thread::{Threads, join};

// Two participants attach and detach on threads of their own, while the first takes in the log: each so often.
pub fn visited<R: Threads + Wait + Sync>(
    rt: &R,
    alloc: Global,
    times: u64,
) -> Result<Closed, AllocError> {
    let (board, seats) = opening_board(alloc)?;
    let back = Vec::with_capacity(alloc, 3)?;
    let pens = Vec::with_capacity(alloc, MAX_HEAPS)?;
    let Some((first, second, third)) = three(seats) else {
        return Err(AllocError);
    };
    let (first, (second, third)) = all(rt, &board, first, second, third, times);
    Ok(board.close(gathered(back, first, second, third), pens))
}

// Two participants attach and detach, each on a thread.
fn both_visit<R: Threads + Wait + Sync>(
    rt: &R,
    board: &Board,
    second: Seat,
    third: Seat,
    times: u64,
) -> (Seat, Seat)
    requires second { IsReady board.now.id second × (0 < second.mine.who) }
    requires third { IsReady board.now.id third × (0 < third.mine.who) }
    ensures second { IsReadyAgain board.now.id second result.0 }
    ensures third { IsReadyAgain board.now.id third result.1 }
{
    join(
        rt,
        move || -> Seat
            requires { IsReady board.now.id second × (0 < second.mine.who) }
            ensures { IsReadyAgain board.entry.now.id second result }
        { come_and_go(rt, board, second, times) },
        move || -> Seat
            requires { IsReady board.now.id third × (0 < third.mine.who) }
            ensures { IsReadyAgain board.entry.now.id third result }
        { come_and_go(rt, board, third, times) },
    )
}

// All three, each on a thread.
fn all<R: Threads + Wait + Sync>(
    rt: &R,
    board: &Board,
    first: Seat,
    second: Seat,
    third: Seat,
    times: u64,
) -> (Seat, (Seat, Seat))
    requires first { IsReady board.now.id first }
    requires second { IsReady board.now.id second × (0 < second.mine.who) }
    requires third { IsReady board.now.id third × (0 < third.mine.who) }
    ensures first { IsReadyAgain board.now.id first result.0 }
    ensures second { IsReadyAgain board.now.id second result.1.0 }
    ensures third { IsReadyAgain board.now.id third result.1.1 }
{
    join(
        rt,
        move || -> Seat
            requires { IsReady board.now.id first }
            ensures { IsReadyAgain board.entry.now.id first result }
        { stay(rt, board, first, times) },
        move || -> (Seat, Seat)
            requires { IsReady board.now.id second × (0 < second.mine.who) × IsReady board.now.id third × (0 < third.mine.who) }
            ensures { IsReadyAgain board.entry.now.id second result.0 × IsReadyAgain board.entry.now.id third result.1 }
        { both_visit(rt, board, second, third, times) },
    )
}
