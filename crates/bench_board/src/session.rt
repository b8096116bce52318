ghost use Rattle.std.specs.Prelude.{◌≡◌, ◌≤◌, ◌∷◌, [], IfSome, vec_capacity};
ghost use Rattle.bench_board.specs.Rounds.{IsBack, IsWorking};

use crate::opening::opening_board;
use crate::rounds::work;
use hp_base::{MAX_HEAPS, Request};
use hp_board::{Board, Closed, Seat};
use std::alloc::{AllocError, Global};
use std::sync::Wait;
use std::thread::{Threads, join};

// Three participants share a heap, on threads of their own.
pub fn shared<R: Threads + Wait + Sync>(rt: &R, alloc: Global) -> Result<Closed, AllocError> {
    let Ok(request) = Request::new(1000, 0, 0, 0) else {
        return Err(AllocError);
    };
    let (board, seats) = opening_board(alloc)?;
    let back = Vec::with_capacity(alloc, 3)?;
    let pens = Vec::with_capacity(alloc, MAX_HEAPS)?;
    let Some((first, second, third)) = three(seats) else {
        return Err(AllocError);
    };
    let (first, (second, third)) = all(rt, &board, first, second, third, &request);
    Ok(board.close(gathered(back, first, second, third), pens))
}

// Three seats, if there are so many.
pub fn three(seats: Vec<Seat>) -> Option<(Seat, Seat, Seat)>
    ensures { IfSome result (λ all. seats.items ≡ all.0 ∷ all.1 ∷ all.2 ∷ []) }
{
    let mut seats = seats;
    let third = seats.pop()?;
    let second = seats.pop()?;
    let first = seats.pop()?;
    if !seats.is_empty() {
        return None;
    }
    Some((first, second, third))
}

// The three seats in a vector with room for them.
pub fn gathered(seats: Vec<Seat>, first: Seat, second: Seat, third: Seat) -> Vec<Seat>
    requires empty { seats.items ≡ [] }
    requires room { 3 ≤ vec_capacity seats }
    ensures { result.items ≡ first ∷ second ∷ third ∷ [] }
{
    let mut seats = seats;
    seats.push_reserved(first);
    seats.push_reserved(second);
    seats.push_reserved(third);
    seats
}

// Two participants work, each on a thread.
fn both<R: Threads + Wait + Sync>(
    rt: &R,
    board: &Board,
    second: Seat,
    third: Seat,
    request: &Request,
) -> (Seat, Seat)
    requires second { IsWorking board.now.id second.mine.who 0 second }
    requires third { IsWorking board.now.id third.mine.who 0 third }
    ensures second { IsBack board.now.id second.mine.who result.0 }
    ensures third { IsBack board.now.id third.mine.who result.1 }
{
    join(
        rt,
        move || -> Seat
            requires { IsWorking board.now.id second.mine.who 0 second }
            ensures { IsBack board.entry.now.id second.mine.who result }
        { work(rt, board, second, request) },
        move || -> Seat
            requires { IsWorking board.now.id third.mine.who 0 third }
            ensures { IsBack board.entry.now.id third.mine.who result }
        { work(rt, board, third, request) },
    )
}

// All three work, each on a thread.
fn all<R: Threads + Wait + Sync>(
    rt: &R,
    board: &Board,
    first: Seat,
    second: Seat,
    third: Seat,
    request: &Request,
) -> (Seat, (Seat, Seat))
    requires first { IsWorking board.now.id first.mine.who 0 first }
    requires second { IsWorking board.now.id second.mine.who 0 second }
    requires third { IsWorking board.now.id third.mine.who 0 third }
    ensures first { IsBack board.now.id first.mine.who result.0 }
    ensures second { IsBack board.now.id second.mine.who result.1.0 }
    ensures third { IsBack board.now.id third.mine.who result.1.1 }
{
    join(
        rt,
        move || -> Seat
            requires { IsWorking board.now.id first.mine.who 0 first }
            ensures { IsBack board.entry.now.id first.mine.who result }
        { work(rt, board, first, request) },
        move || -> (Seat, Seat)
            requires { IsWorking board.now.id second.mine.who 0 second × IsWorking board.now.id third.mine.who 0 third }
            ensures { IsBack board.entry.now.id second.mine.who result.0 × IsBack board.entry.now.id third.mine.who result.1 }
        { both(rt, board, second, third, request) },
    )
}
