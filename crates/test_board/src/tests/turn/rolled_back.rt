//! A growth that the third participant cannot map is opened, cancelled and rolled back: who takes part, each on a thread, and what is left.
ghost use Rattle.std.specs.Prelude.{◌≡◌, ◌≤◌, ◌∷◌, [], None, IfSome, IfOk, vec_capacity};
ghost use Rattle.hp_base.specs.declared.limits.TheConstants.{MAX_HEAPS};
ghost use Rattle.test_board.specs.Playing.{IsBack, IsEmptyTable, IsNewcomer};

use super::asker::ask_for_a_page;
use super::leader::lead_all;
use super::member::Maps;
use super::obeying::obey_all;
use super::opening::{PAGES, opening_board, opening_segs};
use hp_base::{MAX_HEAPS, MemMapper, Request};
use hp_board::{Board, Closed, Seat};
use hp_log::LogRecord;
use hp_maps::LocalMaps;
use hp_segs::Segs;
use hp_stats::StatPen;
use std::alloc::{AllocError, Global};
use std::sync::Wait;
use std::test::Fail;
use std::thread::{Threads, join};

// How many records the log has in the end.
const RECORDS: u64 = 2;

// Room for the slots of all lists.
const ROOM: usize = 16_384;

// What is left of the run: the closed board, how many rows each table has, and the third participant's word.
#[derive(Drop)]
struct Left {
    closed: Closed,
    rows: [usize; 3],
    third: u64,
}

// A table whose mapper refuses these calls.
fn empty_table(alloc: Global, fails: Vec<u64>) -> Result<Maps, AllocError>
    ensures { IfOk result IsEmptyTable }
{
    let mut mapper = MemMapper::new(alloc, ROOM)?;
    mapper.fail_at(fails);
    LocalMaps::new(alloc, mapper, ROOM)
}

// Participants 1 and 2, each on a thread.
fn both<R: Threads + Wait + Sync>(
    rt: &R,
    board: &Board,
    asker: (Seat, Maps),
    third: (Seat, Maps),
    request: &Request,
) -> (Option<(Seat, Maps)>, (Seat, Maps))
    requires asker { IsNewcomer board.now.id 1 asker.0 asker.1 }
    requires third { IsNewcomer board.now.id 2 third.0 third.1 }
    ensures asker { IfSome result.0 (λ back. IsBack board.now.id 1 back.0) }
    ensures third { IsBack board.now.id 2 result.1.0 }
{
    join(
        rt,
        move || -> Option<(Seat, Maps)>
            requires { IsNewcomer board.now.id 1 asker.0 asker.1 }
            ensures { IfSome result (λ back. IsBack board.entry.now.id 1 back.0) }
        { ask_for_a_page(rt, board, asker.0, asker.1, request, RECORDS) },
        move || -> (Seat, Maps)
            requires { IsNewcomer board.now.id 2 third.0 third.1 }
            ensures { IsBack board.entry.now.id 2 result.0 }
        { obey_all(rt, board, third.0, third.1, RECORDS) },
    )
}

// All three, each on a thread.
fn all<R: Threads + Wait + Sync>(
    rt: &R,
    board: &Board,
    leader: (Seat, Maps),
    asker: (Seat, Maps),
    third: (Seat, Maps),
    request: &Request,
) -> ((Seat, Maps), (Option<(Seat, Maps)>, (Seat, Maps)))
    requires leader { IsNewcomer board.now.id 0 leader.0 leader.1 }
    requires asker { IsNewcomer board.now.id 1 asker.0 asker.1 }
    requires third { IsNewcomer board.now.id 2 third.0 third.1 }
    ensures leader { IsBack board.now.id 0 result.0.0 }
    ensures asker { IfSome result.1.0 (λ back. IsBack board.now.id 1 back.0) }
    ensures third { IsBack board.now.id 2 result.1.1.0 }
{
    join(
        rt,
        move || -> (Seat, Maps)
            requires { IsNewcomer board.now.id 0 leader.0 leader.1 }
            ensures { IsBack board.entry.now.id 0 result.0 }
        { lead_all(rt, board, leader.0, leader.1) },
        move || -> (Option<(Seat, Maps)>, (Seat, Maps))
            requires { IsNewcomer board.now.id 1 asker.0 asker.1 × IsNewcomer board.now.id 2 third.0 third.1 }
            ensures { IfSome result.0 (λ back. IsBack board.entry.now.id 1 back.0) × IsBack board.entry.now.id 2 result.1.0 }
        { both(rt, board, asker, third, request) },
    )
}

/// Three seats, if there are so many.
pub fn three(seats: Vec<Seat>) -> Option<(Seat, Seat, Seat)>
    ensures { IfSome result (λ all. seats.items ≡ all.0 ∷ all.1 ∷ all.2 ∷ []) }
{
    let mut seats = seats;
    let third = seats.pop()?;
    let second = seats.pop()?;
    let first = seats.pop()?;
    if !seats.is_empty() {
        return None;
    }
    Some((first, second, third))
}

/// The three seats in a vector with room for them.
pub fn gathered(seats: Vec<Seat>, first: Seat, second: Seat, third: Seat) -> Vec<Seat>
    requires empty { seats.items ≡ [] }
    requires room { 3 ≤ vec_capacity seats }
    ensures { result.items ≡ first ∷ second ∷ third ∷ [] }
{
    let mut seats = seats;
    seats.push_reserved(first);
    seats.push_reserved(second);
    seats.push_reserved(third);
    seats
}

// The numbers of the calls that the third participant's mapper refuses: the first.
fn first_call(alloc: Global) -> Result<Vec<u64>, AllocError> {
    let mut calls = Vec::with_capacity(alloc, 1)?;
    calls.push_reserved(1);
    Ok(calls)
}

// The board is closed, and what is left is told.
fn ended(
    board: Board,
    back: Vec<Seat>,
    pens: Vec<StatPen>,
    leader: (Seat, Maps),
    asker: (Seat, Maps),
    third: (Seat, Maps),
) -> Left
    requires three { board.opening.participants ≡ 3 }
    requires back { (back.items ≡ []) × (3 ≤ vec_capacity back) }
    requires pens { (pens.items ≡ []) × (MAX_HEAPS ≤ vec_capacity pens) }
    requires leader { IsBack board.id 0 leader.0 }
    requires asker { IsBack board.id 1 asker.0 }
    requires third { IsBack board.id 2 third.0 }
{
    let rows = [
        leader.1.rows().len(),
        asker.1.rows().len(),
        third.1.rows().len(),
    ];
    let mut seat = third.0;
    let word = board.load_ack(&mut seat, 2);
    let closed = board.close(gathered(back, leader.0, asker.0, seat), pens);
    Left {
        closed,
        rows,
        third: word,
    }
}

// The tables of three participants, of which the mapper of the third refuses its first call.
fn tables(alloc: Global) -> Result<(Maps, Maps, Maps), AllocError>
    ensures first { IfOk result (λ tables. IsEmptyTable tables.0) }
    ensures second { IfOk result (λ tables. IsEmptyTable tables.1) }
    ensures third { IfOk result (λ tables. IsEmptyTable tables.2) }
{
    let first = empty_table(alloc, Vec::new(alloc))?;
    let second = empty_table(alloc, Vec::new(alloc))?;
    let third = empty_table(alloc, first_call(alloc)?)?;
    Ok((first, second, third))
}

// The three participants play; what is left, or `None` where the ask came out otherwise.
fn play<R: Threads + Wait + Sync>(rt: &R, alloc: Global) -> Result<Option<Left>, AllocError> {
    let Ok(request) = Request::new(1_000, 0, 0, 0) else {
        return Err(AllocError);
    };
    let tables = tables(alloc)?;
    let back = Vec::with_capacity(alloc, 3)?;
    let pens = Vec::with_capacity(alloc, MAX_HEAPS)?;
    let segs = opening_segs(alloc)?;
    let (board, seats) = opening_board(alloc, segs)?;
    let Some((first, second, third)) = three(seats) else {
        return Err(AllocError);
    };
    let leader = (first, tables.0);
    let asker = (second, tables.1);
    let third = (third, tables.2);
    let (leader, (asker, third)) = all(rt, &board, leader, asker, third, &request);
    match asker {
        Some(asker) => Ok(Some(ended(board, back, pens, leader, asker, third))),
        None => Ok(None),
    }
}

// Whether the log has a growth of one run and its Drop, and no more.
fn has_the_pair(records: &[LogRecord]) -> bool {
    match records {
        [
            LogRecord::Add { run, heap: 0 },
            LogRecord::Drop { run: dropped },
        ] => run == dropped,
        _ => false,
    }
}

// Whether the one pool has all its pages.
fn has_all_pages(segs: &Segs) -> bool {
    segs.pools().len() == 1 && segs.pages_left(0) == PAGES
}

#[test]
fn rolls_a_growth_back_that_one_cannot_map(rt: HostRuntime) -> Result<(), Fail> {
    let Some(left) = play(&rt, rt.alloc())? else {
        return Err("the ask was not refused".into());
    };
    let segs = &left.closed.segs;
    assert!(rt; has_the_pair(segs.records()) && has_all_pages(segs));
    assert!(rt; left.rows == [0, 0, 0] && left.third == RECORDS);
    Ok(())
}
