//! Two participants, each on a thread, reserve and free memzones of one name by turns, and what is left.
ghost use Rattle.std.specs.Prelude.{◌≡◌, ◌≤◌, [], IfSome, vec_capacity};
ghost use Rattle.hp_base.specs.declared.limits.TheConstants.{MAX_HEAPS};
ghost use Rattle.test_board.specs.Playing.{IsBack};
ghost use Rattle.test_board.specs.Zoning.{IsFree};

use super::brought::bring;
use super::opening::{opening_board, opening_segs};
use super::rolled_back::{gathered, three};
use super::zone_turns::{TURNS, work};
use super::zones::BYTES;
use hp_base::{MAX_HEAPS, Request};
use hp_board::{Board, Closed, Seat};
use hp_heap::Heap;
use hp_stats::StatPen;
use hp_zone::{ZoneChange, Zones};
use std::alloc::{AllocError, Global};
use std::sync::Wait;
use std::test::Fail;
use std::thread::{Threads, join};

// Both take their turns, each on a thread.
fn both<R: Threads + Wait + Sync>(
    rt: &R,
    board: &Board,
    first: Seat,
    second: Seat,
    request: &Request,
) -> (Option<Seat>, Option<Seat>)
    requires first { IsFree board.now.id 0 0 first }
    requires second { IsFree board.now.id 1 0 second }
    ensures first { IfSome result.0 (IsBack board.now.id 0) }
    ensures second { IfSome result.1 (IsBack board.now.id 1) }
{
    join(
        rt,
        move || -> Option<Seat>
            requires { IsFree board.now.id 0 0 first }
            ensures { IfSome result (IsBack board.entry.now.id 0) }
        { work(rt, board, first, 0, request) },
        move || -> Option<Seat>
            requires { IsFree board.now.id 1 0 second }
            ensures { IfSome result (IsBack board.entry.now.id 1) }
        { work(rt, board, second, 1, request) },
    )
}

// The board is closed.
fn closed(
    board: Board,
    back: Vec<Seat>,
    pens: Vec<StatPen>,
    first: Seat,
    second: Seat,
    third: Seat,
) -> Closed
    requires three { board.opening.participants ≡ 3 }
    requires back { (back.items ≡ []) × (3 ≤ vec_capacity back) }
    requires pens { (pens.items ≡ []) × (MAX_HEAPS ≤ vec_capacity pens) }
    requires first { IsBack board.id 0 first }
    requires second { IsBack board.id 1 second }
    requires third { IsBack board.id 2 third }
{
    board.close(gathered(back, first, second, third), pens)
}

// All three play; what the closed board has, or `None` where something was refused.
fn play<R: Threads + Wait + Sync>(rt: &R, alloc: Global) -> Result<Option<Closed>, AllocError> {
    let Ok(request) = Request::new(BYTES, 64, 0, 0) else {
        return Err(AllocError);
    };
    let back = Vec::with_capacity(alloc, 3)?;
    let pens = Vec::with_capacity(alloc, MAX_HEAPS)?;
    let segs = opening_segs(alloc)?;
    let (board, seats) = opening_board(alloc, segs)?;
    let Some((first, second, third)) = three(seats) else {
        return Err(AllocError);
    };
    let Some(third) = bring(rt, &board, third) else {
        return Ok(None);
    };
    let (one, two) = both(rt, &board, first, second, &request);
    let Some(first) = one else {
        return Ok(None);
    };
    let Some(second) = two else {
        return Ok(None);
    };
    Ok(Some(closed(board, back, pens, first, second, third)))
}

// Whether memzones were reserved and freed by turns, so often, and none is left.
fn went_by_turns(zones: &Zones, times: usize) -> bool {
    let mut there = false;
    for change in zones.log() {
        let put = match change {
            ZoneChange::Put { .. } => true,
            ZoneChange::Gone { .. } => false,
        };
        if put == there {
            return false;
        }
        there = put;
    }
    zones.len() == 0 && zones.log().len() == times
}

// How many calls of a heap a participant has made.
fn calls_of(heap: &Heap, who: u8) -> u64 {
    let mut count = 0;
    for entry in heap.history() {
        if entry.caller.participant == who {
            count += 1;
        }
    }
    count
}

#[test]
fn reserves_a_zone_of_one_name_by_turns(rt: HostRuntime) -> Result<(), Fail> {
    let Some(closed) = play(&rt, rt.alloc())? else {
        return Err("a call was refused".into());
    };
    let times = TURNS as usize * 4;
    assert!(rt; went_by_turns(&closed.names.zones, times));
    let Some(heap) = closed.heaps.get(1) else {
        return Err("no heap 1".into());
    };
    let calls = [calls_of(heap, 0), calls_of(heap, 1), calls_of(heap, 2)];
    assert!(rt; calls == [1 + 3 * TURNS, 1 + 3 * TURNS, 2]);
    Ok(())
}
