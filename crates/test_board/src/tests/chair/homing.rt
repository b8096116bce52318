//! Two halls come home: the board is closed, both mailboxes are met by the passes of both, and the cell of heap 0 by its pen.
ghost use Rattle.std.specs.Prelude.{◌≡◌, ◌≤◌, List, [], true, IfOk, length, vec_capacity};
ghost use Rattle.hp_base.specs.declared.limits.TheConstants.{MAX_HEAPS};
ghost use Rattle.hp_hall.specs.Mail.{MailStep};
ghost use Rattle.hp_chair.specs.Places.{ArePlaces};
ghost use Rattle.test_board.specs.Seating.{IsSeated};
ghost use Rattle.test_board.specs.Visiting.{AreInOrder, IsBrought, IsHome, IsOpenedWith};

use super::dealing::{gathered, two};
use super::playing::{Player, Shared, hall_of};
use super::staging::set_up;
use super::visiting::{Visit, visit};
use hp_base::{MAX_HEAPS, StepClock};
use hp_board::{Board, Closed, Seat};
use hp_chair::BoardHall;
use hp_mail::{Mailbox, Pass};
use hp_stats::{StatCells, StatPen};
use std::alloc::{AllocError, Global};
use std::sync::Wait;
use std::test::Fail;

// What a hall hands out at its end.
fn brought<R: Wait>(hall: BoardHall<'_, StepClock, R>) -> Player
    ensures { IsBrought hall.entry result.seat result.passes.items result.stats }
{
    let (seat, passes, stats) = hall.into_parts();
    Player {
        seat,
        passes,
        stats,
    }
}

// Both act in halls at one board, which take turns in one thread, and come home.
fn both<R: Wait>(
    rt: &R,
    shared: Shared<'_>,
    first: Player,
    second: Player,
) -> Result<(Visit, Player, Player), AllocError>
    requires first { IsSeated 0 shared.board.now shared.boxes.now shared.cells.now first.seat first.passes.items first.stats }
    requires second { IsSeated 1 shared.board.now shared.boxes.now shared.cells.now second.seat second.passes.items second.stats }
    ensures first { IfOk result (λ home. IsHome 0 shared.entry.board.now shared.entry.boxes.now shared.entry.cells.now
        home.1.seat home.1.passes.items home.1.stats) }
    ensures second { IfOk result (λ home. IsHome 1 shared.entry.board.now shared.entry.boxes.now shared.entry.cells.now
        home.2.seat home.2.passes.items home.2.stats) }
{
    let mut first = hall_of(rt, shared, first);
    let mut second = hall_of(rt, shared, second);
    let visit = visit(&mut first, &mut second)?;
    Ok((visit, brought(first), brought(second)))
}

// Compares what the owner of each mailbox has fetched with what the other has posted there, where each has a pass to both.
fn met(boxes: &[Mailbox], first: Vec<Pass>, second: Vec<Pass>) -> bool
    requires count { length boxes.now ≡ 2 }
    requires first { (steps : List MailStep) × ArePlaces 0 steps boxes.now first.items }
    requires second { (steps : List MailStep) × ArePlaces 1 steps boxes.now second.items }
    ensures { result ≡ true → AreInOrder first.items second.items }
{
    let Some((mut first_own, mut first_there)) = two(first) else {
        return false;
    };
    let Some((mut second_there, mut second_own)) = two(second) else {
        return false;
    };
    boxes[0].meet(&mut first_own, &mut second_there);
    boxes[1].meet(&mut second_own, &mut first_there);
    true
}

// The board is closed once both are home. Returned are how many calls heap 0 has, and whether each has brought its passes to both mailboxes.
fn closed<R: Wait>(
    rt: &R,
    board: Board,
    boxes: &[Mailbox],
    cells: &StatCells,
    first: Player,
    second: Player,
    back: Vec<Seat>,
    pens: Vec<StatPen>,
) -> (usize, bool)
    requires opened { IsOpenedWith board boxes.now cells.now }
    requires first { IsHome 0 board boxes.now cells.now first.seat first.passes.items first.stats }
    requires second { IsHome 1 board boxes.now cells.now second.seat second.passes.items second.stats }
    requires back { (back.items ≡ []) × (2 ≤ vec_capacity back) }
    requires pens { (pens.items ≡ []) × (MAX_HEAPS ≤ vec_capacity pens) }
{
    let met = met(boxes, first.passes, second.passes);
    let mut closed = board.close(gathered(back, first.seat, second.seat), pens);
    let mut stats = second.stats;
    cells.meet(rt, &mut closed.pens[0], &mut stats, 0);
    (closed.heaps[0].history().len(), met)
}

// What both have done once they are home, with what the closed board has.
fn home<R: Wait>(rt: &R, alloc: Global) -> Result<(Visit, (usize, bool)), AllocError> {
    let back = Vec::with_capacity(alloc, 2)?;
    let pens = Vec::with_capacity(alloc, MAX_HEAPS)?;
    let (room, first, second) = set_up(alloc)?;
    let shared = Shared {
        marks: &room.marks,
        board: &room.board,
        boxes: room.boxes.as_slice(),
        cells: &room.cells,
    };
    let (visit, first, second) = both(rt, shared, first, second)?;
    let left = closed(
        rt,
        room.board,
        room.boxes.as_slice(),
        &room.cells,
        first,
        second,
        back,
        pens,
    );
    Ok((visit, left))
}

#[test]
fn brings_both_home_and_closes_the_board(rt: HostRuntime) -> Result<(), Fail> {
    if home(&rt, rt.alloc())? != (((Some(7), Some(8)), 1), (1, true)) {
        return Err("something else came home".into());
    }
    Ok(())
}
