//! What each of the two does on its thread, in a hall of its own. Both halls have a clock that stands still.
ghost use Rattle.std.specs.Prelude.{◌≡◌, ℕ};
ghost use Rattle.hp_chair.specs.ChairView.{opening_chair};
ghost use Rattle.test_board.specs.Seating.{IsSeated};

use super::opening::member;
use super::serving::{Told, play};
use hp_base::{Plan, Request, StepClock};
use hp_board::{Board, Seat};
use hp_chair::{BoardHall, Marks};
use hp_mail::{Mailbox, Pass};
use hp_stats::{StatCells, StatPass};
use std::alloc::{AllocError, Global};
use std::sync::Wait;

/// What both share: the marks, the board, the mailboxes, and the cells of the heaps' statistics.
#[derive(Clone, Copy)]
pub struct Shared<'a> {
    pub marks: &'a Marks,
    pub board: &'a Board,
    pub boxes: &'a [Mailbox],
    pub cells: &'a StatCells,
}

/// What one brings: its seat, its passes to the mailboxes, and that to the statistics.
#[derive(Drop)]
pub struct Player {
    pub seat: Seat,
    pub passes: Vec<Pass>,
    pub stats: StatPass,
}

/// The hall of one of the two.
pub fn hall_of<'a, R: Wait>(
    rt: &'a R,
    shared: Shared<'a>,
    player: Player,
) -> BoardHall<'a, StepClock, R>
    requires seated { (who : ℕ) × IsSeated who shared.board.now shared.boxes.now shared.cells.now player.seat player.passes.items player.stats }
    ensures { result ≡ opening_chair player.seat shared.entry.boxes.now player.passes.items player.stats }
{
    let clock = StepClock::new(0);
    BoardHall::new(
        rt,
        shared.marks,
        shared.board,
        shared.boxes,
        shared.cells,
        player.seat,
        player.passes,
        player.stats,
        clock,
    )
}

// What that participant does in its hall: it asks for a page where it has a request, and else it serves.
fn played<R: Wait>(
    rt: &R,
    alloc: Global,
    shared: Shared<'_>,
    player: Player,
    me: u8,
    plan: &Plan,
    request: Option<Request>,
) -> Result<Told, AllocError>
    requires seated { IsSeated me shared.board.now shared.boxes.now shared.cells.now player.seat player.passes.items player.stats }
{
    let mut party = member(alloc, me, plan)?;
    let mut hall = hall_of(rt, shared, player);
    play(rt, shared.marks, &mut hall, &mut party, request)
}

/// The thread of participant 1, which asks. Its mark tells that it has finished, whatever came of it.
pub fn second<R: Wait>(
    rt: &R,
    alloc: Global,
    shared: Shared<'_>,
    player: Player,
    plan: &Plan,
    request: Request,
) -> Result<Told, AllocError>
    requires seated { IsSeated 1 shared.board.now shared.boxes.now shared.cells.now player.seat player.passes.items player.stats }
{
    let told = played(rt, alloc, shared, player, 1, plan, Some(request));
    shared.marks.finish();
    told
}

/// The thread of participant 0, which serves.
pub fn first<R: Wait>(
    rt: &R,
    alloc: Global,
    shared: Shared<'_>,
    player: Player,
    plan: &Plan,
) -> Result<Told, AllocError>
    requires seated { IsSeated 0 shared.board.now shared.boxes.now shared.cells.now player.seat player.passes.items player.stats }
{
    played(rt, alloc, shared, player, 0, plan, None)
}
