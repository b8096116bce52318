//! A room with a board for two, the mailboxes of both and the statistics of the heaps, and what each of them brings.
ghost use Rattle.std.specs.Prelude.{◌≡◌, IfOk};
ghost use Rattle.hp_board.specs.SeatView.{new_seat};
ghost use Rattle.hp_board.specs.Served.{AreOpeningPens};
ghost use Rattle.test_board.specs.Seating.{IsForTwo, IsSeated};

use super::super::opening::{opening_heaps, opening_names};
use super::dealing::{boxes_of_two, readers_of_two, two};
use super::opening::opening_segs;
use super::playing::Player;
use hp_board::{Board, Seat};
use hp_chair::Marks;
use hp_mail::Mailbox;
use hp_stats::{StatCells, StatPen};
use std::alloc::{AllocError, Global};

/// What both share: the marks, the board, the mailboxes, and the cells of the heaps' statistics.
#[derive(Drop)]
pub struct Room {
    pub marks: Marks,
    pub board: Board,
    pub boxes: Vec<Mailbox>,
    pub cells: StatCells,
}

// A new board of two with these cells, and their seats.
fn seated(
    alloc: Global,
    pens: Vec<StatPen>,
    cells: &StatCells,
) -> Result<(Board, Seat, Seat), AllocError>
    requires pens { AreOpeningPens cells.now pens.items }
    ensures board { IfOk result (λ made. IsForTwo made.0) }
    ensures cells { IfOk result (λ made. made.0.opening.cells.value ≡ cells.now) }
    ensures first { IfOk result (λ made. made.1 ≡ new_seat made.0 0) }
    ensures second { IfOk result (λ made. made.2 ≡ new_seat made.0 1) }
{
    let heaps = opening_heaps(alloc)?;
    let segs = opening_segs(alloc)?;
    let names = opening_names(alloc)?;
    let (board, seats) = Board::new(alloc, heaps, pens, cells, segs, names, 2)?;
    let Some((first, second)) = two(seats) else {
        return Err(AllocError);
    };
    Ok((board, first, second))
}

/// A room with a new board, at which both sit, with their passes to the mailboxes.
pub fn set_up(alloc: Global) -> Result<(Room, Player, Player), AllocError>
    ensures first { IfOk result (λ made.
        IsSeated 0 made.0.board made.0.boxes.items made.0.cells made.1.seat made.1.passes.items made.1.stats) }
    ensures second { IfOk result (λ made.
        IsSeated 1 made.0.board made.0.boxes.items made.0.cells made.2.seat made.2.passes.items made.2.stats) }
{
    let dealt = boxes_of_two(alloc)?;
    let readers = readers_of_two(alloc)?;
    let (board, first_seat, second_seat) = seated(alloc, readers.pens, &readers.cells)?;
    let first = Player {
        seat: first_seat,
        passes: dealt.first,
        stats: readers.first,
    };
    let second = Player {
        seat: second_seat,
        passes: dealt.second,
        stats: readers.second,
    };
    let room = Room {
        marks: Marks::new(),
        board,
        boxes: dealt.boxes,
        cells: readers.cells,
    };
    Ok((room, first, second))
}
