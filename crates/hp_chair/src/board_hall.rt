//! A hall with one seat at the board.
ghost use Rattle.std.specs.Prelude.{◌≡◌, ◌<◌, ◌≤◌, [], length};
ghost use Rattle.hp_base.specs.declared.limits.TheConstants.{MAX_PARTICIPANTS};
ghost use Rattle.hp_chair.specs.ChairView.{opening_chair};
ghost use Rattle.hp_chair.specs.Places.{ArePlaces, HasPasses};
ghost use Rattle.hp_chair.specs.Publishing.{HasReadBy, IsUnread};
ghost use Rattle.hp_chair.specs.Steps.{moves_in};

mod calls;
mod mail;
mod stats;
mod waiting;

use crate::marks::Marks;
use crate::step_log::StepLog;
use hp_base::Clock;
use hp_board::{Board, Seat};
use hp_mail::{Mailbox, Pass};
use hp_stats::{StatCells, StatPass};
use std::marker::Model;
use std::sync::Wait;

/// The hall of one participant that runs on a thread of its own: its seat at the board, its passes to the mailboxes of all participants and
/// to the statistics of all heaps, and its clock. Contracts see it as a `ChairView`. Own.
#[derive(Drop)]
pub struct BoardHall<'a, C: Clock, R: Wait> {
    rt: &'a R,
    marks: &'a Marks,
    board: &'a Board,
    boxes: &'a [Mailbox],
    cells: &'a StatCells,
    seat: Seat,
    // Its pass to the mailbox of each participant, by the numbers of these.
    passes: Vec<Pass>,
    // Its pass to the statistics of all heaps.
    stats: StatPass,
    clock: C,
    // How many turns it may still wait.
    turns: u64,
    // How often a mailbox was full.
    full_mailboxes: u64,
    // Whether somebody had stopped when the hall last looked.
    stopped: bool,
    log: StepLog,
}

impl<'a, C: Clock, R: Wait> Model for BoardHall<'a, C, R> {
    ghost use Rattle.hp_chair.specs.ChairView.{ChairView};
    ghost use Rattle.hp_chair.specs.ChairInside.{IsChair};

    ghost Value = { ChairView };

    ghost view = { λ a. record {
      seat = a.seat;
      boxes = a.boxes.now;
      passes = a.passes.items;
      stats = a.stats;
      steps = a.log;
      full_mailboxes = a.full_mailboxes;
      stopped = a.stopped;
      turns = a.turns;
    } };

    ghost invariant = { λ a. IsChair a.board.now a.boxes.now a.cells.now (record {
      seat = a.seat;
      boxes = a.boxes.now;
      passes = a.passes.items;
      stats = a.stats;
      steps = a.log;
      full_mailboxes = a.full_mailboxes;
      stopped = a.stopped;
      turns = a.turns;
    }) };
}

impl<'a, C: Clock, R: Wait> BoardHall<'a, C, R> {
    /// The hall of a participant that has made no step at its board yet, with as many mailboxes as the board has participants and a pass to
    /// each, and with the board's cells and a pass to them. It may wait for 2^64 - 1 turns, and then waits for ever. Own.
    pub fn new(
        rt: &'a R,
        marks: &'a Marks,
        board: &'a Board,
        boxes: &'a [Mailbox],
        cells: &'a StatCells,
        seat: Seat,
        passes: Vec<Pass>,
        stats: StatPass,
        clock: C,
    ) -> BoardHall<'a, C, R>
        requires board { seat.board ≡ board.now.id }
        requires declared { seat.mine.who < seat.mine.opening.participants }
        requires few { seat.mine.opening.participants ≤ MAX_PARTICIPANTS }
        requires count { length boxes.now ≡ seat.mine.opening.participants }
        requires unused { (seat.mine.held ≡ []) × (seat.mine.moves ≡ []) }
        requires places { ArePlaces seat.mine.who [] boxes.now passes.items }
        requires unread { IsUnread cells.now seat.mine.opening stats }
        ensures { result ≡ opening_chair seat boxes.now passes.items stats }
    {
        BoardHall {
            rt,
            marks,
            board,
            boxes,
            cells,
            seat,
            passes,
            stats,
            clock,
            turns: u64::MAX,
            full_mailboxes: 0,
            stopped: false,
            log: StepLog::new(),
        }
    }

    /// Ends the hall, and hands out the seat, the passes to mailboxes, and that to statistics. What the seat has taken and given is what the
    /// hall's steps say. Own.
    pub fn into_parts(self) -> (Seat, Vec<Pass>, StatPass)
        ensures seat { result.0 ≡ self.entry.seat }
        ensures passes { result.1.items ≡ self.entry.passes }
        ensures stats { result.2 ≡ self.entry.stats }
        ensures moves { result.0.mine.moves ≡ moves_in self.entry.steps }

        // What each pass has posted and fetched is what the steps say too. There is a pass for each participant.
        ensures mail { HasPasses self.entry.seat.mine.who self.entry.seat.mine.opening.participants self.entry.steps result.1.items }

        // What the pass to statistics has read and published is what they say, too.
        ensures read { HasReadBy self.entry.steps result.2 }
    {
        let BoardHall {
            seat,
            passes,
            stats,
            ..
        } = self;
        (seat, passes, stats)
    }

    /// How often a mailbox was full. At its type's end the count stands still.
    pub fn full_mailboxes(&self) -> u64
        ensures { result ≡ self.now.full_mailboxes }
    {
        self.full_mailboxes
    }
}
