//! Participants on threads, from their first step to what they leave.
ghost use Rattle.std.specs.Prelude.{◌≡◌, ◌≤◌, ℕ, IfOk, Some, length, map, slice_get};
ghost use Rattle.hp_base.specs.declared.limits.TheConstants.{MAX_LINES};
ghost use Rattle.hp_proc.specs.ParticipantView.{ParticipantView};
ghost use Rattle.thm_run.specs.EndLaws.{IsGiven};
ghost use Rattle.hp_threads.specs.Running.{AllHavePromised, AreTakenApart, IsStage, ThreadsLeave};
ghost use Rattle.hp_threads.specs.Workers.{AreFirstValues, AreWorkers, CanBeRun, IsNewcomer, OpensFor};
ghost use Rattle.hp_threads.specs.Working.{CanBeDone};

use crate::answers::Answers;
use crate::counting::count_all;
use crate::dealing::{Dealt, boxes_for, seated};
use crate::ended::Ended;
use crate::meeting::meet_all;
use crate::newcomer::Newcomer;
use crate::passes::Passes;
use crate::shared::Shared;
use crate::threads::work_all;
use crate::weaving::woven;
use crate::worker::Worker;
use crate::working::Worked;
use hp_base::{Clock, Gate, MAX_HEAPS, Mapper};
use hp_board::{Board, Closed, Seat};
use hp_chair::Marks;
use hp_events::Watchers;
use hp_heap::Heap;
use hp_mail::Mailbox;
use hp_maps::Table;
use hp_script::Workload;
use hp_segs::Segs;
use hp_serve::Decide;
use hp_stats::{StatCells, StatParts, StatPass};
use hp_zone::Names;
use std::alloc::{AllocError, Global};
use std::sync::Wait;
use std::thread::Threads;

// What all share, and what each of them brings to its place, by their numbers.
#[derive(Drop)]
struct Stage {
    board: Board,
    boxes: Vec<Mailbox>,
    cells: StatCells,
    seats: Vec<Seat>,
    all_passes: Vec<Passes>,
    stats: Vec<StatPass>,
}

// What all have brought home, by their numbers.
#[derive(Drop)]
struct Returned {
    seats: Vec<Seat>,
    answers: Vec<Answers>,
    tables: Vec<Table>,
    watchers: Vec<Watchers>,
    stats: Vec<StatPass>,
}

// A board for a workload, with a place for each of its participants.
fn opened(
    alloc: Global,
    workload: &Workload<'_>,
    heaps: Vec<Heap>,
    segs: Segs,
    names: Names,
) -> Result<Stage, AllocError>
    requires given { IsGiven workload.now }
    requires values { AreFirstValues workload.now heaps.items segs names }
    ensures { IfOk result (λ stage. IsStage workload.now stage.board stage.boxes.items stage.cells stage.seats.items stage.all_passes.items
        stage.stats.items) }
{
    let participants = workload.participants;
    let StatParts {
        cells,
        pens,
        passes,
    } = StatCells::new(alloc, MAX_HEAPS as u32, participants)?;
    let Dealt { boxes, all_passes } = boxes_for(alloc, participants)?;
    let (board, seats) = Board::new(alloc, heaps, pens, &cells, segs, names, participants)?;
    Ok(Stage {
        board,
        boxes,
        cells,
        seats,
        all_passes,
        stats: passes,
    })
}

// What all have brought home, with their passes to the mailboxes.
#[derive(Drop)]
struct Apart {
    all_passes: Vec<Passes>,
    home: Returned,
}

// Takes what they have brought home apart. It is refused where one of them was refused memory.
fn taken_apart(alloc: Global, worked: Vec<Worked>) -> Result<Apart, AllocError>
    ensures { IfOk result (λ apart. AreTakenApart worked.items apart.all_passes.items apart.home.seats.items apart.home.answers.items
        apart.home.tables.items apart.home.watchers.items apart.home.stats.items) }
{
    let mut worked = worked;
    let mut all_passes = Vec::with_capacity(alloc, worked.len())?;
    let mut seats = Vec::with_capacity(alloc, worked.len())?;
    let mut answers = Vec::with_capacity(alloc, worked.len())?;
    let mut tables = Vec::with_capacity(alloc, worked.len())?;
    let mut watchers = Vec::with_capacity(alloc, worked.len())?;
    let mut all_stats = Vec::with_capacity(alloc, worked.len())?;
    while !worked.is_empty() {
        let Worked {
            seat,
            passes,
            stats,
            done,
        } = worked.remove(0);
        let Some(told) = done else {
            return Err(AllocError);
        };
        all_passes.push_reserved(Passes::of(passes));
        seats.push_reserved(seat);
        answers.push_reserved(told.answers);
        tables.push_reserved(told.table);
        watchers.push_reserved(told.watchers);
        all_stats.push_reserved(stats);
    }
    let home = Returned {
        seats,
        answers,
        tables,
        watchers,
        stats: all_stats,
    };
    Ok(Apart { all_passes, home })
}

// All work over a board, and come home; and then their passes to each mailbox meet there.
fn all_home<
    'p,
    M: Mapper + Send,
    C: Clock + Send,
    F: Decide + Copy + Drop + Send,
    G: Gate + Sync,
    R: Threads + Wait + Sync,
>(
    rt: &R,
    alloc: Global,
    board: &Board,
    boxes: &[Mailbox],
    cells: &StatCells,
    workload: &Workload<'_>,
    workers: Vec<Worker<'p, M, C, F>>,
    gate: &G,
) -> Result<Returned, AllocError>
    requires opened { OpensFor workload.now board.now.opening }
    requires boxed { length boxes.now ≡ workload.now.participants }
    requires workers { AreWorkers workload.now board.now boxes.now cells.now workers.items }
    requires lines { CanBeDone workload.now.participants workload.now.lines.items }
    requires few { length workload.now.lines.items ≤ MAX_LINES }
    ensures { IfOk result (λ home. AllHavePromised workload.now board.now (map (λ worker. worker.doer) workers.entry.items)
        home.seats.items home.answers.items home.tables.items home.watchers.items home.stats.items) }
{
    let marks = Marks::new();
    let shared = Shared {
        marks: &marks,
        board,
        boxes,
        cells,
    };
    let worked = work_all(rt, alloc, shared, gate, workload, workers)?;
    let apart = taken_apart(alloc, worked)?;
    meet_all(alloc, boxes, apart.all_passes)?;
    Ok(apart.home)
}

/// Runs the lines of a workload by its participants, each on a thread of its own, over one board of these heaps, this segment value and
/// these names. Where no thread can be made they work one after another, and may then wait for ever. It is refused where one of them met a
/// refusal of memory, after all came home. Own.
pub fn run_apart<
    'p,
    M: Mapper + Send,
    C: Clock + Send,
    F: Decide + Copy + Drop + Send,
    G: Gate + Sync,
    R: Threads + Wait + Sync,
>(
    rt: &R,
    alloc: Global,
    workload: &Workload<'_>,
    heaps: Vec<Heap>,
    segs: Segs,
    names: Names,
    newcomers: Vec<Newcomer<'p, M, C, F>>,
    gate: &G,
) -> Result<Ended, AllocError>
    requires can { CanBeRun workload.now }
    requires values { AreFirstValues workload.now heaps.items segs names }
    requires count { length newcomers.items ≡ workload.now.participants }
    requires newcomers { (who : ℕ) (doer : ParticipantView) → slice_get newcomers.items who ≡ Some doer → IsNewcomer workload.now who doer }
    ensures { IfOk result (λ ended. ThreadsLeave workload.now newcomers.entry.items ended.answers.items ended.heaps.items ended.segs
        ended.names ended.tables.items ended.watchers.items) }
{
    let Stage {
        board,
        boxes,
        cells,
        seats,
        all_passes,
        stats,
    } = opened(alloc, workload, heaps, segs, names)?;
    let pens = Vec::with_capacity(alloc, MAX_HEAPS)?;
    let workers = seated(alloc, newcomers, seats, all_passes, stats)?;
    let Returned {
        seats,
        answers,
        tables,
        watchers,
        stats,
    } = all_home(rt, alloc, &board, &boxes, &cells, workload, workers, gate)?;
    let answers = woven(alloc, &workload.lines, &answers)?;
    let Closed {
        heaps,
        pens,
        segs,
        names,
    } = board.close(seats, pens);
    count_all(rt, &cells, pens, stats);
    Ok(Ended {
        answers,
        heaps,
        segs,
        names,
        tables,
        watchers,
    })
}
