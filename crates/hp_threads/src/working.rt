//! What a participant does on its thread.
ghost use Rattle.std.specs.Prelude.{◌≡◌, ◌≤◌, ℕ, [], length, IfOk, Ok};
ghost use Rattle.hp_base.specs.declared.limits.TheConstants.{MAX_LINES};
ghost use Rattle.hp_proc.specs.LineInHall.{IsReadyAgain};
ghost use Rattle.hp_serve.specs.Ending.{LeavesTable};
ghost use Rattle.hp_threads.specs.Leaving.{HasWorked, LeavesWatchers};
ghost use Rattle.hp_threads.specs.Workers.{IsWorker, OpensFor};
ghost use Rattle.hp_threads.specs.Working.{CanBeDone, HasDoneOwn, HasWorkedIn};

use crate::adding::Adding;
use crate::answers::Answers;
use crate::doing::do_lines;
use crate::newcomer::Newcomer;
use crate::serving::serve_rest;
use crate::shared::Shared;
use crate::worker::Worker;
use hp_base::{Clock, Gate, Mapper};
use hp_board::Seat;
use hp_chair::{BoardHall, Marks};
use hp_events::Watchers;
use hp_mail::Pass;
use hp_maps::Table;
use hp_proc::Participant;
use hp_script::Workload;
use hp_serve::{Decide, End};
use hp_stats::StatPass;
use std::alloc::{AllocError, Global};
use std::sync::Wait;

/// What a participant has done, where nothing was refused it: the answers of its lines, its table, and its watchers.
#[derive(Drop)]
pub struct Done {
    pub answers: Answers,
    pub table: Table,
    pub watchers: Watchers,
}

/// What comes home from a thread: the seat, the passes, and what the participant has done, where it has not met a refusal of memory.
#[derive(Drop)]
pub struct Worked {
    pub seat: Seat,
    pub passes: Vec<Pass>,
    pub stats: StatPass,
    pub done: Option<Done>,
}

// It has done its lines, or was refused memory.
fn finish(marks: &Marks, stopped: bool) {
    if stopped {
        marks.stop();
    }
    marks.finish();
}

// It does its lines, and then serves until all have finished. Returned are its answers.
fn do_all<H: Adding, M: Mapper, F: Decide + Copy + Drop, G: Gate, R: Wait>(
    rt: &R,
    alloc: Global,
    shared: Shared<'_>,
    gate: &G,
    hall: &mut H,
    participant: &mut Participant<'_, M, F>,
    workload: &Workload<'_>,
) -> Result<Answers, AllocError>
    requires first { HasWorkedIn workload.now participant.old.party.me [] participant.old participant.old (H.state hall.old) }
    requires lines { CanBeDone workload.now.participants workload.now.lines.items }
    requires few { length workload.now.lines.items ≤ MAX_LINES }
    ensures again { IsReadyAgain participant.old.party.me participant.old participant.new (H.state hall.new) }
    ensures done { IfOk result (λ answers. HasDoneOwn workload.now participant.old.party.me workload.now.lines.items answers
        participant.old participant.new (H.state hall.new)) }
    ensures goes_on { H.goes_on hall.old hall.new }
{
    let mut answers = Answers::new(alloc);
    let done = do_lines(rt, gate, hall, participant, workload, &mut answers);
    finish(shared.marks, done.is_err());
    let count = shared.boxes.len() as u64;
    let stopped = serve_rest(rt, shared.marks, count, hall, participant);
    done?;
    if stopped {
        return Err(AllocError);
    }
    Ok(answers)
}

// It hands out what it leaves, where it was refused nothing.
fn brought_home<M: Mapper, F: Decide + Copy + Drop>(
    alloc: Global,
    answers: Result<Answers, AllocError>,
    participant: Participant<'_, M, F>,
) -> Result<Done, AllocError>
    ensures answers { IfOk result (λ done. answers ≡ Ok done.answers) }
    ensures table { IfOk result (λ done. LeavesTable participant.entry.party done.table) }
    ensures watchers { IfOk result (λ done. LeavesWatchers participant.entry done.watchers) }
{
    let answers = answers?;
    let (judged, _) = participant.into_parts();
    let End { table, watchers } = Box::into_inner(judged).server.end(alloc)?;
    Ok(Done {
        answers,
        table,
        watchers,
    })
}

/// What a participant does on its thread: its own of the lines, before each of which it serves until the gate lets it, and then it serves
/// until all have finished.
pub fn work<'p, M: Mapper, C: Clock, F: Decide + Copy + Drop, G: Gate, R: Wait>(
    rt: &R,
    alloc: Global,
    shared: Shared<'_>,
    gate: &G,
    workload: &Workload<'_>,
    worker: Worker<'p, M, C, F>,
) -> Worked
    requires opened { OpensFor workload.now shared.board.now.opening }
    requires worker { (who : ℕ) × IsWorker workload.now shared.board.now shared.boxes.now shared.cells.now who worker }
    requires lines { CanBeDone workload.now.participants workload.now.lines.items }
    requires few { length workload.now.lines.items ≤ MAX_LINES }
    ensures { HasWorked workload.now worker.entry result }
{
    let Worker {
        newcomer,
        seat,
        passes,
        stats,
    } = worker;
    let Newcomer {
        judged,
        context,
        clock,
    } = newcomer;
    let mut participant = Participant::new(judged, context);
    let Shared {
        marks,
        board,
        boxes,
        cells,
    } = shared;
    let mut hall = BoardHall::new(rt, marks, board, boxes, cells, seat, passes, stats, clock);
    let answers = do_all(
        rt,
        alloc,
        shared,
        gate,
        &mut hall,
        &mut participant,
        workload,
    );
    let done = brought_home(alloc, answers, participant).ok();
    let (seat, passes, stats) = hall.into_parts();
    Worked {
        seat,
        passes,
        stats,
        done,
    }
}
