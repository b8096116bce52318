//! What participants do in a run: their lines, and what comes after the last one.
ghost use Rattle.std.specs.Prelude.{◌≡◌, ◌+◌, ◌^◌, ◌<◌, ◌≤◌, ◌++◌, Bool, List, [], IfOk, OnOk, false, length, take};
ghost use Rattle.hp_base.specs.declared.limits.TheConstants.{MAX_LINES};
ghost use Rattle.hp_hall.specs.HallState.{Did};
ghost use Rattle.hp_proc.specs.Contexts.{IsNextLine};
ghost use Rattle.hp_proc.specs.LineInHall.{IsReadyAgain, IsReadyIn, MayDoLine, moment};
ghost use Rattle.hp_proc.specs.Progress.{DoesLine};
ghost use Rattle.hp_script.specs.declared.answer.Answer.{Answer};
ghost use Rattle.hp_script.specs.declared.line.Line.{Line};
ghost use Rattle.hp_script.specs.declared.workload.Workload.{Workload};
ghost use Rattle.hp_solo.specs.Draining.{IsDrained};
ghost use Rattle.hp_solo.specs.Solo.{has_stopped};
ghost use Rattle.hp_solo.specs.SoloCourse.{IsSoloCourse};
ghost use Rattle.hp_solo.specs.SoloState.{solo_state};
ghost use Rattle.thm_run.specs.EndLaws.{tells_one_more};
ghost use Rattle.hp_run.specs.AnswersKept.{counts_so_far};
ghost use Rattle.hp_run.specs.Running.{CanGoOn, FailAsBefore, HaveDoneLines, IsRunnable};

use crate::contexts::Contexts;
use crate::told::Told;
use hp_base::Mapper;
use hp_hall::Hall;
use hp_proc::Participant;
use hp_script::{Answer, Line, Workload};
use hp_serve::Decide;
use hp_solo::SoloHall;
use std::alloc::{AllocError, Global};
use thm_causes::{catch_up_law, in_time_law};
use thm_run::{counted_law, drops_law, judged_law, line_law, shown_law, watch_law};

/// The participants do the lines of their workload one after another, in file order. Returned are the answers, which are kept, or only
/// counted. It is refused where any participant has run out of memory. Own.
pub fn do_lines<'p, M: Mapper, F: Decide + Copy + Drop>(
    alloc: Global,
    workload: &Workload<'_>,
    contexts: Contexts<'p>,
    hall: &mut SoloHall<'p, M, F>,
    counting: bool,
) -> Result<Told, AllocError>
    requires runnable { IsRunnable workload.now }
    requires first { CanGoOn workload.now [] [] contexts hall.old }
    ensures done { IfOk result (λ answers. HaveDoneLines workload.now workload.now.lines.items answers.items hall.new) }
    ensures counts { IfOk result (λ answers. answers.counts ≡ counts_so_far counting workload.now.lines.items answers.items) }
    ensures may_fail { OnOk result (FailAsBefore hall.old.servers hall.new.servers) }
{
    let mut contexts = contexts;
    let mut answers = first_told(alloc, workload.lines.len(), counting)?;
    for place in 0..workload.lines.len() {
        do_next(workload, place, &mut contexts, hall, &mut answers)?;
    }
    Ok(answers)
}

// No answer yet.
fn first_told(alloc: Global, room: usize, counting: bool) -> Result<Told, AllocError>
    ensures items { IfOk result (λ told. told.items ≡ []) }
    ensures counts { IfOk result (λ told. told.counts ≡ counts_so_far counting [] []) }
{
    if counting {
        Ok(Told::counted())
    } else {
        Ok(Told::kept(alloc, room)?)
    }
}

// The participant of the line at a place leaves its own place with what it knows, does the line, while the others serve whenever it waits,
// and comes back. Its answer is the next one.
fn do_next<'p, M: Mapper, F: Decide + Copy + Drop>(
    workload: &Workload<'_>,
    place: usize,
    contexts: &mut Contexts<'p>,
    hall: &mut SoloHall<'p, M, F>,
    answers: &mut Told,
) -> Result<(), AllocError>
    requires runnable { IsRunnable workload.now }
    requires within { place < length workload.now.lines.items }
    requires so_far { CanGoOn workload.now (take place workload.now.lines.items) answers.old.items contexts.old hall.old }
    ensures done { OnOk result
        (CanGoOn workload.now (take (place + 1) workload.now.lines.items) answers.new.items contexts.new hall.new) }
    ensures counts { OnOk result ((counting : Bool)
        → answers.old.counts ≡ counts_so_far counting (take place workload.now.lines.items) answers.old.items
        → answers.new.counts ≡ counts_so_far counting (take (place + 1) workload.now.lines.items) answers.new.items) }
    ensures may_fail { OnOk result (FailAsBefore hall.old.servers hall.new.servers) }
{
    hall.plain_sound();
    let line = &workload.lines[place];
    let who = line.participant;
    let Some(judged) = hall.away(who) else {
        unreachable!();
    };
    let Some(context) = contexts.take(who) else {
        unreachable!();
    };
    // What holds of all watchers between two lines: it knows the names of its own.
    watch_law();
    let mut participant = Participant::new(judged, context);
    let answer = do_told(hall, &mut participant, line);
    let (judged, context) = participant.into_parts();
    hall.back(judged);
    contexts.put(who, context);
    all_going(hall)?;
    answers.push(&line.act, answer?)?;
    // What holds of every such hall, and of every line more.
    hall.sound();
    line_law();
    drops_law();
    shown_law();
    judged_law();
    counted_law();
    catch_up_law();
    in_time_law();
    Ok(())
}

// It does a line, and tells that one of its lines more is done then.
fn do_told<'p, M: Mapper, F: Decide + Copy + Drop>(
    hall: &mut SoloHall<'p, M, F>,
    participant: &mut Participant<'p, M, F>,
    line: &Line<'_>,
) -> Result<Answer, AllocError>
    requires own { line.now.participant ≡ participant.old.party.me }
    requires next { IsNextLine participant.old.context line.now }
    requires may { MayDoLine participant.old.party.me 1 line.now.act (solo_state hall.old) }
    requires ready { IsReadyIn participant.old.party.me participant.old (solo_state hall.old) }
    requires few { (solo_state hall.old).lines participant.old.party.me < MAX_LINES }
    ensures does { IfOk result (λ given. DoesLine (solo_state hall.old).count
        (λ steps. Did participant.old.party.me (steps ++ tells_one_more participant.old.party.me
        ((solo_state hall.old).lines participant.old.party.me)) (solo_state hall.old) (solo_state hall.new)) line.now given
        (moment participant.old.party.me participant.old (solo_state hall.old))
        (moment participant.old.party.me participant.new (solo_state hall.new))) }
    ensures lines { OnOk result ((solo_state hall.new).lines participant.old.party.me
        ≡ (solo_state hall.old).lines participant.old.party.me + 1) }
    ensures clock { (solo_state hall.new).clock ≤ (solo_state hall.old).clock + 2 ^ 40 }
    ensures ready { IsReadyAgain participant.old.party.me participant.old participant.new (solo_state hall.new) }
    ensures goes_on { IsSoloCourse hall.old hall.new }
{
    let answer = participant.do_line(hall, line)?;
    let who = line.participant;
    let done = hall.load_done(who, who);
    hall.store_done(who, done + 1);
    Ok(answer)
}

/// After the last line all serve on, until nothing is left for any of them. It is refused where one of them has run out of memory. Own.
pub fn do_rest<M: Mapper, F: Decide + Copy + Drop>(
    hall: &mut SoloHall<'_, M, F>,
) -> Result<(), AllocError>
    requires so_far { (workload : Workload) × (lines : List Line) × (answers : List Answer) × IsRunnable workload
        × HaveDoneLines workload lines answers hall.old }
    ensures drained { OnOk result (IsDrained hall.new) }
    ensures done { OnOk result ((workload : Workload) (lines : List Line) (answers : List Answer) → IsRunnable workload
        → HaveDoneLines workload lines answers hall.old → HaveDoneLines workload lines answers hall.new) }
    ensures may_fail { OnOk result (FailAsBefore hall.old.servers hall.new.servers) }
{
    hall.drain();
    all_going(hall)?;
    hall.sound();
    line_law();
    drops_law();
    shown_law();
    judged_law();
    in_time_law();
    Ok(())
}

// It is refused where a participant has run out of memory.
fn all_going<M: Mapper, F: Decide + Copy + Drop>(
    hall: &SoloHall<'_, M, F>,
) -> Result<(), AllocError>
    ensures { OnOk result (has_stopped hall.now.servers ≡ false) }
{
    if hall.has_stopped() {
        return Err(AllocError);
    }
    Ok(())
}
