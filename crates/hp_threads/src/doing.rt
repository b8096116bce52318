//! The lines of one participant, in their order.
ghost use Rattle.std.specs.Prelude.{◌≡◌, ◌+◌, ◌≤◌, ℕ, [], length, IfOk, OnOk};
ghost use Rattle.hp_base.specs.declared.limits.TheConstants.{MAX_LINES};
ghost use Rattle.hp_proc.specs.LineInHall.{IsReadyAgain};
ghost use Rattle.hp_threads.specs.Working.{CanBeDone, CanDoNext, HasDoneOwn, HasWorkedIn, WorksOneMore};

use crate::adding::Adding;
use crate::answers::Answers;
use crate::serving::await_gate;
use hp_base::{Gate, Mapper};
use hp_proc::Participant;
use hp_script::{Answer, Line, Workload};
use hp_serve::Decide;
use std::alloc::AllocError;
use std::sync::Wait;

// It does a line, and tells that so many of its lines are done then.
fn do_told<H: Adding, M: Mapper, F: Decide + Copy + Drop>(
    hall: &mut H,
    participant: &mut Participant<'_, M, F>,
    line: &Line<'_>,
    done: u32,
) -> Result<Answer, AllocError>
    requires can { CanDoNext line.now done participant.old (H.state hall.old) }
    ensures again { IsReadyAgain participant.old.party.me participant.old participant.new (H.state hall.new) }
    ensures does { IfOk result (λ given. (lines : ℕ) → lines + 1 ≡ done
        → WorksOneMore line.now given lines participant.old participant.new (H.state hall.old) (H.state hall.new)) }
    ensures goes_on { H.goes_on hall.old hall.new }
{
    let answer = participant.do_line(hall, line)?;
    let who = participant.server().number();
    hall.store_done(who, done);
    Ok(answer)
}

// It does its next line, once the gate lets it.
fn do_next<H: Adding, M: Mapper, F: Decide + Copy + Drop, G: Gate, R: Wait>(
    rt: &R,
    gate: &G,
    hall: &mut H,
    participant: &mut Participant<'_, M, F>,
    line: &Line<'_>,
    done: u32,
) -> Result<Answer, AllocError>
    requires can { CanDoNext line.now done participant.old (H.state hall.old) }
    ensures again { IsReadyAgain participant.old.party.me participant.old participant.new (H.state hall.new) }
    ensures does { IfOk result (λ given. (lines : ℕ) → lines + 1 ≡ done
        → WorksOneMore line.now given lines participant.old participant.new (H.state hall.old) (H.state hall.new)) }
    ensures goes_on { H.goes_on hall.old hall.new }
{
    await_gate(rt, gate, hall, participant, line.line)?;
    do_told(hall, participant, line, done)
}

/// It does its own of the lines, one after another.
pub fn do_lines<H: Adding, M: Mapper, F: Decide + Copy + Drop, G: Gate, R: Wait>(
    rt: &R,
    gate: &G,
    hall: &mut H,
    participant: &mut Participant<'_, M, F>,
    workload: &Workload<'_>,
    answers: &mut Answers,
) -> Result<(), AllocError>
    requires first { HasWorkedIn workload.now participant.old.party.me [] participant.old participant.old (H.state hall.old) }
    requires lines { CanBeDone workload.now.participants workload.now.lines.items }
    requires few { length workload.now.lines.items ≤ MAX_LINES }
    requires none { answers.old ≡ [] }
    ensures again { IsReadyAgain participant.old.party.me participant.old participant.new (H.state hall.new) }
    ensures done { OnOk result (HasDoneOwn workload.now participant.old.party.me workload.now.lines.items answers.new
        participant.old participant.new (H.state hall.new)) }
    ensures goes_on { H.goes_on hall.old hall.new }
{
    let who = participant.server().number();
    let lines = workload.lines.as_slice();
    let mut done = 0;
    for line in lines {
        if line.participant == who {
            done += 1;
            let answer = do_next(rt, gate, hall, participant, line, done)?;
            answers.push(answer)?;
        }
    }
    Ok(())
}
