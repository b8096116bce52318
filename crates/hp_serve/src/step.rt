//! Participant 0 hands its coordinator an event with the segment value, and gives that back.
ghost use Rattle.std.specs.Prelude.{◌≡◌, ◌+◌, ◌≤◌, ◌++◌, List, Some, IfOk, OnErr, OnOk, length};
ghost use Rattle.std.specs.Result.{result_ok};
ghost use Rattle.hp_core.specs.Conditions.{NamesParticipants};
ghost use Rattle.hp_core.specs.Judging.{IsSteppedBy, judged_at};
ghost use Rattle.hp_core.specs.Stepping.{stepped};
ghost use Rattle.hp_hall.specs.Giving.{GivesSegments, Knows};
ghost use Rattle.hp_hall.specs.Mail.{MailStep};
ghost use Rattle.hp_hall.specs.Standings.{LeavesStanding};
ghost use Rattle.hp_log.specs.declared.log_record.LogRecord.{LogRecord};
ghost use Rattle.hp_segs.specs.Sound.{IsSound};
ghost use Rattle.hp_serve.specs.Coordinating.{Hands, IsHanded, IsOutside, IsTrueOf, with_room};
ghost use Rattle.hp_hall.specs.HallState.{Did, Stays, known_to};
ghost use Rattle.hp_serve.specs.SegmentSlot.{FreesSegs, HasSegs, MayHold};

use crate::calls::{give_segments, take_segments};
use hp_base::Judge;
use hp_core::{Coordinator, CoreEvent, Out};
use hp_hall::Hall;
use hp_segs::Segs;
use std::alloc::AllocError;

// Makes places for a step: one for each Retiring run, and three.
fn make_room(segs: &mut Segs) -> Result<(), AllocError>
    ensures ok { OnOk result (segs.new ≡ with_room segs.old) }
    ensures err { OnErr result (segs.new ≡ segs.old) }
{
    let Some(places) = segs.retiring().checked_add(3) else {
        return Err(AllocError);
    };
    segs.reserve_records(places)?;
    Ok(())
}

// A step of the coordinator, with room for it. Where there is no memory for that, nothing changes.
fn step_with_room<J: Judge>(
    core: &mut Coordinator,
    segs: &mut Segs,
    event: CoreEvent,
    judge: &J,
) -> Result<Out, AllocError>
    requires may_ask { J.may_ask judge.now }
    requires names { NamesParticipants event }
    requires sound { IsSound segs.old }
    ensures ok { IfOk result (λ out. IsSteppedBy (J.denies judge.now) (judged_at event core.old (with_room segs.old)) core.new segs.new
        out (λ denial. stepped denial event core.old (with_room segs.old))) }
    ensures err { OnErr result ((core.new ≡ core.old) × (segs.new ≡ segs.old)) }

    // What it leaves may be given back by one that knows what the event tells.
    ensures gives { (knows : Knows) → IsTrueOf knows.noted (length segs.old.log) event
        → GivesSegments knows segs.old segs.new }

    // It leaves what the value has for each heap, the ask of each who is armed, and the roster.
    ensures leaves { LeavesStanding segs.old segs.new }
    ensures roster { segs.new.roster ≡ segs.old.roster }
{
    make_room(segs)?;
    Ok(core.step(segs, event, judge))
}

/// Hands the coordinator an event, with the segment value that participant 0 has taken, and gives the value back as the step leaves
/// it. Without memory for a step, it gives the value back as it was. After handle_request of malloc_mp.c.
pub(crate) fn hand<H: Hall, J: Judge>(
    hall: &mut H,
    core: &mut Coordinator,
    segs: Segs,
    event: CoreEvent,
    judge: &J,
) -> Result<Out, AllocError>
    requires may_ask { J.may_ask judge.now }
    requires has { HasSegs 0 segs (H.state hall.old) }
    requires sound { IsSound segs }
    requires names { NamesParticipants event }
    requires known { IsTrueOf (known_to 0 (H.state hall.old)).noted (length segs.log) event }
    ensures handed { (steps : List MailStep) × Did 0 steps (H.state hall.old) (H.state hall.new)
        × IsHanded (J.denies judge.now) event core.old core.new segs steps (result_ok result) }
    ensures log { (more : List LogRecord) × ((H.state hall.new).seen 0 ≡ segs.log ++ more) }
    ensures measure { (H.state hall.new).measure ≤ (H.state hall.old).measure }
    ensures back { FreesSegs 0 (H.state hall.old) (H.state hall.new) }
    ensures own { (H.state hall.new).own 0 ≡ (H.state hall.old).own 0 }
    ensures goes_on { H.goes_on hall.old hall.new }
{
    let mut segs = segs;
    let answer = step_with_room(core, &mut segs, event, judge);
    give_segments(hall, 0, segs);
    answer
}

/// Takes the segment value, and hands the coordinator an event with it.
pub(crate) fn take_and_hand<H: Hall, J: Judge>(
    hall: &mut H,
    core: &mut Coordinator,
    event: CoreEvent,
    judge: &J,
) -> Result<Out, AllocError>
    requires may_ask { J.may_ask judge.now }
    requires may { MayHold 0 (H.state hall.old) }
    requires names { NamesParticipants event }
    requires outside { IsOutside event }
    requires known { IsTrueOf (known_to 0 (H.state hall.old)).noted 0 event }
    ensures hands { (steps : List MailStep) × Did 0 steps (H.state hall.old) (H.state hall.new)
        × Hands (J.denies judge.now) event core.old core.new steps (result_ok result) }
    ensures measure { (H.state hall.new).measure ≤ (H.state hall.old).measure }
    ensures stays { Stays 0 (H.state hall.old) (H.state hall.new) }
    ensures goes_on { H.goes_on hall.old hall.new }
{
    let segs = take_segments(hall, 0);
    hand(hall, core, segs, event, judge)
}
