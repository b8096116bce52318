//! A step of the coordinator with the segment value in hand, and a failed mapping that is noted in it: what may be given then.
ghost use Rattle.std.specs.Prelude.{◌≡◌, ◌+◌, true, length, IfOk, IfSome, OnErr, OnOk};
ghost use Rattle.hp_core.specs.Conditions.{NamesParticipants};
ghost use Rattle.hp_hall.specs.Giving.{GivesSegments, Knows};
ghost use Rattle.hp_hall.specs.Standings.{LeavesStanding};
ghost use Rattle.hp_segs.specs.SegsView.{is_member};
ghost use Rattle.hp_segs.specs.Sound.{IsSound};
ghost use Rattle.hp_serve.specs.Coordinating.{IsTrueOf, with_room};
ghost use Rattle.test_board.specs.Playing.{IsNotedIn};

use hp_base::{Caught, NoLimits};
use hp_core::{Coordinator, CoreEvent, Out, follow};
use hp_segs::Segs;
use std::alloc::AllocError;

// Makes places for a step: one for each Retiring run, and three.
fn make_room(segs: &mut Segs) -> Result<(), AllocError>
    ensures ok { OnOk result (segs.new ≡ with_room segs.old) }
    ensures err { OnErr result (segs.new ≡ segs.old) }
{
    let Some(places) = segs.retiring().checked_add(3) else {
        return Err(AllocError);
    };
    segs.reserve_records(places)?;
    Ok(())
}

/// Hands the coordinator an event. Without memory for a step, nothing changes.
pub fn step(core: &mut Coordinator, segs: &mut Segs, event: CoreEvent) -> Result<Out, AllocError>
    requires names { NamesParticipants event }
    requires sound { IsSound segs.old }

    // What it leaves may be given by whoever knows what the event tells.
    ensures gives { (knows : Knows) → IsTrueOf knows.noted (length segs.old.log) event
        → GivesSegments knows segs.old segs.new }
    ensures leaves { LeavesStanding segs.old segs.new }
    ensures roster { segs.new.roster ≡ segs.old.roster }
{
    make_room(segs)?;
    Ok(core.step(segs, event, &NoLimits))
}

/// A member notes a mapping that failed, where one did.
pub fn note(segs: &mut Segs, who: u8, caught: &Option<Caught>)
    requires member { is_member segs.old.roster who ≡ true }
    ensures { IsNotedIn segs.old segs.new }
{
    let Some(caught) = caught else {
        return;
    };
    let _ = follow(segs, who, caught);
}
