//! What is done once participant 0 has caught up for a round, or has failed to.
ghost use Rattle.std.specs.Prelude.{◌≡◌, [], IsTrue};
ghost use Rattle.hp_core.specs.Conditions.{HasSpare};
ghost use Rattle.hp_core.specs.Core.{IsDone};
ghost use Rattle.hp_core.specs.Mapped.{alone_by, drop_alone, growth_alone, mapped, other_members, sync_number, synced};
ghost use Rattle.hp_core.specs.Moves.{IsCoreMove, IsRoundMove};
ghost use Rattle.hp_segs.specs.SegsView.{outcome_of, is_member};

use crate::following::{failure_of, note};
use crate::out::Out;
use crate::phase::{Next, Round, RoundKind};
use crate::polling::{cancel, end, grant, is_open_for, roll_back, wait};
use crate::times::Times;
use hp_base::Caught;
use hp_segs::Segs;

// The members of the roster without participant 0: bit p stands for participant p.
fn other_members(segs: &Segs) -> u16
    ensures { result ≡ other_members segs.now }
{
    let members = segs.roster();
    members - members % 2
}

// The number that SYNC has for a round.
fn sync_number(kind: RoundKind) -> u8
    ensures { result ≡ sync_number kind }
{
    match kind {
        RoundKind::Growth => 1,
        RoundKind::Rollback | RoundKind::Drop => 2,
    }
}

// The SYNC of the round goes out, and the round waits.
fn sync(segs: &Segs, round: &Round, now: u64, members: u16) -> Next
    ensures { IsDone segs.now result (synced round.now now members segs.now) }
{
    let out = Out::Sync {
        generation: round.generation,
        round: sync_number(round.kind),
        members,
    };
    wait(round, now, out)
}

// A growth without another member is settled.
fn settle_growth(segs: &mut Segs, round: &Round, caught: &Caught, times: Times) -> Next
    requires spare { HasSpare segs.old }
    requires alone { other_members segs.old ≡ 0 }
    ensures done { IsDone segs.new result (growth_alone round.now caught.now times.present segs.old) }
    ensures moves { IsRoundMove times [] segs.old segs.new }
{
    if !is_open_for(round, segs.growth()) {
        return roll_back(segs, round);
    }
    if let Some(cause) = segs.failed() {
        return cancel(segs, round, cause);
    }
    if failure_of(caught).is_some() {
        return sync(segs, round, times.present, 0);
    }
    grant(segs, round, &[round.generation; 16])
}

// A rollback or a drop without another member ends, where its ask can be answered.
fn settle_drop(segs: &Segs, round: &Round, now: u64) -> Next
    ensures { IsDone segs.now result
        (drop_alone round.now now segs.now (outcome_of segs.now.asks round.now.from round.now.number)) }
{
    match segs.outcome(round.from, round.number) {
        None => sync(segs, round, now, 0),
        Some(_) => end(segs, round),
    }
}

// A round without another member.
fn settle(segs: &mut Segs, round: &Round, caught: &Caught, times: Times) -> Next
    requires spare { HasSpare segs.old }
    requires alone { other_members segs.old ≡ 0 }
    ensures done { IsDone segs.new result (alone_by round.now caught.now times.present segs.old round.now.kind) }
    ensures moves { IsRoundMove times [] segs.old segs.new }
{
    match round.kind {
        RoundKind::Growth => settle_growth(segs, round, caught, times),
        RoundKind::Rollback | RoundKind::Drop => settle_drop(segs, round, times.present),
    }
}

// Participant 0 has caught up for a round, or has failed to.
pub(crate) fn go_on(segs: &mut Segs, round: &Round, caught: &Caught, times: Times) -> Next
    requires spare { HasSpare segs.old }
    ensures done { IsDone segs.new result (mapped round.now caught.now times.present segs.old) }
    ensures moves { IsCoreMove times [] segs.old segs.new }
{
    // That participant 0 is in the roster is handed out with the records.
    let _records = segs.records();
    note(segs, 0, caught);
    let members = other_members(segs);
    if members == 0 {
        settle(segs, round, caught, times)
    } else {
        sync(segs, round, times.present, members)
    }
}
