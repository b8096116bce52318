//! A call each: its condition is looked at when it runs, and it is false where that is not so.
ghost use Rattle.std.specs.Prelude.{◌≡◌, ◌*◌, ◌^◌, ◌<◌, ◌≤◌, true, IfSome};
ghost use Rattle.hp_segs.specs.Calls.{IsCloseCause, IsDenial, IsRefusalOf, IsUnnotedGrowth};
ghost use Rattle.hp_segs.specs.Plan.{plan_of};

use super::seen::{End, end_for};
use super::taking::{Wants, ask_for, ask_with, give_up, open, take};
use super::{FIRST_ROW, PAGE};
use hp_base::{MapAnswer, Name, Run};
use hp_segs::{Ask, Cause, Closing, NotAll, PlanRefusal, Segs};
use std::test::Fail;

pub fn arm(segs: &mut Segs, number: u64) -> Result<bool, Fail> {
    if segs.growth().is_some() {
        return Ok(false);
    }
    segs.arm(&ask_for(number)?)?;
    Ok(true)
}

pub fn open_for(segs: &mut Segs, number: u64) -> Result<Run, Fail> {
    open(segs, &ask_for(number)?)
}

pub fn take_for(segs: &mut Segs, number: u64) -> Result<Run, Fail> {
    take(segs, &ask_for(number)?)
}

pub fn give_up_for(segs: &mut Segs, number: u64) -> Result<Run, Fail> {
    give_up(segs, &ask_for(number)?)
}

// Whether a growth is open for which no failure is noted.
fn is_unnoted(segs: &Segs) -> bool
    ensures { result ≡ true → IsUnnotedGrowth segs.now }
{
    segs.growth().is_some() && segs.failed().is_none()
}

pub fn agree(segs: &mut Segs, first: u64, second: u64) -> Result<Option<NotAll>, Fail> {
    segs.reserve_records(1)?;
    if !is_unnoted(segs) {
        return Err("a growth without a failure".into());
    }
    let mut acks = [0; 16];
    acks[0] = first;
    acks[1] = second;
    Ok(segs.agree(&acks).err())
}

// Participant 1 was waited for from 0 to 200 ms.
const LATE: Cause = Cause::Late {
    participant: 1,
    from: 0,
    to: 200,
};

pub fn cancel(segs: &mut Segs) -> Result<bool, Fail> {
    segs.reserve_records(2)?;
    if let Some(cause) = segs.failed() {
        segs.cancel(cause);
        return Ok(true);
    }
    if segs.is_member(1) {
        if is_unnoted(segs) {
            segs.cancel(LATE);
            return Ok(true);
        }
    }
    Ok(false)
}

pub fn drop_all(segs: &mut Segs) -> Result<u64, Fail> {
    let runs = segs.retiring();
    segs.reserve_records(runs)?;
    if segs.growth().is_some() {
        return Err("no growth".into());
    }
    Ok(segs.drop_retiring())
}

// How the ask of that number ended, unless it was granted.
pub fn take_back(segs: &mut Segs, number: u64) -> Result<Option<End>, Fail> {
    let Some(ask) = segs.armed(0) else {
        return Err("an armed ask".into());
    };
    if ask.number != number {
        return Err("an ask of that number".into());
    }
    match segs.withdraw(0, number, 10, 40) {
        Closing::Granted => Ok(None),
        Closing::Withdrawn => Ok(Some(End::Withdrawn(10, 40))),
        Closing::Refused { cause } => Ok(Some(end_for(&cause))),
    }
}

pub fn log_stale(segs: &mut Segs, number: u64) -> Result<bool, Fail> {
    segs.reserve_records(1)?;
    if segs.closed(0) < number {
        return Ok(false);
    }
    segs.log_stale(0, number);
    Ok(true)
}

pub fn log_freed(segs: &mut Segs, number: u64) -> Result<bool, Fail> {
    segs.reserve_records(1)?;
    if number <= segs.closed(0) {
        return Ok(false);
    }
    segs.log_freed(0, number);
    Ok(true)
}

pub fn note(segs: &mut Segs, call: u64) -> Result<bool, Fail> {
    if !segs.is_member(1) {
        return Err("a member".into());
    }
    Ok(segs.note_failed(1, call, &FIRST_ROW, MapAnswer::Refused))
}

pub fn join(segs: &mut Segs, participant: u8) -> bool {
    if participant >= 16 {
        return false;
    }
    if segs.is_member(participant) {
        return false;
    }
    let acked = segs.records().len() as u64;
    segs.join_roster(participant, acked);
    true
}

pub fn leave(segs: &mut Segs, participant: u8) -> bool {
    if participant == 0 {
        return false;
    }
    if participant >= 16 {
        return false;
    }
    if !segs.is_member(participant) {
        return false;
    }
    segs.leave_roster(participant);
    true
}

pub fn refusal_of(segs: &Segs, number: u64, wants: Wants) -> Result<Option<PlanRefusal>, Fail> {
    let ask = ask_with(number, wants)?;
    Ok(segs.plan_run(&ask).err())
}

// The cause of a refused plan.
fn cause_of(refusal: PlanRefusal) -> Option<Cause>
    ensures { IfSome result (IsRefusalOf refusal) }
{
    match refusal {
        PlanRefusal::StaleAsk { .. } => None,
        PlanRefusal::GrowthOpen { .. } => None,
        PlanRefusal::NoList => Some(Cause::NoList),
        PlanRefusal::TooFew { have, need } => Some(Cause::TooFew { have, need }),
        PlanRefusal::ListFull { longest, need } => Some(Cause::ListFull { longest, need }),
        PlanRefusal::CannotHold { addr, len } => Some(Cause::CannotHold { addr, len }),
    }
}

// A validator that allows no byte denies a run.
fn denial(segs: &Segs, ask: &Ask, run: &Run) -> Option<Cause>
    requires { run.now.count * run.now.page ≤ 2 ^ 47 }
    ensures { IfSome result (IsDenial ask.now run.now segs.now) }
{
    let validator = Name::new(b"no_byte")?;
    let total = segs.total_of(ask.socket) + u64::from(run.count) * run.page;
    if total == 0 {
        return None;
    }
    if segs.retiring() > 0 {
        return None;
    }
    Some(Cause::Denied {
        validator,
        limit: 0,
        total,
    })
}

// The cause with which an ask is closed.
fn cause_for(segs: &Segs, ask: &Ask) -> Option<Cause>
    requires { ask.now.from < 16 }
    ensures { IfSome result (λ cause. IsCloseCause ask.now segs.now cause (plan_of ask.now segs.now)) }
{
    match segs.plan_run(ask) {
        Ok(run) => denial(segs, ask, &run),
        Err(refusal) => cause_of(refusal),
    }
}

pub fn close(segs: &mut Segs, number: u64, wants: Wants) -> Result<bool, Fail> {
    let ask = ask_with(number, wants)?;
    segs.reserve_records(1)?;
    if segs.growth().is_some() {
        return Ok(false);
    }
    if ask.number <= segs.closed(0) {
        return Ok(false);
    }
    let Some(cause) = cause_for(segs, &ask) else {
        return Ok(false);
    };
    segs.close_ask(&ask, cause);
    Ok(true)
}

pub fn claim_and_release(segs: &mut Segs, addr: u64, len: u64, socket: u32) -> bool {
    match segs.claim_range(addr, len, PAGE, socket) {
        Err(_) => false,
        Ok(list) => {
            segs.release_range(list);
            true
        }
    }
}
