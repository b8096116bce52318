//! A call each: its condition is looked at when it runs, and it fails where that is not so.
ghost use Rattle.std.specs.Prelude.{◌≡◌, ◌<◌, IfOk};
ghost use Rattle.hp_core.specs.Conditions.{NamesParticipants};

use super::PAGE;
use super::outs::NONE;
use hp_base::{Caught, Judge, NoLimits, Request, Row};
use hp_core::{Coordinator, CoreEvent, Out, follow};
use hp_frame::Body;
use hp_segs::{Ask, Segs};
use std::test::Fail;

/// An ask for a page.
pub fn ask_of(from: u8, number: u64) -> Result<Ask, Fail>
    requires { from < 16 }
    ensures { IfOk result (λ ask. ask.from ≡ from) }
{
    let request = Request::new(1000, 0, 0, 0).ok().ok_or("a good request")?;
    Ok(Ask {
        from,
        number,
        heap: 3,
        socket: 0,
        page: PAGE,
        request,
    })
}

// The row of the open growth.
fn growth_row(segs: &Segs) -> Result<Row, Fail> {
    let Some(growth) = segs.growth() else {
        return Err("an open growth".into());
    };
    Ok(Row {
        addr: growth.run.addr,
        page: growth.run.page,
        socket: growth.run.socket,
        list: growth.run.list,
        slot: growth.run.first,
        generation: growth.generation,
    })
}

/// One event of the coordinator, where that judge is asked.
pub fn step_with<J: Judge>(
    core: &mut Coordinator,
    segs: &mut Segs,
    event: CoreEvent,
    judge: &J,
) -> Result<Out, Fail>
    requires event { NamesParticipants event }
    requires judge { J.may_ask judge.now }
{
    let Some(places) = segs.retiring().checked_add(3) else {
        return Err("few runs".into());
    };
    segs.reserve_records(places)?;
    Ok(core.step(segs, event, judge))
}

fn step(core: &mut Coordinator, segs: &mut Segs, event: CoreEvent) -> Result<Out, Fail>
    requires { NamesParticipants event }
{
    step_with(core, segs, event, &NoLimits)
}

pub fn grow(core: &mut Coordinator, segs: &mut Segs, from: u8, number: u64) -> Result<Out, Fail> {
    if from >= 16 {
        return Err("a participant".into());
    }
    let ask = ask_of(from, number)?;
    step(core, segs, CoreEvent::Grow { ask })
}

pub fn shrink(core: &mut Coordinator, segs: &mut Segs, from: u8, number: u64) -> Result<Out, Fail> {
    if from >= 16 {
        return Err("a participant".into());
    }
    step(core, segs, CoreEvent::Shrink { from, number })
}

pub fn mapped(
    core: &mut Coordinator,
    segs: &mut Segs,
    caught: Caught,
    now: u64,
) -> Result<Out, Fail> {
    step(core, segs, CoreEvent::SelfMapped { caught, now })
}

/// Participant 0's mapping of the growth's row was refused.
pub fn failed(core: &mut Coordinator, segs: &mut Segs, now: u64) -> Result<Out, Fail> {
    let row = growth_row(segs)?;
    mapped(core, segs, Caught::Refused { row, call: 1 }, now)
}

pub fn poll(
    core: &mut Coordinator,
    segs: &mut Segs,
    now: u64,
    acks: [u64; 16],
) -> Result<Out, Fail> {
    step(core, segs, CoreEvent::Poll { now, acks })
}

pub fn arm(segs: &mut Segs, from: u8, number: u64) -> Result<Out, Fail> {
    if from >= 16 {
        return Err("a participant".into());
    }
    if segs.growth().is_some() {
        return Err("no open growth".into());
    }
    segs.arm(&ask_of(from, number)?)?;
    Ok(Out::Nothing)
}

pub fn take_back(segs: &mut Segs, from: u8, number: u64) -> Result<Out, Fail> {
    if from >= 16 {
        return Err("a participant".into());
    }
    let Some(ask) = segs.armed(from) else {
        return Err("an armed ask".into());
    };
    if ask.number != number {
        return Err("an ask of that number".into());
    }
    segs.withdraw(from, number, 0, 600);
    Ok(Out::Nothing)
}

/// What a member replies that has caught up, or failed to.
pub fn reply(segs: &mut Segs, who: u8, caught: Caught) -> Result<Body, Fail> {
    if who >= 16 {
        return Err("a participant".into());
    }
    if !segs.is_member(who) {
        return Err("a member".into());
    }
    // That the value is sound is handed out with its records.
    let _records = segs.records();
    Ok(follow(segs, who, &caught))
}

/// A mapping of the lowest member that is not participant 0 is refused, and it replies.
pub fn refuse(segs: &mut Segs, call: u64) -> Result<Out, Fail> {
    let row = growth_row(segs)?;
    let mut acks = NONE;
    acks[0] = 1;
    let Some(member) = segs.lowest_behind(&acks, 1) else {
        return Err("another member".into());
    };
    reply(segs, member.participant, Caught::Refused { row, call })?;
    Ok(Out::Nothing)
}
