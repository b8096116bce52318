//! Segments, made by what becomes of asks: growths that are granted or fail, refusals, and pages that go back.
ghost use Rattle.std.specs.Prelude.{◌≡◌, ◌<◌, None, Ok, IfOk, IfSome, IsTrue};
ghost use Rattle.hp_segs.specs.Calls.{IsRefusalOf, IsUnclaimedGrant, OwnsRun};
ghost use Rattle.hp_segs.specs.LaterSteps.{is_failure};
ghost use Rattle.hp_segs.specs.Plan.{plan_of};
ghost use Rattle.hp_segs.specs.SegsView.{closed_number};
ghost use Rattle.hp_segs.specs.Steps.{after_claim, after_open, after_reserve};

use hp_base::{MapAnswer, Name, Request, Row, Run};
use hp_segs::{Ask, Cause, PlanRefusal, Segs};
use std::test::Fail;

// What an ask asks for: memory for a heap, in pages of a socket.
#[derive(Clone, Copy)]
pub struct Asked {
    pub heap: u32,
    pub socket: u32,
    pub page: u64,
    pub size: u64,
    pub align: u64,
}

// What becomes of an ask.
#[derive(Clone, Copy)]
pub enum Turn {
    // It is refused by its plan, or by a validator with a limit.
    Refuse,
    Deny {
        limit: u64,
    },
    // Its growth is open, and stays so, is granted, or is granted and taken by the heap, which gives it up again.
    Open,
    Grant,
    Take,
    Retire,
    // Its growth fails: a participant cannot map its first row by that call, or its own participant is late.
    Fail {
        participant: u8,
        call: u64,
        got: MapAnswer,
    },
    Late {
        to: u64,
    },
    // It is taken back.
    Withdraw {
        to: u64,
    },
    // It is closed already, or is a notice that memory went back; or pages that were given up go.
    Stale,
    Freed,
    Drop,
}

// The cause of a refused plan, where it is one of its pages and slots.
fn cause_of(refusal: &PlanRefusal) -> Option<Cause>
    ensures { IfSome result (IsRefusalOf refusal.now) }
{
    match *refusal {
        PlanRefusal::NoList => Some(Cause::NoList),
        PlanRefusal::TooFew { have, need } => Some(Cause::TooFew { have, need }),
        PlanRefusal::ListFull { longest, need } => Some(Cause::ListFull { longest, need }),
        PlanRefusal::CannotHold { addr, len } => Some(Cause::CannotHold { addr, len }),
        PlanRefusal::StaleAsk { .. } | PlanRefusal::GrowthOpen { .. } => None,
    }
}

// Whether an ask is not closed, and no growth is open.
fn is_open(segs: &Segs, ask: &Ask) -> bool
    requires { ask.now.from < 16 }
    ensures above { IsTrue result → closed_number segs.now.asks ask.now.from < ask.now.number }
    ensures alone { IsTrue result → segs.now.growth ≡ None }
{
    segs.closed(ask.from) < ask.number && segs.growth().is_none()
}

// Refuses an ask for the reason for which no run is planned.
fn refuse(segs: &mut Segs, ask: &Ask) -> Result<(), Fail>
    requires { ask.now.from < 16 }
{
    segs.reserve_records(1)?;
    let Err(refusal) = segs.plan_run(ask) else {
        return Err("a refusal".into());
    };
    let Some(cause) = cause_of(&refusal) else {
        return Err("a cause".into());
    };
    if !is_open(segs, ask) {
        return Err("an open ask".into());
    }
    segs.close_ask(ask, cause);
    Ok(())
}

// The name of a validator.
fn validator() -> Result<Name, Fail> {
    match Name::new(b"cap") {
        Some(name) => Ok(name),
        None => Err("a name".into()),
    }
}

// A validator with a limit denies the run that is planned for an ask.
fn deny(segs: &mut Segs, ask: &Ask, limit: u64) -> Result<(), Fail>
    requires { ask.now.from < 16 }
{
    let validator = validator()?;
    segs.reserve_records(1)?;
    let Ok(run) = segs.plan_run(ask) else {
        return Err("a planned run".into());
    };
    let total = segs.total_of(ask.socket) + u64::from(run.count) * run.page;
    if segs.retiring() > 0 || total <= limit || !is_open(segs, ask) {
        return Err("a run that is denied".into());
    }
    segs.close_ask(
        ask,
        Cause::Denied {
            validator,
            limit,
            total,
        },
    );
    Ok(())
}

// Opens the growth of an ask.
fn open(segs: &mut Segs, ask: &Ask) -> Result<Run, Fail>
    requires { ask.now.from < 16 }
    ensures plan { IfOk result (λ run. plan_of ask.now (after_reserve 3 segs.old) ≡ Ok run) }
    ensures step { IfOk result (λ run. segs.new ≡ after_open ask.now run (after_reserve 3 segs.old)) }
{
    segs.reserve_records(3)?;
    let Ok(run) = segs.plan_run(ask) else {
        return Err("a planned run".into());
    };
    segs.open_run(ask, &run);
    Ok(run)
}

// Opens the growth of an ask, and all acknowledge it.
fn grant(segs: &mut Segs, ask: &Ask) -> Result<Run, Fail>
    requires { ask.now.from < 16 }
    ensures unclaimed { IfOk result (λ run. IsUnclaimedGrant ask.now.from ask.now.number segs.new) }
    ensures owned { IfOk result (λ run. OwnsRun ask.now.heap run
        (after_claim ask.now.from ask.now.number segs.new)) }
{
    let run = open(segs, ask)?;
    if segs.agree(&[u64::MAX; 16]).is_err() {
        return Err("a grant".into());
    }
    // That the value is sound is handed out with its records.
    let _records = segs.records();
    Ok(run)
}

// The heap of an ask takes the run that is granted for it.
fn take(segs: &mut Segs, ask: &Ask) -> Result<Run, Fail>
    requires { ask.now.from < 16 }
    ensures { IfOk result (λ run. OwnsRun ask.now.heap run segs.new) }
{
    let run = grant(segs, ask)?;
    segs.claim(ask.from, ask.number);
    Ok(run)
}

// Gives the granted run up.
fn retire(segs: &mut Segs, ask: &Ask) -> Result<(), Fail>
    requires { ask.now.from < 16 }
{
    let run = take(segs, ask)?;
    segs.retire(ask.heap, &run);
    Ok(())
}

// The runs that were given up go.
fn drop_retiring(segs: &mut Segs) -> Result<(), Fail> {
    if segs.growth().is_some() {
        return Err("no open growth".into());
    }
    segs.reserve_records(segs.retiring())?;
    segs.drop_retiring();
    Ok(())
}

// Whether the answer to a mapping of a row is a failure.
fn is_failure(row: &Row, got: MapAnswer) -> bool
    ensures { result ≡ is_failure row.now got }
{
    match got {
        MapAnswer::Refused => true,
        MapAnswer::At { addr, page, socket } => {
            !(addr == row.addr && page == row.page && socket == row.socket)
        }
    }
}

// The growth of an ask fails, since a participant cannot map its first row.
fn fail(segs: &mut Segs, ask: &Ask, participant: u8, call: u64, got: MapAnswer) -> Result<(), Fail>
    requires { ask.now.from < 16 }
{
    let run = open(segs, ask)?;
    let row = Row {
        addr: run.addr,
        page: run.page,
        socket: run.socket,
        list: run.list,
        slot: run.first,
        generation: segs.records().len() as u64,
    };
    if participant >= 16 || !segs.is_member(participant) || !is_failure(&row, got) {
        return Err("a member that fails".into());
    }
    segs.note_failed(participant, call, &row, got);
    let Some(cause) = segs.failed() else {
        return Err("a noted failure".into());
    };
    segs.cancel(cause);
    Ok(())
}

// The growth of an ask fails, since its own participant is late.
fn be_late(segs: &mut Segs, ask: &Ask, to: u64) -> Result<(), Fail>
    requires { ask.now.from < 16 }
{
    open(segs, ask)?;
    if !segs.is_member(ask.from) {
        return Err("a member that is late".into());
    }
    segs.cancel(Cause::Late {
        participant: ask.from,
        from: 0,
        to,
    });
    Ok(())
}

// The asker takes an ask back, for which no growth is open.
fn withdraw(segs: &mut Segs, ask: &Ask, to: u64) -> Result<(), Fail>
    requires { ask.now.from < 16 }
{
    if segs.growth().is_some() {
        return Err("no open growth".into());
    }
    segs.arm(ask)?;
    let Some(armed) = segs.armed(ask.from) else {
        return Err("an armed ask".into());
    };
    if armed.number != ask.number {
        return Err("an ask of that number".into());
    }
    segs.withdraw(ask.from, ask.number, 0, to);
    Ok(())
}

// An ask of that number is closed already.
fn log_stale(segs: &mut Segs, ask: &Ask) -> Result<(), Fail>
    requires { ask.now.from < 16 }
{
    segs.reserve_records(1)?;
    if ask.number > segs.closed(ask.from) {
        return Err("a closed ask".into());
    }
    segs.log_stale(ask.from, ask.number);
    Ok(())
}

// A notice of that number is answered.
fn log_freed(segs: &mut Segs, ask: &Ask) -> Result<(), Fail>
    requires { ask.now.from < 16 }
{
    segs.reserve_records(1)?;
    if ask.number <= segs.closed(ask.from) {
        return Err("a notice that is not closed".into());
    }
    segs.log_freed(ask.from, ask.number);
    Ok(())
}

// What becomes of the ask of a participant of that number.
fn do_turn(segs: &mut Segs, from: u8, number: u64, asked: &Asked, turn: Turn) -> Result<(), Fail> {
    if from >= 16 {
        return Err("a participant".into());
    }
    let Ok(request) = Request::new(asked.size, asked.align, 0, 0) else {
        return Err("a request".into());
    };
    let ask = Ask {
        from,
        number,
        heap: asked.heap,
        socket: asked.socket,
        page: asked.page,
        request,
    };
    become_of(segs, &ask, turn)
}

fn become_of(segs: &mut Segs, ask: &Ask, turn: Turn) -> Result<(), Fail>
    requires { ask.now.from < 16 }
{
    match turn {
        Turn::Refuse => refuse(segs, ask),
        Turn::Deny { limit } => deny(segs, ask, limit),
        Turn::Open => {
            open(segs, ask)?;
            Ok(())
        }
        Turn::Grant => {
            grant(segs, ask)?;
            Ok(())
        }
        Turn::Take => {
            take(segs, ask)?;
            Ok(())
        }
        Turn::Retire => retire(segs, ask),
        Turn::Drop => drop_retiring(segs),
        Turn::Fail {
            participant,
            call,
            got,
        } => fail(segs, ask, participant, call, got),
        Turn::Late { to } => be_late(segs, ask, to),
        Turn::Withdraw { to } => withdraw(segs, ask, to),
        Turn::Stale => log_stale(segs, ask),
        Turn::Freed => log_freed(segs, ask),
    }
}

// What becomes of asks, one after another.
pub fn do_turns(segs: &mut Segs, turns: &[(u8, u64, Asked, Turn)]) -> Result<(), Fail> {
    for (from, number, asked, turn) in turns {
        do_turn(segs, *from, *number, asked, *turn)?;
    }
    Ok(())
}
