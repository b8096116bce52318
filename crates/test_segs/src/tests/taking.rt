//! How a heap takes a run, and gives it up.
ghost use Rattle.std.specs.Prelude.{◌≡◌, ◌<◌, ◌≤◌, Ok, IfOk};
ghost use Rattle.hp_segs.specs.Calls.{IsUnclaimedGrant, OwnsRun};
ghost use Rattle.hp_segs.specs.Plan.{plan_of};
ghost use Rattle.hp_segs.specs.Steps.{after_claim, after_open, after_reserve};

use super::PAGE;
use hp_base::{PoolLine, Request, Run};
use hp_segs::{Ask, Segs};
use std::alloc::{AllocError, Global};
use std::test::Fail;

/// Two participants, and one pool of pages of 2M on socket 0, with a list of four slots.
pub fn segs_of(alloc: Global, pages: u64) -> Result<Segs, AllocError>
    requires { pages ≤ 8192 }
{
    let line = PoolLine {
        socket: 0,
        page: PAGE,
        pages,
        slots: 4,
    };
    Segs::new(alloc, [line].as_slice(), 2, 0)
}

/// What an ask wants: so many bytes at an alignment, of a socket, in pages of a size.
#[derive(Clone, Copy)]
pub struct Wants {
    pub size: u64,
    pub align: u64,
    pub socket: u32,
    pub page: u64,
}

/// What most asks want.
pub const FEW_BYTES: Wants = Wants {
    size: 1000,
    align: 0,
    socket: 0,
    page: PAGE,
};

/// An ask of participant 0 for heap 3.
pub fn ask_with(number: u64, wants: Wants) -> Result<Ask, Fail>
    ensures { IfOk result (λ ask. ask.from ≡ 0) }
{
    let request = Request::new(wants.size, wants.align, 0, 0)
        .ok()
        .ok_or("a good request")?;
    Ok(Ask {
        from: 0,
        number,
        heap: 3,
        socket: wants.socket,
        page: wants.page,
        request,
    })
}

/// One for a few bytes.
pub fn ask_for(number: u64) -> Result<Ask, Fail>
    ensures { IfOk result (λ ask. ask.from ≡ 0) }
{
    ask_with(number, FEW_BYTES)
}

/// Opens the growth of an ask.
pub fn open(segs: &mut Segs, ask: &Ask) -> Result<Run, Fail>
    requires { ask.now.from < 16 }
    ensures plan { IfOk result (λ run. plan_of ask.now (after_reserve 3 segs.old) ≡ Ok run) }
    ensures step { IfOk result (λ run. segs.new
        ≡ after_open ask.now run (after_reserve 3 segs.old)) }
{
    segs.reserve_records(3)?;
    let Ok(run) = segs.plan_run(ask) else {
        return Err("a planned run".into());
    };
    segs.open_run(ask, &run);
    Ok(run)
}

// Opens the growth of an ask, and all acknowledge it.
fn grant(segs: &mut Segs, ask: &Ask) -> Result<Run, Fail>
    requires { ask.now.from < 16 }
    ensures unclaimed { IfOk result (λ run.
        IsUnclaimedGrant ask.now.from ask.now.number segs.new) }
    ensures owned { IfOk result (λ run. OwnsRun ask.now.heap run
        (after_claim ask.now.from ask.now.number segs.new)) }
{
    let run = open(segs, ask)?;
    if segs.agree(&[u64::MAX; 16]).is_err() {
        return Err("a grant".into());
    }
    // That the value is sound is handed out with its records.
    let _records = segs.records();
    Ok(run)
}

/// The heap of an ask takes the run that is granted for it.
pub fn take(segs: &mut Segs, ask: &Ask) -> Result<Run, Fail>
    requires { ask.now.from < 16 }
{
    grant(segs, ask)?;
    Ok(segs.claim(ask.from, ask.number))
}

/// It takes the run, and gives it up.
pub fn give_up(segs: &mut Segs, ask: &Ask) -> Result<Run, Fail>
    requires { ask.now.from < 16 }
{
    let run = grant(segs, ask)?;
    segs.claim(ask.from, ask.number);
    segs.retire(ask.heap, &run);
    Ok(run)
}
