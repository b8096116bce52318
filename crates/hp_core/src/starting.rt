//! How an ask is started.
ghost use Rattle.std.specs.Prelude.{◌≡◌, ℕ, ◌*◌, ◌^◌, ◌<◌, ◌≤◌, List, Option, false, true};
ghost use Rattle.hp_segs.specs.LaterSteps.{after_stale};
ghost use Rattle.hp_segs.specs.Calls.{MayClose, MayOpen};
ghost use Rattle.hp_segs.specs.Steps.{after_drop, after_freed, after_open};
ghost use Rattle.hp_core.specs.Asks.{asker, is_armed, is_closed, is_same_ask, is_unarmed, number_of};
ghost use Rattle.hp_core.specs.Conditions.{IsAfterDrops, MayStart};
ghost use Rattle.hp_core.specs.Core.{IsDone, idle};
ghost use Rattle.hp_core.specs.Judging.{IsDoneBy, fresh_judged, grow_judged, start_judged};
ghost use Rattle.hp_core.specs.Moves.{IsGrowStart, IsStart};
ghost use Rattle.hp_core.specs.Starting.{IsOfLists, cause_of, grown, judged, opened_round, refused, started, started_by, total_with};

use crate::answering::answer;
use crate::asked::Asked;
use crate::out::Out;
use crate::phase::{Next, Phase, Round, RoundKind};
use hp_base::{Judge, Run};
use hp_segs::{Ask, Cause, PlanRefusal, Segs};

// Whether the asks are the same.
fn is_same_ask(a: &Ask, b: &Ask) -> bool
    ensures { result ≡ is_same_ask a.now b.now }
{
    a.from == b.from
        && a.number == b.number
        && a.heap == b.heap
        && a.socket == b.socket
        && a.page == b.page
        && a.request.size == b.request.size
        && a.request.align == b.request.align
        && a.request.bound == b.request.bound
        && a.request.flags == b.request.flags
}

// Whether the ask is the one with which its participant is armed.
fn is_armed(segs: &Segs, ask: &Ask) -> bool
    requires { ask.now.from < 16 }
    ensures { result ≡ is_armed ask.now segs.now }
{
    match segs.armed(ask.from) {
        None => false,
        Some(armed) => is_same_ask(&armed, ask),
    }
}

// Whether the ask is closed.
pub(crate) fn is_closed(segs: &Segs, asked: &Asked) -> bool
    requires { asker asked.now < 16 }
    ensures { result ≡ is_closed asked.now segs.now }
{
    asked.number() <= segs.closed(asked.from())
}

// Whether it is an ask for memory that is not closed, and with which its participant is not armed.
pub(crate) fn is_unarmed(segs: &Segs, asked: &Asked) -> bool
    requires { asker asked.now < 16 }
    ensures { result ≡ is_unarmed asked.now segs.now }
{
    match asked {
        Asked::Grow { ask } => !is_closed(segs, asked) && !is_armed(segs, ask),
        Asked::Shrink { .. } => false,
    }
}

// The cause of a plan's refusal.
fn cause_of(refusal: &PlanRefusal) -> Cause
    requires { IsOfLists refusal.now }
    ensures { result ≡ cause_of refusal.now }
{
    match refusal {
        PlanRefusal::StaleAsk { .. } | PlanRefusal::GrowthOpen { .. } => unreachable!(),
        PlanRefusal::NoList => Cause::NoList,
        PlanRefusal::TooFew { have, need } => Cause::TooFew {
            have: *have,
            need: *need,
        },
        PlanRefusal::ListFull { longest, need } => Cause::ListFull {
            longest: *longest,
            need: *need,
        },
        PlanRefusal::CannotHold { addr, len } => Cause::CannotHold {
            addr: *addr,
            len: *len,
        },
    }
}

// Nothing is under way afterwards.
fn idle(out: Out) -> Next
    ensures phase { result.phase ≡ Phase.Idle }
    ensures out { result.out ≡ out }
{
    Next {
        phase: Phase::Idle,
        out,
    }
}

// The round of an ask begins.
fn open_round(segs: &Segs, kind: RoundKind, from: u8, number: u64) -> Next
    ensures { IsDone segs.now result (opened_round kind from number segs.now) }
{
    let generation = segs.records().len() as u64;
    Next {
        phase: Phase::Mapping {
            round: Round {
                kind,
                generation,
                from,
                number,
            },
        },
        out: Out::MapSelf { generation },
    }
}

// The ask is refused without a growth, and answered.
fn refuse(segs: &mut Segs, ask: &Ask, cause: Cause) -> Next
    requires may { MayClose ask.now cause segs.old }
    ensures done { IsDone segs.new result (refused ask.now cause segs.old) }
    ensures moves { IsGrowStart segs.old segs.new }
{
    segs.close_ask(ask, cause);
    idle(answer(segs, ask.from, ask.number, 2))
}

// The growth of the ask is opened.
fn open(segs: &mut Segs, ask: &Ask, run: &Run) -> Next
    requires may { MayOpen ask.now run.now segs.old }
    ensures done { IsDone segs.new result
        (opened_round RoundKind.Growth ask.now.from ask.now.number (after_open ask.now run.now segs.old)) }
    ensures moves { IsGrowStart segs.old segs.new }
{
    segs.open_run(ask, run);
    open_round(segs, RoundKind::Growth, ask.from, ask.number)
}

// A planned run is judged.
fn judge_run<J: Judge>(segs: &mut Segs, ask: &Ask, run: &Run, judge: &J) -> Next
    requires may { MayOpen ask.now run.now segs.old }
    requires fits { run.now.count * run.now.page ≤ 2 ^ 47 }
    requires behind { IsAfterDrops ask.now segs.old }
    requires may_ask { J.may_ask judge.now }
    ensures done { (answer : Option (List ℕ × ℕ))
        × J.denies judge.now ask.now.socket (total_with ask.now run.now segs.old) answer
        × IsDone segs.new result (judged ask.now run.now segs.old answer) }
    ensures moves { IsGrowStart segs.old segs.new }
{
    let total = segs.total_of(ask.socket) + run.bytes();
    match judge.ask(ask.socket, total) {
        None => open(segs, ask, run),
        Some((validator, limit)) => {
            let cause = Cause::Denied {
                validator,
                limit,
                total,
            };
            refuse(segs, ask, cause)
        }
    }
}

// A growth for the ask, after the drops.
fn grow<J: Judge>(segs: &mut Segs, ask: &Ask, judge: &J) -> Next
    requires behind { IsAfterDrops ask.now segs.old }
    requires may_ask { J.may_ask judge.now }
    ensures done { IsDoneBy (J.denies judge.now) (grow_judged ask.now segs.old) segs.new result
        (λ denial. grown denial ask.now segs.old) }
    ensures moves { IsGrowStart segs.old segs.new }
{
    match segs.plan_run(ask) {
        Ok(run) => judge_run(segs, ask, &run, judge),
        Err(refusal) => refuse(segs, ask, cause_of(&refusal)),
    }
}

// An ask for memory that is not closed.
fn start_grow<J: Judge>(segs: &mut Segs, ask: &Ask, judge: &J) -> Next
    requires may { MayStart (Asked.Grow ask.now) segs.old }
    requires above { is_closed (Asked.Grow ask.now) segs.old ≡ false }
    requires may_ask { J.may_ask judge.now }
    ensures done { IsDoneBy (J.denies judge.now) (fresh_judged segs.old (Asked.Grow ask.now)) segs.new result
        (λ denial. started_by denial segs.old (Asked.Grow ask.now)) }
    ensures moves { IsStart segs.old segs.new }
{
    if !is_armed(segs, ask) {
        return idle(Out::Nothing);
    }
    segs.drop_retiring();
    grow(segs, ask, judge)
}

// A notice that memory may go back, which is not closed.
fn start_shrink(segs: &mut Segs, from: u8, number: u64) -> Next
    requires may { MayStart (Asked.Shrink from number) segs.old }
    requires above { is_closed (Asked.Shrink from number) segs.old ≡ false }
    ensures done { IsDone segs.new result
        (opened_round RoundKind.Drop from number (after_freed from number (after_drop segs.old))) }
    ensures moves { IsStart segs.old segs.new }
{
    segs.drop_retiring();
    segs.log_freed(from, number);
    open_round(segs, RoundKind::Drop, from, number)
}

// A closed ask is logged as Stale, and not answered.
fn pass_over(segs: &mut Segs, asked: &Asked) -> Next
    requires may { MayStart asked.now segs.old }
    requires closed { is_closed asked.now segs.old ≡ true }
    ensures done { IsDone segs.new result
        (idle (after_stale (asker asked.now) (number_of asked.now) segs.old) Out.Nothing) }
    ensures moves { IsStart segs.old segs.new }
{
    segs.log_stale(asked.from(), asked.number());
    idle(Out::Nothing)
}

// An ask is started, while nothing is under way.
pub(crate) fn start<J: Judge>(segs: &mut Segs, asked: &Asked, judge: &J) -> Next
    requires may { MayStart asked.now segs.old }
    requires may_ask { J.may_ask judge.now }
    ensures done { IsDoneBy (J.denies judge.now) (start_judged asked.now segs.old) segs.new result
        (λ denial. started denial asked.now segs.old) }
    ensures moves { IsStart segs.old segs.new }
{
    if is_closed(segs, asked) {
        return pass_over(segs, asked);
    }
    match asked {
        Asked::Grow { ask } => start_grow(segs, ask, judge),
        Asked::Shrink { from, number } => start_shrink(segs, *from, *number),
    }
}
