//! One of two participants asks for a page for heap 0 in its line, and gives it up again.
ghost use Rattle.std.specs.Prelude.{◌<◌, length};
ghost use Rattle.hp_base.specs.declared.limits.TheConstants.{MAX_HEAPS};
ghost use Rattle.hp_plain.specs.HallView.{IsHome, slot_at};
ghost use Rattle.hp_serve.specs.InHall.{CanServe};
ghost use Rattle.hp_solo.specs.Solo.{MayWait};
ghost use Rattle.hp_solo.specs.SoloAsks.{MayBeginToAsk};
ghost use Rattle.test_solo.specs.Asking.{MayBegin};

use super::asking::{ask_for_page, cut_granted, notify, retire, take_heap};
use super::opening::hall_of_two;
use super::steps::{acks, answer_early, free, look, others, read};
use crate::tests::shown::{End, SegsShown};
use crate::tests::{BASE, PAGE, first_page, lost, plan_of};
use hp_base::{MemMapper, MsgKind, Plan, PlanEntry, Request, Run};
use hp_hall::{Hall, Posted, Waiting};
use hp_segs::RowState;
use hp_serve::{Decision, Server};
use hp_solo::SoloHall;
use std::alloc::{AllocError, Global};
use std::test::Fail;

// The first page of the pool.
const FIRST_PAGE: Run = Run {
    list: 0,
    first: 0,
    count: 1,
    addr: BASE,
    page: PAGE,
    socket: 0,
};

// The segment value once that page was granted to a participant, and claimed for heap 0.
const fn granted(from: u8) -> SegsShown {
    SegsShown {
        records: 1,
        left: 3,
        state: Some(RowState::Owned { heap: 0 }),
        outcomes: 1,
        last: Some((from, 1, End::Granted(1))),
    }
}

// What the segment value shows where the first ask of participant 1 was refused so, after so many records.
const fn refused(records: usize, end: End) -> SegsShown {
    SegsShown {
        records,
        left: 4,
        state: None,
        outcomes: 1,
        last: Some((1, 1, end)),
    }
}

// What came of a line: a run, what the segment value shows afterwards, and a reading of the clock.
#[derive(Clone, Copy, PartialEq, Eq)]
struct Came {
    run: Option<Run>,
    shown: SegsShown,
    reading: u64,
}

// What has come of a line by now, with that run.
fn afterwards<H: Hall>(hall: &mut H, party: &Server<'_, MemMapper>, run: Option<Run>) -> Came
    requires can { CanServe party.now.me party.now (H.state hall.old) }
    ensures can { CanServe party.now.me party.now (H.state hall.new) }
{
    let shown = look(hall, party);
    let reading = read(hall, party);
    Came {
        run,
        shown,
        reading,
    }
}

// It takes heap 0, and asks for a page: what was granted.
fn ask_once<H: Waiting>(
    hall: &mut H,
    party: &mut Server<'_, MemMapper>,
    request: Request,
) -> Result<Option<Run>, AllocError>
    requires begins { MayBegin party.old (H.state hall.old) }
    ensures can { CanServe party.new.me party.new (H.state hall.new) }
{
    let _heap = take_heap(hall, party);
    ask_for_page(hall, party, request)
}

// It does so, where a RESULT for its ask is in its mailbox already.
fn ask_misled<H: Waiting>(
    hall: &mut H,
    party: &mut Server<'_, MemMapper>,
    request: Request,
) -> Result<Option<Run>, AllocError>
    requires begins { MayBegin party.old (H.state hall.old) }
    ensures can { CanServe party.new.me party.new (H.state hall.new) }
{
    match answer_early(hall, party) {
        Posted::Sent => ask_once(hall, party, request),
        _ => Ok(None),
    }
}

// It takes heap 0, asks for a page, cuts it from the heap again, and gives it up: what was given up.
fn retire_granted<H: Waiting>(
    hall: &mut H,
    party: &mut Server<'_, MemMapper>,
    request: Request,
) -> Result<Option<Run>, AllocError>
    requires begins { MayBegin party.old (H.state hall.old) }
    ensures can { CanServe party.new.me party.new (H.state hall.new) }
{
    let mut heap = take_heap(hall, party);
    heap.reserve(2)?;
    let run = cut_granted(hall, party, &mut heap, request)?;
    if let Some(run) = &run {
        retire(hall, party, run);
    }
    Ok(run)
}

// It does so, and tells that it did.
fn give_up_granted<H: Waiting>(
    hall: &mut H,
    party: &mut Server<'_, MemMapper>,
    request: Request,
) -> Result<Option<Run>, AllocError>
    requires begins { MayBegin party.old (H.state hall.old) }
    ensures can { CanServe party.new.me party.new (H.state hall.new) }
{
    let run = retire_granted(hall, party, request)?;
    if let Some(run) = &run {
        notify(hall, party, run)?;
    }
    Ok(run)
}

// It does so, and tells by hand that it did, as participant 1: the run, where participant 0 has then taken in the record that drops it, and
// it has not itself.
fn tell_granted<H: Waiting>(
    hall: &mut H,
    party: &mut Server<'_, MemMapper>,
    request: Request,
) -> Result<Option<Run>, AllocError>
    requires begins { MayBegin party.old (H.state hall.old) }
    ensures can { CanServe party.new.me party.new (H.state hall.new) }
{
    let run = retire_granted(hall, party, request)?;
    let posted = free(hall, party);
    let served = others(hall, party, false)?;
    if posted == Posted::Sent && served && acks(hall, party) == (2, 1) {
        Ok(run)
    } else {
        Ok(None)
    }
}

// What the one does in its line.
#[derive(Clone, Copy)]
enum Line {
    Ask,
    AskMisled,
    Retire,
    GiveUp,
    Tell,
}

// It does what it does in its line: the run that was granted, or given up.
fn run_of<H: Waiting>(
    hall: &mut H,
    party: &mut Server<'_, MemMapper>,
    request: Request,
    line: Line,
) -> Result<Option<Run>, AllocError>
    requires begins { MayBegin party.old (H.state hall.old) }
    ensures can { CanServe party.new.me party.new (H.state hall.new) }
{
    match line {
        Line::Ask => ask_once(hall, party, request),
        Line::AskMisled => ask_misled(hall, party, request),
        Line::Retire => retire_granted(hall, party, request),
        Line::GiveUp => give_up_granted(hall, party, request),
        Line::Tell => tell_granted(hall, party, request),
    }
}

// What has come of it, where memory did not run out.
fn came_of<H: Waiting>(
    hall: &mut H,
    party: &mut Server<'_, MemMapper>,
    request: Request,
    line: Line,
) -> Option<Came>
    requires begins { MayBegin party.old (H.state hall.old) }
    ensures can { CanServe party.new.me party.new (H.state hall.new) }
{
    match run_of(hall, party, request, line) {
        Ok(run) => Some(afterwards(hall, party, run)),
        Err(_) => None,
    }
}

// It does its line: what has come of that.
fn do_line(
    hall: &mut SoloHall<'_, MemMapper, Decision>,
    party: &mut Server<'_, MemMapper>,
    request: Request,
    line: Line,
) -> Option<Came>
    requires may { MayWait hall.old party.old }
    requires begins { MayBeginToAsk hall.old.plain party.old.me }
    ensures may { MayWait hall.new party.new }
{
    came_of(hall, party, request, line)
}

// The one of a number goes away, does its line, and comes back: what came of it, where memory did not run out.
fn go_and_come(
    hall: &mut SoloHall<'_, MemMapper, Decision>,
    me: u8,
    request: Request,
    line: Line,
) -> Option<Came>
    requires me { me < length hall.old.plain.owns }
    requires home { IsHome (slot_at hall.old.plain MAX_HEAPS) }
    requires begins { MayBeginToAsk hall.old.plain me }
{
    let Some(mut judged) = hall.away(me) else {
        return None;
    };
    let party = judged.as_mut();
    let done = do_line(hall, &mut party.server, request, line);
    hall.back(judged);
    if hall.has_stopped() { None } else { done }
}

// What comes of the line of one of the two, by a plan.
fn what_comes(alloc: Global, plan: &Plan, me: u8, line: Line) -> Result<Option<Came>, Fail>
    requires { me < 2 }
{
    let asked = first_page()?;
    let mut hall = hall_of_two(alloc, plan)?;
    Ok(go_and_come(&mut hall, me, asked.request, line))
}

// Something else has come of a line.
#[derive(Debug, Drop)]
struct Otherwise;

// That comes of its line, where that is planned.
fn comes(
    alloc: Global,
    planned: Option<PlanEntry>,
    me: u8,
    line: Line,
    wanted: Came,
) -> Result<(), Fail>
    requires { me < 2 }
{
    let plan = plan_of(alloc, planned)?;
    if what_comes(alloc, &plan, me, line)? != Some(wanted) {
        return Err(Otherwise.into());
    }
    Ok(())
}

// One that asks is granted the page, and claims it.
fn claims(alloc: Global, me: u8) -> Result<(), Fail>
    requires { me < 2 }
{
    let wanted = Came {
        run: Some(FIRST_PAGE),
        shown: granted(me),
        reading: 0,
    };
    comes(alloc, None, me, Line::Ask, wanted)
}

// Each of the two asks, and claims the page.
#[test]
fn claims_what_is_granted(rt: HostRuntime) -> Result<(), Fail> {
    claims(rt.alloc(), 0)?;
    claims(rt.alloc(), 1)
}

// The ALLOC is lost: the ask is taken back when three deadlines have passed, and nothing was logged or mapped.
#[test]
fn takes_back_an_ask_that_is_lost(rt: HostRuntime) -> Result<(), Fail> {
    let wanted = Came {
        run: None,
        shown: refused(0, End::Withdrawn(0, 600)),
        reading: 600,
    };
    let planned = Some(lost(MsgKind::Alloc));
    comes(rt.alloc(), planned, 1, Line::Ask, wanted)
}

// The RESULT is lost: the grant is found when three deadlines have passed.
#[test]
fn finds_a_grant_whose_result_is_lost(rt: HostRuntime) -> Result<(), Fail> {
    let wanted = Came {
        run: Some(FIRST_PAGE),
        shown: granted(1),
        reading: 600,
    };
    let planned = Some(lost(MsgKind::Answer));
    comes(rt.alloc(), planned, 1, Line::Ask, wanted)
}

// A RESULT comes before there is an outcome: the ask waits on until its deadlines have passed, and claims what was granted meanwhile.
#[test]
fn claims_what_is_granted_after_a_result_too_early(rt: HostRuntime) -> Result<(), Fail> {
    let wanted = Came {
        run: Some(FIRST_PAGE),
        shown: granted(1),
        reading: 600,
    };
    comes(rt.alloc(), None, 1, Line::AskMisled, wanted)
}

// The first SYNC is lost: the asker itself is late at 200, and the growth is rolled back by a second record.
#[test]
fn is_refused_where_its_sync_is_lost(rt: HostRuntime) -> Result<(), Fail> {
    let wanted = Came {
        run: None,
        shown: refused(2, End::Late(1, 0, 200)),
        reading: 200,
    };
    let planned = Some(lost(MsgKind::Sync));
    comes(rt.alloc(), planned, 1, Line::Ask, wanted)
}

// The page that was granted is cut from the heap again: it is Retiring, and not the pool's yet.
#[test]
fn retires_what_was_cut(rt: HostRuntime) -> Result<(), Fail> {
    let wanted = Came {
        run: Some(FIRST_PAGE),
        shown: SegsShown {
            state: Some(RowState::Retiring),
            ..granted(1)
        },
        reading: 0,
    };
    comes(rt.alloc(), None, 1, Line::Retire, wanted)
}

// What comes of it once a second record has dropped the page: the notice has an outcome, and the pool has the page again.
const DROPPED: Came = Came {
    run: Some(FIRST_PAGE),
    shown: SegsShown {
        records: 2,
        left: 4,
        state: None,
        outcomes: 2,
        last: Some((1, 2, End::Freed(2))),
    },
    reading: 0,
};

// It has told so, and waited for the answer.
#[test]
fn gives_a_page_back_to_its_pool(rt: HostRuntime) -> Result<(), Fail> {
    comes(rt.alloc(), None, 1, Line::GiveUp, DROPPED)
}

// The record is logged at once when participant 0 serves the notice, which takes it in itself then.
#[test]
fn drops_what_was_given_up(rt: HostRuntime) -> Result<(), Fail> {
    comes(rt.alloc(), None, 1, Line::Tell, DROPPED)
}
