//! One of two participants does a line by hand, step after step, and the other serves.
ghost use Rattle.std.specs.Prelude.{◌≡◌, ◌<◌, length};
ghost use Rattle.hp_base.specs.declared.limits.TheConstants.{MAX_HEAPS};
ghost use Rattle.hp_plain.specs.HallView.{IsHome, slot_at};
ghost use Rattle.hp_solo.specs.Solo.{MayWait};
ghost use Rattle.hp_serve.specs.InHall.{CanServe};
ghost use Rattle.hp_solo.specs.SoloAsks.{MayBeginToAsk};
ghost use Rattle.test_solo.specs.Asking.{MayBegin};

use super::opening::hall_of_two;
use super::steps::{acks, arm, ask, fetch, others, outcome, pause, take_turn, turn};
use crate::tests::shown::End;
use crate::tests::{first_page, plan_of};
use hp_base::{MemMapper, Plan, PlanEntry};
use hp_hall::{Hall, Posted, Waiting};
use hp_maps::Table;
use hp_serve::{Decision, PagesAsked, Server};
use hp_solo::{SoloEnd, SoloHall};
use std::alloc::{AllocError, Global};
use std::test::Fail;

/// One step, with what has to come of it.
#[derive(Clone, Copy)]
pub enum Step {
    // It posts its first ask to participant 0.
    Ask,
    // A turn of its wait, but for the pause: who did something, of those below, itself and those above.
    Turn(bool, bool, bool),
    // Those below it serve, and did something or nothing.
    Below(bool),
    // A whole turn of a wait until the first reading: whether something moved, and the reading of its clock afterwards.
    Wait(u64, bool, u64),
    // A pause in which nothing moved, up to the first reading: the reading of its clock afterwards.
    Pause(u64, u64),
    // The deadline of its round.
    Due(Option<u64>),
    // How many records participant 0 has acknowledged, and how many it has itself.
    Acks(u64, u64),
    // The kind of the first frame of its mailbox, and 0 where that is empty.
    Fetch(u8),
    // How the first ask of a participant ended, and how many records there are.
    Ended(u8, End, usize),
}

// The step at that place, counted from 0, came out otherwise; or the one that does the line could not be armed, or is there meanwhile; or
// somebody is away before the line, or has stopped in it; or the end is another one.
#[derive(Debug, Drop)]
enum Otherwise {
    Step { place: usize },
    Unarmed,
    There,
    Away,
    Stopped,
    End,
}

// It posts its first ask, and whether that went into the mailbox of participant 0.
fn post_ask<H: Hall>(hall: &mut H, party: &Server<'_, MemMapper>) -> bool
    requires can { CanServe party.now.me party.now (H.state hall.old) }
    ensures can { CanServe party.now.me party.now (H.state hall.new) }
{
    let from = party.number();
    if from >= 2 {
        return false;
    }
    ask(hall, party, from) == Posted::Sent
}

// Whether a step came out as it stands.
fn do_step<H: Waiting>(
    hall: &mut H,
    party: &mut Server<'_, MemMapper>,
    step: Step,
) -> Result<bool, AllocError>
    requires can { CanServe party.old.me party.old (H.state hall.old) }
    ensures can { CanServe party.new.me party.new (H.state hall.new) }
{
    match step {
        Step::Ask => Ok(post_ask(hall, party)),
        Step::Turn(below, itself, above) => Ok(turn(hall, party)? == (below, itself, above)),
        Step::Below(did) => Ok(others(hall, party, false)? == did),
        Step::Wait(until, moved, reading) => Ok(take_turn(hall, party, until)? == (moved, reading)),
        Step::Pause(until, reading) => Ok(pause(hall, party, until) == reading),
        Step::Due(due) => Ok(party.due() == due),
        Step::Acks(first, own) => Ok(acks(hall, party) == (first, own)),
        Step::Fetch(kind) => Ok(fetch(hall, party) == kind),
        Step::Ended(from, end, records) => Ok(
            outcome(hall, party) == (Some((from, 1, end)), records),
        ),
    }
}

// Each step comes out as it stands.
fn do_steps<H: Waiting>(
    hall: &mut H,
    party: &mut Server<'_, MemMapper>,
    steps: &[Step],
) -> Result<(), Otherwise>
    requires can { CanServe party.old.me party.old (H.state hall.old) }
    ensures can { CanServe party.new.me party.new (H.state hall.new) }
{
    for place in 0..steps.len() {
        if do_step(hall, party, steps[place]) != Ok(true) {
            return Err(Otherwise::Step { place });
        }
    }
    Ok(())
}

// It is armed with its first ask, and each step comes out as it stands.
fn do_armed<H: Waiting>(
    hall: &mut H,
    party: &mut Server<'_, MemMapper>,
    asked: &PagesAsked,
    steps: &[Step],
) -> Result<(), Otherwise>
    requires few { party.old.me < 2 }
    requires begins { MayBegin party.old (H.state hall.old) }
    requires first { asked.now.heap ≡ 0 }
    ensures can { CanServe party.new.me party.new (H.state hall.new) }
{
    if arm(hall, party, asked).is_err() {
        return Err(Otherwise::Unarmed);
    }
    do_steps(hall, party, steps)
}

// It does its line, while not all are there: it is armed with its first ask, and each step comes out as it stands.
fn do_line(
    hall: &mut SoloHall<'_, MemMapper, Decision>,
    party: &mut Server<'_, MemMapper>,
    asked: &PagesAsked,
    steps: &[Step],
) -> Result<(), Otherwise>
    requires few { party.old.me < 2 }
    requires may { MayWait hall.old party.old }
    requires begins { MayBeginToAsk hall.old.plain party.old.me }
    requires first { asked.now.heap ≡ 0 }
    ensures may { MayWait hall.new party.new }
{
    if hall.has_all() {
        return Err(Otherwise::There);
    }
    do_armed(hall, party, asked, steps)
}

// The one of a number goes away, does its line, and comes back, and nobody has stopped.
fn go_and_come(
    hall: &mut SoloHall<'_, MemMapper, Decision>,
    me: u8,
    asked: &PagesAsked,
    steps: &[Step],
) -> Result<(), Otherwise>
    requires me { me < 2 }
    requires two { length hall.old.plain.owns ≡ 2 }
    requires home { IsHome (slot_at hall.old.plain MAX_HEAPS) }
    requires begins { MayBeginToAsk hall.old.plain me }
    requires first { asked.now.heap ≡ 0 }
    ensures home { IsHome (slot_at hall.new.plain MAX_HEAPS) }
{
    if !hall.has_all() {
        return Err(Otherwise::Away);
    }
    let Some(mut judged) = hall.away(me) else {
        return Err(Otherwise::Away);
    };
    let party = judged.as_mut();
    let done = do_line(hall, &mut party.server, asked, steps);
    hall.back(judged);
    if hall.has_stopped() || hall.stopped() {
        return Err(Otherwise::Stopped);
    }
    done
}

// It does its line in a hall of that plan, which ends after it: the reading of the clock, and how often a mailbox was full.
fn end_after(alloc: Global, plan: &Plan, me: u8, steps: &[Step]) -> Result<(u64, u64), Fail>
    requires { me < 2 }
{
    let asked = first_page()?;
    let mut hall = hall_of_two(alloc, plan)?;
    go_and_come(&mut hall, me, &asked, steps)?;
    let plain = hall.into_plain();
    Ok((plain.clock(), plain.full_mailboxes()))
}

/// It does its line where that is planned, and the clock then shows that reading, and a mailbox was full so often.
pub fn ends(
    alloc: Global,
    planned: Option<PlanEntry>,
    me: u8,
    steps: &[Step],
    wanted: (u64, u64),
) -> Result<(), Fail>
    requires { me < 2 }
{
    let plan = plan_of(alloc, planned)?;
    if end_after(alloc, &plan, me, steps)? != wanted {
        return Err(Otherwise::End.into());
    }
    Ok(())
}

// It does its line in a hall of that plan, and both serve on until nothing is left for them: what they leave.
fn drain_after(alloc: Global, plan: &Plan, me: u8, steps: &[Step]) -> Result<SoloEnd, Fail>
    requires { me < 2 }
{
    let asked = first_page()?;
    let mut hall = hall_of_two(alloc, plan)?;
    go_and_come(&mut hall, me, &asked, steps)?;
    hall.drain();
    if !hall.has_all() {
        return Err(Otherwise::Away.into());
    }
    Ok(hall.end(alloc)?)
}

// Whether a table is of one that is attached, and has so many rows by so many records.
fn has_rows(table: &Table, number: u64, rows: usize) -> bool {
    table.joined && table.number == number && table.rows.len() == rows
}

// Whether that is what they leave: two tables, each of one that is attached, with so many rows by so many records, and that reading of the
// clock.
fn is_left(end: &SoloEnd, number: u64, rows: usize, clock: u64) -> bool {
    end.tables.len() == 2
        && end.tables.iter().all(|table| has_rows(table, number, rows))
        && end.plain.clock() == clock
}

/// A participant does its line where that is planned, and both serve on: two tables are left, each of one that is attached, with so many
/// rows by so many records, and the clock shows that reading.
pub fn drains(
    alloc: Global,
    planned: Option<PlanEntry>,
    me: u8,
    steps: &[Step],
    number: u64,
    rows: usize,
    clock: u64,
) -> Result<(), Fail>
    requires { me < 2 }
{
    let plan = plan_of(alloc, planned)?;
    let end = drain_after(alloc, &plan, me, steps)?;
    if !is_left(&end, number, rows, clock) {
        return Err(Otherwise::End.into());
    }
    Ok(())
}
