//! Worked values of what stands for the outside: the mapper, the plan, the clock, and where elements and slots lie.
ghost use Rattle.std.specs.Prelude.{◌≡◌, [], ◌+◌, ◌*◌, ◌<◌, Some, false, true, IfOk};
ghost use Rattle.hp_base.specs.Mapping.{IsSteady, may_fail_at, refusals_at};

use super::{ended, holds};
use hp_base::{
    Action, Clock, Event, EventKind, Judge, MapAction, MapAnswer, Mapper, MemMapper, MsgKind,
    NoLimits, Plan, PlanEntry, Row, Run, Silent, Span, SpanState, StepClock, Tell, slot_address,
};
use std::alloc::{AllocError, Global};
use std::test::Fail;

const PAGE: u64 = 0x20_0000;

// The row of a slot of a list that begins at 4 GB.
fn row(slot: u32) -> Row
    requires { slot < 1024 }
    ensures addr { result.addr ≡ 4294967296 + slot * PAGE }
    ensures page { result.page ≡ PAGE }
{
    Row {
        addr: slot_address(0x1_0000_0000, PAGE, slot),
        page: PAGE,
        socket: 0,
        list: 0,
        slot,
        generation: 1,
    }
}

fn place_of(slot: u32) -> MapAnswer
    requires { slot < 1024 }
{
    MapAnswer::At {
        addr: row(slot).addr,
        page: PAGE,
        socket: 0,
    }
}

// What a mapper that is told to fail at its second call answers to three, which rows it holds then, and which once one is unmapped.
fn refused_once(alloc: Global) -> Result<([MapAnswer; 3], [bool; 4]), AllocError> {
    let mut mapper = MemMapper::new(alloc, 3)?;
    mapper.fail_at(Vec::from_slice(alloc, &[2])?);
    let answers = [
        mapper.map(&row(0)),
        mapper.map(&row(1)),
        mapper.map(&row(1)),
    ];
    let (first, second) = (mapper.holds(&row(0)), mapper.holds(&row(1)));
    mapper.unmap(&row(0));
    let held = [first, second, mapper.holds(&row(0)), mapper.holds(&row(1))];
    Ok((answers, held))
}

#[test]
fn a_mapper_refuses_its_second_call(rt: HostRuntime) -> Result<(), Fail> {
    let answers = [place_of(0), MapAnswer::Refused, place_of(1)];
    holds(refused_once(rt.alloc())? == (answers, [true, true, false, true]))
}

// A mapper that is told no call to fail at is steady.
fn steady_mapper(alloc: Global) -> Result<MemMapper, AllocError>
    ensures { IfOk result (λ mapper. IsSteady (Some (refusals_at mapper.fails))) }
{
    MemMapper::new(alloc, 3)
}

// One that is told calls 2 and 5 may fail at these, and at call 3 it may not.
fn unsteady_mapper(alloc: Global) -> Result<MemMapper, AllocError>
    ensures second { IfOk result (λ mapper. may_fail_at (Some (refusals_at mapper.fails)) 2 ≡ true) }
    ensures third { IfOk result (λ mapper. may_fail_at (Some (refusals_at mapper.fails)) 3 ≡ false) }
    ensures fifth { IfOk result (λ mapper. may_fail_at (Some (refusals_at mapper.fails)) 5 ≡ true) }
{
    let mut mapper = MemMapper::new(alloc, 3)?;
    mapper.fail_at(Vec::from_slice(alloc, &[2, 5])?);
    Ok(mapper)
}

// Whether the two hold a row.
fn hold_a_row(alloc: Global) -> Result<[bool; 2], AllocError> {
    let steady = steady_mapper(alloc)?.holds(&row(0));
    Ok([steady, unsteady_mapper(alloc)?.holds(&row(0))])
}

#[test]
fn a_mapper_may_fail_where_it_is_told(rt: HostRuntime) -> Result<(), Fail> {
    holds(hold_a_row(rt.alloc())? == [false, false])
}

// What a mapper with room for two answers to two, and which it holds once a row of another generation is unmapped.
fn filled(alloc: Global) -> Result<([MapAnswer; 2], [bool; 2]), AllocError> {
    let mut mapper = MemMapper::new(alloc, 2)?;
    let answers = [mapper.map(&row(7)), mapper.map(&row(5))];
    let other = Row {
        generation: 2,
        ..row(7)
    };
    mapper.unmap(&other);
    Ok((answers, [mapper.holds(&row(7)), mapper.holds(&row(5))]))
}

#[test]
fn a_mapper_takes_its_last_row(rt: HostRuntime) -> Result<(), Fail> {
    holds(filled(rt.alloc())? == ([place_of(7), place_of(5)], [true; 2]))
}

// What becomes of a message of a kind, a participant and a number, or of a mapping call of a participant and a number.
#[derive(Clone, Copy)]
enum Becomes {
    Message(MsgKind, u8, u64, Action),
    Mapping(u8, u64, MapAction),
}

const PLANNED: &[Becomes] = &[
    Becomes::Message(MsgKind::Sync, 1, 1, Action::Lose { line: 3 }),
    Becomes::Message(MsgKind::Alloc, 1, 1, Action::Repeat { line: 4 }),
    Becomes::Message(MsgKind::Reply, 1, 1, Action::Deliver),
    Becomes::Message(MsgKind::Sync, 2, 1, Action::Deliver),
    Becomes::Message(MsgKind::Sync, 1, 2, Action::Deliver),
    Becomes::Mapping(1, 1, MapAction::Refuse { line: 5 }),
    Becomes::Mapping(1, 2, MapAction::Elsewhere { line: 6 }),
    Becomes::Mapping(1, 3, MapAction::Ask),
    Becomes::Mapping(2, 1, MapAction::Ask),
];

fn is_planned(plan: &Plan, what: Becomes) -> bool {
    match what {
        Becomes::Message(kind, party, k, action) => plan.message(kind, party, k) == action,
        Becomes::Mapping(party, call, action) => plan.mapping(party, call) == action,
    }
}

// The first of these of which something else becomes.
fn planned_otherwise(plan: &Plan, all: &[Becomes]) -> Option<usize> {
    for at in 0..all.len() {
        if !is_planned(plan, all[at]) {
            return Some(at);
        }
    }
    None
}

fn plan_four(plan: &mut Plan) -> Result<(), AllocError>
    requires { plan.old ≡ [] }
{
    plan.add(message(MsgKind::Sync, false, 3))?;
    plan.add(message(MsgKind::Alloc, true, 4))?;
    plan.add(mapping(1, false, 5))?;
    plan.add(mapping(2, true, 6))
}

// How many entries a plan of four has, and the first of which something else becomes.
fn becomes_of_four(alloc: Global) -> Result<(usize, Option<usize>), AllocError> {
    let mut plan = Plan::new(alloc);
    plan_four(&mut plan)?;
    Ok((plan.entries().len(), planned_otherwise(&plan, PLANNED)))
}

#[test]
fn a_plan_says_what_becomes_of_messages_and_mappings(rt: HostRuntime) -> Result<(), Fail> {
    let (count, otherwise) = becomes_of_four(rt.alloc())?;
    assert!(rt; count == 4);
    ended(otherwise)
}

fn message(kind: MsgKind, twice: bool, line: u32) -> PlanEntry
    ensures { result ≡ PlanEntry.Message kind 1 1 twice line }
{
    PlanEntry::Message {
        kind,
        party: 1,
        k: 1,
        twice,
        line,
    }
}

fn mapping(call: u64, elsewhere: bool, line: u32) -> PlanEntry
    ensures { result ≡ PlanEntry.Mapping 1 call elsewhere line }
{
    PlanEntry::Mapping {
        party: 1,
        call,
        elsewhere,
        line,
    }
}

#[test]
fn a_clock_goes_by_steps_and_stands_at_its_end(rt: HostRuntime) {
    let mut clock = StepClock::new(1 << 62);
    let readings = [clock.now(), clock.now(), clock.now(), clock.now()];
    assert!(rt; readings == [0, 1 << 62, 1 << 63, 1 << 63]);
}

#[test]
fn nobody_denies_and_nobody_listens(rt: HostRuntime) {
    assert!(rt; NoLimits.ask(0, u64::MAX) == None);
    let mut silent = Silent;
    silent.tell(Event {
        kind: EventKind::Alloc,
        addr: 0x1_0000_0000,
        len: PAGE,
    });
    assert!(rt; matches!(silent, Silent));
}

#[test]
fn elements_runs_and_slots_lie_where_they_do(rt: HostRuntime) {
    let free = Span {
        addr: 0x1_0000_0000,
        whole: 2_096_000,
        list: 0,
        page: PAGE,
        state: SpanState::Free { stamp: 1 },
    };
    assert!(rt; free.end() == 0x1_001f_fb80);
    let run = Run {
        list: 0,
        first: 1,
        count: 2,
        addr: 0x1_0020_0000,
        page: PAGE,
        socket: 0,
    };
    assert!(rt; run.bytes() == 4_194_304);
    assert!(rt; run.end() == 0x1_0060_0000);
    assert!(rt; slot_address(0x1_0000_0000, PAGE, 3) == 0x1_0060_0000);
}
