//! A table over a log is made, goes through steps and is dropped.
ghost use Rattle.std.specs.Prelude.{◌≡◌, [], Some, IfOk};
ghost use Rattle.hp_log.specs.Places.{IsLogOf};
ghost use Rattle.hp_maps.specs.PlannedView.{may_fail_by};
ghost use Rattle.test_maps.specs.Known.{IsKnown, worked_lists};

use super::heard::has_heard;
use super::steps::{Step, perform};
use super::{ADD, ADD_SECOND, DROP};
use hp_base::{Event, Mapper, MemMapper, Plan, PlanEntry};
use hp_events::Watchers;
use hp_log::LogRecord;
use hp_maps::{LocalMaps, Planned};
use std::alloc::{AllocError, Global};
use std::test::Fail;

/// The log: the first page comes and goes, then the second comes; both come, then the first goes; or the second comes before it.
#[derive(Clone, Copy)]
pub enum Log {
    OneAtATime,
    Both,
    Falling,
}

/// The mapping call of a participant that is refused, or comes out elsewhere.
#[derive(Clone, Copy)]
pub struct Failure {
    pub party: u8,
    pub call: u64,
    pub elsewhere: bool,
}

// The step at that place, counted from 0, came out otherwise.
#[derive(Debug, Drop)]
struct Otherwise {
    place: usize,
}

// A table of up to four rows over memory.
fn empty_table(
    alloc: Global,
    plan: &Plan,
    party: u8,
) -> Result<LocalMaps<Planned<'_, MemMapper>>, AllocError>
    ensures { IfOk result (λ maps. maps ≡ record {
      rows = [];
      number = 0;
      capacity = 4;
      answers = [];
      faults = 0;
      may_fail = may_fail_by plan.now party (Some []);
      held = [];
    }) }
{
    let mapper = Planned::new(MemMapper::new(alloc, 4)?, plan, party);
    LocalMaps::new(alloc, mapper, 4)
}

// Each step comes out as it stands.
fn go_on<M: Mapper>(
    alloc: Global,
    maps: &mut LocalMaps<M>,
    watchers: &mut Watchers,
    records: &[LogRecord],
    steps: &[Step],
) -> Result<(), Fail>
    requires { IsKnown maps.old records.now 0 }
{
    let mut reached = 0;
    for place in 0..steps.len() {
        if !perform(alloc, maps, watchers, records, &mut reached, steps[place]) {
            return Err(Otherwise { place }.into());
        }
    }
    Ok(())
}

/// The plan that has that failure, if there is one.
pub fn plan_with(alloc: Global, failure: Option<Failure>) -> Result<Plan, AllocError> {
    let mut plan = Plan::new(alloc);
    if let Some(failure) = failure {
        plan.add(PlanEntry::Mapping {
            party: failure.party,
            call: failure.call,
            elsewhere: failure.elsewhere,
            line: 2,
        })?;
    }
    Ok(plan)
}

fn party_of(failure: Option<Failure>) -> u8 {
    match failure {
        Some(failure) => failure.party,
        None => 0,
    }
}

// A new table over those records, with a watcher: each step comes out as it stands, and that watcher is told these events in all.
fn play_over(
    alloc: Global,
    records: &[LogRecord],
    failure: Option<Failure>,
    steps: &[Step],
    told: &[Event],
) -> Result<(), Fail>
    requires { IsLogOf worked_lists records.now }
{
    let plan = plan_with(alloc, failure)?;
    let mut watchers = Watchers::new(alloc);
    let mut maps = empty_table(alloc, &plan, party_of(failure))?;
    if watchers
        .register(alloc, "first".as_bytes(), maps.rows())
        .is_err()
    {
        return Err("memory for a watcher".into());
    }
    go_on(alloc, &mut maps, &mut watchers, records, steps)?;
    if !has_heard(&watchers, "first", told) {
        return Err("the events that are expected".into());
    }
    Ok(())
}

/// A new table over a log, with the watcher `first`: each step comes out as it stands, and that watcher is told these events in all.
pub fn play(
    alloc: Global,
    log: Log,
    failure: Option<Failure>,
    steps: &[Step],
    told: &[Event],
) -> Result<(), Fail> {
    match log {
        Log::OneAtATime => {
            let records = [ADD, DROP, ADD_SECOND];
            play_over(alloc, records.as_slice(), failure, steps, told)
        }
        Log::Both => {
            let records = [ADD, ADD_SECOND, DROP];
            play_over(alloc, records.as_slice(), failure, steps, told)
        }
        Log::Falling => {
            let records = [ADD_SECOND, ADD, DROP];
            play_over(alloc, records.as_slice(), failure, steps, told)
        }
    }
}
