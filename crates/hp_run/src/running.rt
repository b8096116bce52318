//! The run of a workload, in which participants take turns in one thread.
ghost use Rattle.std.specs.Prelude.{◌≡◌, ◌<◌, ◌≤◌, [], ℕ, IfOk, OnOk, false, length, map, true};
ghost use Rattle.std.specs.List.{All};
ghost use Rattle.hp_segs.specs.Opening.{is_present};
ghost use Rattle.thm_run.specs.EndLaws.{said_in};
ghost use Rattle.thm_run.specs.Handing.{listeners_in};
ghost use Rattle.thm_causes.specs.Counting.{LosesNothing};
ghost use Rattle.thm_causes.specs.Threads.{TimeoutsArePlanned};
ghost use Rattle.hp_serve.specs.Limiting.{AlwaysAnswers};
ghost use Rattle.hp_run.specs.Ending.{AreAsMay, IsHeardEnd, AllCaughtUp, IsSoloRunEnd};
ghost use Rattle.hp_run.specs.LastNames.{AreLastNames};
ghost use Rattle.hp_run.specs.Mappers.{IsUnused};
ghost use Rattle.hp_run.specs.Opening.{HaveCome, IsEmptyHall, IsFirstHall, IsPlannedParty};
ghost use Rattle.hp_run.specs.AnswersKept.{counts_so_far};
ghost use Rattle.hp_run.specs.Counting.{IsCounted};
ghost use Rattle.hp_run.specs.Running.{CanGoOn, IsRunnable, IsSameWorkload};

use crate::contexts::Contexts;
use crate::doing::{do_lines, do_rest};
use crate::opening::{first_heaps, first_names, plan_of};
use crate::summary::Counts;
use crate::told::Told;
use hp_base::{MAX_SEGMENTS, Mapper, Plan};
use hp_events::Watchers;
use hp_heap::Heap;
use hp_maps::{LocalMaps, Planned, Table};
use hp_plain::{HallParts, PlainHall};
use hp_proc::WorkloadFacts;
use hp_report::Ended;
use hp_script::Workload;
use hp_segs::Segs;
use hp_serve::{Decide, Decision, JudgedServer, Limits, Server};
use hp_solo::{SoloEnd, SoloHall};
use hp_zone::Names;
use std::alloc::{AllocError, Global};
use thm_alike::{alike_law, restoring_law};
use thm_causes::{catch_up_law, none_law, notices_law, timeouts_law};
use thm_run::{
    counted_law, drops_law, end_law, failure_law, handed_law, judged_law, line_law, names_end_law,
    refusal_law, shown_law,
};

// What the lines of a workload leave.
#[derive(Drop)]
struct Left {
    answers: Told,
    heaps: Vec<Heap>,
    segs: Segs,
    names: Names,
    tables: Vec<Table>,
    watchers: Vec<Watchers>,
}

/// Runs a workload, whose participants take turns in one thread. The table of each is over the mapper that has its place among these.
/// Own.
pub fn run<'a, M: Mapper>(
    alloc: Global,
    workload: Workload<'a>,
    mappers: Vec<M>,
) -> Result<Ended<'a>, AllocError>
    requires runnable { IsRunnable workload }
    requires count { workload.participants ≤ length mappers.items }
    requires unused { All (λ mapper. IsUnused (M.held mapper) (M.answers mapper) (M.capacity mapper)) mappers.items }
    ensures end { IfOk result (λ ended. IsSoloRunEnd ended.workload (map M.may_fail mappers.items) ended.answers.items ended.heaps.items
        ended.segs ended.tables.items (listeners_in ended.watchers.items) ended.names) }
    ensures names { IfOk result (λ ended. AreLastNames ended.workload ended.heaps.items ended.segs ended.names) }
    ensures workload { IfOk result (λ ended. IsSameWorkload ended.workload workload.entry) }
{
    let left = run_planned(alloc, &workload, mappers, false)?;
    Ok(Ended {
        workload,
        answers: left.answers.into_answers(),
        heaps: left.heaps,
        segs: left.segs,
        names: left.names,
        tables: left.tables,
        watchers: left.watchers,
    })
}

/// What a run of a workload counts, and leaves. Own.
#[derive(Drop)]
pub struct Counted {
    pub counts: Counts,
    pub heaps: Vec<Heap>,
    pub segs: Segs,
}

/// Runs a workload as `run` does, and counts what its lines did; the answers are not kept. Own.
pub fn run_counted<M: Mapper>(
    alloc: Global,
    workload: &Workload<'_>,
    mappers: Vec<M>,
) -> Result<Counted, AllocError>
    requires runnable { IsRunnable workload.now }
    requires count { workload.now.participants ≤ length mappers.items }
    requires unused { All (λ mapper. IsUnused (M.held mapper) (M.answers mapper) (M.capacity mapper)) mappers.items }
    ensures { IfOk result (IsCounted workload.now (map M.may_fail mappers.items)) }
{
    let left = run_planned(alloc, workload, mappers, true)?;
    let Some(counts) = left.answers.counts() else {
        unreachable!();
    };
    Ok(Counted {
        counts,
        heaps: left.heaps,
        segs: left.segs,
    })
}

// Runs a workload by its plan.
fn run_planned<'x, M: Mapper>(
    alloc: Global,
    workload: &'x Workload<'x>,
    mappers: Vec<M>,
    counting: bool,
) -> Result<Left, AllocError>
    requires runnable { IsRunnable workload.now }
    requires count { workload.now.participants ≤ length mappers.items }
    requires unused { All (λ mapper. IsUnused (M.held mapper) (M.answers mapper) (M.capacity mapper)) mappers.items }
    ensures end { IfOk result (λ left. IsSoloRunEnd workload.now (map M.may_fail mappers.items) left.answers.items left.heaps.items
        left.segs left.tables.items (listeners_in left.watchers.items) left.names) }
    ensures names { IfOk result (λ left. AreLastNames workload.now left.heaps.items left.segs left.names) }
    ensures counts { IfOk result (λ left. left.answers.counts ≡ counts_so_far counting workload.now.lines.items left.answers.items) }
{
    let plan = plan_of(alloc, workload.participants, &workload.plan)?;
    run_said(alloc, workload, &plan, mappers, counting)
}

// Runs a workload by its plan, and by what its lines go by. A validator of its lines is decided by one of two, which
// always allows or always denies.
fn run_said<'x, M: Mapper>(
    alloc: Global,
    workload: &'x Workload<'x>,
    plan: &'x Plan,
    mappers: Vec<M>,
    counting: bool,
) -> Result<Left, AllocError>
    requires runnable { IsRunnable workload.now }
    requires plan { plan.now ≡ workload.now.plan.items }
    requires count { workload.now.participants ≤ length mappers.items }
    requires unused { All (λ mapper. IsUnused (M.held mapper) (M.answers mapper) (M.capacity mapper)) mappers.items }
    ensures end { IfOk result (λ left. IsSoloRunEnd workload.now (map M.may_fail mappers.items) left.answers.items left.heaps.items
        left.segs left.tables.items (listeners_in left.watchers.items) left.names) }
    ensures names { IfOk result (λ left. AreLastNames workload.now left.heaps.items left.segs left.names) }
    ensures counts { IfOk result (λ left. left.answers.counts ≡ counts_so_far counting workload.now.lines.items left.answers.items) }
{
    let facts = WorkloadFacts::of(alloc, &workload.pools, &workload.lines)?;
    run_lines(
        alloc,
        workload,
        plan,
        &facts,
        mappers,
        counting,
        Decision { allows: true },
        Decision { allows: false },
    )
}

// Runs the participants in their hall, by the plan, and by what lines go by.
fn run_lines<'p, M: Mapper, F: Decide + Copy + Drop>(
    alloc: Global,
    workload: &Workload<'_>,
    plan: &'p Plan,
    facts: &'p WorkloadFacts<'p>,
    mappers: Vec<M>,
    counting: bool,
    allow: F,
    deny: F,
) -> Result<Left, AllocError>
    requires runnable { IsRunnable workload.now }
    requires plan { plan.now ≡ workload.now.plan.items }
    requires facts { facts.now ≡ said_in workload.now }
    requires allows { AlwaysAnswers F.decides allow true }
    requires denies { AlwaysAnswers F.decides deny false }
    requires count { workload.now.participants ≤ length mappers.items }
    requires unused { All (λ mapper. IsUnused (M.held mapper) (M.answers mapper) (M.capacity mapper)) mappers.items }
    ensures end { IfOk result (λ left. IsSoloRunEnd workload.now (map M.may_fail mappers.items) left.answers.items left.heaps.items
        left.segs left.tables.items (listeners_in left.watchers.items) left.names) }
    ensures names { IfOk result (λ left. AreLastNames workload.now left.heaps.items left.segs left.names) }
    ensures counts { IfOk result (λ left. left.answers.counts ≡ counts_so_far counting workload.now.lines.items left.answers.items) }
{
    let mut hall = empty_hall(alloc, workload)?;
    let _unused = come_all(alloc, workload, plan, mappers, allow, deny, &mut hall)?;
    let contexts = Contexts::first(alloc, workload, facts)?;
    line_law();
    drops_law();
    shown_law();
    judged_law();
    counted_law();
    alike_law();
    restoring_law();
    none_law();
    run_in(alloc, workload, contexts, hall, counting)
}

// The hall before the first line, to which nobody has come yet.
fn empty_hall<'p, M: Mapper, F: Decide + Copy + Drop>(
    alloc: Global,
    workload: &Workload<'_>,
) -> Result<SoloHall<'p, M, F>, AllocError>
    requires runnable { IsRunnable workload.now }
    ensures { IfOk result (λ hall. IsEmptyHall workload.now hall) }
{
    let heaps = first_heaps(alloc, workload)?;
    let segs = Segs::new(
        alloc,
        &workload.pools,
        workload.participants,
        workload.absent,
    )?;
    let names = first_names(alloc, workload)?;
    let plain = PlainHall::new(alloc, workload.participants, heaps, segs, names)?;
    SoloHall::new(alloc, plain)
}

// Whether a participant is attached at the start.
pub fn is_present(workload: &Workload<'_>, who: u8) -> bool
    requires { who < 16 }
    ensures { result ≡ is_present workload.now.participants workload.now.absent who }
{
    who < workload.participants && (workload.absent >> who) % 2 == 0
}

/// A participant before its first line.
pub fn first_party<'p, M: Mapper>(
    alloc: Global,
    workload: &Workload<'_>,
    who: u8,
    plan: &'p Plan,
    mapper: M,
) -> Result<Server<'p, M>, AllocError>
    requires runnable { IsRunnable workload.now }
    requires declared { who < workload.now.participants }
    requires plan { plan.now ≡ workload.now.plan.items }
    requires unused { IsUnused (M.held mapper) (M.answers mapper) (M.capacity mapper) }
    ensures { IfOk result (λ participant. IsPlannedParty workload.now who (M.may_fail mapper) participant) }
{
    let joined = is_present(workload, who);
    let planned = Planned::new(mapper, plan, who);
    let maps = LocalMaps::new(alloc, planned, MAX_SEGMENTS as usize)?;
    Ok(Server::new(
        alloc,
        who,
        workload.sockets[who as usize],
        joined,
        maps,
        plan,
        workload.deadline,
    ))
}

// All participants come to their places, each over its mapper. Returned are the mappers that are left, which go when the run has ended:
// once a large block has gone back, the C library takes others of up to its size from its heap, where a vector that grows is copied.
fn come_all<'p, M: Mapper, F: Decide + Copy + Drop>(
    alloc: Global,
    workload: &Workload<'_>,
    plan: &'p Plan,
    mappers: Vec<M>,
    allow: F,
    deny: F,
    hall: &mut SoloHall<'p, M, F>,
) -> Result<Vec<M>, AllocError>
    requires runnable { IsRunnable workload.now }
    requires plan { plan.now ≡ workload.now.plan.items }
    requires count { workload.now.participants ≤ length mappers.items }
    requires unused { All (λ mapper. IsUnused (M.held mapper) (M.answers mapper) (M.capacity mapper)) mappers.items }
    requires allows { AlwaysAnswers F.decides allow true }
    requires denies { AlwaysAnswers F.decides deny false }
    requires empty { IsEmptyHall workload.now hall.old }
    ensures come { OnOk result (HaveCome workload.now (map M.may_fail mappers.items) hall.new.servers) }
    ensures plain { OnOk result (hall.new.plain ≡ hall.old.plain) }
{
    let mut mappers = mappers;
    for who in 0..workload.participants {
        let mapper = mappers.remove(0);
        let server = first_party(alloc, workload, who, plan, mapper)?;
        let limits = Limits::new(alloc, allow, deny);
        let judged = Box::new(alloc, JudgedServer { server, limits })?;
        hall.back(judged);
    }
    Ok(mappers)
}

// The lines, and what comes after the last one.
fn run_in<'p, M: Mapper, F: Decide + Copy + Drop>(
    alloc: Global,
    workload: &Workload<'_>,
    contexts: Contexts<'p>,
    hall: SoloHall<'p, M, F>,
    counting: bool,
) -> Result<Left, AllocError>
    requires runnable { IsRunnable workload.now }
    requires first { CanGoOn workload.now [] [] contexts hall }
    ensures end { IfOk result (λ left.
        IsHeardEnd workload.now left.answers.items left.heaps.items left.segs left.tables.items (listeners_in left.watchers.items) left.names) }
    ensures names { IfOk result (λ left. AreLastNames workload.now left.heaps.items left.segs left.names) }
    ensures counts { IfOk result (λ left. left.answers.counts ≡ counts_so_far counting workload.now.lines.items left.answers.items) }
    ensures named { IfOk result (λ left. AreAsMay workload.now hall.entry.servers left.answers.items left.segs) }
    ensures timeouts { IfOk result (λ left. TimeoutsArePlanned workload.now left.segs.asks) }
    ensures all_caught_up { IfOk result (λ left.
        LosesNothing workload.now.plan.items → AllCaughtUp left.segs left.tables.items) }
{
    let mut hall = hall;
    let answers = do_lines(alloc, workload, contexts, &mut hall, counting)?;
    do_rest(&mut hall)?;
    let SoloEnd {
        tables,
        watchers,
        plain,
    } = hall.end(alloc)?;
    // What holds of every hall is handed out with its values.
    plain.sound();
    let HallParts { heaps, segs, names } = plain.into_parts();
    end_law();
    names_end_law();
    handed_law();
    failure_law();
    refusal_law();
    timeouts_law();
    catch_up_law();
    notices_law();
    Ok(Left {
        answers,
        heaps,
        segs,
        names,
        tables,
        watchers,
    })
}
