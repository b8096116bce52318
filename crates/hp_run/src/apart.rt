//! The run of a workload whose participants do their lines on threads of their own.
ghost use Rattle.std.specs.Prelude.{◌≡◌, ◌<◌, ◌≤◌, IfOk, MatchResult, false, length, map, true};
ghost use Rattle.std.specs.List.{All};
ghost use Rattle.hp_base.specs.declared.limits.TheConstants.{MAX_PARTICIPANTS};
ghost use Rattle.thm_run.specs.EndLaws.{said_in};
ghost use Rattle.hp_serve.specs.Limiting.{AlwaysAnswers};
ghost use Rattle.hp_run.specs.Apart.{AreBegunOver, IsEndOnThreads, IsLeftFor, IsPlannedNewcomer};
ghost use Rattle.hp_run.specs.declared.reading.TheConstants.{LIMIT};
ghost use Rattle.hp_run.specs.Mappers.{IsUnused};
ghost use Rattle.hp_run.specs.Outcome.{IsFaultOf};
ghost use Rattle.hp_run.specs.Refusals.{refusal_of};
ghost use Rattle.hp_run.specs.Running.{IsRunnable, IsSameWorkload};

use crate::kit::Kit;
use crate::opening::{first_heaps, first_names, plan_of};
use crate::refusal::RunFault;
use crate::running::{first_party, is_present};
use crate::solo_call::accepted;
use hp_base::{Clock, Gate, Mapper, Plan};
use hp_proc::{LineContext, WorkloadFacts};
use hp_report::Ended;
use hp_script::Workload;
use hp_segs::Segs;
use hp_serve::{Decide, Decision, JudgedServer, Limits};
use hp_threads::{Ended as Left, Newcomer, run_apart};
use std::alloc::{AllocError, Global};
use std::sync::Wait;
use std::thread::Threads;
use thm_home::handed_end_law;

// A participant before its first step, by its kit.
fn newcomer<'p, M: Mapper, C: Clock, F: Decide + Copy + Drop>(
    alloc: Global,
    workload: &Workload<'_>,
    who: u8,
    plan: &'p Plan,
    facts: &'p WorkloadFacts<'p>,
    kit: Kit<M, C>,
    allow: F,
    deny: F,
) -> Result<Newcomer<'p, M, C, F>, AllocError>
    requires runnable { IsRunnable workload.now }
    requires declared { who < workload.now.participants }
    requires plan { plan.now ≡ workload.now.plan.items }
    requires facts { facts.now ≡ said_in workload.now }
    requires unused { IsUnused (M.held kit.mapper) (M.answers kit.mapper) (M.capacity kit.mapper) }
    requires allows { AlwaysAnswers F.decides allow true }
    requires denies { AlwaysAnswers F.decides deny false }
    ensures { IfOk result (IsPlannedNewcomer workload.now who (M.may_fail kit.mapper)) }
{
    let Kit { mapper, clock } = kit;
    let server = first_party(alloc, workload, who, plan, mapper)?;
    let limits = Limits::new(alloc, allow, deny);
    let judged = Box::new(alloc, JudgedServer { server, limits })?;
    let context = LineContext::new(alloc, Some(facts), is_present(workload, who));
    Ok(Newcomer::new(judged, context, clock))
}

// All participants before their first steps, each by its kit.
fn newcomers<'p, M: Mapper, C: Clock, F: Decide + Copy + Drop>(
    alloc: Global,
    workload: &Workload<'_>,
    plan: &'p Plan,
    facts: &'p WorkloadFacts<'p>,
    kits: Vec<Kit<M, C>>,
    allow: F,
    deny: F,
) -> Result<Vec<Newcomer<'p, M, C, F>>, AllocError>
    requires runnable { IsRunnable workload.now }
    requires plan { plan.now ≡ workload.now.plan.items }
    requires facts { facts.now ≡ said_in workload.now }
    requires count { workload.now.participants ≤ length kits.items }
    requires unused { All (λ kit. IsUnused (M.held kit.mapper) (M.answers kit.mapper) (M.capacity kit.mapper)) kits.items }
    requires allows { AlwaysAnswers F.decides allow true }
    requires denies { AlwaysAnswers F.decides deny false }
    ensures { IfOk result (λ all. AreBegunOver workload.now (map (λ kit. M.may_fail kit.mapper) kits.items) all.items) }
{
    let mut kits = kits;
    let mut all = Vec::with_capacity(alloc, workload.participants as usize)?;
    for who in 0..workload.participants {
        let kit = kits.remove(0);
        let first = newcomer(alloc, workload, who, plan, facts, kit, allow, deny)?;
        all.push_reserved(first);
    }
    Ok(all)
}

// Runs a workload by its plan, and by what its lines go by. A validator of its lines is decided by one of two, which
// always allows or always denies.
fn run_said<'x, M: Mapper + Send, C: Clock + Send, G: Gate + Sync, R: Threads + Wait + Sync>(
    rt: &R,
    alloc: Global,
    workload: &'x Workload<'x>,
    plan: &'x Plan,
    kits: Vec<Kit<M, C>>,
    gate: &G,
) -> Result<Left, AllocError>
    requires runnable { IsRunnable workload.now }
    requires plan { plan.now ≡ workload.now.plan.items }
    requires count { workload.now.participants ≤ length kits.items }
    requires unused { All (λ kit. IsUnused (M.held kit.mapper) (M.answers kit.mapper) (M.capacity kit.mapper)) kits.items }
    ensures end { IfOk result (λ left. IsEndOnThreads workload.now (map (λ kit. M.may_fail kit.mapper) kits.items) left.answers.items
        left.heaps.items left.segs left.names left.tables.items left.watchers.items) }
{
    let facts = WorkloadFacts::of(alloc, &workload.pools, &workload.lines)?;
    let heaps = first_heaps(alloc, workload)?;
    let segs = Segs::new(
        alloc,
        &workload.pools,
        workload.participants,
        workload.absent,
    )?;
    let names = first_names(alloc, workload)?;
    let all = newcomers(
        alloc,
        workload,
        plan,
        &facts,
        kits,
        Decision { allows: true },
        Decision { allows: false },
    )?;
    // What threads leave is such an end, with what its lines registered.
    handed_end_law();
    run_apart(rt, alloc, workload, heaps, segs, names, all, gate)
}

// Runs a workload, by its plan.
fn run_planned<'x, M: Mapper + Send, C: Clock + Send, G: Gate + Sync, R: Threads + Wait + Sync>(
    rt: &R,
    alloc: Global,
    workload: &'x Workload<'x>,
    kits: Vec<Kit<M, C>>,
    gate: &G,
) -> Result<Left, AllocError>
    requires runnable { IsRunnable workload.now }
    requires count { workload.now.participants ≤ length kits.items }
    requires unused { All (λ kit. IsUnused (M.held kit.mapper) (M.answers kit.mapper) (M.capacity kit.mapper)) kits.items }
    ensures end { IfOk result (λ left. IsEndOnThreads workload.now (map (λ kit. M.may_fail kit.mapper) kits.items) left.answers.items
        left.heaps.items left.segs left.names left.tables.items left.watchers.items) }
{
    let plan = plan_of(alloc, workload.participants, &workload.plan)?;
    run_said(rt, alloc, workload, &plan, kits, gate)
}

// Runs a workload, each participant on a thread of its own, over the kit that has its place among these.
fn run_on_threads<'a, M: Mapper + Send, C: Clock + Send, G: Gate + Sync, R: Threads + Wait + Sync>(
    rt: &R,
    alloc: Global,
    workload: Workload<'a>,
    kits: Vec<Kit<M, C>>,
    gate: &G,
) -> Result<Ended<'a>, AllocError>
    requires runnable { IsRunnable workload }
    requires count { workload.participants ≤ length kits.items }
    requires unused { All (λ kit. IsUnused (M.held kit.mapper) (M.answers kit.mapper) (M.capacity kit.mapper)) kits.items }
    ensures end { IfOk result (λ ended. IsEndOnThreads ended.workload (map (λ kit. M.may_fail kit.mapper) kits.items) ended.answers.items
        ended.heaps.items ended.segs ended.names ended.tables.items ended.watchers.items) }
    ensures workload { IfOk result (λ ended. IsSameWorkload ended.workload workload.entry) }
{
    let left = run_planned(rt, alloc, &workload, kits, gate)?;
    Ok(Ended {
        workload,
        answers: left.answers,
        heaps: left.heaps,
        segs: left.segs,
        names: left.names,
        tables: left.tables,
        watchers: left.watchers,
    })
}

/// What a run of the workload that the bytes are leaves, where each participant does its lines on a thread of its own, over the kit that
/// has its place among these. Before each line it asks the gate. Own.
pub fn ended_on_threads<
    'a,
    M: Mapper + Send,
    C: Clock + Send,
    G: Gate + Sync,
    R: Threads + Wait + Sync,
>(
    rt: &R,
    alloc: Global,
    bytes: &'a [u8],
    kits: Vec<Kit<M, C>>,
    gate: &G,
) -> Result<Ended<'a>, RunFault>
    requires short { length bytes.now ≤ LIMIT }
    requires count { length kits.items ≡ MAX_PARTICIPANTS }
    requires unused { All (λ kit. IsUnused (M.held kit.mapper) (M.answers kit.mapper) (M.capacity kit.mapper)) kits.items }
    ensures { MatchResult result (IsLeftFor (map (λ kit. M.may_fail kit.mapper) kits.items) bytes.entry.now)
        (IsFaultOf (refusal_of bytes.entry.now)) }
{
    let workload = accepted(alloc, bytes)?;
    Ok(run_on_threads(rt, alloc, workload, kits, gate)?)
}
