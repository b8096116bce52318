//! Workers that get objects of a pool and put them, each on a thread of its own.
ghost use Rattle.std.specs.Prelude.{◌≡◌, ◌<◌, ℕ, [], IfOk, OnOk, length, slice_index_or};
ghost use Rattle.hp_mempool.specs.PassView.{IsOf, IsWhole, PassView, first_pass};
ghost use Rattle.hp_mempool.specs.Program.{IsLoad};
ghost use Rattle.hp_mempool.specs.Working.{AreJobs, AreWorkers, IsFresh, left_pass};
ghost use Rattle.hp_mempool.specs.declared.sharing.Job.{Job};

use crate::gate::Gate;
use crate::judging::stride_of;
use crate::load::Load;
use crate::pool::Pool;
use crate::pool_pass::PoolPass;
use crate::rounds::work;
use hp_base::Name;
use hp_zone::Zone;
use std::alloc::{AllocError, Global};
use std::sync::Wait;
use std::thread;
use std::thread::Threads;

// Where the zone of an exercise is.
const ZONE_ADDRESS: u64 = 0x1_0000_0000;

// The bytes of an object of an exercise.
const OBJECT_BYTES: u64 = 100;

// A worker's number, and its pass.
#[derive(Drop)]
pub struct Job {
    pub worker: u8,
    pub pass: PoolPass,
}

// How many objects a pool has at its end, after the workers have got and put some of them.
pub(crate) fn objects_back<R: Threads + Wait + Sync, G: Gate + Sync>(
    rt: &R,
    alloc: Global,
    load: &Load,
    gate: &G,
) -> Result<usize, AllocError>
    requires { IsLoad load.now }
    ensures { IfOk result (λ count. count ≡ load.now.objects) }
{
    let (pool, mut first) = opened(alloc, load)?;
    let jobs = dealt(alloc, &pool, &mut first, load.workers as u8)?;
    let back = work_all(rt, &pool, jobs, load.rounds, gate)?;
    let first = gathered(&pool, first, back);
    Ok(pool.close(rt, first).len())
}

// A pool of so many objects, in a zone of the length that it needs.
fn opened(alloc: Global, load: &Load) -> Result<(Pool, PoolPass), AllocError>
    requires { IsLoad load.now }
    ensures count { IfOk result (λ made. made.0.count ≡ load.now.objects) }
    ensures pass { IfOk result (λ made. made.1 ≡ first_pass made.0 load.now.cache) }
{
    let Some(name) = Name::new(b"heappool") else {
        unreachable!()
    };
    let zone = Zone {
        name,
        addr: ZONE_ADDRESS,
        len: u64::from(load.objects) * stride_of(OBJECT_BYTES),
        socket: 0,
        heap: 0,
    };
    match Pool::new(alloc, &zone, load.objects, OBJECT_BYTES, load.cache) {
        Ok(made) => Ok(made),
        Err(_) => Err(AllocError),
    }
}

// A job with a pass for each worker, and what is left to the first pass.
fn dealt(
    alloc: Global,
    pool: &Pool,
    first: &mut PoolPass,
    workers: u8,
) -> Result<Vec<Job>, AllocError>
    requires { first.old ≡ left_pass pool.now first.old.places 0 }
    ensures first { OnOk result (first.new ≡ left_pass pool.now first.old.places workers) }
    ensures count { IfOk result (λ jobs. length jobs.items ≡ workers) }
    ensures jobs { IfOk result (λ jobs. AreJobs pool.now first.old.places jobs.items) }
{
    let mut jobs = Vec::with_capacity(alloc, workers as usize)?;
    for worker in 0..workers {
        let pass = pool.split(alloc, first)?;
        jobs.push_reserved(Job { worker, pass });
    }
    Ok(jobs)
}

// The workers work, each on a thread of its own, and give back their passes.
fn work_all<R: Threads + Wait + Sync, G: Gate + Sync>(
    rt: &R,
    pool: &Pool,
    jobs: Vec<Job>,
    rounds: u32,
    gate: &G,
) -> Result<Vec<PoolPass>, AllocError>
    requires { (k : ℕ) (d : Job) → k < length jobs.items → IsFresh pool.now (slice_index_or jobs.items k d).pass }
    ensures count { IfOk result (λ back. length back.items ≡ length jobs.items) }
    ensures each { IfOk result (λ back. (k : ℕ) (job : Job) (pass : PassView) → k < length jobs.items
        → slice_index_or back.items k pass ≡ (slice_index_or jobs.items k job).pass) }
{
    thread::map_vec(
        rt,
        jobs,
        &|job: Job| -> PoolPass
            requires { IsFresh pool.now job.pass }
            ensures { result ≡ job.pass }
        { work(rt, pool, job.pass, job.worker, rounds, gate) },
    )
}

// The first pass takes in the passes of the workers, the last one first.
fn gathered(pool: &Pool, first: PoolPass, back: Vec<PoolPass>) -> PoolPass
    requires first { first ≡ left_pass pool.now first.places (length back.items) }
    requires back { AreWorkers pool.now first.places back.items }
    ensures pool { IsOf result pool.now }
    ensures whole { IsWhole result }
    ensures none { result.has ≡ [] }
{
    let mut first = first;
    let mut back = back;
    while let Some(other) = back.pop() {
        pool.join(&mut first, other);
    }
    first
}
