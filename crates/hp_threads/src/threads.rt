ghost use Rattle.std.specs.Prelude.{◌≡◌, ◌<◌, ◌≤◌, ℕ, IfOk, length, slice_index_or, vec_len};
ghost use Rattle.std.specs.List.{All};
ghost use Rattle.hp_base.specs.declared.limits.TheConstants.{MAX_LINES};
ghost use Rattle.hp_threads.specs.Leaving.{HasWorked};
ghost use Rattle.hp_threads.specs.Workers.{IsWorker, OpensFor, WorkerView};
ghost use Rattle.hp_threads.specs.Working.{CanBeDone};
ghost use Rattle.hp_threads.specs.declared.working.Worked.{Worked};

use crate::shared::Shared;
use crate::worker::Worker;
use crate::working::{Worked, work};
use hp_base::{Clock, Gate, Mapper};
use hp_script::Workload;
use hp_serve::Decide;
use std::alloc::{AllocError, Global};
use std::sync::Wait;
use std::thread;
use std::thread::Threads;

/// All participants work, each on a thread of its own.
pub fn work_all<
    'p,
    M: Mapper + Send,
    C: Clock + Send,
    F: Decide + Copy + Drop + Send,
    G: Gate + Sync,
    R: Threads + Wait + Sync,
>(
    rt: &R,
    alloc: Global,
    shared: Shared<'_>,
    gate: &G,
    workload: &Workload<'_>,
    workers: Vec<Worker<'p, M, C, F>>,
) -> Result<Vec<Worked>, AllocError>
    requires opened { OpensFor workload.now shared.board.now.opening }
    requires workers { All (λ worker. (who : ℕ) × IsWorker workload.now shared.board.now shared.boxes.now shared.cells.now who worker)
        workers.items }
    requires lines { CanBeDone workload.now.participants workload.now.lines.items }
    requires few { length workload.now.lines.items ≤ MAX_LINES }
    ensures count { IfOk result (λ all. vec_len all ≡ vec_len workers.entry) }

    // Each keeps its promise.
    ensures each { IfOk result (λ all. (k : ℕ) (worker : WorkerView) (worked : Worked) → k < length workers.entry.items
        → HasWorked workload.now (slice_index_or workers.entry.items k worker) (slice_index_or all.items k worked)) }
{
    thread::map_vec(
        rt,
        workers,
        &|worker: Worker<'_, M, C, F>| -> Worked
            requires { OpensFor workload.now shared.board.now.opening
                × ((who : ℕ) × IsWorker workload.now shared.board.now shared.boxes.now shared.cells.now who worker)
                × CanBeDone workload.now.participants workload.now.lines.items × (length workload.now.lines.items ≤ MAX_LINES) }
            ensures { HasWorked workload.entry.now worker.entry result }
        { work(rt, alloc, shared, gate, workload, worker) },
    )
}
