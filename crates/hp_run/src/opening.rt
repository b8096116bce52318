//! What a run begins with: the heaps, the names and the plan of its workload.
ghost use Rattle.std.specs.Prelude.{◌≡◌, IfOk, slice_get};
ghost use Rattle.hp_base.specs.Plans.{ArePlanEntries};
ghost use Rattle.hp_proc.specs.Heaps.{names_socket, sockets_of};
ghost use Rattle.thm_run.specs.SoFar.{AreFirstHeaps, AreSoundNames, first_names};
ghost use Rattle.hp_run.specs.Opening.{IsFirstHeap};

use hp_base::{MAX_HEAPS, MAX_SOCKETS, Plan, PlanEntry, PoolLine};
use hp_heap::Heap;
use hp_script::Workload;
use hp_zone::Names;
use std::alloc::{AllocError, Global};

/// The heaps of a workload before its first line, by index: that of each socket that a pool line names, by rising socket number, and
/// vacant ones. After rte_eal_malloc_heap_init.
pub fn first_heaps(alloc: Global, workload: &Workload<'_>) -> Result<Vec<Heap>, AllocError>
    ensures { IfOk result (λ heaps. AreFirstHeaps workload.now heaps.items) }
{
    let sockets = sockets_of(alloc, &workload.pools)?;
    let mut heaps = Vec::with_capacity(alloc, MAX_HEAPS)?;
    for index in 0..MAX_HEAPS {
        let serves = socket_at(&sockets, index);
        heaps.push(first_heap(alloc, index as u32, serves))?;
    }
    Ok(heaps)
}

/// The names of a workload before its first line: no memzone, and the heap of each socket that a pool line names. After
/// rte_eal_malloc_heap_init.
pub fn first_names(alloc: Global, workload: &Workload<'_>) -> Result<Names, AllocError>
    ensures names { IfOk result (λ names. names ≡ first_names workload.now) }
    ensures sound { IfOk result AreSoundNames }
{
    let sockets = sockets_of(alloc, &workload.pools)?;
    let names = Names::new(alloc, &sockets)?;
    // Each log hands out that it leaves what the names are.
    names.zones.log();
    names.heaps.log();
    Ok(names)
}

// The heap of an index, of a socket or vacant.
fn first_heap(alloc: Global, index: u32, serves: Option<u32>) -> Heap
    ensures { IsFirstHeap index serves result }
{
    let heap = match serves {
        Some(socket) => Heap::socket(alloc, index, socket),
        None => Heap::vacant(alloc, index),
    };
    heap.sound();
    heap
}

// The socket whose heap has that index.
fn socket_at(sockets: &[u32], index: usize) -> Option<u32>
    ensures { result ≡ slice_get sockets.now index }
{
    sockets.get(index).copied()
}

// The sockets that pool lines name, by rising number.
fn sockets_of(alloc: Global, pools: &[PoolLine]) -> Result<Vec<u32>, AllocError>
    ensures { IfOk result (λ sockets. sockets.items ≡ sockets_of pools.now) }
{
    let mut sockets = Vec::with_capacity(alloc, MAX_SOCKETS as usize)?;
    for socket in 0..MAX_SOCKETS {
        if names_socket(pools, socket) {
            sockets.push(socket)?;
        }
    }
    Ok(sockets)
}

// Whether a pool line names the socket.
fn names_socket(pools: &[PoolLine], socket: u32) -> bool
    ensures { result ≡ names_socket pools.now socket }
{
    pools.iter().any(|line| line.socket == socket)
}

/// The plan of these entries.
pub fn plan_of(alloc: Global, participants: u8, entries: &[PlanEntry]) -> Result<Plan, AllocError>
    requires { ArePlanEntries participants entries.now }
    ensures { IfOk result (λ plan. plan ≡ entries.now) }
{
    let mut plan = Plan::new(alloc);
    for entry in entries {
        plan.add(*entry)?;
    }
    Ok(plan)
}
