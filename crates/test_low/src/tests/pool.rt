//! Worked values of the pools' calls.
ghost use Rattle.std.specs.Prelude.{◌≡◌, []};

use super::ended;
use Step::*;
use hp_pool::{PoolAddFault, Pools, TakeFault};
use std::alloc::Global;
use std::test::Fail;

const SMALL: u64 = 2 << 20;

const LARGE: u64 = 1 << 30;

// One call on a socket and a page size, with its answer.
#[derive(Clone, Copy)]
enum Step {
    // A pool with so many pages is added.
    Add(u32, u64, u64, Result<(), PoolAddFault>),
    // So many pages are taken.
    Take(u32, u64, u64, Result<(), TakeFault>),
    // So many pages are free.
    Have(u32, u64, Option<u64>),
    // So many pages are free of a pool that is thought to stand at a place.
    HaveAt(usize, u32, u64, Option<u64>),
}

// Whether a step came out as it stands.
fn do_step(pools: &mut Pools, step: Step) -> bool {
    match step {
        Step::Add(socket, page, pages, end) => pools.add(socket, page, pages) == end,
        Step::Take(socket, page, pages, end) => pools.take(socket, page, pages) == end,
        Step::Have(socket, page, have) => pools.have(socket, page) == have,
        Step::HaveAt(place, socket, page, have) => pools.have_at(place, socket, page) == have,
    }
}

fn do_steps(pools: &mut Pools, steps: &[Step]) -> Option<usize> {
    for at in 0..steps.len() {
        if !do_step(pools, steps[at]) {
            return Some(at);
        }
    }
    None
}

// Each step comes out as it stands, from no pools on.
fn play(alloc: Global, steps: &[Step]) -> Result<(), Fail> {
    let mut pools = Pools::new(alloc);
    ended(do_steps(&mut pools, steps))
}

// Pools of two sockets and two page sizes: 4 and 1 pages on socket 0, and 3 on socket 1.
const TWICE: &[Step] = &[
    Add(0, SMALL, 4, Ok(())),
    Add(0, LARGE, 1, Ok(())),
    Add(1, SMALL, 3, Ok(())),
    Add(0, SMALL, 9, Err(PoolAddFault::Exists)),
    Have(0, SMALL, Some(4)),
    Add(1, LARGE, 9, Ok(())),
    Have(1, LARGE, Some(9)),
];

#[test]
fn refuses_one_pool_twice(rt: HostRuntime) -> Result<(), Fail> {
    play(rt.alloc(), TWICE)
}

const TOO_MANY: &[Step] = &[
    Add(0, SMALL, 4, Ok(())),
    Add(0, LARGE, 1, Ok(())),
    Add(1, SMALL, 3, Ok(())),
    Take(0, SMALL, 5, Err(TakeFault::TooFew { have: 4, need: 5 })),
    Have(0, SMALL, Some(4)),
    Take(2, SMALL, 0, Err(TakeFault::NoPool)),
    Take(1, LARGE, 1, Err(TakeFault::NoPool)),
    Have(1, LARGE, None),
];

#[test]
fn refuses_more_pages_than_there_are(rt: HostRuntime) -> Result<(), Fail> {
    play(rt.alloc(), TOO_MANY)
}

// Of pools of 3 small pages on socket 1 and 4 on socket 0 three of these are taken, two more are refused, and two come back: the fault,
// and what is free on the sockets 0 and 1 before they come back.
fn lend(pools: &mut Pools) -> Option<(TakeFault, Option<u64>, Option<u64>)>
    requires { pools.old ≡ [] }
{
    pools.add(1, SMALL, 3).ok()?;
    pools.add(0, SMALL, 4).ok()?;
    pools.take(0, SMALL, 3).ok()?;
    let fault = pools.take(0, SMALL, 2).err()?;
    let have = pools.have(0, SMALL);
    let other = pools.have(1, SMALL);
    pools.give(0, SMALL, 2);
    Some((fault, have, other))
}

// What is lent and comes back is counted so, and each step comes out as it stands then.
fn play_lent(alloc: Global, fault: TakeFault, steps: &[Step]) -> Result<(), Fail> {
    let mut pools = Pools::new(alloc);
    if lend(&mut pools) != Some((fault, Some(1), Some(3))) {
        return Err("what is lent".into());
    }
    ended(do_steps(&mut pools, steps))
}

const COUNTED: &[Step] = &[
    HaveAt(1, 0, SMALL, Some(3)),
    HaveAt(1, 1, SMALL, Some(3)),
    Take(0, SMALL, 3, Ok(())),
    Have(0, SMALL, Some(0)),
];

#[test]
fn counts_what_is_taken_and_given_back(rt: HostRuntime) -> Result<(), Fail> {
    play_lent(rt.alloc(), TakeFault::TooFew { have: 1, need: 2 }, COUNTED)
}
