//! A pool in a zone at 0x1001ffd80 of 640 bytes, with objects of 100 bytes.
ghost use Rattle.std.specs.Prelude.{◌≡◌, ◌+◌, ◌≤◌, ◌^◌, IfOk};
ghost use Rattle.hp_mempool.specs.PassView.{IsOf, first_pass};

use hp_base::Name;
use hp_mempool::{Pool, PoolFault, PoolPass};
use hp_zone::Zone;
use std::alloc::Global;
use std::sync::Wait;
use std::test::Fail;

mod exercises;
mod steps;

fn zone() -> Zone
    ensures { result.addr + result.len ≤ 2 ^ 63 }
{
    let Some(name) = Name::new(b"MP") else {
        unreachable!()
    };
    Zone {
        name,
        addr: 0x1_001f_fd80,
        len: 640,
        socket: 0,
        heap: 0,
    }
}

// A pool of three objects, and its pass.
fn opened(alloc: Global, cache: u32) -> Result<(Pool, PoolPass), PoolFault>
    ensures { IfOk result (λ made. made.1 ≡ first_pass made.0 cache) }
{
    Pool::new(alloc, &zone(), 3, 100, cache)
}

// The addresses of what is got four times, with 0 for nothing.
fn got<R: Wait>(rt: &R, pool: &Pool, pass: &mut PoolPass) -> [u64; 4]
    requires { IsOf pass.old pool.now }
{
    let mut addresses = [0; 4];
    for place in 0..4 {
        if let Some(obj) = pool.get(rt, pass) {
            addresses[place] = obj.addr();
        }
    }
    addresses
}

// The addresses of a pool of three objects without a cache, and how many objects are cached after that.
fn played<R: Wait>(rt: &R, alloc: Global) -> Result<([u64; 4], usize), PoolFault> {
    let (pool, mut pass) = opened(alloc, 0)?;
    let addresses = got(rt, &pool, &mut pass);
    Ok((addresses, pass.cached()))
}

#[test]
fn gives_three_objects(rt: HostRuntime) -> Result<(), Fail> {
    let wanted = ([0x1_001f_fdc0, 0x1_001f_fe80, 0x1_001f_ff40, 0], 0);
    assert!(rt; played(&rt, rt.alloc()) == Ok(wanted));
    Ok(())
}

// A pool that is asked for, and the fault that refuses it.
struct Asked {
    n: u32,
    size: u64,
    cache: u32,
    fault: PoolFault,
}

const ASKED: [Asked; 7] = [
    Asked {
        n: 4,
        size: 100,
        cache: 0,
        fault: PoolFault::TooSmall {
            have: 640,
            need: 768,
        },
    },
    Asked {
        n: 1,
        size: 577,
        cache: 0,
        fault: PoolFault::TooSmall {
            have: 640,
            need: 704,
        },
    },
    Asked {
        n: 0,
        size: 0,
        cache: 513,
        fault: PoolFault::BadCount { n: 0 },
    },
    Asked {
        n: 65_537,
        size: 0,
        cache: 513,
        fault: PoolFault::BadCount { n: 65_537 },
    },
    Asked {
        n: 4,
        size: 0,
        cache: 513,
        fault: PoolFault::BadSize { size: 0 },
    },
    Asked {
        n: 4,
        size: 65_537,
        cache: 513,
        fault: PoolFault::BadSize { size: 65_537 },
    },
    Asked {
        n: 4,
        size: 100,
        cache: 513,
        fault: PoolFault::BadCache { cache: 513 },
    },
];

// Whether the pool is refused so.
fn is_refused(alloc: Global, asked: &Asked) -> bool {
    match Pool::new(alloc, &zone(), asked.n, asked.size, asked.cache) {
        Ok(_) => false,
        Err(fault) => fault == asked.fault,
    }
}

#[test]
fn names_the_first_fault(rt: HostRuntime) -> Result<(), Fail> {
    for asked in &ASKED {
        assert!(rt; is_refused(rt.alloc(), asked));
    }
    Ok(())
}
