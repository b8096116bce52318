//! What a worker of an exercise does.
ghost use Rattle.std.specs.Prelude.{◌≡◌};
ghost use Rattle.hp_mempool.specs.PassView.{IsOf};
ghost use Rattle.hp_mempool.specs.Working.{HasAllCached, IsFresh};

use crate::gate::Gate;
use crate::pool::Pool;
use crate::pool_pass::PoolPass;
use std::sync::Wait;
use std::thread;

// So many rounds, and then the cache goes back to the pool.
pub(crate) fn work<R: Wait, G: Gate>(
    rt: &R,
    pool: &Pool,
    pass: PoolPass,
    worker: u8,
    rounds: u32,
    gate: &G,
) -> PoolPass
    requires { IsFresh pool.now pass }
    ensures { result ≡ pass }
{
    let mut pass = pass;
    for round in 0..rounds {
        get_and_put(rt, pool, &mut pass, worker, round, gate);
    }
    pool.flush(rt, &mut pass);
    pass
}

// Gets an object, where there is one, and puts it once the gate is open.
fn get_and_put<R: Wait, G: Gate>(
    rt: &R,
    pool: &Pool,
    pass: &mut PoolPass,
    worker: u8,
    round: u32,
    gate: &G,
)
    requires pool { IsOf pass.old pool.now }
    requires cached { HasAllCached pass.old }
    ensures cached { HasAllCached pass.new }
    ensures same { pass.new ≡ record pass.old { cached = pass.new.cached; has = pass.new.has } }
{
    if let Some(obj) = pool.get(rt, pass) {
        wait_for(rt, worker, round, gate);
        pool.put(rt, pass, obj);
    }
}

// Asks the gate until it is open.
fn wait_for<R: Wait, G: Gate>(rt: &R, worker: u8, round: u32, gate: &G) {
    for _ in rt.forever() {
        if gate.ready(worker, round) {
            return;
        }
        thread::yield_now();
    }
}
