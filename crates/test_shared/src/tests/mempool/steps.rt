//! What one worker gets and puts, and how many objects its cache has then.
ghost use Rattle.std.specs.Prelude.{OnOk, map};
ghost use Rattle.hp_mempool.specs.PassView.{AreOut, IsOf};

use super::opened;
use hp_mempool::{Obj, Pool, PoolPass};
use std::alloc::{AllocError, Global};
use std::sync::Wait;
use std::test::Fail;

#[derive(Clone, Copy)]
enum Step {
    // Gets an object with this number, or none.
    Get(Option<u32>),
    // Puts the object that it got last of those that it has out.
    Put,
    Flush,
}

// By a pass with a cache for two of three objects: half of it is one.
const STEPS: [(Step, usize); 13] = [
    (Step::Get(Some(0)), 1),
    (Step::Put, 2),
    (Step::Get(Some(0)), 1),
    (Step::Get(Some(1)), 0),
    (Step::Get(Some(2)), 0),
    (Step::Get(None), 0),
    (Step::Put, 1),
    (Step::Put, 2),
    // The cache is full with 2 and 1: 2 and then 0 go to the queue.
    (Step::Put, 1),
    (Step::Get(Some(1)), 0),
    (Step::Get(Some(2)), 1),
    (Step::Flush, 0),
    (Step::Get(Some(0)), 0),
];

// Gets an object, and says which.
fn get_next<R: Wait>(
    rt: &R,
    pool: &Pool,
    pass: &mut PoolPass,
    out: &mut Vec<Obj>,
) -> Result<Option<u32>, AllocError>
    requires of { IsOf pass.old pool.now }
    requires out { AreOut pass.old (map (λ obj. obj.number) out.old.items) }
    ensures of { IsOf pass.new pool.now }
    ensures out { OnOk result (AreOut pass.new (map (λ obj. obj.number) out.new.items)) }
{
    let Some(obj) = pool.get(rt, pass) else {
        return Ok(None);
    };
    let number = obj.number();
    out.push(obj)?;
    Ok(Some(number))
}

// Puts the last object that is out.
fn put_last<R: Wait>(rt: &R, pool: &Pool, pass: &mut PoolPass, out: &mut Vec<Obj>)
    requires of { IsOf pass.old pool.now }
    requires out { AreOut pass.old (map (λ obj. obj.number) out.old.items) }
    ensures of { IsOf pass.new pool.now }
    ensures out { AreOut pass.new (map (λ obj. obj.number) out.new.items) }
{
    if let Some(obj) = out.pop() {
        pool.put(rt, pass, obj);
    }
}

// Whether a step gives what it is to give.
fn do_step<R: Wait>(
    rt: &R,
    pool: &Pool,
    pass: &mut PoolPass,
    out: &mut Vec<Obj>,
    step: Step,
) -> Result<bool, AllocError>
    requires of { IsOf pass.old pool.now }
    requires out { AreOut pass.old (map (λ obj. obj.number) out.old.items) }
    ensures of { IsOf pass.new pool.now }
    ensures out { OnOk result (AreOut pass.new (map (λ obj. obj.number) out.new.items)) }
{
    match step {
        Step::Get(wanted) => Ok(get_next(rt, pool, pass, out)? == wanted),
        Step::Put => {
            put_last(rt, pool, pass, out);
            Ok(true)
        }
        Step::Flush => {
            pool.flush(rt, pass);
            Ok(true)
        }
    }
}

// Whether each step does, and leaves so many objects in the cache.
fn do_steps<R: Wait>(
    rt: &R,
    alloc: Global,
    pool: &Pool,
    pass: PoolPass,
    steps: &[(Step, usize)],
) -> Result<bool, AllocError>
    requires { IsOf pass pool.now }
{
    let mut pass = pass;
    let mut out = Vec::new(alloc);
    for (step, cached) in steps {
        if !do_step(rt, pool, &mut pass, &mut out, *step)? || pass.cached() != *cached {
            return Ok(false);
        }
    }
    Ok(true)
}

fn plays<R: Wait>(rt: &R, alloc: Global) -> Result<bool, Fail> {
    let Ok((pool, pass)) = opened(alloc, 2) else {
        return Ok(false);
    };
    Ok(do_steps(rt, alloc, &pool, pass, &STEPS)?)
}

#[test]
fn gives_the_newest_of_a_cache_and_the_oldest_to_the_queue(rt: HostRuntime) -> Result<(), Fail> {
    assert!(rt; plays(&rt, rt.alloc())?);
    Ok(())
}
