//! Numbers that go between the queue of a pool and a pass.
ghost use Rattle.std.specs.Prelude.{◌≡◌, ◌≤◌, [], IfSome, IfNone, drop, length, vec_capacity};
ghost use Rattle.crossbeam_queue.specs.Fifo.{Held};
ghost use Rattle.crossbeam_queue.specs.Passes.{IsPassOf, IsSamePass, ruled_capacity, view};
ghost use Rattle.hp_mempool.specs.Views.{CanPut, IsFresh, IsTotal, Refills, Shows, after_get, after_put, after_puts, times};

use crate::roles::{Gets, Puts, Queue, Token};
use std::sync::Wait;

// Puts a number of the pass into the queue. There is room: the queue has a place for each number, and lacks this one.
pub(crate) fn put_number<R: Wait>(rt: &R, queue: &Queue, token: &mut Token, number: u32)
    requires queue { IsPassOf queue.now token.old }
    requires total { IsTotal (ruled_capacity queue.now) (view token.old) }
    requires has { times number (view token.old).has ≡ 1 }
    ensures queue { IsSamePass token.old token.new }
    ensures put { view token.new ≡ after_put number (view token.old) }
{
    let Ok(()) = queue.push_as::<Puts, R>(rt, token, number) else {
        unreachable!()
    };
}

// Puts numbers of the pass into the queue, in their order.
pub(crate) fn put_numbers<R: Wait>(rt: &R, queue: &Queue, token: &mut Token, numbers: &[u32])
    requires queue { IsPassOf queue.now token.old }
    requires may { CanPut (ruled_capacity queue.now) numbers.now (view token.old) }
    ensures queue { IsSamePass token.old token.new }
    ensures put { view token.new ≡ after_puts numbers.now (view token.old) }
{
    for number in numbers {
        put_number(rt, queue, token, *number);
    }
}

// Takes the first number out of the queue, where there is one.
pub(crate) fn get_number<R: Wait>(rt: &R, queue: &Queue, token: &mut Token) -> Option<u32>
    requires queue { IsPassOf queue.now token.old }
    requires total { IsTotal (ruled_capacity queue.now) (view token.old) }
    ensures queue { IsSamePass token.old token.new }
    ensures some { IfSome result (λ number. (view token.new ≡ after_get number (view token.old)) × IsFresh (view token.old) number) }
    ensures none { IfNone result ((view token.new ≡ view token.old) × Held 0 (Shows (view token.old))) }
{
    queue.pop_as::<Gets, R>(rt, token)
}

// Takes numbers out of the queue into an empty cache, up to so many, or until there is none.
pub(crate) fn refill<R: Wait>(
    rt: &R,
    queue: &Queue,
    token: &mut Token,
    cache: &mut Vec<u32>,
    most: usize,
)
    requires queue { IsPassOf queue.now token.old }
    requires total { IsTotal (ruled_capacity queue.now) (view token.old) }
    requires empty { cache.old.items ≡ [] }
    requires room { most ≤ vec_capacity cache.old }
    ensures queue { IsSamePass token.old token.new }
    ensures refilled { Refills most (view token.old) (view token.new) cache.new.items }
    ensures capacity { vec_capacity cache.new ≡ vec_capacity cache.old }
{
    while cache.len() < most {
        let Some(number) = get_number(rt, queue, token) else {
            return;
        };
        cache.push_reserved(number);
    }
}

// Leaves out the oldest numbers of a cache, so many.
pub(crate) fn drop_oldest(cache: &mut Vec<u32>, n: usize)
    requires { n ≤ length cache.old.items }
    ensures rest { cache.new.items ≡ drop n cache.old.items }
    ensures capacity { vec_capacity cache.new ≡ vec_capacity cache.old }
{
    cache.rotate_left(n);
    let rest = cache.len() - n;
    cache.truncate(rest);
}
