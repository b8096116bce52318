//! Single steps of a ring's queue.
ghost use Rattle.std.specs.Prelude.{◌≡◌, ◌≤◌, [], ◌∷◌, true, IfSome, IfNone, OnOk, OnErr, vec_capacity};
ghost use Rattle.crossbeam_queue.specs.Fifo.{Held};
ghost use Rattle.crossbeam_queue.specs.Passes.{IsPassOf, IsSamePass, ruled_capacity, view};
ghost use Rattle.hp_ring.specs.Views.{HasAllOf, Shows, after_put, after_take, sender_of};

use crate::bulk::Bulk;
use crate::full::Full;
use crate::roles::{Puts, Queue, Takes, Token};
use std::sync::Wait;
use std::thread;

// Puts a bulk after all others, where there is room.
pub(crate) fn put<R: Wait>(rt: &R, queue: &Queue, token: &mut Token, bulk: Bulk) -> Result<(), Full>
    requires queue { IsPassOf queue.now token.old }
    requires one { (view token.old).senders ≡ sender_of (view token.old) ∷ [] }
    requires from { bulk.sender ≡ (sender_of (view token.old)).who }
    ensures queue { IsSamePass token.old token.new }
    ensures ok { OnOk result (view token.new ≡ after_put bulk (view token.old)) }
    ensures err { OnErr result ((view token.new ≡ view token.old)
        × Held (ruled_capacity queue.now) (Shows (view token.old))) }
{
    match queue.push_as::<Puts, R>(rt, token, bulk) {
        Ok(()) => Ok(()),
        Err(_) => Err(Full),
    }
}

// Takes the first bulk, where there is one.
pub(crate) fn take<R: Wait>(rt: &R, queue: &Queue, token: &mut Token) -> Option<Bulk>
    requires queue { IsPassOf queue.now token.old }
    requires takes { (view token.old).takes ≡ true }
    ensures queue { IsSamePass token.old token.new }
    ensures some { IfSome result (λ bulk. view token.new ≡ after_take bulk (view token.old)) }
    ensures none { IfNone result ((view token.new ≡ view token.old) × Held 0 (Shows (view token.old))) }
{
    queue.pop_as::<Takes, R>(rt, token)
}

// Takes all bulks into a vector with room for them, by the only pass: at most as many as the queue has room for, and then there is none.
pub(crate) fn take_all<R: Wait>(rt: &R, queue: &Queue, token: &mut Token, left: &mut Vec<Bulk>)
    requires queue { IsPassOf queue.now token.old }
    requires takes { (view token.old).takes ≡ true }
    requires none { left.old.items ≡ [] }
    requires room { ruled_capacity queue.now ≤ vec_capacity left.old }
    ensures { HasAllOf (view token.old) left.new.items }
{
    while left.len() < queue.capacity() {
        let Some(bulk) = take(rt, queue, token) else {
            return;
        };
        left.push_reserved(bulk);
    }
    see_empty(rt, queue, token);
}

// Looks until the queue is empty. By then it is, where no other pass puts anything.
fn see_empty<R: Wait>(rt: &R, queue: &Queue, token: &mut Token)
    requires { IsPassOf queue.now token.old }
    ensures same { view token.new ≡ view token.old }
    ensures empty { Held 0 (Shows (view token.old)) }
{
    for _ in rt.forever() {
        if queue.is_empty_as::<Takes>(token) {
            return;
        }
        thread::yield_now();
    }
    unreachable!()
}
