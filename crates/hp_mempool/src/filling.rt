//! The queue of a new pool.
ghost use Rattle.std.specs.Prelude.{◌≡◌, ◌<◌, [], IfOk, IfSome, OnOk};
ghost use Rattle.crossbeam_queue.specs.Passes.{IsPassOf, ruled_capacity, view};
ghost use Rattle.hp_mempool.specs.Views.{first_view};

use crate::roles::{Fills, Queue, Token};
use std::alloc::{AllocError, Global};

// A queue with that many numbers, from 0 up, and the first pass.
pub(crate) fn filled(alloc: Global, n: u32) -> Result<(Queue, Token), AllocError>
    requires { 0 < n }
    ensures capacity { IfOk result (λ made. ruled_capacity made.0 ≡ n) }
    ensures pass { IfOk result (λ made. IsPassOf made.0 made.1) }
    ensures first { IfOk result (λ made. view made.1 ≡ first_view n) }
{
    let (queue, mut first) = Queue::ruled(alloc, n as usize)?;
    fill(&queue, &mut first, n)?;
    Ok((queue, first))
}

// Puts that many numbers into an empty queue, by the only pass. No other thread has one, so none is in the way.
fn fill(queue: &Queue, first: &mut Token, n: u32) -> Result<(), AllocError>
    requires queue { IsPassOf queue.now first.old }
    requires empty { view first.old ≡ first_view 0 }
    ensures queue { IsPassOf queue.now first.new }
    ensures filled { OnOk result (view first.new ≡ first_view n) }
{
    for number in 0..n {
        if queue.try_push_as::<Fills>(first, number).is_err() {
            return Err(AllocError);
        }
    }
    Ok(())
}
