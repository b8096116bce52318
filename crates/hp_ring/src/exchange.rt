//! Two senders and a taker, each on a thread of its own.
ghost use Rattle.std.specs.Prelude.{◌≡◌, []};
ghost use Rattle.hp_ring.specs.Exchange.{AreFresh, HasExchanged};
ghost use Rattle.hp_ring.specs.PassViews.{WasInOrder};
ghost use Rattle.hp_ring.specs.Taking.{HasTaken, HasTakenAll};
ghost use Rattle.hp_ring.specs.Weave.{AreSent};

use crate::ring::Ring;
use crate::send_pass::SendPass;
use crate::sending::send;
use crate::taking::{Taken, take_both};
use std::sync::Wait;
use std::thread::{Threads, join};

// The words that each sender is to put.
#[derive(Drop)]
pub(crate) struct Words {
    pub(crate) odd: Vec<u64>,
    pub(crate) even: Vec<u64>,
}

// The senders put their words, and the taker takes them all.
pub(crate) fn exchange<R: Threads + Wait + Sync>(
    rt: &R,
    ring: &Ring,
    first: SendPass,
    second: SendPass,
    taken: Taken,
    words: &Words,
) -> (SendPass, SendPass, Taken)
    requires fresh { AreFresh ring.now first second taken }
    ensures { HasExchanged first second words.now.odd.items words.now.even.items result.0 result.1 result.2 }
{
    let odd = words.odd.as_slice();
    let even = words.even.as_slice();
    let (first, (second, taken)) = by_three(rt, ring, first, second, taken, odd, even);
    compared(ring, first, second, taken)
}

// The first sender, and beside it the second one and the taker.
fn by_three<R: Threads + Wait + Sync>(
    rt: &R,
    ring: &Ring,
    first: SendPass,
    second: SendPass,
    taken: Taken,
    odd: &[u64],
    even: &[u64],
) -> (SendPass, (SendPass, Taken))
    requires first { (first.ring ≡ ring.now.id) × (first.sent ≡ []) }
    requires second { (second.ring ≡ ring.now.id) × (second.sent ≡ []) }
    requires taken { (taken.pass.ring ≡ ring.now.id) × HasTaken taken }
    ensures first { (result.0.ring ≡ first.ring) × (result.0.who ≡ first.who) × AreSent first.who odd.now result.0.sent }
    ensures second { (result.1.0.ring ≡ second.ring) × (result.1.0.who ≡ second.who)
        × AreSent second.who even.now result.1.0.sent }
    ensures taken { (result.1.1.pass.ring ≡ taken.pass.ring) × HasTakenAll result.1.1 }
{
    join(
        rt,
        move || -> SendPass
            requires { (first.ring ≡ ring.now.id) × (first.sent ≡ []) }
            ensures { (result.ring ≡ first.ring) × (result.who ≡ first.who) × AreSent first.who odd.entry.now result.sent }
        { send(rt, ring, first, odd) },
        move || -> (SendPass, Taken)
            requires { (second.ring ≡ ring.now.id) × (second.sent ≡ []) × (taken.pass.ring ≡ ring.now.id) × HasTaken taken }
            ensures { (result.0.ring ≡ second.ring) × (result.0.who ≡ second.who) × AreSent second.who even.entry.now result.0.sent
                × (result.1.pass.ring ≡ taken.pass.ring) × HasTakenAll result.1 }
        { by_two(rt, ring, second, taken, even) },
    )
}

// The second sender and the taker.
fn by_two<R: Threads + Wait + Sync>(
    rt: &R,
    ring: &Ring,
    second: SendPass,
    taken: Taken,
    even: &[u64],
) -> (SendPass, Taken)
    requires second { (second.ring ≡ ring.now.id) × (second.sent ≡ []) }
    requires taken { (taken.pass.ring ≡ ring.now.id) × HasTaken taken }
    ensures second { (result.0.ring ≡ second.ring) × (result.0.who ≡ second.who) × AreSent second.who even.now result.0.sent }
    ensures taken { (result.1.pass.ring ≡ taken.pass.ring) × HasTakenAll result.1 }
{
    join(
        rt,
        move || -> SendPass
            requires { (second.ring ≡ ring.now.id) × (second.sent ≡ []) }
            ensures { (result.ring ≡ second.ring) × (result.who ≡ second.who) × AreSent second.who even.entry.now result.sent }
        { send(rt, ring, second, even) },
        move || -> Taken
            requires { (taken.pass.ring ≡ ring.now.id) × HasTaken taken }
            ensures { (result.pass.ring ≡ taken.pass.ring) × HasTakenAll result }
        { take_both(rt, ring, taken) },
    )
}

// Compares what was taken with what was put. Nothing changes.
fn compared(
    ring: &Ring,
    first: SendPass,
    second: SendPass,
    taken: Taken,
) -> (SendPass, SendPass, Taken)
    requires ring { (first.ring ≡ ring.now.id) × (second.ring ≡ ring.now.id) × (taken.pass.ring ≡ ring.now.id) }
    ensures same { (result.0 ≡ first) × (result.1 ≡ second) × (result.2 ≡ taken) }
    ensures first { WasInOrder taken.pass first }
    ensures second { WasInOrder taken.pass second }
{
    let mut first = first;
    let mut second = second;
    let mut taken = taken;
    ring.meet(&mut taken.pass, &mut first);
    ring.meet(&mut taken.pass, &mut second);
    (first, second, taken)
}
