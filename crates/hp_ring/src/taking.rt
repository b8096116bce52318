//! A taker of what two senders put.
ghost use Rattle.std.specs.Prelude.{◌≡◌};
ghost use Rattle.hp_ring.specs.Taking.{HasTaken, HasTakenAll, HasTakenBut};

use crate::bulk::Bulk;
use crate::gathering::{Gathered, add};
use crate::ring::Ring;
use crate::take_pass::TakePass;
use crate::waiting::pause;
use std::sync::Wait;

// The taker's pass, and what it has gathered of the first sender and of the second.
#[derive(Drop)]
pub struct Taken {
    pub pass: TakePass,
    pub first: Gathered,
    pub second: Gathered,
}

// Takes until the end of both senders has come.
pub(crate) fn take_both<R: Wait>(rt: &R, ring: &Ring, taken: Taken) -> Taken
    requires ring { taken.pass.ring ≡ ring.now.id }
    requires taken { HasTaken taken }
    ensures ring { result.pass.ring ≡ taken.pass.ring }
    ensures taken { HasTakenAll result }
{
    let mut taken = taken;
    let mut tries = 0;
    for _ in rt.forever() {
        if taken.first.ended && taken.second.ended {
            return taken;
        }
        take_next(rt, ring, &mut taken, &mut tries);
    }
    unreachable!()
}

// Takes a bulk, where there is one.
fn take_next<R: Wait>(rt: &R, ring: &Ring, taken: &mut Taken, tries: &mut u8)
    requires ring { taken.old.pass.ring ≡ ring.now.id }
    requires taken { HasTaken taken.old }
    ensures ring { taken.new.pass.ring ≡ taken.old.pass.ring }
    ensures taken { HasTaken taken.new }
{
    match ring.take(rt, &mut taken.pass) {
        Some(bulk) => gather(taken, &bulk),
        None => pause(tries),
    }
}

// Gathers a bulk that was taken.
fn gather(taken: &mut Taken, bulk: &Bulk)
    requires { HasTakenBut bulk.now taken.old }
    ensures pass { taken.new.pass ≡ taken.old.pass }
    ensures taken { HasTaken taken.new }
{
    let who = bulk.sender();
    if who == 0 {
        add(&mut taken.first, bulk.words());
    } else if who == 1 {
        add(&mut taken.second, bulk.words());
    }
}
