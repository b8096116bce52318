//! A sender of words.
ghost use Rattle.std.specs.Prelude.{◌≡◌, ◌≤◌, [], length};
ghost use Rattle.hp_ring.specs.declared.bulk.TheConstants.{MAX_WORDS};
ghost use Rattle.hp_ring.specs.Bulks.{bulk};
ghost use Rattle.hp_ring.specs.PassViews.{after_put};
ghost use Rattle.hp_ring.specs.Weave.{AreSent};

use crate::bulk::MAX_WORDS;
use crate::ring::Ring;
use crate::send_pass::SendPass;
use crate::waiting::pause;
use std::sync::Wait;

// Puts words in bulks as large as may be, and then one without words.
pub(crate) fn send<R: Wait>(rt: &R, ring: &Ring, pass: SendPass, words: &[u64]) -> SendPass
    requires ring { pass.ring ≡ ring.now.id }
    requires new { pass.sent ≡ [] }
    ensures ring { (result.ring ≡ pass.ring) × (result.who ≡ pass.who) }
    ensures sent { AreSent pass.who words.now result.sent }
{
    let mut pass = pass;
    let mut at = 0;
    while at < words.len() {
        let (_sent, rest) = words.split_at(at);
        let (next, _later) = rest.split_at(rest.len().min(MAX_WORDS));
        put_whole(rt, ring, &mut pass, next);
        at += next.len();
    }
    put_whole(rt, ring, &mut pass, &[]);
    pass
}

// Puts a bulk, as soon as there is room.
fn put_whole<R: Wait>(rt: &R, ring: &Ring, pass: &mut SendPass, words: &[u64])
    requires ring { pass.old.ring ≡ ring.now.id }
    requires few { length words.now ≤ MAX_WORDS }
    ensures { pass.new ≡ after_put (bulk pass.old.who words.now) pass.old }
{
    let mut tries = 0;
    for _ in rt.forever() {
        match ring.put(rt, pass, words) {
            Ok(()) => return,
            Err(_) => pause(&mut tries),
        }
    }
    unreachable!()
}
