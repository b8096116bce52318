ghost use Rattle.std.specs.Prelude.{◌≡◌, ◌≤◌, ◌<◌, length, IfOk, IfErr, IfSome, IfNone, OnOk, OnErr};
ghost use Rattle.hp_ring.specs.declared.bulk.TheConstants.{MAX_WORDS};
ghost use Rattle.hp_ring.specs.Asked.{IsAcceptable, IsFirstFault, asked_of};
ghost use Rattle.hp_ring.specs.Bulks.{bulk};
ghost use Rattle.hp_ring.specs.PassViews.{AreSenders, HaveAll, IsMade, WasEmpty, WasFull, WasInOrder, after_put, after_take, new_senders, new_taker};

use crate::bulk::Bulk;
use crate::dealing::{compare, deal, gather};
use crate::fault::RingFault;
use crate::full::Full;
use crate::judging::judge;
use crate::roles::Queue;
use crate::send_pass::SendPass;
use crate::steps::{put, take, take_all};
use crate::take_pass::TakePass;
use hp_base::Name;
use hp_zone::Zone;
use std::alloc::{AllocError, Global};
use std::marker::Model;
use std::sync::Wait;

/// A ring of bulks in a memzone, by whose name it goes. Its senders and its taker share it. After rte_ring.
#[derive(Drop)]
pub struct Ring {
    queue: Queue,
    name: Name,
    senders: u8,
    // Room for the bulks that `close` gives.
    left: Vec<Bulk>,
}

impl Model for Ring {
    ghost use Rattle.hp_ring.specs.PassViews.{RingView};

    ghost Value = { RingView };

    ghost use Rattle.hp_ring.specs.RingInside.{ring_view, IsRing};

    ghost view = { ring_view };

    ghost invariant = { IsRing };
}

impl Ring {
    /// A ring in a zone, with room for so many bulks, a pass for each sender, by number, and the taker's. The first fault in the order of
    /// `RingFault` refuses it. After rte_ring_create.
    pub fn new(
        alloc: Global,
        zone: &Zone,
        slots: u32,
        senders: u8,
    ) -> Result<(Ring, Vec<SendPass>, TakePass), RingFault>
        ensures made { IfOk result (λ made. IsMade made.0 zone.now.name slots senders) }
        ensures senders { IfOk result (λ made. made.1.items ≡ new_senders made.0) }
        ensures taker { IfOk result (λ made. made.2 ≡ new_taker made.0.id) }
        ensures acceptable { OnOk result (IsAcceptable (asked_of slots senders zone.now.len)) }
        ensures refused { IfErr result (IsFirstFault (asked_of slots senders zone.now.len)) }
    {
        judge(zone.len, slots, senders)?;
        match made(alloc, zone.name, slots, senders) {
            Ok(made) => Ok(made),
            Err(_) => Err(RingFault::OutOfMemory),
        }
    }

    /// Puts words as one bulk after all others, whole, or none of them where there is no room. After rte_ring_enqueue_bulk.
    pub fn put<R: Wait>(&self, rt: &R, pass: &mut SendPass, words: &[u64]) -> Result<(), Full>
        requires ring { pass.old.ring ≡ self.now.id }
        requires few { length words.now ≤ MAX_WORDS }
        ensures put { OnOk result (pass.new ≡ after_put (bulk pass.old.who words.now) pass.old) }
        ensures full { OnErr result ((pass.new ≡ pass.old) × WasFull self.now pass.old) }
    {
        put(rt, &self.queue, &mut pass.token, Bulk::new(pass.who, words))
    }

    /// Takes the first bulk, where there is one. After rte_ring_dequeue.
    pub fn take<R: Wait>(&self, rt: &R, pass: &mut TakePass) -> Option<Bulk>
        requires ring { pass.old.ring ≡ self.now.id }
        ensures some { IfSome result (λ bulk. pass.new ≡ after_take bulk pass.old) }
        ensures none { IfNone result ((pass.new ≡ pass.old) × WasEmpty pass.old) }
    {
        take(rt, &self.queue, &mut pass.token)
    }

    /// Compares what was taken of a sender with what it has put, by their passes. Nothing changes. Own.
    pub fn meet(&self, taker: &mut TakePass, sender: &mut SendPass)
        requires taker { taker.old.ring ≡ self.now.id }
        requires sender { sender.old.ring ≡ self.now.id }
        ensures in_order { WasInOrder taker.old sender.old }
        ensures taker_same { taker.new ≡ taker.old }
        ensures sender_same { sender.new ≡ sender.old }
    {
        compare(&self.queue, &mut taker.token, &mut sender.token);
    }

    /// The name of its zone. After the name of rte_ring.
    pub fn name(&self) -> &Name
        ensures { result.now ≡ self.now.name }
    {
        &self.name
    }

    /// Ends the ring by all its passes, and gives what is left, the first bulk first. After rte_ring_free.
    pub fn close<R: Wait>(self, rt: &R, senders: Vec<SendPass>, taker: TakePass) -> Vec<Bulk>
        requires senders { AreSenders self senders.items }
        requires taker { taker.ring ≡ self.id }
        ensures { HaveAll senders.items taker.taken result.items }
    {
        let Ring {
            queue,
            mut left,
            ..
        } = self;
        let TakePass { mut token } = taker;
        gather(&queue, &mut token, senders);
        take_all(rt, &queue, &mut token, &mut left);
        left
    }
}

// A ring, a pass for each sender, and the taker's.
fn made(
    alloc: Global,
    name: Name,
    slots: u32,
    senders: u8,
) -> Result<(Ring, Vec<SendPass>, TakePass), AllocError>
    requires { 0 < slots }
    ensures made { IfOk result (λ made. IsMade made.0 name slots senders) }
    ensures senders { IfOk result (λ made. made.1.items ≡ new_senders made.0) }
    ensures taker { IfOk result (λ made. made.2 ≡ new_taker made.0.id) }
{
    let left = Vec::with_capacity(alloc, slots as usize)?;
    let (queue, mut token) = Queue::ruled(alloc, slots as usize)?;
    let passes = deal(alloc, &queue, &mut token, senders)?;
    let ring = Ring {
        queue,
        name,
        senders,
        left,
    };
    Ok((ring, passes, TakePass { token }))
}
