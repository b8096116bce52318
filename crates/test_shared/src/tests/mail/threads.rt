//! Two senders and an owner, each on a thread.
ghost use Rattle.std.specs.Prelude.{◌≡◌, ◌≢◌, IfOk};
ghost use Rattle.hp_mail.specs.PassView.{HasNoStrangers, IsOwner, WasInOrder};

use super::{frame_of, said, three};
use hp_base::Action;
use hp_frame::Frame;
use hp_mail::{Mailbox, Pass, Posted};
use std::alloc::{AllocError, Global};
use std::sync::Wait;
use std::test::Fail;
use std::thread;
use std::thread::{Threads, join};

// Posts frames with the numbers below one, each as often as it needs to find room.
fn send<R: Wait>(rt: &R, mailbox: &Mailbox, pass: Pass, sender: u8, count: u32) -> Pass
    requires { pass.mailbox ≡ mailbox.now.id }
    ensures { (result.mailbox ≡ pass.mailbox) × (result.who ≡ pass.who) }
{
    let mut pass = pass;
    let mut next = 0;
    for _ in rt.forever() {
        if next >= count {
            break;
        }
        match mailbox.post(rt, &mut pass, frame_of(sender, next), Action::Deliver) {
            Posted::Sent => next += 1,
            _ => thread::yield_now(),
        }
    }
    pass
}

// What is fetched of two senders: how many frames of each, and whether each is the next one of its sender.
#[derive(Clone, Copy, PartialEq, Eq)]
struct Fetched {
    first: u32,
    second: u32,
    in_order: bool,
}

impl Fetched {
    // One frame more.
    fn with(self, frame: &Frame) -> Fetched {
        match said(frame) {
            Some((0, number)) => Fetched {
                first: self.first.saturating_add(1),
                in_order: self.in_order && number == self.first,
                ..self
            },
            Some((1, number)) => Fetched {
                second: self.second.saturating_add(1),
                in_order: self.in_order && number == self.second,
                ..self
            },
            _ => Fetched {
                in_order: false,
                ..self
            },
        }
    }
}

// Fetches until that many frames have come of each sender, or one that was not next.
fn receive<R: Wait>(rt: &R, mailbox: &Mailbox, owner: Pass, count: u32) -> (Pass, Fetched)
    requires { (owner.mailbox ≡ mailbox.now.id) × IsOwner owner }
    ensures { (result.0.mailbox ≡ owner.mailbox) × (result.0.who ≡ owner.who) × IsOwner result.0 }
{
    let mut owner = owner;
    let mut fetched = Fetched {
        first: 0,
        second: 0,
        in_order: true,
    };
    for _ in rt.forever() {
        if !fetched.in_order || (fetched.first >= count && fetched.second >= count) {
            break;
        }
        match mailbox.fetch(rt, &mut owner) {
            Some(frame) => fetched = fetched.with(&frame),
            None => thread::yield_now(),
        }
    }
    (owner, fetched)
}

// Two senders post that many frames each, and the owner fetches them all, on three threads.
fn exchanged<R: Threads + Wait + Sync>(
    rt: &R,
    alloc: Global,
    count: u32,
) -> Result<Fetched, AllocError> {
    let (mailbox, passes) = Mailbox::new(alloc, 64, 3, 2)?;
    let Some((first, second, owner)) = three(passes) else {
        return Err(AllocError);
    };
    Ok(by_three(rt, &mailbox, first, second, owner, count))
}

fn by_three<R: Threads + Wait + Sync>(
    rt: &R,
    mailbox: &Mailbox,
    first: Pass,
    second: Pass,
    owner: Pass,
    count: u32,
) -> Fetched
    requires first { (first.mailbox ≡ mailbox.now.id) × (first.who ≢ owner.who) }
    requires second { (second.mailbox ≡ mailbox.now.id) × (second.who ≢ owner.who) }
    requires owner { (owner.mailbox ≡ mailbox.now.id) × IsOwner owner }
{
    let (mut first, (mut second, (mut owner, fetched))) = join(
        rt,
        move || -> Pass
            requires { first.mailbox ≡ mailbox.now.id }
            ensures { (result.mailbox ≡ first.mailbox) × (result.who ≡ first.who) }
        { send(rt, mailbox, first, 0, count) },
        move || -> (Pass, (Pass, Fetched))
            requires second { second.mailbox ≡ mailbox.now.id }
            requires owner { (owner.mailbox ≡ mailbox.now.id) × IsOwner owner }
            ensures second { (result.0.mailbox ≡ second.mailbox) × (result.0.who ≡ second.who) }
            ensures owner { (result.1.0.mailbox ≡ owner.mailbox) × (result.1.0.who ≡ owner.who) × IsOwner result.1.0 }
        { by_two(rt, mailbox, second, owner, count) },
    );
    meet_all(mailbox, &mut owner, &mut first, &mut second);
    fetched
}

// At home the owner's pass meets itself and both others: each frame that it fetched one of the three posted.
fn meet_all(mailbox: &Mailbox, owner: &mut Pass, first: &mut Pass, second: &mut Pass)
    requires first { (first.old.mailbox ≡ mailbox.now.id) × (first.old.who ≢ owner.old.who) }
    requires second { (second.old.mailbox ≡ mailbox.now.id) × (second.old.who ≢ owner.old.who) }
    requires owner { (owner.old.mailbox ≡ mailbox.now.id) × IsOwner owner.old }
    ensures own { WasInOrder owner.old owner.old × HasNoStrangers owner.old }
    ensures first { WasInOrder owner.old first.old }
    ensures second { WasInOrder owner.old second.old }
{
    mailbox.meet_itself(owner);
    mailbox.meet(owner, first);
    mailbox.meet(owner, second);
}

fn by_two<R: Threads + Wait + Sync>(
    rt: &R,
    mailbox: &Mailbox,
    second: Pass,
    owner: Pass,
    count: u32,
) -> (Pass, (Pass, Fetched))
    requires second { second.mailbox ≡ mailbox.now.id }
    requires owner { (owner.mailbox ≡ mailbox.now.id) × IsOwner owner }
    ensures second { (result.0.mailbox ≡ second.mailbox) × (result.0.who ≡ second.who) }
    ensures owner { (result.1.0.mailbox ≡ owner.mailbox) × (result.1.0.who ≡ owner.who) × IsOwner result.1.0 }
{
    join(
        rt,
        move || -> Pass
            requires { second.mailbox ≡ mailbox.now.id }
            ensures { (result.mailbox ≡ second.mailbox) × (result.who ≡ second.who) }
        { send(rt, mailbox, second, 1, count) },
        move || -> (Pass, Fetched)
            requires { (owner.mailbox ≡ mailbox.now.id) × IsOwner owner }
            ensures { (result.0.mailbox ≡ owner.mailbox) × (result.0.who ≡ owner.who) × IsOwner result.0 }
        { receive(rt, mailbox, owner, count) },
    )
}

#[test]
fn what_comes_of_each_sender_is_in_order_and_whole(rt: HostRuntime) -> Result<(), Fail> {
    let whole = Fetched {
        first: 10_000,
        second: 10_000,
        in_order: true,
    };
    assert!(rt; exchanged(&rt, rt.alloc(), 10_000)? == whole);
    Ok(())
}
