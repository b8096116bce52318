//! The passes of all participants to each mailbox, which meet there once all have come home.
ghost use Rattle.std.specs.Prelude.{◌≡◌, ◌<◌, IfOk, OnOk, Some, drop, length, map, slice_get};
ghost use Rattle.std.specs.List.{All};
ghost use Rattle.hp_mail.specs.PassView.{IsOwner, WasInOrder};
ghost use Rattle.hp_threads.specs.Meeting.{CanMeet, CanMeetAt, HaveMet, HaveMetAt, IsOthers};

use crate::passes::Passes;
use hp_mail::{Mailbox, Pass};
use std::alloc::{AllocError, Global};

// The first pass of each, and what each has after it.
fn parted(alloc: Global, all_passes: Vec<Passes>) -> Result<(Vec<Pass>, Vec<Passes>), AllocError>
    requires some { All (λ passes. 0 < length passes) all_passes.items }
    ensures firsts { IfOk result (λ both. map Some both.0.items ≡ map (λ passes. slice_get passes 0) all_passes.items) }
    ensures rest { IfOk result (λ both. both.1.items ≡ map (drop 1) all_passes.items) }
{
    let mut all_passes = all_passes;
    let mut firsts = Vec::with_capacity(alloc, all_passes.len())?;
    let mut rest = Vec::with_capacity(alloc, all_passes.len())?;
    while !all_passes.is_empty() {
        let mut passes = all_passes.remove(0);
        firsts.push_reserved(passes.take_first());
        rest.push_reserved(passes);
    }
    Ok((firsts, rest))
}

// The owner's pass meets that of another one.
fn meet_one(mailbox: &Mailbox, own: &mut Pass, pass: Pass)
    requires owner { (own.old.mailbox ≡ mailbox.now.id) × IsOwner own.old }
    requires others { IsOthers mailbox.now own.old pass }
    ensures met { WasInOrder own.old pass }
    ensures same { own.new ≡ own.old }
{
    let mut pass = pass;
    mailbox.meet(own, &mut pass);
}

// The owner's pass meets those of all the others.
fn meet_others(mailbox: &Mailbox, own: &mut Pass, passes: Vec<Pass>)
    requires owner { (own.old.mailbox ≡ mailbox.now.id) × IsOwner own.old }
    requires others { All (IsOthers mailbox.now own.old) passes.items }
    ensures { All (WasInOrder own.old) passes.items }
{
    let mut passes = passes;
    while !passes.is_empty() {
        meet_one(mailbox, own, passes.remove(0));
    }
}

// At one mailbox the owner's pass meets itself, and then those of all the others.
fn meet_at(mailbox: &Mailbox, owner: usize, passes: Vec<Pass>)
    requires { CanMeetAt mailbox.now owner passes.items }
    ensures { HaveMetAt owner passes.items }
{
    let mut passes = passes;
    let mut own = passes.remove(owner);
    mailbox.meet_itself(&mut own);
    meet_others(mailbox, &mut own, passes);
}

/// Each participant's pass to its own mailbox meets itself there, and then those of all the others. It is refused where memory is.
pub fn meet_all(alloc: Global, boxes: &[Mailbox], all_passes: Vec<Passes>) -> Result<(), AllocError>
    requires { CanMeet boxes.now all_passes.items }
    ensures { OnOk result (HaveMet all_passes.items) }
{
    let mut left = all_passes;
    for owner in 0..boxes.len() {
        let mailbox = &boxes[owner];
        let (passes, rest) = parted(alloc, left)?;
        meet_at(mailbox, owner, passes);
        left = rest;
    }
    Ok(())
}
