//! The polls of participant 0: when it makes one, and what it does at an empty mailbox.
ghost use Rattle.std.specs.Prelude.{◌≡◌, ℕ, ◌+◌, ◌-◌, ◌*◌, ◌^◌, ◌<◌, ◌≤◌, Bool, List, ◌∷◌, true, false, Ok, Some, OnOk, is_ok};
ghost use Rattle.std.specs.Result.{result_ok};
ghost use Rattle.hp_core.specs.declared.event.CoreEvent.TheVariants.{Poll};
ghost use Rattle.hp_hall.specs.Mail.{MailStep, Notes};
ghost use Rattle.hp_hall.specs.declared.note.Note.{Note};
ghost use Rattle.hp_serve.specs.Coordinating.{IsPolled, IsRested, core_holds};
ghost use Rattle.hp_serve.specs.Falling.{IsDue, served_of};
ghost use Rattle.hp_serve.specs.Party.{due_in};
ghost use Rattle.hp_serve.specs.Serving.{answer_after};
ghost use Rattle.hp_hall.specs.HallState.{Did};
ghost use Rattle.hp_serve.specs.InHall.{CanCoordinate, StaysAlone, left_to_do};

use super::Server;
use crate::polling::{is_due, load_acks};
use hp_base::{Judge, Mapper};
use hp_core::CoreEvent;
use hp_hall::Hall;
use std::alloc::AllocError;

impl<'p, M: Mapper> Server<'p, M> {
    // A poll at this reading of the clock: of the round under way, or for a held ask.
    pub(super) fn poll<H: Hall, J: Judge>(
        &mut self,
        hall: &mut H,
        now: u64,
        judge: &J,
    ) -> Result<(), AllocError>
        requires may_ask { J.may_ask judge.now }
        requires can { CanCoordinate self.old (H.state hall.old) }
        ensures polled { (steps : List MailStep) × Did 0 steps (H.state hall.old) (H.state hall.new)
            × IsPolled (J.denies judge.now) (H.state hall.old).count now self.old self.new steps (is_ok result) }
        ensures measure { left_to_do H.scale H.pending self.new (H.state hall.new)
            ≤ left_to_do H.scale H.pending self.old (H.state hall.old) }
        ensures due { ((acks : List ℕ) → IsDue self.old.core (Poll now acks))
            → OnOk result (left_to_do H.scale H.pending self.new (H.state hall.new) + H.scale * 1
            ≤ left_to_do H.scale H.pending self.old (H.state hall.old)) }
        ensures alone { StaysAlone 0 self.old self.new (H.state hall.old) (H.state hall.new) }
        ensures goes_on { H.goes_on hall.old hall.new }
    {
        let acks = load_acks(hall);
        self.handle(hall, CoreEvent::Poll { now, acks }, judge)
    }

    // A poll at the present reading of the clock.
    pub(super) fn poll_now<H: Hall, J: Judge>(
        &mut self,
        hall: &mut H,
        judge: &J,
    ) -> Result<(), AllocError>
        requires may_ask { J.may_ask judge.now }
        requires can { CanCoordinate self.old (H.state hall.old) }
        ensures polled { (now : ℕ) × (steps : List MailStep)
            × Did 0 (Notes (Note.Read now) ∷ steps) (H.state hall.old) (H.state hall.new)
            × IsPolled (J.denies judge.now) (H.state hall.old).count now self.old self.new steps (is_ok result) }
        ensures measure { left_to_do H.scale H.pending self.new (H.state hall.new)
            ≤ left_to_do H.scale H.pending self.old (H.state hall.old) }
        ensures alone { StaysAlone 0 self.old self.new (H.state hall.old) (H.state hall.new) }
        ensures goes_on { H.goes_on hall.old hall.new }
    {
        let now = hall.now(0);
        self.poll(hall, now, judge)
    }

    // Whether a poll is due at a reading of the clock.
    fn is_due(&self, now: u64) -> bool
        ensures due { result ≡ true → (acks : List ℕ) → IsDue self.now.core (Poll now acks) }
        ensures rests { result ≡ false → core_holds self.now.core ≡ false }
        ensures early { result ≡ false → (deadline : ℕ) → due_in self.now.core ≡ Some deadline → deadline < 2 ^ 64 - 1
            → now < deadline }
    {
        is_due(&self.coordinator, now)
    }

    // A poll that is due at this reading of the clock.
    fn poll_due<H: Hall, J: Judge>(
        &mut self,
        hall: &mut H,
        now: u64,
        judge: &J,
    ) -> Result<bool, AllocError>
        requires may_ask { J.may_ask judge.now }
        requires can { CanCoordinate self.old (H.state hall.old) }
        requires due { (acks : List ℕ) → IsDue self.old.core (Poll now acks) }
        ensures polled { (goes : Bool) × (steps : List MailStep) × Did 0 steps (H.state hall.old) (H.state hall.new)
            × IsPolled (J.denies judge.now) (H.state hall.old).count now self.old self.new steps goes
            × (result_ok result ≡ answer_after goes) }
        ensures measure { left_to_do H.scale H.pending self.new (H.state hall.new) + H.scale * served_of result
            ≤ left_to_do H.scale H.pending self.old (H.state hall.old) }
        ensures moves { result ≡ Ok false → ⊥ }
        ensures alone { StaysAlone 0 self.old self.new (H.state hall.old) (H.state hall.new) }
        ensures goes_on { H.goes_on hall.old hall.new }
    {
        self.poll(hall, now, judge)?;
        Ok(true)
    }

    // What it does at an empty mailbox: a poll, where one is due.
    pub(super) fn rest<H: Hall, J: Judge>(
        &mut self,
        hall: &mut H,
        judge: &J,
    ) -> Result<bool, AllocError>
        requires may_ask { J.may_ask judge.now }
        requires can { CanCoordinate self.old (H.state hall.old) }
        ensures rested { (steps : List MailStep) × Did 0 steps (H.state hall.old) (H.state hall.new)
            × IsRested (J.denies judge.now) (H.state hall.old).count self.old self.new steps (result_ok result) }
        ensures measure { left_to_do H.scale H.pending self.new (H.state hall.new) + H.scale * served_of result
            ≤ left_to_do H.scale H.pending self.old (H.state hall.old) }
        ensures rests { result ≡ Ok false → (deadline : ℕ) → due_in self.new.core ≡ Some deadline → deadline < 2 ^ 64 - 1
            → H.pending (H.state hall.new).clock deadline ≡ H.scale }
        ensures alone { StaysAlone 0 self.old self.new (H.state hall.old) (H.state hall.new) }
        ensures goes_on { H.goes_on hall.old hall.new }
    {
        let now = hall.now(0);
        if self.is_due(now) {
            return self.poll_due(hall, now, judge);
        }
        Ok(false)
    }
}
