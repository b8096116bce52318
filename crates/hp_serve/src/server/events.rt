//! What participant 0 does for its coordinator: it hands events over, and carries out what is answered.
ghost use Rattle.std.specs.Prelude.{◌≡◌, ◌+◌, ◌*◌, ◌<◌, ◌≤◌, List, true, false, Some, OnOk, is_ok};
ghost use Rattle.std.specs.Result.{result_ok};
ghost use Rattle.hp_core.specs.Conditions.{NamesParticipants};
ghost use Rattle.hp_core.specs.Core.{Core};
ghost use Rattle.hp_hall.specs.Mail.{MailStep};
ghost use Rattle.hp_serve.specs.Coordinating.{Hands, IsCarried, IsHandled, IsMapped, IsOutside, IsTrueOf, MustMap, with_core};
ghost use Rattle.hp_serve.specs.Falling.{IsDue, brought, out_measure};
ghost use Rattle.hp_serve.specs.Party.{Party};
ghost use Rattle.hp_serve.specs.Posting.{IsPosted, IsSpoken, result_body};
ghost use Rattle.hp_frame.specs.Spelling.{HasFieldValues};
ghost use Rattle.hp_hall.specs.HallState.{Did, known_to};
ghost use Rattle.hp_serve.specs.InHall.{CanCoordinate, StaysAlone, left_to_do};

use super::Server;
use crate::framing::framed;
use crate::mapping::map_self;
use crate::posting::{post_next, result_of, tell_all};
use crate::step::take_and_hand;
use hp_base::{Judge, Mapper, MsgKind};
use hp_core::{CoreEvent, Out};
use hp_hall::Hall;
use std::alloc::AllocError;

// Whether participant 0 is told to catch up.
fn must_map(answer: &Out) -> bool
    ensures told { result ≡ true → MustMap answer.now }
    ensures other { result ≡ false → MustMap answer.now → ⊥ }
{
    match answer {
        Out::MapSelf { .. } => true,
        Out::Nothing | Out::Sync { .. } | Out::Answer { .. } => false,
    }
}

impl<'p, M: Mapper> Server<'p, M> {
    // Hands the coordinator an event.
    fn hand_event<H: Hall, J: Judge>(
        &mut self,
        hall: &mut H,
        event: CoreEvent,
        judge: &J,
    ) -> Result<Out, AllocError>
        requires may_ask { J.may_ask judge.now }
        requires can { CanCoordinate self.old (H.state hall.old) }
        requires names { NamesParticipants event }
        requires outside { IsOutside event }
        requires known { IsTrueOf (known_to 0 (H.state hall.old)).noted 0 event }
        ensures hands { (core next : Core) × (steps : List MailStep) × (self.old.core ≡ Some core)
            × (self.new ≡ with_core next self.old) × Did 0 steps (H.state hall.old) (H.state hall.new)
            × Hands (J.denies judge.now) event core next steps (result_ok result) }
        ensures measure { (H.state hall.new).measure ≤ (H.state hall.old).measure }
        ensures alone { StaysAlone 0 self.old self.new (H.state hall.old) (H.state hall.new) }
        ensures goes_on { H.goes_on hall.old hall.new }
    {
        let Some(core) = &mut self.coordinator else {
            unreachable!()
        };
        take_and_hand(hall, core, event, judge)
    }

    // Catches up with the log, as it was told, and tells the coordinator.
    fn map_again<H: Hall, J: Judge>(&mut self, hall: &mut H, judge: &J) -> Result<Out, AllocError>
        requires may_ask { J.may_ask judge.now }
        requires can { CanCoordinate self.old (H.state hall.old) }
        ensures mapped { (steps : List MailStep) × Did 0 steps (H.state hall.old) (H.state hall.new)
            × IsMapped self.old self.new steps (result_ok result) }
        ensures measure { (H.state hall.new).measure ≤ (H.state hall.old).measure }
        ensures alone { StaysAlone 0 self.old self.new (H.state hall.old) (H.state hall.new) }
        ensures goes_on { H.goes_on hall.old hall.new }
    {
        let Some(core) = &mut self.coordinator else {
            unreachable!()
        };
        map_self(
            hall,
            core,
            &mut self.maps,
            &mut self.watchers,
            &mut self.joined,
            judge,
        )
    }

    // Posts a RESULT to an asker that the hall has.
    fn post_answer<H: Hall>(&mut self, hall: &mut H, to: u8, number: u64, what: u8, good: bool)
        requires can { CanCoordinate self.old (H.state hall.old) }
        requires spoken { HasFieldValues (result_body number what good) }
        ensures posted { (steps : List MailStep) × Did 0 steps (H.state hall.old) (H.state hall.new)
            × IsPosted (H.state hall.old).count self.old self.new (Out.Answer to number what good) steps }
        ensures measure { (H.state hall.new).measure ≤ (H.state hall.old).measure + H.scale * 2 }
        ensures core { self.new.core ≡ self.old.core }
        ensures alone { StaysAlone 0 self.old self.new (H.state hall.old) (H.state hall.new) }
        ensures goes_on { H.goes_on hall.old hall.new }
    {
        let count = hall.participants();
        if to >= count || to >= 16 {
            return;
        }
        let frame = framed(result_of(number, what, good));
        post_next(
            hall,
            self.plan,
            MsgKind::Answer,
            &mut self.sent.answers,
            to,
            frame,
        );
    }

    // Posts what the coordinator answers.
    fn post_out<H: Hall>(&mut self, hall: &mut H, answer: Out)
        requires can { CanCoordinate self.old (H.state hall.old) }
        requires spoken { IsSpoken answer }
        requires not_told { MustMap answer → ⊥ }
        ensures posted { (steps : List MailStep) × Did 0 steps (H.state hall.old) (H.state hall.new)
            × IsPosted (H.state hall.old).count self.old self.new answer steps }
        ensures measure { (H.state hall.new).measure ≤ (H.state hall.old).measure + H.scale * out_measure answer }
        ensures core { self.new.core ≡ self.old.core }
        ensures alone { StaysAlone 0 self.old self.new (H.state hall.old) (H.state hall.new) }
        ensures goes_on { H.goes_on hall.old hall.new }
    {
        match answer {
            Out::Nothing | Out::MapSelf { .. } => {}
            Out::Sync {
                generation,
                round,
                members,
            } => {
                let syncs = &mut self.sent.syncs;
                tell_all(hall, self.plan, syncs, generation, round, members);
            }
            Out::Answer {
                to,
                number,
                what,
                good,
            } => self.post_answer(hall, to, number, what, good),
        }
    }

    // Carries out what the coordinator answers: it catches up as often as it is told to, and then posts.
    fn carry<H: Hall, J: Judge>(
        &mut self,
        hall: &mut H,
        answer: Out,
        judge: &J,
    ) -> Result<(), AllocError>
        requires may_ask { J.may_ask judge.now }
        requires can { CanCoordinate self.old (H.state hall.old) }
        requires spoken { IsSpoken answer }
        ensures carried { (path : List Party) × (steps : List MailStep) × Did 0 steps (H.state hall.old) (H.state hall.new)
            × IsCarried (H.state hall.old).count path self.old self.new answer steps (is_ok result) }
        ensures measure { left_to_do H.scale H.pending self.new (H.state hall.new)
            ≤ left_to_do H.scale H.pending self.old (H.state hall.old) + H.scale * out_measure answer }
        ensures alone { StaysAlone 0 self.old self.new (H.state hall.old) (H.state hall.new) }
        ensures goes_on { H.goes_on hall.old hall.new }
    {
        let mut answer = answer;
        while must_map(&answer) {
            let next = self.map_again(hall, judge)?;
            answer = next;
        }
        self.post_out(hall, answer);
        Ok(())
    }

    /// Hands the coordinator an event, and carries out what it answers. Own.
    pub(super) fn handle<H: Hall, J: Judge>(
        &mut self,
        hall: &mut H,
        event: CoreEvent,
        judge: &J,
    ) -> Result<(), AllocError>
        requires may_ask { J.may_ask judge.now }
        requires can { CanCoordinate self.old (H.state hall.old) }
        requires names { NamesParticipants event }
        requires outside { IsOutside event }
        requires known { IsTrueOf (known_to 0 (H.state hall.old)).noted 0 event }
        ensures handled { (steps : List MailStep) × Did 0 steps (H.state hall.old) (H.state hall.new)
            × IsHandled (J.denies judge.now) (H.state hall.old).count event self.old self.new steps (is_ok result) }
        ensures measure { left_to_do H.scale H.pending self.new (H.state hall.new)
            ≤ left_to_do H.scale H.pending self.old (H.state hall.old) + H.scale * brought event }

        // A poll that is due uses up 1.
        ensures due { IsDue self.old.core event → OnOk result (left_to_do H.scale H.pending self.new (H.state hall.new)
            + H.scale * 1 ≤ left_to_do H.scale H.pending self.old (H.state hall.old) + H.scale * brought event) }
        ensures alone { StaysAlone 0 self.old self.new (H.state hall.old) (H.state hall.new) }
        ensures goes_on { H.goes_on hall.old hall.new }
    {
        let answer = self.hand_event(hall, event, judge)?;
        self.carry(hall, answer, judge)
    }
}
