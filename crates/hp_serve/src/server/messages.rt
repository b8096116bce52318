//! What messages make of participant 0.
ghost use Rattle.std.specs.Prelude.{◌≡◌, ◌+◌, ◌*◌, ◌<◌, ◌≤◌, List, true, None, is_ok};
ghost use Rattle.hp_hall.specs.Mail.{MailStep};
ghost use Rattle.hp_hall.specs.Measures.{frame_measure};
ghost use Rattle.hp_serve.specs.Coordinating.{IsAnswered, IsFrameHandled, is_sync_reply};
ghost use Rattle.hp_serve.specs.Frames.{Says};
ghost use Rattle.hp_hall.specs.HallState.{Did};
ghost use Rattle.hp_serve.specs.InHall.{CanCoordinate, StaysAlone, left_to_do};

use super::Server;
use crate::asking::{ask_in, is_sync_reply};
use crate::framing::parse_frame;
use hp_base::{Judge, Mapper};
use hp_frame::{Body, Frame};
use hp_hall::Hall;
use std::alloc::AllocError;

impl<'p, M: Mapper> Server<'p, M> {
    // A reply to a SYNC came: it is a poll where a round is under way.
    fn take_reply<H: Hall, J: Judge>(
        &mut self,
        hall: &mut H,
        body: &Body,
        judge: &J,
    ) -> Result<(), AllocError>
        requires may_ask { J.may_ask judge.now }
        requires can { CanCoordinate self.old (H.state hall.old) }
        requires reply { is_sync_reply body.now ≡ true }
        ensures answered { (steps : List MailStep) × Did 0 steps (H.state hall.old) (H.state hall.new)
            × IsAnswered (J.denies judge.now) (H.state hall.old).count self.old self.new body.now steps (is_ok result) }
        ensures measure { left_to_do H.scale H.pending self.new (H.state hall.new)
            ≤ left_to_do H.scale H.pending self.old (H.state hall.old) }
        ensures alone { StaysAlone 0 self.old self.new (H.state hall.old) (H.state hall.new) }
        ensures goes_on { H.goes_on hall.old hall.new }
    {
        match self.due() {
            Some(_due) => self.poll_now(hall, judge),
            None => Ok(()),
        }
    }

    // What a message that is no ask makes of it: a reply to a SYNC is a poll where a round is under way, and an answer to its own last
    // ask is noted.
    fn handle_reply<H: Hall, J: Judge>(
        &mut self,
        hall: &mut H,
        body: &Body,
        judge: &J,
    ) -> Result<(), AllocError>
        requires may_ask { J.may_ask judge.now }
        requires can { CanCoordinate self.old (H.state hall.old) }
        ensures answered { (steps : List MailStep) × Did 0 steps (H.state hall.old) (H.state hall.new)
            × IsAnswered (J.denies judge.now) (H.state hall.old).count self.old self.new body.now steps (is_ok result) }
        ensures measure { left_to_do H.scale H.pending self.new (H.state hall.new)
            ≤ left_to_do H.scale H.pending self.old (H.state hall.old) }
        ensures alone { StaysAlone 0 self.old self.new (H.state hall.old) (H.state hall.new) }
        ensures goes_on { H.goes_on hall.old hall.new }
    {
        if is_sync_reply(body) {
            return self.take_reply(hall, body, judge);
        }
        self.note_result(body);
        Ok(())
    }

    // What a message to the handler makes of it, which a frame says.
    fn handle_message<H: Hall, J: Judge>(
        &mut self,
        hall: &mut H,
        frame: &Frame,
        body: &Body,
        judge: &J,
    ) -> Result<(), AllocError>
        requires may_ask { J.may_ask judge.now }
        requires can { CanCoordinate self.old (H.state hall.old) }
        requires says { Says frame.now body.now }
        ensures obeyed { (steps : List MailStep) × Did 0 steps (H.state hall.old) (H.state hall.new)
            × IsFrameHandled (J.denies judge.now) (H.state hall.old).count self.old self.new frame.now steps (is_ok result) }
        ensures measure { left_to_do H.scale H.pending self.new (H.state hall.new) + H.scale * 1
            ≤ left_to_do H.scale H.pending self.old (H.state hall.old) + H.scale * frame_measure frame.now }
        ensures alone { StaysAlone 0 self.old self.new (H.state hall.old) (H.state hall.new) }
        ensures goes_on { H.goes_on hall.old hall.new }
    {
        let count = hall.participants();
        match ask_in(body, count) {
            Some(event) => self.handle(hall, event, judge),
            None => self.handle_reply(hall, body, judge),
        }
    }

    // What a frame makes of it.
    pub(super) fn handle_frame<H: Hall, J: Judge>(
        &mut self,
        hall: &mut H,
        frame: &Frame,
        judge: &J,
    ) -> Result<(), AllocError>
        requires may_ask { J.may_ask judge.now }
        requires can { CanCoordinate self.old (H.state hall.old) }
        ensures obeyed { (steps : List MailStep) × Did 0 steps (H.state hall.old) (H.state hall.new)
            × IsFrameHandled (J.denies judge.now) (H.state hall.old).count self.old self.new frame.now steps (is_ok result) }
        ensures measure { left_to_do H.scale H.pending self.new (H.state hall.new) + H.scale * 1
            ≤ left_to_do H.scale H.pending self.old (H.state hall.old) + H.scale * frame_measure frame.now }
        ensures alone { StaysAlone 0 self.old self.new (H.state hall.old) (H.state hall.new) }
        ensures goes_on { H.goes_on hall.old hall.new }
    {
        match parse_frame(frame) {
            Some(body) => self.handle_message(hall, frame, &body, judge),
            None => Ok(()),
        }
    }
}
