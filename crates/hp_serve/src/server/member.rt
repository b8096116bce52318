//! How a participant without a coordinator serves.
ghost use Rattle.std.specs.Prelude.{◌≡◌, ◌+◌, ◌*◌, ◌<◌, ◌≤◌, ◌||◌, ◌==◌, List, ◌∷◌, None, if◌then◌else◌};
ghost use Rattle.std.specs.Result.{result_ok};
ghost use Rattle.hp_hall.specs.Mail.{MailStep};
ghost use Rattle.hp_hall.specs.Measures.{frame_measure, moved_of};
ghost use Rattle.hp_segs.specs.SegsView.{SegsView};
ghost use Rattle.hp_serve.specs.Serving.{IsFollowed, IsDispatched, IsMemberServed, IsTold, hearing, is_answer_to, is_sync, takes_segments};
ghost use Rattle.hp_hall.specs.HallState.{Did};
ghost use Rattle.hp_serve.specs.InHall.{CanServe, StaysAlone};

use super::Server;
use crate::calls::{put_back, take_segments};
use crate::catching::{has_table, stops_mapping};
use crate::following::follow_and_reply;
use crate::framing::parse_frame;
use crate::sent::one_more;
use hp_base::Mapper;
use hp_frame::{Body, Frame};
use hp_hall::Hall;
use std::alloc::AllocError;

// Whether a message is a SYNC.
fn is_sync(body: &Body) -> bool
    ensures { result ≡ is_sync body.now }
{
    match body {
        Body::Sync { .. } => true,
        Body::Alloc { .. } | Body::Free { .. } | Body::Answer { .. } => false,
    }
}

// Whether a RESULT is the coordinator's to an ask or to a run given up.
fn is_result(what: u8) -> bool
    ensures { result ≡ ((what == 2) || (what == 3)) }
{
    what == 2 || what == 3
}

impl<'p, M: Mapper> Server<'p, M> {
    // Whether a message is the answer to the participant's last ask.
    fn is_answered_by(&self, body: &Body) -> bool
        ensures { result ≡ is_answer_to self.now body.now }
    {
        match body {
            Body::Answer { number, what, .. } => is_result(*what) && *number == self.asked,
            Body::Alloc { .. } | Body::Free { .. } | Body::Sync { .. } => false,
        }
    }

    // Notes an answer to its last ask, and drops any other message.
    pub(crate) fn note_result(&mut self, body: &Body)
        ensures { self.new ≡ hearing body.now self.old }
    {
        if self.is_answered_by(body) {
            self.answered = true;
        }
    }

    // Does what a SYNC demands.
    fn follow_sync<H: Hall>(&mut self, hall: &mut H) -> bool
        requires can { CanServe self.old.me self.old (H.state hall.old) }
        ensures followed { (taken : SegsView) × (more : List MailStep)
            × Did self.old.me (takes_segments taken ∷ more) (H.state hall.old) (H.state hall.new)
            × IsFollowed self.old self.new taken more result }
        ensures measure { (H.state hall.new).measure ≤ (H.state hall.old).measure + H.scale * 2 }
        ensures alone { StaysAlone self.old.me self.old self.new (H.state hall.old) (H.state hall.new) }
        ensures goes_on { H.goes_on hall.old hall.new }
    {
        let segs = take_segments(hall, self.me);
        if !segs.is_member(self.me) {
            put_back(hall, self.me, segs);
            return true;
        }
        if stops_mapping(&self.maps, &mut self.watchers, &segs) {
            put_back(hall, self.me, segs);
            return false;
        }
        let caught = follow_and_reply(
            hall,
            self.me,
            self.joined,
            &mut self.maps,
            &mut self.watchers,
            self.plan,
            self.sent.replies,
            segs,
        );
        self.joined = has_table(self.joined, &caught);
        self.sent.replies = one_more(self.sent.replies);
        true
    }

    // Does what a message demands: a SYNC makes the participant catch up, and an answer to its last ask is noted. Returned is
    // whether it goes on, or stopped.
    fn handle_member_message<H: Hall>(&mut self, hall: &mut H, body: &Body) -> bool
        requires can { CanServe self.old.me self.old (H.state hall.old) }
        ensures told { (steps : List MailStep) × Did self.old.me steps (H.state hall.old) (H.state hall.new)
            × IsTold self.old self.new body.now steps result }
        ensures measure { (H.state hall.new).measure ≤ (H.state hall.old).measure + H.scale * (if is_sync body.now then 2 else 0) }
        ensures alone { StaysAlone self.old.me self.old self.new (H.state hall.old) (H.state hall.new) }
        ensures goes_on { H.goes_on hall.old hall.new }
    {
        if is_sync(body) {
            return self.follow_sync(hall);
        }
        self.note_result(body);
        true
    }

    // Does what a frame demands. Returned is whether it goes on, or stopped.
    fn dispatch<H: Hall>(&mut self, hall: &mut H, frame: &Frame) -> bool
        requires can { CanServe self.old.me self.old (H.state hall.old) }
        ensures heeded { (steps : List MailStep) × Did self.old.me steps (H.state hall.old) (H.state hall.new)
            × IsDispatched self.old self.new frame.now steps result }
        ensures measure { (H.state hall.new).measure + H.scale ≤ (H.state hall.old).measure + H.scale * frame_measure frame.now }
        ensures alone { StaysAlone self.old.me self.old self.new (H.state hall.old) (H.state hall.new) }
        ensures goes_on { H.goes_on hall.old hall.new }
    {
        match parse_frame(frame) {
            Some(body) => self.handle_member_message(hall, &body),
            None => true,
        }
    }

    // Serves once, as a participant without a coordinator does. Returned is whether it fetched a frame; it stops with an error at
    // a SYNC for which its mapper has made too many calls, or for which there is no room to tell its watchers.
    pub(crate) fn serve_member<H: Hall>(&mut self, hall: &mut H) -> Result<bool, AllocError>
        requires can { CanServe self.old.me self.old (H.state hall.old) }
        ensures served { (steps : List MailStep) × Did self.old.me steps (H.state hall.old) (H.state hall.new)
            × IsMemberServed self.old self.new steps (result_ok result) }
        ensures measure { (H.state hall.new).measure + H.scale * moved_of result ≤ (H.state hall.old).measure }
        ensures party { self.new ≡ record self.old {
          joined = self.new.joined;
          maps = self.new.maps;
          listeners = self.new.listeners;
          answered =
              self.new.answered;
          sent = self.new.sent;
        } }
        ensures alone { StaysAlone self.old.me self.old self.new (H.state hall.old) (H.state hall.new) }
        ensures goes_on { H.goes_on hall.old hall.new }
    {
        let Some(frame) = hall.fetch(self.me) else {
            return Ok(false);
        };
        if self.dispatch(hall, &frame) {
            Ok(true)
        } else {
            Err(AllocError)
        }
    }
}
