ghost use Rattle.std.specs.Prelude.{◌≡◌, ◌<◌, ◌≤◌, [], IfOk, length, replicate, slice_get};
ghost use Rattle.hp_plain.specs.HallSteps.{after_post, with_mail};
ghost use Rattle.hp_hall.specs.Mail.{Fetches, counted_on, full_of};
ghost use Rattle.hp_plain.specs.Boxes.{box_of, posted_as};

use super::PlainHall;
use crate::mailbox::Mailbox;
use hp_base::Action;
use hp_frame::Frame;
use hp_mail::Posted;
use std::alloc::{AllocError, Global};

// An empty mailbox for each participant.
pub fn empty_boxes(alloc: Global, participants: u8) -> Result<Vec<Mailbox>, AllocError>
    ensures { IfOk result (λ boxes. boxes.items ≡ replicate participants []) }
{
    let mut boxes = Vec::with_capacity(alloc, participants as usize)?;
    for _participant in 0..participants {
        boxes.push_reserved(Mailbox::new(alloc)?);
    }
    Ok(boxes)
}

impl PlainHall {
    // A frame is posted to a participant, as it is planned, and it is noted. It stands apart, so that the frame that came by value is not
    // copied on the way.
    #[inline(never)]
    pub(crate) fn post_at(&mut self, me: u8, to: u8, frame: &Frame, action: Action) -> Posted
        requires { to < length self.old.owns }
        ensures posted { result ≡ posted_as action (length (box_of self.old.boxes to)) }
        ensures hall { self.new ≡ after_post me to frame.now action result self.old }
    {
        let posted = self.boxes[to as usize].post(frame, action);
        self.mail = self.mail.with_post(me, to, frame, action, posted);
        self.full_mailboxes = counted(posted, self.full_mailboxes);
        posted
    }

    // The first frame of a participant's mailbox goes out, and it is noted.
    pub(crate) fn fetch_at(&mut self, me: u8) -> Option<Frame>
        requires { me < length self.old.owns }
        ensures first { result ≡ slice_get (box_of self.old.boxes me) 0 }
        ensures hall { self.new ≡ with_mail me (Fetches result) self.old.full_mailboxes self.old }
    {
        self.mail = self.mail.with_fetch(me, &self.boxes[me as usize]);
        self.boxes[me as usize].fetch()
    }
}

// The count of full mailboxes after a post.
fn counted(posted: Posted, full_mailboxes: u64) -> u64
    ensures { result ≡ counted_on (full_of posted) full_mailboxes }
{
    match posted {
        Posted::Full => full_mailboxes.saturating_add(1),
        Posted::Sent | Posted::Twice | Posted::Lost { .. } => full_mailboxes,
    }
}
