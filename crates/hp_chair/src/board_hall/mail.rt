ghost use Rattle.std.specs.Prelude.{◌≡◌, ◌<◌, ◌↔◌, ℕ, List, Some, length, slice_get};
ghost use Rattle.hp_base.specs.declared.plan.Action.{Action};
ghost use Rattle.hp_hall.specs.Mail.{MailStep, counted_on, full_of};
ghost use Rattle.hp_mail.specs.PassView.{PassView};
ghost use Rattle.hp_mail.specs.declared.posted.Posted.{Posted};
ghost use Rattle.hp_chair.specs.Places.{ArePlaces};
ghost use Rattle.hp_chair.specs.Posts.{HasFoundRoom, HaveFetchedBy, HavePostedBy};

use hp_base::Action;
use hp_frame::Frame;
use hp_mail::{Mailbox, Pass, Posted};
use std::sync::Wait;

// Posts a frame to a participant, by the pass to its mailbox.
pub fn post_by<R: Wait>(
    rt: &R,
    boxes: &[Mailbox],
    passes: &mut Vec<Pass>,
    to: u8,
    frame: Frame,
    action: Action,
) -> Posted
    requires places { (who : ℕ) × (steps : List MailStep) × ArePlaces who steps boxes.now passes.old.items }
    requires declared { to < length boxes.now }
    ensures lost { (line : ℕ) → (result ≡ Posted.Lost line) ↔ (action ≡ Action.Lose line) }
    ensures room { HasFoundRoom to frame action result boxes.now passes.old.items }
    ensures passes { HavePostedBy to frame result passes.old.items passes.new.items }
{
    let place = to as usize;
    let mailbox = &boxes[place];
    mailbox.post(rt, &mut passes[place], frame, action)
}

// Fetches the first frame of a participant's own mailbox.
pub fn fetch_by<R: Wait>(rt: &R, boxes: &[Mailbox], passes: &mut Vec<Pass>, me: u8) -> Option<Frame>
    requires places { (steps : List MailStep) × ArePlaces me steps boxes.now passes.old.items }
    requires declared { me < length boxes.now }
    ensures { (pass : PassView) → slice_get passes.old.items me ≡ Some pass
        → HaveFetchedBy me result passes.old.items passes.new.items pass }
{
    let place = me as usize;
    let mailbox = &boxes[place];
    mailbox.fetch(rt, &mut passes[place])
}

// The count of full mailboxes after a post.
pub fn counted(posted: Posted, full_mailboxes: u64) -> u64
    ensures { result ≡ counted_on (full_of posted) full_mailboxes }
{
    match posted {
        Posted::Full => full_mailboxes.saturating_add(1),
        Posted::Sent | Posted::Twice | Posted::Lost { .. } => full_mailboxes,
    }
}
