ghost use Rattle.std.specs.Prelude.{◌≡◌, [], ◌∷◌, ◌++◌, slice_get};
ghost use Rattle.hp_hall.specs.Mail.{Fetches, Gives, Notes, Posts, Takes};

use crate::mailbox::Mailbox;
use hp_base::Action;
use hp_frame::Frame;
use hp_hall::{Kept, Note};
use hp_mail::Posted;
use std::marker::Model;
use std::snapshot::Snapshot;

// All that was done in a hall, in order. Contracts see the list; at run time it keeps of which kind the last step was alone, since all else is
// snapshots, which take no bytes.
#[cycle(mail_log)]
#[derive(Drop)]
pub(crate) struct MailLog {
    past: MailPast,
}

#[cycle(mail_log)]
#[derive(Drop)]
enum MailPast {
    Nothing,
    // Who posted to whom, and which frame, as it was planned and as it came out.
    Post(
        Snapshot<MailLog>,
        Snapshot<u8>,
        Snapshot<u8>,
        Snapshot<Frame>,
        Snapshot<Action>,
        Snapshot<Posted>,
    ),
    // Who fetched, out of which mailbox.
    Fetch(Snapshot<MailLog>, Snapshot<u8>, Snapshot<Mailbox>),
    // Who took which value out of the slot with that number, and who gave one back.
    Take(Snapshot<MailLog>, Snapshot<u8>, Snapshot<usize>, Snapshot<Kept>),
    Give(Snapshot<MailLog>, Snapshot<u8>, Snapshot<usize>, Snapshot<Kept>),
    // Who did what else.
    Other(Snapshot<MailLog>, Snapshot<u8>, Snapshot<Note>),
}

impl Model for MailLog {
    ghost use Rattle.std.specs.Prelude.{List, ℕ, length};
    ghost use Rattle.std.proofs.Common.{arith, length-append};
    ghost use Rattle.hp_hall.specs.Mail.{MailStep};

    ghost Value = { List (ℕ × MailStep) };

    ghost use Rattle.hp_plain.specs.MailKept.{steps_in};

    ghost view = { λ a. steps_in a.past };

    ghost size = { length };

    ghost size_decreases = { λ a h. Prim.grind (arith, length-append) };
}

impl MailLog {
    // Nothing was done yet.
    pub fn new() -> MailLog
        ensures { result ≡ [] }
    {
        MailLog {
            past: MailPast::Nothing,
        }
    }

    // These steps, and a post.
    pub fn with_post(
        &self,
        who: u8,
        to: u8,
        frame: &Frame,
        action: Action,
        posted: Posted,
    ) -> MailLog
        ensures { result ≡ self.now ++ (who, Posts to frame.now action posted) ∷ [] }
    {
        MailLog {
            past: MailPast::Post(
                Snapshot::of(self),
                Snapshot::of(&who),
                Snapshot::of(&to),
                Snapshot::of(frame),
                Snapshot::of(&action),
                Snapshot::of(&posted),
            ),
        }
    }

    // These steps, and a fetch out of a mailbox, whose first frame goes out.
    pub fn with_fetch(&self, who: u8, mailbox: &Mailbox) -> MailLog
        ensures { result ≡ self.now ++ (who, Fetches (slice_get mailbox.now 0)) ∷ [] }
    {
        MailLog {
            past: MailPast::Fetch(
                Snapshot::of(self),
                Snapshot::of(&who),
                Snapshot::of(mailbox),
            ),
        }
    }

    // These steps, and a take.
    pub fn with_take(&self, who: u8, number: usize, kept: &Kept) -> MailLog
        ensures { result ≡ self.now ++ (who, Takes number kept.now) ∷ [] }
    {
        MailLog {
            past: MailPast::Take(
                Snapshot::of(self),
                Snapshot::of(&who),
                Snapshot::of(&number),
                Snapshot::of(kept),
            ),
        }
    }

    // These steps, and a give.
    pub fn with_give(&self, who: u8, number: usize, kept: &Kept) -> MailLog
        ensures { result ≡ self.now ++ (who, Gives number kept.now) ∷ [] }
    {
        MailLog {
            past: MailPast::Give(
                Snapshot::of(self),
                Snapshot::of(&who),
                Snapshot::of(&number),
                Snapshot::of(kept),
            ),
        }
    }

    // These steps, and a note.
    pub fn with_note(&self, who: u8, note: Note) -> MailLog
        ensures { result ≡ self.now ++ (who, Notes note) ∷ [] }
    {
        MailLog {
            past: MailPast::Other(Snapshot::of(self), Snapshot::of(&who), Snapshot::of(&note)),
        }
    }
}
