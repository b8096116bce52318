ghost use Rattle.std.specs.Prelude.{◌≡◌, [], ◌∷◌, ◌++◌};
ghost use Rattle.hp_hall.specs.Mail.{Fetches, Gives, Notes, Posts, Takes};

use hp_base::Action;
use hp_frame::Frame;
use hp_hall::{Kept, Note};
use hp_mail::Posted;
use std::marker::Model;
use std::snapshot::Snapshot;

// All that one participant did, in order. Contracts see the list; of its bytes it keeps a few of the last step alone, before
// which the earlier ones stand as a snapshot, which has none.
#[cycle(step_log)]
#[derive(Drop)]
pub(crate) struct StepLog {
    past: StepPast,
}

#[cycle(step_log)]
#[derive(Drop)]
enum StepPast {
    Nothing,
    // Whom a frame was posted to, and which, as it was planned and as it came out.
    Post(Snapshot<StepLog>, u8, Snapshot<Frame>, Action, Posted),
    // What was fetched.
    Fetch(Snapshot<StepLog>, Snapshot<Option<Frame>>),
    // Which value was taken out of the slot with that number, or given back to it.
    Take(Snapshot<StepLog>, usize, Snapshot<Kept>),
    Give(Snapshot<StepLog>, usize, Snapshot<Kept>),
    // What else was done.
    Other(Snapshot<StepLog>, Note),
}

impl Model for StepLog {
    ghost use Rattle.std.specs.Prelude.{List, length};
    ghost use Rattle.std.proofs.Common.{arith, length-append};
    ghost use Rattle.hp_hall.specs.Mail.{MailStep};

    ghost Value = { List MailStep };

    ghost use Rattle.hp_chair.specs.StepsKept.{steps_in};

    ghost view = { λ a. steps_in a.past };

    ghost size = { length };

    ghost size_decreases = { λ a h. Prim.grind (arith, length-append) };
}

impl StepLog {
    // Nothing was done yet.
    pub fn new() -> StepLog
        ensures { result ≡ [] }
    {
        StepLog {
            past: StepPast::Nothing,
        }
    }

    // These steps, and a post.
    pub fn with_post(&self, to: u8, frame: &Frame, action: Action, posted: Posted) -> StepLog
        ensures { result ≡ self.now ++ Posts to frame.now action posted ∷ [] }
    {
        StepLog {
            past: StepPast::Post(Snapshot::of(self), to, Snapshot::of(frame), action, posted),
        }
    }

    // These steps, and a fetch.
    pub fn with_fetch(&self, frame: &Option<Frame>) -> StepLog
        ensures { result ≡ self.now ++ Fetches frame.now ∷ [] }
    {
        StepLog {
            past: StepPast::Fetch(Snapshot::of(self), Snapshot::of(frame)),
        }
    }

    // These steps, and a take.
    pub fn with_take(&self, number: usize, kept: &Kept) -> StepLog
        ensures { result ≡ self.now ++ Takes number kept.now ∷ [] }
    {
        StepLog {
            past: StepPast::Take(Snapshot::of(self), number, Snapshot::of(kept)),
        }
    }

    // These steps, and a give.
    pub fn with_give(&self, number: usize, kept: &Kept) -> StepLog
        ensures { result ≡ self.now ++ Gives number kept.now ∷ [] }
    {
        StepLog {
            past: StepPast::Give(Snapshot::of(self), number, Snapshot::of(kept)),
        }
    }

    // These steps, and a note.
    pub fn with_note(&self, note: Note) -> StepLog
        ensures { result ≡ self.now ++ Notes note ∷ [] }
    {
        StepLog {
            past: StepPast::Other(Snapshot::of(self), note),
        }
    }
}
