ghost use Rattle.std.specs.Prelude.{◌≡◌, ◌+◌, ◌<◌, ◌≤◌, ◌∷◌, ◌++◌, [], IfOk, drop, length, slice_get, take, vec_capacity, vec_len};
ghost use Rattle.hp_plain.specs.Boxes.{box_after, posted_as};
ghost use Rattle.hp_plain.specs.MailboxLayout.{HasRoom, waiting};

use hp_base::Action;
use hp_frame::Frame;
use hp_mail::Posted;
use std::alloc::{AllocError, Global};
use std::marker::Model;

/// How many frames a mailbox has room for. Own.
pub const MAILBOX_FRAMES: usize = 64;

// A mailbox: frames that wait for a participant, in the order in which they came, from a first place up to an end. Those that went out stay
// in their places until others are written over them, so that a frame that comes is copied once. Once none waits the next one comes to the
// front again, so that few frames use few places.
#[derive(Drop)]
pub(crate) struct Mailbox {
    frames: Vec<Frame>,
    first: usize,
    end: usize,
}

impl Model for Mailbox {
    ghost use Rattle.std.specs.Prelude.{List, vec_capacity, vec_len};
    ghost use Rattle.hp_frame.specs.declared.frame.Frame.{Frame};
    ghost use Rattle.hp_plain.specs.MailboxLayout.{IsMailbox, waiting};

    ghost Value = { List Frame };

    ghost view = { λ a. waiting a.first a.end a.frames.items };

    ghost invariant = { λ a. IsMailbox a.first a.end (vec_len a.frames) (vec_capacity a.frames) };
}

impl Mailbox {
    // An empty mailbox.
    pub fn new(alloc: Global) -> Result<Mailbox, AllocError>
        ensures { IfOk result (λ mailbox. mailbox ≡ []) }
    {
        let frames = Vec::with_capacity(alloc, MAILBOX_FRAMES)?;
        Ok(Mailbox {
            frames,
            first: 0,
            end: 0,
        })
    }

    // A message comes, as it is planned.
    pub fn post(&mut self, frame: &Frame, action: Action) -> Posted
        ensures posted { result ≡ posted_as action (length self.old) }
        ensures frames { self.new ≡ box_after frame.now result self.old }
    {
        let held = self.end - self.first;
        let room = held < MAILBOX_FRAMES;
        let more = held + 1 < MAILBOX_FRAMES;
        match action {
            Action::Lose { line } => Posted::Lost { line },
            Action::Repeat { .. } if more => {
                self.push(frame);
                self.push(frame);
                Posted::Twice
            }
            Action::Repeat { .. } | Action::Deliver if room => {
                self.push(frame);
                Posted::Sent
            }
            Action::Repeat { .. } | Action::Deliver => Posted::Full,
        }
    }

    // A frame comes after all others, where there is room for it.
    fn push(&mut self, frame: &Frame)
        requires { length self.old < MAILBOX_FRAMES }
        ensures { self.new ≡ self.old ++ frame.now ∷ [] }
    {
        make_room(&mut self.frames, &mut self.first, &mut self.end);
        put_at(&mut self.frames, self.end, frame);
        self.end += 1;
    }

    // The first frame goes out, where there is one.
    pub fn fetch(&mut self) -> Option<Frame>
        ensures first { result ≡ slice_get self.old 0 }
        ensures frames { self.new ≡ drop 1 self.old }
    {
        let place = self.first;
        if place == self.end {
            return None;
        }
        self.first += 1;
        if self.first == self.end {
            self.first = 0;
            self.end = 0;
        }
        Some(self.frames[place])
    }
}

// Moves the frames that wait to the front, where no memory is left after them.
fn make_room(frames: &mut Vec<Frame>, first: &mut usize, end: &mut usize)
    requires order { first.old ≤ end.old }
    requires within { end.old ≤ vec_len frames.old }
    requires room { length (waiting first.old end.old frames.old.items) < vec_capacity frames.old }
    ensures places { HasRoom first.new end.new (vec_len frames.new) (vec_capacity frames.new) }
    ensures items { waiting first.new end.new frames.new.items ≡ waiting first.old end.old frames.old.items }
    ensures memory { vec_capacity frames.new ≡ vec_capacity frames.old }
{
    if *end == frames.capacity() {
        frames.as_mut_slice().copy_within(*first..*end, 0);
        *end -= *first;
        *first = 0;
    }
}

// A frame comes to the place after these; where a frame stands there, it is written over.
fn put_at(frames: &mut Vec<Frame>, place: usize, frame: &Frame)
    requires within { place ≤ vec_len frames.old }
    requires room { place < vec_capacity frames.old }
    ensures items { take (place + 1) frames.new.items ≡ take place frames.old.items ++ frame.now ∷ [] }
    ensures within { place < vec_len frames.new }
    ensures memory { vec_capacity frames.new ≡ vec_capacity frames.old }
{
    if place < frames.len() {
        frames[place] = *frame;
    } else {
        frames.push_reserved(*frame);
    }
}
