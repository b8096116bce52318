ghost use Rattle.std.specs.Prelude.{◌≡◌, ◌<◌, ◌≤◌, IfOk, length, replicate};
ghost use Rattle.hp_plain.specs.HallSteps.{after_acking, after_storing, after_unmapping, with_note};
ghost use Rattle.hp_plain.specs.HallView.{lines_at, own_at, seen_in};
ghost use Rattle.hp_hall.specs.Own.{after_ack};

use super::PlainHall;
use crate::own_part::OwnPart;
use hp_base::MAX_HEAPS;
use hp_hall::Note;
use std::alloc::{AllocError, Global};

// An own part for each participant, which has acknowledged nothing.
pub fn first_parts(alloc: Global, participants: u8) -> Result<Vec<OwnPart>, AllocError>
    ensures { IfOk result (λ owns. owns.items ≡ replicate participants (after_ack 0)) }
{
    let mut owns = Vec::with_capacity(alloc, participants as usize)?;
    for _participant in 0..participants {
        owns.push_reserved(OwnPart::acked(0));
    }
    Ok(owns)
}

// For each participant, that none of its lines is done.
pub fn first_lines(alloc: Global, participants: u8) -> Result<Vec<u32>, AllocError>
    ensures { IfOk result (λ lines. lines.items ≡ replicate participants 0) }
{
    let mut lines = Vec::with_capacity(alloc, participants as usize)?;
    for _participant in 0..participants {
        lines.push_reserved(0);
    }
    Ok(lines)
}

impl PlainHall {
    // A participant has acknowledged so many records, and it is noted.
    pub(crate) fn ack_at(&mut self, me: u8, number: u64)
        requires declared { me < length self.old.owns }
        requires rises { (own_at self.old me).number ≤ number }
        requires seen { number ≤ length (seen_in self.old) }
        ensures { self.new ≡ after_acking me number self.old }
    {
        self.owns[me as usize] = OwnPart::acked(number);
        self.mail = self.mail.with_note(me, Note::Acked { number });
    }

    // A participant has unmapped what the records drop, and it is noted.
    pub(crate) fn partial_at(&mut self, me: u8)
        requires { me < length self.old.owns }
        ensures { self.new ≡ after_unmapping me self.old }
    {
        let records = self.slots[MAX_HEAPS].records() as u64;
        self.owns[me as usize].note_unmapped(records);
        self.mail = self.mail.with_note(me, Note::Unmapped);
    }

    // A participant has told that so many of its lines are done, and it is noted.
    pub(crate) fn store_at(&mut self, me: u8, lines: u32)
        requires declared { me < length self.old.owns }
        ensures { self.new ≡ after_storing me lines self.old }
    {
        self.lines[me as usize] = lines;
        self.mail = self.mail.with_note(me, Note::Stored { lines });
    }

    // A participant looks up how many of its lines another has told to be done, and it is noted.
    pub(crate) fn load_lines_at(&mut self, me: u8, participant: u8) -> u32
        requires { participant < length self.old.owns }
        ensures lines { result ≡ lines_at self.old participant }
        ensures hall { self.new ≡ with_note me (Note.LoadedDone participant result) self.old }
    {
        let lines = self.lines[participant as usize];
        self.mail = self
            .mail
            .with_note(me, Note::LoadedDone { participant, lines });
        lines
    }

    // How many records a participant has acknowledged.
    pub(crate) fn number_of(&self, participant: u8) -> u64
        requires { participant < length self.now.owns }
        ensures { result ≡ (own_at self.now participant).number }
    {
        self.owns[participant as usize].number()
    }
}
