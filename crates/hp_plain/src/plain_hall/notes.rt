ghost use Rattle.std.specs.Prelude.{◌≡◌, ◌<◌, Option, Some, length};
ghost use Rattle.hp_plain.specs.Course.{IsCourse};
ghost use Rattle.hp_plain.specs.HallSteps.{after_pause, with_note};
ghost use Rattle.hp_plain.specs.HallView.{own_at};
ghost use Rattle.hp_plain.specs.Meters.{GoesOnTo};

use super::PlainHall;
use hp_hall::Note;

impl PlainHall {
    // A note is made of what a participant did.
    fn note(&mut self, me: u8, note: Note)
        ensures { self.new ≡ with_note me note self.old }
    {
        self.mail = self.mail.with_note(me, note);
    }

    // A participant reads the clock, and it is noted.
    pub(crate) fn read_at(&mut self, me: u8) -> u64
        ensures now { result ≡ self.old.clock }
        ensures hall { self.new ≡ with_note me (Note.Read result) self.old }
    {
        let now = self.clock();
        self.note(me, Note::Read { now });
        now
    }

    // A participant looks up what another has acknowledged, and it is noted.
    pub(crate) fn load_at(&mut self, me: u8, participant: u8) -> u64
        requires { participant < length self.old.owns }
        ensures number { result ≡ (own_at self.old participant).number }
        ensures hall { self.new ≡ with_note me (Note.Loaded participant result) self.old }
    {
        let number = self.number_of(participant);
        self.note(
            me,
            Note::Loaded {
                participant,
                number,
            },
        );
        number
    }

    // A participant tells that its table has no row, and it is noted.
    pub(crate) fn emptied_at(&mut self, me: u8)
        ensures { self.new ≡ with_note me Note.Emptied self.old }
    {
        self.note(me, Note::Emptied);
    }

    /// Notes that a participant let those below it serve, or those above, and whether something moved; `None` where one of them
    /// stopped. Own.
    pub fn note_yield(&mut self, me: u8, above: bool, moved: Option<bool>)
        requires declared { me < length self.old.owns }
        ensures hall { self.new ≡ with_note me (Note.Yielded above moved) self.old }
        ensures course { IsCourse self.old self.new }
    {
        self.note(me, Note::Yielded { above, moved });
    }

    /// Ends a turn, and notes it. Where nothing moved the clock may go on to a later reading, up to the deadline that is waited for. Own.
    pub fn pause(&mut self, me: u8, moved: bool, until: Option<u64>, reading: u64)
        requires declared { me < length self.old.owns }
        requires goes_on { GoesOnTo moved until self.old.clock reading }
        ensures hall { self.new ≡ after_pause me moved until reading self.old }
        ensures course { IsCourse self.old self.new }
    {
        self.note(me, Note::Paused { moved, until });
        self.clock = reading;
    }
}
