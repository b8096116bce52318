ghost use Rattle.std.specs.Prelude.{◌≡◌, ◌+◌, true};

use super::BoardHall;
use crate::marks::Marks;
use hp_base::Clock;
use hp_hall::{Note, Waiting};
use std::alloc::AllocError;
use std::sync::Wait;
use std::thread;

impl<'a, C: Clock, R: Wait> Waiting for BoardHall<'a, C, R> {
    // Everybody serves on its own thread.
    fn others(&mut self, me: u8, above: bool) -> Result<bool, AllocError> {
        let _ = me;
        self.log = self.log.with_note(Note::Yielded {
            above,
            moved: Some(false),
        });
        Ok(false)
    }

    fn pause(&mut self, me: u8, moved: bool, until: Option<u64>) {
        let _ = me;
        self.turns = one_less(self.rt, self.turns);
        self.stopped = seen_stopped(self.marks, self.stopped);
        self.log = self.log.with_note(Note::Paused { moved, until });
    }

    fn stopped(&self) -> bool {
        self.stopped
    }
}

// One turn less; where none is left it waits for ever.
fn one_less<R: Wait>(rt: &R, turns: u64) -> u64
    ensures { result + 1 ≡ turns }
{
    thread::yield_now();
    if turns == 0 {
        for _ in rt.forever() {
            thread::yield_now();
        }
        unreachable!()
    }
    turns - 1
}

// Whether somebody has stopped, as far as was seen before or is seen now.
fn seen_stopped(marks: &Marks, before: bool) -> bool
    ensures { before ≡ true → result ≡ true }
{
    before || marks.is_stopped()
}
