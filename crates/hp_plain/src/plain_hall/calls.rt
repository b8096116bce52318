use super::PlainHall;
use hp_base::{Action, Row, Stats};
use hp_frame::Frame;
use hp_hall::{Busy, Hall, Kept, Slot};
use hp_mail::Posted;

impl Hall for PlainHall {
    ghost use Rattle.hp_plain.specs.Course.{IsCourse, course_same, course_then};
    ghost use Rattle.hp_plain.specs.PlainPosts.{plain_posts};
    ghost use Rattle.hp_plain.specs.PlainState.{plain_later, plain_state};
    ghost use Rattle.hp_hall.specs.Measures.{pending_at, pending_most_one};

    ghost state = { plain_state };

    ghost pending = { pending_at };

    ghost scale = { 1 };

    ghost goes_on = { IsCourse };

    fn participants(&self) -> u8 {
        self.owns.len() as u8
    }

    fn take(&mut self, me: u8, slot: Slot) -> Kept {
        self.sound();
        let kept = self.take_at(me, slot);
        kept.sound();
        kept
    }

    fn try_take(&mut self, me: u8, slot: Slot) -> Result<Kept, Busy> {
        let kept = self.take(me, slot);
        Ok(kept)
    }

    fn give(&mut self, me: u8, slot: Slot, kept: Kept) {
        self.sound();
        kept.sound();
        self.give_at(me, slot, kept);
    }

    fn ack(&mut self, me: u8, number: u64) {
        self.ack_at(me, number);
    }

    fn note_unmapped(&mut self, me: u8) {
        self.partial_at(me);
    }

    fn emptied(&mut self, me: u8, _rows: &[Row]) {
        self.emptied_at(me);
    }

    fn load_ack(&mut self, me: u8, participant: u8) -> u64 {
        self.load_at(me, participant)
    }

    fn store_done(&mut self, me: u8, lines: u32) {
        self.sound();
        self.store_at(me, lines);
    }

    fn load_done(&mut self, me: u8, participant: u8) -> u32 {
        self.sound();
        self.load_lines_at(me, participant)
    }

    fn publish(&mut self, me: u8, heap: u32, kept: &mut Kept) {
        self.sound();
        self.publish_at(me, heap, kept);
    }

    fn read(&mut self, me: u8, heap: u32) -> (u64, Stats) {
        self.sound();
        let pair = self.read_pair(me, heap);
        (pair.entries, pair.stats)
    }

    #[inline(always)]
    fn post(&mut self, me: u8, to: u8, frame: Frame, action: Action) -> Posted {
        self.sound();
        self.post_at(me, to, &frame, action)
    }

    #[inline(always)]
    fn fetch(&mut self, me: u8) -> Option<Frame> {
        self.sound();
        self.fetch_at(me)
    }

    fn now(&mut self, me: u8) -> u64 {
        self.read_at(me)
    }

    ghost goes_on_same = { course_same };

    ghost goes_on_then = { course_then };

    ghost goes_on_later = { plain_later };

    ghost goes_on_posts = { plain_posts };

    ghost pending_most = { pending_most_one };

    ghost busy_pending = { λ a deadline busy. absurd busy.2 };
}
