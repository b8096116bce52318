use super::BoardHall;
use super::mail::{counted, fetch_by, post_by};
use super::stats::publish_by;
use hp_base::{Action, Clock, Row, Stats};
use hp_frame::Frame;
use hp_hall::{Busy, Hall, Kept, Note, Posted, Slot};
use hp_stats::StatPair;
use std::sync::Wait;

impl<'a, C: Clock, R: Wait> Hall for BoardHall<'a, C, R> {
    ghost use Rattle.hp_chair.specs.ChairCourse.{IsChairCourse};
    ghost use Rattle.hp_chair.specs.ChairLaws.{chair_later, chair_posts, chair_same, chair_then, none_most, none_same};
    ghost use Rattle.hp_chair.specs.ChairView.{chair_state};

    ghost state = { chair_state };

    ghost pending = { λ clock deadline. 0 };

    ghost scale = { 0 };

    ghost goes_on = { IsChairCourse };

    fn participants(&self) -> u8 {
        self.boxes.len() as u8
    }

    fn take(&mut self, me: u8, slot: Slot) -> Kept {
        let _ = me;
        let kept = hp_turn::take(self.rt, self.board, &mut self.seat, slot);
        self.log = self.log.with_take(slot.number(), &kept);
        kept
    }

    fn try_take(&mut self, me: u8, slot: Slot) -> Result<Kept, Busy> {
        let _ = me;
        match hp_turn::try_take(self.board, &mut self.seat, slot) {
            Ok(kept) => {
                self.log = self.log.with_take(slot.number(), &kept);
                Ok(kept)
            }
            Err(busy) => Err(busy),
        }
    }

    fn give(&mut self, me: u8, slot: Slot, kept: Kept) {
        let _ = me;
        self.log = self.log.with_give(slot.number(), &kept);
        hp_turn::give(self.board, &mut self.seat, slot, kept);
    }

    fn ack(&mut self, me: u8, number: u64) {
        let _ = me;
        self.board.ack(&mut self.seat, number);
        self.log = self.log.with_note(Note::Acked { number });
    }

    fn note_unmapped(&mut self, me: u8) {
        let _ = me;
        self.board.note_unmapped(&mut self.seat);
        self.log = self.log.with_note(Note::Unmapped);
    }

    fn emptied(&mut self, me: u8, _rows: &[Row]) {
        let _ = me;
        self.log = self.log.with_note(Note::Emptied);
    }

    fn load_ack(&mut self, me: u8, participant: u8) -> u64 {
        let _ = me;
        let number = self.board.load_ack(&mut self.seat, participant);
        self.log = self.log.with_note(Note::Loaded {
            participant,
            number,
        });
        number
    }

    fn store_done(&mut self, me: u8, lines: u32) {
        let _ = me;
        self.board.store_done(&mut self.seat, lines);
        self.log = self.log.with_note(Note::Stored { lines });
    }

    fn load_done(&mut self, me: u8, participant: u8) -> u32 {
        let _ = me;
        let lines = self.board.load_done(&mut self.seat, participant);
        self.log = self.log.with_note(Note::LoadedDone { participant, lines });
        lines
    }

    fn publish(&mut self, me: u8, heap: u32, kept: &mut Kept) {
        let _ = me;
        let pair = publish_by(self.rt, self.cells, &mut self.stats, heap, kept);
        self.log = self.log.with_note(Note::Published { heap, pair });
    }

    fn read(&mut self, me: u8, heap: u32) -> (u64, Stats) {
        let _ = me;
        let (entries, stats) = self.cells.read(self.rt, &mut self.stats, heap);
        let pair = StatPair { entries, stats };
        self.log = self.log.with_note(Note::ReadStats { heap, pair });
        (entries, stats)
    }

    fn post(&mut self, me: u8, to: u8, frame: Frame, action: Action) -> Posted {
        let _ = me;
        let posted = post_by(self.rt, self.boxes, &mut self.passes, to, frame, action);
        self.log = self.log.with_post(to, &frame, action, posted);
        self.full_mailboxes = counted(posted, self.full_mailboxes);
        posted
    }

    fn fetch(&mut self, me: u8) -> Option<Frame> {
        let frame = fetch_by(self.rt, self.boxes, &mut self.passes, me);
        self.log = self.log.with_fetch(&frame);
        frame
    }

    fn now(&mut self, me: u8) -> u64 {
        let _ = me;
        let now = self.clock.now();
        self.log = self.log.with_note(Note::Read { now });
        now
    }

    ghost goes_on_same = { chair_same };

    ghost goes_on_then = { chair_then };

    ghost goes_on_later = { chair_later };

    ghost goes_on_posts = { chair_posts };

    ghost pending_most = { λ at deadline. none_most };

    ghost busy_pending = { λ a deadline busy. none_same };
}
