use super::SoloHall;
use hp_base::{Action, Mapper, Row, Stats};
use hp_frame::Frame;
use hp_hall::{Busy, Hall, Kept, Posted, Slot};
use hp_serve::Decide;

impl<'p, M: Mapper, F: Decide + Copy + Drop> Hall for SoloHall<'p, M, F> {
    ghost use Rattle.hp_hall.specs.Measures.{pending_at, pending_most_one};
    ghost use Rattle.hp_solo.specs.SoloCourse.{IsSoloCourse, solo_same, solo_then};
    ghost use Rattle.hp_solo.specs.SoloState.{solo_later, solo_posts, solo_state};

    ghost state = { solo_state };

    ghost pending = { pending_at };

    ghost scale = { 1 };

    ghost goes_on = { IsSoloCourse };

    fn participants(&self) -> u8 {
        self.plain.participants()
    }

    fn take(&mut self, me: u8, slot: Slot) -> Kept {
        self.plain.take(me, slot)
    }

    fn try_take(&mut self, me: u8, slot: Slot) -> Result<Kept, Busy> {
        let kept = self.take(me, slot);
        Ok(kept)
    }

    fn give(&mut self, me: u8, slot: Slot, kept: Kept) {
        self.plain.give(me, slot, kept);
    }

    fn ack(&mut self, me: u8, number: u64) {
        self.plain.ack(me, number);
    }

    fn note_unmapped(&mut self, me: u8) {
        self.plain.note_unmapped(me);
    }

    fn emptied(&mut self, me: u8, rows: &[Row]) {
        self.plain.emptied(me, rows);
    }

    fn load_ack(&mut self, me: u8, participant: u8) -> u64 {
        self.plain.load_ack(me, participant)
    }

    fn store_done(&mut self, me: u8, lines: u32) {
        self.plain.store_done(me, lines);
    }

    fn load_done(&mut self, me: u8, participant: u8) -> u32 {
        self.plain.load_done(me, participant)
    }

    fn publish(&mut self, me: u8, heap: u32, kept: &mut Kept) {
        self.plain.publish(me, heap, kept);
    }

    fn read(&mut self, me: u8, heap: u32) -> (u64, Stats) {
        self.plain.read(me, heap)
    }

    #[inline(always)]
    fn post(&mut self, me: u8, to: u8, frame: Frame, action: Action) -> Posted {
        self.plain.post(me, to, frame, action)
    }

    #[inline(always)]
    fn fetch(&mut self, me: u8) -> Option<Frame> {
        self.plain.fetch(me)
    }

    fn now(&mut self, me: u8) -> u64 {
        self.plain.now(me)
    }

    ghost goes_on_same = { solo_same };

    ghost goes_on_then = { solo_then };

    ghost goes_on_later = { solo_later };

    ghost goes_on_posts = { solo_posts };

    ghost pending_most = { pending_most_one };

    ghost busy_pending = { λ a deadline busy. absurd busy.2 };
}
