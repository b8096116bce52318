//! Turns of all participants, which end once nothing is left for any of them.
ghost use Rattle.std.specs.Prelude.{◌≡◌, ◌+◌, ◌≤◌, ℕ, None, false, length, true, ⊤};
ghost use Rattle.hp_base.specs.declared.limits.TheConstants.{MAX_HEAPS};
ghost use Rattle.hp_plain.specs.Course.{IsCourse};
ghost use Rattle.hp_plain.specs.HallSteps.{after_pause};
ghost use Rattle.hp_plain.specs.HallView.{IsHome, part_in, slot_at, taken_from};
ghost use Rattle.hp_serve.specs.Falling.{if_moved};
ghost use Rattle.hp_solo.specs.Draining.{AreEmpty, Drains, IsDrained, IsLeastDue, IsNoneDue, TurnsLeave};
ghost use Rattle.hp_solo.specs.Sequence.{Visits};
ghost use Rattle.hp_solo.specs.Served.{IsInRisingNumber};
ghost use Rattle.hp_solo.specs.Solo.{AreLater, IsQuiet, IsServerAtRest, SoloView, has_stopped, server_at, solo_measure};

use super::SoloHall;
use super::deadlines::least_due;
use super::serving::serve_range;
use hp_base::Mapper;
use hp_serve::Decide;

impl<'p, M: Mapper, F: Decide + Copy + Drop> SoloHall<'p, M, F> {
    // All who are there serve, in rising number, each until nothing is left for it. Returned is whether something moved.
    fn serve_all(&mut self) -> bool
        requires home { IsHome (slot_at self.old.plain MAX_HEAPS) }
        ensures leaves { TurnsLeave self.old self.new }
        ensures rising { IsInRisingNumber self.old.plain self.new.plain }
        ensures measure { solo_measure self.new + if_moved result ≤ solo_measure self.old }
        ensures rests { (who : ℕ) → IsServerAtRest self.new.plain.clock (server_at self.new.servers who) }
        ensures quiet { result ≡ false → IsQuiet (λ who. ⊤) self.old self.new }
        ensures empty { result ≡ false → has_stopped self.new.servers ≡ false → AreEmpty self.new }
        ensures visits { has_stopped self.new.servers ≡ false → Visits 0 (length self.old.servers) self.old self.new }
    {
        let count = self.servers.len();
        serve_range(&mut self.plain, &mut self.servers, 0, count)
    }

    // The clock jumps to the least deadline that is still to come and will pass, in a pause of participant 0. Returned is whether there is
    // one.
    fn jump_due(&mut self) -> bool
        ensures leaves { TurnsLeave self.old self.new }
        ensures measure { solo_measure self.new + if_moved result ≤ solo_measure self.old }
        ensures least { result ≡ true → IsLeastDue self.old.plain.clock self.old.servers self.new.plain.clock }
        ensures none { result ≡ false → IsNoneDue self.old.plain.clock self.old.servers }
        ensures pauses { result ≡ true → self.new.plain ≡ after_pause 0 false None self.new.plain.clock self.old.plain }
        ensures still { result ≡ false → self.new ≡ self.old }
        ensures servers { self.new.servers ≡ self.old.servers }
    {
        match least_due(self.servers.as_slice(), self.plain.clock()) {
            None => false,
            Some(due) => {
                self.plain.pause(0, false, None, due);
                true
            }
        }
    }

    // All serve, and where nothing moved the clock jumps. Returned is whether either was so.
    fn turn_all(&mut self) -> bool
        requires home { IsHome (slot_at self.old.plain MAX_HEAPS) }
        ensures leaves { TurnsLeave self.old self.new }
        ensures measure { solo_measure self.new + if_moved result ≤ solo_measure self.old }
        ensures drained { result ≡ false → IsDrained self.new }
        ensures drains { has_stopped self.new.servers ≡ false → (first : SoloView) → Drains first self.old → Drains first self.new }
    {
        let moved = self.serve_all();
        if moved {
            return true;
        }
        self.jump_due()
    }

    /// Serves all who are there, in rising number and again and again, until nothing moves. Then the clock jumps to the least deadline of
    /// a round that is still to come, which is noted as a pause of participant 0, and they serve on, until there is none. This is how a
    /// run goes on after its last line. Own.
    pub fn drain(&mut self)
        requires home { IsHome (slot_at self.old.plain MAX_HEAPS) }
        ensures drained { IsDrained self.new }
        ensures measure { solo_measure self.new ≤ solo_measure self.old }

        // What stays.
        ensures taken { (number : ℕ) → taken_from (slot_at self.new.plain number) ≡ taken_from (slot_at self.old.plain number) }
        ensures home { (number : ℕ) → IsHome (slot_at self.old.plain number) → IsHome (slot_at self.new.plain number) }
        ensures part { (who heap : ℕ) → part_in self.new.plain who heap ≡ part_in self.old.plain who heap }

        // The plain values keep their course, and each that serves goes on from itself. Where nobody has stopped in the end, all were
        // visited in turn, again and again, and the clock jumped only after visits in which nothing moved.
        ensures course { IsCourse self.old.plain self.new.plain }
        ensures later { AreLater self.old self.new }
        ensures drains { has_stopped self.new.servers ≡ false → Drains self.old self.new }
    {
        'draining: loop {
            let more = self.turn_all();
            if !more {
                return;
            }
        }
    }
}
