ghost use Rattle.std.specs.Prelude.{◌≡◌, ◌<◌, ◌≤◌, ◌+◌, ℕ, Some, false, true, IfSome, if◌then◌else◌};
ghost use Rattle.hp_base.specs.declared.limits.TheConstants.{MAX_HEAPS};
ghost use Rattle.hp_plain.specs.Course.{IsCourse};
ghost use Rattle.hp_plain.specs.HallSteps.{with_note};
ghost use Rattle.hp_plain.specs.HallView.{IsHome, slot_at};
ghost use Rattle.hp_hall.specs.Measures.{IsPending, pending_at};
ghost use Rattle.hp_hall.specs.declared.note.Note.{Note};
ghost use Rattle.hp_serve.specs.Falling.{if_moved};
ghost use Rattle.hp_solo.specs.Beside.{HaveServedBeside};
ghost use Rattle.hp_solo.specs.Sequence.{VisitsBeside};
ghost use Rattle.hp_solo.specs.Solo.{
  AreLater,
  IsAway,
  IsBeside,
  IsBetween,
  IsNextDue,
  IsNotBeside,
  IsOutside,
  has_stopped,
  server_at,
  solo_measure,
};

use super::SoloHall;
use super::deadlines::next_due;
use super::serving::serve_range;
use hp_base::Mapper;
use hp_hall::Waiting;
use hp_serve::Decide;
use std::alloc::AllocError;

impl<'p, M: Mapper, F: Decide + Copy + Drop> SoloHall<'p, M, F> {
    // Those below or above one that waits serve, in rising number, each until nothing is left for it. Returned is whether something
    // moved.
    fn serve_beside(&mut self, me: u8, above: bool) -> bool
        requires serves { IsAway (server_at self.old.servers me) }
        requires home { IsHome (slot_at self.old.plain MAX_HEAPS) }
        ensures served { HaveServedBeside me above self.old self.new result }
        ensures measure { solo_measure self.new + if_moved result ≤ solo_measure self.old }
        ensures later { AreLater self.old self.new }
        ensures visits { has_stopped self.new.servers ≡ false → VisitsBeside me above self.old self.new }
    {
        let (from, to) = apart(me as usize, above, self.servers.len());
        serve_range(&mut self.plain, &mut self.servers, from, to)
    }

    // It is noted that one let those below or above it serve, and whether something moved.
    fn note_yield(&mut self, me: u8, above: bool, moved: bool)
        requires serves { IsAway (server_at self.old.servers me) }
        ensures plain { self.new.plain ≡ with_note me (Note.Yielded above (Some moved)) self.old.plain }
        ensures servers { self.new.servers ≡ self.old.servers }
        ensures course { IsCourse self.old.plain self.new.plain }
        ensures later { AreLater self.old self.new }
    {
        self.plain.note_yield(me, above, Some(moved));
    }

    // The reading of the clock after a pause. It stands where something moved, and else jumps to the least of the deadline that is waited
    // for and those of participants that are there, of such as are still to come.
    fn reading_behind(&self, moved: bool, until: Option<u64>) -> u64
        requires before { IsPending 1 (pending_at self.now.plain.clock) moved until }
        ensures still { moved ≡ true → result ≡ self.now.plain.clock }
        ensures next { moved ≡ false → IfSome until (λ deadline.
            IsNextDue self.now.plain.clock self.now.servers deadline result) }
    {
        match until {
            Some(until) if !moved => next_due(self.servers.as_slice(), self.plain.clock(), until),
            _ => self.plain.clock(),
        }
    }
}

impl<'p, M: Mapper, F: Decide + Copy + Drop> Waiting for SoloHall<'p, M, F> {
    ghost use Rattle.std.specs.Prelude.{◌≡◌, ◌+◌, ◌*◌, ◌≤◌, ◌⊎◌, ℕ, None, IfOk, IfSome, IsOk, IsSomeAnd, false, true};
    ghost use Rattle.std.specs.Result.{result_ok};
    ghost use Rattle.hp_base.specs.declared.limits.TheConstants.{MAX_HEAPS};
    ghost use Rattle.hp_hall.specs.HallCalls.{Idles};
    ghost use Rattle.hp_hall.specs.Measures.{IsPending, counted, moved_of, pause_measure, pending_at};
    ghost use Rattle.hp_hall.specs.declared.note.Note.{Note};
    ghost use Rattle.hp_plain.specs.HallSteps.{after_pause};
    ghost use Rattle.hp_plain.specs.HallView.{IsHome, slot_at, taken_from};
    ghost use Rattle.hp_solo.specs.Beside.{HasYielded};
    ghost use Rattle.hp_solo.specs.Solo.{IsAway, IsNextDue, has_stopped, server_at, solo_measure};
    ghost use Rattle.hp_solo.specs.SoloCourse.{IsSoloCourse};
    ghost use Rattle.hp_solo.specs.SoloState.{solo_state};

    fn others(&mut self, me: u8, above: bool) -> Result<bool, AllocError>
        requires serves { IsAway (server_at self.old.servers me) }
        requires free { taken_from (slot_at self.old.plain MAX_HEAPS) ≡ None }
        requires home { IsHome (slot_at self.old.plain MAX_HEAPS) }
        ensures idles { Idles me (Note.Yielded above (result_ok result)) (solo_state self.old) (solo_state self.new) }
        ensures measure { solo_measure self.new + 1 * moved_of result ≤ solo_measure self.old }
        ensures clock { self.new.plain.clock ≡ self.old.plain.clock }
        ensures goes_on { IsSoloCourse self.old self.new }

        // It never fails. Those alone who stand on that side serve, in rising number. Each of them that has met no refusal rests then, and
        // looked last into its mailbox, which was empty; and where nothing moved it had looked there once. Then that is noted.
        ensures always { IsOk result }
        ensures yields { IfOk result (HasYielded me above self.old self.new) }
    {
        let moved = self.serve_beside(me, above);
        self.note_yield(me, above, moved);
        Ok(moved)
    }

    fn pause(&mut self, me: u8, moved: bool, until: Option<u64>)
        requires serves { IsAway (server_at self.old.servers me) }
        requires before { IsPending 1 (pending_at self.old.plain.clock) moved until }
        ensures idles { Idles me (Note.Paused moved until) (solo_state self.old) (solo_state self.new) }
        ensures falls { solo_measure self.new + counted (pending_at self.new.plain.clock) until + pause_measure 1 moved
            ≤ solo_measure self.old + counted (pending_at self.old.plain.clock) until }
        ensures lower { (deadline : ℕ) → pending_at self.new.plain.clock deadline ≤ pending_at self.old.plain.clock deadline }
        ensures clock { (self.new.plain.clock ≡ self.old.plain.clock) ⊎ IsSomeAnd until (λ deadline. self.new.plain.clock ≤ deadline) }
        ensures goes_on { IsSoloCourse self.old self.new }

        // Where something moved the clock stands. Else it jumps to the least deadline that is still to come. That is noted, and nothing
        // else changes.
        ensures still { moved ≡ true → self.new.plain.clock ≡ self.old.plain.clock }
        ensures next { moved ≡ false → IfSome until (λ deadline.
            IsNextDue self.old.plain.clock self.old.servers deadline self.new.plain.clock) }
        ensures plain { self.new.plain ≡ after_pause me moved until self.new.plain.clock self.old.plain }
        ensures servers { self.new.servers ≡ self.old.servers }
    {
        let reading = self.reading_behind(moved, until);
        self.plain.pause(me, moved, until, reading);
    }

    fn stopped(&self) -> bool
        ensures { result ≡ has_stopped self.now.servers }
    {
        self.has_stopped()
    }
}

// The numbers of those below or above one of so many: from which on, and up to which.
fn apart(me: usize, above: bool, count: usize) -> (usize, usize)
    requires { me < count }
    ensures first { result.0 ≡ (if above then me + 1 else 0) }
    ensures last { result.1 ≡ (if above then count else me) }
    ensures order { result.0 ≤ result.1 }
    ensures within { result.1 ≤ count }
    ensures outside { (who : ℕ) → IsNotBeside me above who → IsOutside result.0 result.1 who }
    ensures beside { (who : ℕ) → IsBeside me above who → who < count → IsBetween result.0 result.1 who }
    ensures between { (who : ℕ) → IsBetween result.0 result.1 who → IsBeside me above who }
{
    if above { (me + 1, count) } else { (0, me) }
}
