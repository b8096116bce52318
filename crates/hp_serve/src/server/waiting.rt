//! How a participant waits: its turns, and the wait for an answer.
ghost use Rattle.std.specs.Prelude.{◌≡◌, ℕ, ◌+◌, ◌-◌, ◌*◌, ◌^◌, ◌<◌, ◌≤◌, ◌||◌, ◌⊎◌};
ghost use Rattle.std.specs.Prelude.{List, [], ◌∷◌, false, true, Ok, Some, IfOk, OnErr, OnOk};
ghost use Rattle.std.specs.Result.{result_ok};
ghost use Rattle.hp_hall.specs.Mail.{MailStep, Notes};
ghost use Rattle.hp_hall.specs.Measures.{pause_measure};
ghost use Rattle.hp_hall.specs.declared.note.Note.{Note};
ghost use Rattle.hp_serve.specs.Falling.{served_of};
ghost use Rattle.hp_serve.specs.Party.{due_in};
ghost use Rattle.hp_serve.specs.Waiting.{HasWaited, HaveServed, IsReading, IsServedOut, IsSoonerOf, IsTurned, IsWaited, LeavesAsked};
ghost use Rattle.hp_serve.specs.Waiting.{PausesAt, PausesFor, WaitsOn};
ghost use Rattle.hp_hall.specs.HallState.{Did, Stays, Waits};
ghost use Rattle.hp_serve.specs.InHall.{CanServe, StaysAlone, StaysIn, left_to_do};

use super::Server;
use hp_base::{Judge, Mapper};
use hp_hall::{Hall, Waiting};
use std::alloc::AllocError;

// How often a participant serves itself in a turn at most: then others have theirs.
const MOST_SERVINGS: u32 = 1_024;

// The lesser of the deadline that is waited for and another one, which counts where a reading of the clock has not reached it.
fn sooner_of(reading: u64, until: u64, due: Option<u64>) -> u64
    ensures { IsSoonerOf reading until due result }
{
    match due {
        Some(due) if reading < due && due < until => due,
        _ => until,
    }
}

// Whether something moved: of its own, or of others below or above.
pub(super) fn has_moved(own: bool, below: bool, above: bool) -> bool
    ensures { result ≡ (own || (below || above)) }
{
    own || (below || above)
}

impl<'p, M: Mapper> Server<'p, M> {
    // Serves until nothing is left for it, 1,024 times at most, and answers whether it did something.
    pub(super) fn serve_some<H: Hall, J: Judge>(
        &mut self,
        hall: &mut H,
        judge: &J,
    ) -> Result<bool, AllocError>
        requires may_ask { J.may_ask judge.now }
        requires can { CanServe self.old.me self.old (H.state hall.old) }
        ensures served { (steps : List MailStep) × Did self.old.me steps (H.state hall.old) (H.state hall.new)
            × IsServedOut (J.denies judge.now) (H.state hall.old).count self.old self.new steps (result_ok result) }
        ensures measure { left_to_do H.scale H.pending self.new (H.state hall.new) + H.scale * served_of result
            ≤ left_to_do H.scale H.pending self.old (H.state hall.old) }
        ensures rests { result ≡ Ok false → (deadline : ℕ) → due_in self.new.core ≡ Some deadline → deadline < 2 ^ 64 - 1
            → H.pending (H.state hall.new).clock deadline ≡ H.scale }
        ensures alone { StaysAlone self.old.me self.old self.new (H.state hall.old) (H.state hall.new) }
        ensures goes_on { H.goes_on hall.old hall.new }
    {
        let mut moved = false;
        for _time in 0..MOST_SERVINGS {
            let more = self.serve(hall, judge)?;
            if !more {
                return Ok(moved);
            }
            moved = true;
        }
        Ok(moved)
    }

    // The sooner of a deadline and that of its own round, where that is still to come.
    fn next_deadline<H: Hall>(&self, hall: &mut H, until: u64) -> u64
        requires serves { (H.state hall.old).serves self.now.me }
        requires before { H.pending (H.state hall.old).clock until ≡ H.scale }
        ensures sooner { (reading : ℕ) × IsReading (λ deadline. H.pending (H.state hall.old).clock deadline ≡ H.scale) reading
            × IsSoonerOf reading until (due_in self.now.core) result
            × Did self.now.me (Notes (Note.Read reading) ∷ []) (H.state hall.old) (H.state hall.new) }
        ensures before { H.pending (H.state hall.new).clock result ≡ H.scale }
        ensures measure { (H.state hall.new).measure ≤ (H.state hall.old).measure }
        ensures stays { Stays self.now.me (H.state hall.old) (H.state hall.new) }
        ensures goes_on { H.goes_on hall.old hall.new }
    {
        let reading = hall.now(self.me);
        sooner_of(reading, until, self.due())
    }

    // A turn without its pause: those below serve, then the participant, then those above. Returned is whether something moved.
    fn serve_all<H: Waiting, J: Judge>(
        &mut self,
        hall: &mut H,
        judge: &J,
    ) -> Result<bool, AllocError>
        requires may_ask { J.may_ask judge.now }
        requires can { CanServe self.old.me self.old (H.state hall.old) }
        ensures served { (steps : List MailStep) × Did self.old.me steps (H.state hall.old) (H.state hall.new)
            × HaveServed (J.denies judge.now) (H.state hall.old).count self.old self.new steps (result_ok result) }
        ensures measure { left_to_do H.scale H.pending self.new (H.state hall.new) + H.scale * served_of result
            ≤ left_to_do H.scale H.pending self.old (H.state hall.old) }
        ensures rests { result ≡ Ok false → (deadline : ℕ) → due_in self.new.core ≡ Some deadline → deadline < 2 ^ 64 - 1
            → H.pending (H.state hall.new).clock deadline ≡ H.scale }
        ensures clock { (H.state hall.new).clock ≡ (H.state hall.old).clock }
        ensures stays { StaysIn self.old.me self.old self.new (H.state hall.old) (H.state hall.new) }
        ensures goes_on { H.goes_on hall.old hall.new }
    {
        let me = self.me;
        let below = hall.others(me, false)?;
        let own = self.serve_some(hall, judge)?;
        let above = hall.others(me, true)?;
        Ok(has_moved(own, below, above))
    }

    // Ends a turn with a pause until the sooner of its deadlines.
    pub(super) fn end_turn<H: Waiting>(&self, hall: &mut H, until: u64, moved: bool)
        requires serves { (H.state hall.old).serves self.now.me }
        requires before { H.pending (H.state hall.old).clock until ≡ H.scale }
        ensures falls { left_to_do H.scale H.pending self.now (H.state hall.new) + H.pending (H.state hall.new).clock until
            + pause_measure H.scale moved ≤ left_to_do H.scale H.pending self.now (H.state hall.old) + H.pending
            (H.state hall.old).clock until }
        ensures paused { PausesFor (λ deadline. H.pending (H.state hall.old).clock deadline
            ≡ H.scale) until (due_in self.now.core) (H.state hall.old).clock (H.state hall.new).clock }
        ensures did { (steps : List MailStep) × Did self.now.me steps (H.state hall.old) (H.state hall.new)
            × PausesAt until (due_in self.now.core) moved steps }
        ensures waits { Waits self.now.me (H.state hall.old) (H.state hall.new) }
        ensures own { (H.state hall.new).own self.now.me ≡ (H.state hall.old).own self.now.me }
        ensures goes_on { H.goes_on hall.old hall.new }
    {
        let next = self.next_deadline(hall, until);
        hall.pause(self.me, moved, Some(next));
    }

    /// A turn of a wait until a deadline: those below serve, then the participant itself, until nothing is left for it and 1,024
    /// times at most, then those above. At its end, where nothing moved, one thread's clock jumps to a deadline. It answers whether
    /// something moved, and that memory ran out, or a mapper's calls, where somebody stopped. Own.
    pub fn turn<H: Waiting, J: Judge>(
        &mut self,
        hall: &mut H,
        until: u64,
        judge: &J,
    ) -> Result<bool, AllocError>
        requires may_ask { J.may_ask judge.now }
        requires can { CanServe self.old.me self.old (H.state hall.old) }
        requires before { H.pending (H.state hall.old).clock until ≡ H.scale }

        // What the participant did, and what that makes of it.
        ensures turned { (steps : List MailStep) × Did self.old.me steps (H.state hall.old) (H.state hall.new)
            × IsTurned (J.denies judge.now) (H.state hall.old).count until self.old self.new steps (result_ok result) }

        // Each turn makes this measure smaller, and one that somebody stopped does not raise it.
        ensures falls { OnOk result (left_to_do H.scale H.pending self.new (H.state hall.new) + H.pending
            (H.state hall.new).clock until < left_to_do H.scale H.pending self.old (H.state hall.old) + H.pending
            (H.state hall.old).clock until) }
        ensures err { OnErr result (left_to_do H.scale H.pending self.new (H.state hall.new) + H.pending
            (H.state hall.new).clock until ≤ left_to_do H.scale H.pending self.old (H.state hall.old) + H.pending
            (H.state hall.old).clock until) }

        // It ends with a pause until the sooner of its deadlines. Where nothing moved, its own round's had not passed.
        ensures paused { OnOk result (PausesFor (λ deadline. H.pending (H.state hall.old).clock deadline
            ≡ H.scale) until (due_in self.new.core) (H.state hall.old).clock (H.state hall.new).clock) }
        ensures stands { OnErr result ((H.state hall.new).clock ≡ (H.state hall.old).clock) }
        ensures rests { result ≡ Ok false → (deadline : ℕ) → due_in self.new.core ≡ Some deadline → deadline < 2 ^ 64 - 1
            → H.pending (H.state hall.old).clock deadline ≡ H.scale }
        ensures asks { LeavesAsked self.old self.new }
        ensures stays { StaysIn self.old.me self.old self.new (H.state hall.old) (H.state hall.new) }
        ensures goes_on { H.goes_on hall.old hall.new }
    {
        let moved = self.serve_all(hall, judge)?;
        self.end_turn(hall, until, moved);
        Ok(moved)
    }

    // Whether its wait has ended at a reading of the clock: that has reached the deadline, or, where the wait is for that, its last ask
    // is answered.
    pub(super) fn ends_wait(&self, reading: u64, until: u64, heeds: bool) -> bool
        ensures ended { result ≡ true → HasWaited heeds self.now until reading }
        ensures waits_on { result ≡ false → WaitsOn heeds self.now until reading }
    {
        if until <= reading {
            return true;
        }
        heeds && self.answered
    }

    // Takes turns until a reading of the clock has reached the deadline, or, where the wait is for that, its last ask is answered.
    // Returned is the last reading.
    pub(crate) fn wait<H: Waiting, J: Judge>(
        &mut self,
        hall: &mut H,
        until: u64,
        heeds: bool,
        judge: &J,
    ) -> Result<u64, AllocError>
        requires may_ask { J.may_ask judge.now }
        requires can { CanServe self.old.me self.old (H.state hall.old) }
        ensures turned { (steps : List MailStep) × Did self.old.me steps (H.state hall.old) (H.state hall.new)
            × IsWaited (J.denies judge.now) (H.state hall.old).count until heeds self.old self.new steps (result_ok result) }

        // Its last reading is one of the clock as it is then.
        ensures waited { heeds ≡ false → IfOk result (λ reading. until ≤ reading) }
        ensures reading { IfOk result (λ reading. IsReading (λ deadline. H.pending (H.state hall.new).clock deadline ≡ H.scale) reading) }
        ensures clock { ((H.state hall.new).clock ≡ (H.state hall.old).clock) ⊎ ((H.state hall.new).clock ≤ until) }
        ensures measure { left_to_do H.scale H.pending self.new (H.state hall.new) + H.pending (H.state hall.new).clock until
            ≤ left_to_do H.scale H.pending self.old (H.state hall.old) + H.pending (H.state hall.old).clock until }
        ensures asks { LeavesAsked self.old self.new }
        ensures stays { StaysIn self.old.me self.old self.new (H.state hall.old) (H.state hall.new) }
        ensures goes_on { H.goes_on hall.old hall.new }
    {
        'waiting: loop {
            let reading = hall.now(self.me);
            let over = self.ends_wait(reading, until, heeds);
            if over {
                return Ok(reading);
            }
            self.turn(hall, until, judge)?;
        }
    }
}
