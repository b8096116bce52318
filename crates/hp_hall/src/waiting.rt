ghost use Rattle.std.specs.Prelude.{◌≡◌, ℕ, ◌+◌, ◌*◌, ◌≤◌, ◌⊎◌, None, IsSomeAnd};
ghost use Rattle.std.specs.Result.{result_ok};
ghost use Rattle.hp_base.specs.declared.limits.TheConstants.{MAX_HEAPS};
ghost use Rattle.hp_hall.specs.HallCalls.{Idles};
ghost use Rattle.hp_hall.specs.declared.note.Note.{Note};
ghost use Rattle.hp_hall.specs.Measures.{IsPending, counted, moved_of, pause_measure};

use crate::hall::Hall;
use std::alloc::AllocError;

/// A hall in which a participant can wait. A turn of a wait is `others` below, its own serving, `others` above, and `pause`. Own.
pub trait Waiting: Hall {
    /// Serves the participants below or above `me` in rising number, each until nothing is left for it, and tells whether something
    /// moved. Over threads it serves nobody: they serve themselves.
    fn others(&mut self, me: u8, above: bool) -> Result<bool, AllocError>
        requires serves { (Self.state self.old).serves me }
        requires free { (Self.state self.old).taken MAX_HEAPS ≡ None }
        requires home { (Self.state self.old).may_take MAX_HEAPS }
        ensures idles { Idles me (Note.Yielded above (result_ok result)) (Self.state self.old) (Self.state self.new) }
        ensures measure { (Self.state self.new).measure + Self.scale * moved_of result ≤ (Self.state self.old).measure }
        ensures clock { (Self.state self.new).clock ≡ (Self.state self.old).clock }
        ensures goes_on { Self.goes_on self.old self.new };

    /// Ends a turn. In one thread, where nothing moved in it, the clock jumps to the least pending deadline, `until` among them, of
    /// which there has to be one; over threads it lets others run.
    fn pause(&mut self, me: u8, moved: bool, until: Option<u64>)
        requires serves { (Self.state self.old).serves me }
        requires before { IsPending Self.scale (Self.pending (Self.state self.old).clock) moved until }
        ensures idles { Idles me (Note.Paused moved until) (Self.state self.old) (Self.state self.new) }
        ensures falls { (Self.state self.new).measure + counted (Self.pending (Self.state self.new).clock) until + pause_measure Self.scale moved
            ≤ (Self.state self.old).measure + counted (Self.pending (Self.state self.old).clock) until }
        ensures lower { (deadline : ℕ) → Self.pending (Self.state self.new).clock deadline ≤ Self.pending (Self.state self.old).clock deadline }
        ensures clock { ((Self.state self.new).clock ≡ (Self.state self.old).clock)
            ⊎ IsSomeAnd until (λ deadline. (Self.state self.new).clock ≤ deadline) }
        ensures goes_on { Self.goes_on self.old self.new };

    /// Whether a participant has met a refusal of memory while it served, as the hall last saw: over threads it looks when it pauses.
    fn stopped(&self) -> bool
        ensures { result ≡ (Self.state self.now).stopped };
}
