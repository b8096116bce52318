//! What participant 0 tells its coordinator in a poll, and when a poll is due.
ghost use Rattle.std.specs.Prelude.{◌≡◌, ℕ, ◌^◌, ◌-◌, ◌<◌, ◌≤◌, List, [], ◌∷◌, Some, true, false, nat_lt, slice_index, if◌then◌else◌};
ghost use Rattle.hp_core.specs.declared.event.CoreEvent.TheVariants.{Poll};
ghost use Rattle.hp_hall.specs.Mail.{MailStep, Notes};
ghost use Rattle.hp_hall.specs.declared.note.Note.{Note};
ghost use Rattle.hp_serve.specs.Coordinating.{AreLookedUp, core_holds};
ghost use Rattle.hp_serve.specs.Falling.{IsDue};
ghost use Rattle.hp_serve.specs.Party.{due_in};
ghost use Rattle.hp_hall.specs.HallState.{Did, Stays};

use hp_core::Coordinator;
use hp_hall::Hall;

// The number of a participant, as participant 0 has it; 0 for one that the hall doesn't have.
fn load_number<H: Hall>(hall: &mut H, count: u8, member: u8) -> u64
    requires serves { (H.state hall.old).serves 0 }
    requires count { count ≡ (H.state hall.old).count }
    ensures noted { result ≤ ((H.state hall.new).noted 0 member).number }
    ensures nobody { count ≤ member → result ≡ 0 }
    ensures did { Did 0 (if nat_lt member count then Notes (Note.Loaded member result) ∷ [] else []) (H.state hall.old)
        (H.state hall.new) }
    ensures measure { (H.state hall.new).measure ≤ (H.state hall.old).measure }
    ensures stays { Stays 0 (H.state hall.old) (H.state hall.new) }
    ensures goes_on { H.goes_on hall.old hall.new }
{
    if member < count {
        hall.load_ack(0, member)
    } else {
        0
    }
}

/// The numbers of the participants 0 to 15, as participant 0 has them; 0 for those that the hall doesn't have. Own.
pub(crate) fn load_acks<H: Hall>(hall: &mut H) -> [u64; 16]
    requires serves { (H.state hall.old).serves 0 }
    ensures noted { (member : ℕ) → member < 16 → slice_index result member ≤ ((H.state hall.new).noted 0 member).number }
    ensures did { (steps : List MailStep) × Did 0 steps (H.state hall.old) (H.state hall.new)
        × AreLookedUp (H.state hall.old).count result steps }
    ensures measure { (H.state hall.new).measure ≤ (H.state hall.old).measure }
    ensures stays { Stays 0 (H.state hall.old) (H.state hall.new) }
    ensures goes_on { H.goes_on hall.old hall.new }
{
    let count = hall.participants();
    let mut acks = [0; 16];
    for member in 0..16u8 {
        acks[member as usize] = load_number(hall, count, member);
    }
    acks
}

// Whether a deadline has passed at a reading. One at the end of the clock's type never does.
fn has_passed(due: Option<u64>, now: u64) -> bool
    ensures passed { result ≡ true → (deadline : ℕ) × (due ≡ Some deadline) × (deadline < 2 ^ 64 - 1) × (deadline ≤ now) }
    ensures early { result ≡ false → (deadline : ℕ) → due ≡ Some deadline → deadline < 2 ^ 64 - 1 → now < deadline }
{
    match due {
        Some(deadline) => deadline < u64::MAX && deadline <= now,
        None => false,
    }
}

/// Whether a poll is due at a reading of the clock: an ask that is held can be started, or the deadline of the round under way has
/// passed. Own.
pub(crate) fn is_due(coordinator: &Option<Coordinator>, now: u64) -> bool
    ensures due { result ≡ true → (acks : List ℕ) → IsDue coordinator.now (Poll now acks) }
    ensures rests { result ≡ false → core_holds coordinator.now ≡ false }
    ensures early { result ≡ false → (deadline : ℕ) → due_in coordinator.now ≡ Some deadline → deadline < 2 ^ 64 - 1
        → now < deadline }
{
    match coordinator {
        None => false,
        Some(core) => core.holds_ask() || has_passed(core.due(), now),
    }
}
