//! What is noted of a participant, and the clock of a hall.
ghost use Rattle.std.specs.Prelude.{◌≡◌, ◌<◌, ◌≤◌, ℕ, false, true, [], ◌∷◌, Some, length};
ghost use Rattle.hp_hall.specs.HallState.{Did, OthersStay};
ghost use Rattle.hp_plain.specs.HallView.{HasDone, joined_in, own_at, seen_in};
ghost use Rattle.hp_hall.specs.Mail.{Notes, steps_of};
ghost use Rattle.hp_plain.specs.Opening.{AreHome};
ghost use Rattle.hp_plain.specs.PlainState.{plain_state};

use super::values::number_of;
use hp_hall::{Hall, Note};
use hp_plain::PlainHall;

/// A reading of a participant's clock, through the trait.
pub fn read(hall: &mut PlainHall, me: u8) -> u64
    requires me { me < length hall.old.owns }
    requires home { AreHome hall.old }
    ensures count { length hall.new.owns ≡ length hall.old.owns }
    ensures home { AreHome hall.new }
    ensures did { Did me (Notes (Note.Read result) ∷ []) (plain_state hall.old) (plain_state hall.new) }
    ensures others { OthersStay me (plain_state hall.old) (plain_state hall.new) }
{
    hall.now(me)
}

// A participant ends a turn in which nothing moved, and the clock goes on to the deadline that it waits for.
fn rest_until(hall: &mut PlainHall, me: u8, deadline: u64)
    requires me { me < length hall.old.owns }
    requires later { hall.old.clock ≤ deadline }
    requires home { AreHome hall.old }
    ensures count { length hall.new.owns ≡ length hall.old.owns }
    ensures home { AreHome hall.new }
    ensures clock { hall.new.clock ≡ deadline }
    ensures did { (who : ℕ) → HasDone hall.old hall.new who (steps_of who ((me, Notes (Note.Paused false (Some deadline))) ∷ [])) }
{
    hall.pause(me, false, Some(deadline), deadline);
}

/// Participant 0 does so, where the deadline has not passed: whether it has not.
pub fn rest(hall: &mut PlainHall, deadline: u64) -> bool
    requires two { length hall.old.owns ≡ 2 }
    requires home { AreHome hall.old }
    ensures two { length hall.new.owns ≡ 2 }
    ensures home { AreHome hall.new }
{
    if hall.clock() > deadline {
        return false;
    }
    rest_until(hall, 0, deadline);
    true
}

/// Participant 1, which is in the roster, acknowledges the first record, looks up what it has acknowledged and what the primary has, lets
/// those above it serve, which moves nothing, and reads the clock.
pub fn note_each(hall: &mut PlainHall) -> (u64, u64, u64)
    requires two { length hall.old.owns ≡ 2 }
    requires nothing_yet { (own_at hall.old 1).number ≡ 0 }
    requires records { length (seen_in hall.old) ≡ 2 }
    requires joined { joined_in hall.old 1 ≡ true }
    requires home { AreHome hall.old }
    ensures count { length hall.new.owns ≡ 2 }
    ensures home { AreHome hall.new }
    ensures did { Did 1
        (Notes (Note.Acked 1) ∷ Notes (Note.Loaded 1 result.0) ∷ Notes (Note.Loaded 0 result.1)
        ∷ Notes (Note.Yielded true (Some false)) ∷ Notes (Note.Read result.2) ∷ []) (plain_state hall.old) (plain_state hall.new) }
    ensures others { OthersStay 1 (plain_state hall.old) (plain_state hall.new) }
{
    hall.ack(1, 1);
    let own = number_of(hall, 1, 1);
    let other = number_of(hall, 1, 0);
    hall.note_yield(1, true, Some(false));
    (own, other, read(hall, 1))
}
