//! Messages as they are planned, through the trait.
ghost use Rattle.std.specs.Prelude.{◌≡◌, ◌<◌, length};
ghost use Rattle.hp_plain.specs.Opening.{AreHome};

use hp_base::Action;
use hp_frame::Frame;
use hp_hall::{Hall, Posted};
use hp_plain::PlainHall;

// A frame whose first byte is that.
fn frame(kind: u8) -> Frame {
    let mut bytes = [0; 384];
    bytes[0] = kind;
    Frame { bytes, len: 1 }
}

// Posts through the trait.
fn post(hall: &mut PlainHall, me: u8, to: u8, kind: u8, action: Action) -> Posted
    requires me { me < length hall.old.owns }
    requires to { to < length hall.old.owns }
    requires home { AreHome hall.old }
    ensures count { length hall.new.owns ≡ length hall.old.owns }
    ensures home { AreHome hall.new }
{
    hall.post(me, to, frame(kind), action)
}

// Fetches through the trait.
fn fetch(hall: &mut PlainHall, me: u8) -> Option<Frame>
    requires me { me < length hall.old.owns }
    requires home { AreHome hall.old }
    ensures count { length hall.new.owns ≡ length hall.old.owns }
    ensures home { AreHome hall.new }
{
    hall.fetch(me)
}

/// One of the two posts a frame with that first byte to one of them. `None` where there is none of such a number.
pub fn say(hall: &mut PlainHall, me: u8, to: u8, kind: u8, action: Action) -> Option<Posted>
    requires two { length hall.old.owns ≡ 2 }
    requires home { AreHome hall.old }
    ensures two { length hall.new.owns ≡ 2 }
    ensures home { AreHome hall.new }
{
    if me >= 2 || to >= 2 {
        return None;
    }
    Some(post(hall, me, to, kind, action))
}

// How many frames a participant fetches, of at most a hundred, and the first bytes of the first and the last one.
fn fetch_all(hall: &mut PlainHall, me: u8) -> (usize, u8, u8)
    requires me { me < length hall.old.owns }
    requires home { AreHome hall.old }
    ensures count { length hall.new.owns ≡ length hall.old.owns }
    ensures home { AreHome hall.new }
{
    let mut seen = (0, 0, 0);
    for place in 0..100 {
        let Some(frame) = fetch(hall, me) else {
            return seen;
        };
        seen = (
            place + 1,
            if place == 0 { frame.bytes[0] } else { seen.1 },
            frame.bytes[0],
        );
    }
    seen
}

/// What one of the two fetches. `None` where there is none of such a number.
pub fn fetched(hall: &mut PlainHall, me: u8) -> Option<(usize, u8, u8)>
    requires two { length hall.old.owns ≡ 2 }
    requires home { AreHome hall.old }
    ensures two { length hall.new.owns ≡ 2 }
    ensures home { AreHome hall.new }
{
    if me >= 2 {
        return None;
    }
    Some(fetch_all(hall, me))
}
