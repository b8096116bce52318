//! What participant 0 posts for its coordinator: SYNCs to members, and RESULTs to askers.
ghost use Rattle.std.specs.Prelude.{◌≡◌, ◌+◌, ◌*◌, ◌<◌, ◌≤◌, List, [], ◌∷◌, true, if◌then◌else◌};
ghost use Rattle.hp_base.specs.Plans.{action_of};
ghost use Rattle.hp_frame.specs.Spelling.{HasFieldValues};
ghost use Rattle.hp_frame.specs.declared.frame.Frame.{Frame};
ghost use Rattle.hp_hall.specs.Mail.{MailStep, Posts};
ghost use Rattle.hp_hall.specs.Measures.{frame_measure};
ghost use Rattle.hp_mail.specs.declared.posted.Posted.{Posted};
ghost use Rattle.hp_serve.specs.Frames.{Says};
ghost use Rattle.hp_serve.specs.Party.{one_more};
ghost use Rattle.hp_serve.specs.Posting.{AreTold, IsToldOne, is_told, result_body, sent_once_more, syncs_after, times_sent};
ghost use Rattle.hp_hall.specs.HallState.{Did, Stays};

use crate::framing::framed;
use crate::sent::one_more;
use hp_base::{MsgKind, Plan, has_bit};
use hp_frame::{Body, Frame};
use hp_hall::Hall;

// Whether a SYNC for these members goes to a participant.
fn is_told(count: u8, members: u16, who: u8) -> bool
    requires { who < 16 }
    ensures { result ≡ is_told count members who }
{
    who < count && has_bit(u32::from(members), u32::from(who))
}

/// Posts the next message of a kind to a participant, as it is planned, and counts it. Own.
pub(crate) fn post_next<H: Hall>(
    hall: &mut H,
    plan: &Plan,
    kind: MsgKind,
    counts: &mut [u64; 16],
    to: u8,
    frame: Frame,
)
    requires serves { (H.state hall.old).serves 0 }
    requires declared { to < (H.state hall.old).count }
    requires place { to < 16 }
    ensures counted { counts.new ≡ sent_once_more counts.old to }
    ensures posted { (posted : Posted)
        × Did 0 (Posts to frame (action_of plan.now kind to (one_more (times_sent counts.old to))) posted ∷ [])
        (H.state hall.old) (H.state hall.new) }
    ensures measure { (H.state hall.new).measure ≤ (H.state hall.old).measure + H.scale * (2 * frame_measure frame) }
    ensures stays { Stays 0 (H.state hall.old) (H.state hall.new) }
    ensures goes_on { H.goes_on hall.old hall.new }
{
    let place = to as usize;
    let number = one_more(counts[place]);
    counts[place] = number;
    let action = plan.message(kind, to, number);
    let _posted = hall.post(0, to, frame, action);
}

// Posts a SYNC to a participant that is to be told, and nothing to another.
fn tell_one<H: Hall>(
    hall: &mut H,
    plan: &Plan,
    syncs: &mut [u64; 16],
    frame: Frame,
    who: u8,
    told: bool,
)
    requires serves { (H.state hall.old).serves 0 }
    requires place { who < 16 }
    requires declared { told ≡ true → who < (H.state hall.old).count }
    ensures counted { syncs.new ≡ (if told then sent_once_more syncs.old who else syncs.old) }
    ensures told { (steps : List MailStep) × Did 0 steps (H.state hall.old) (H.state hall.new)
        × IsToldOne plan.now frame syncs.old who told steps }
    ensures measure { (H.state hall.new).measure ≤ (H.state hall.old).measure + H.scale * (2 * frame_measure frame) }
    ensures stays { Stays 0 (H.state hall.old) (H.state hall.new) }
    ensures goes_on { H.goes_on hall.old hall.new }
{
    if told {
        post_next(hall, plan, MsgKind::Sync, syncs, who, frame);
    }
}

// Posts a SYNC once to each participant of 1 to 15 that is to be told, in rising number.
fn tell_each<H: Hall>(hall: &mut H, plan: &Plan, syncs: &mut [u64; 16], frame: Frame, members: u16)
    requires serves { (H.state hall.old).serves 0 }
    requires weighs { frame_measure frame ≡ 3 }
    ensures counted { syncs.new ≡ syncs_after (is_told (H.state hall.old).count members) syncs.old 15 }
    ensures told { (steps : List MailStep) × Did 0 steps (H.state hall.old) (H.state hall.new)
        × AreTold plan.now syncs.old frame (is_told (H.state hall.old).count members) 15 steps }
    ensures measure { (H.state hall.new).measure ≤ (H.state hall.old).measure + H.scale * 90 }
    ensures stays { Stays 0 (H.state hall.old) (H.state hall.new) }
    ensures goes_on { H.goes_on hall.old hall.new }
{
    let count = hall.participants();
    for place in 0..15u8 {
        let who = place + 1;
        let told = is_told(count, members, who);
        tell_one(hall, plan, syncs, frame, who, told);
    }
}

/// Posts the SYNC for a generation once to each of these members that the hall has, but participant 0, in rising number. After
/// request_sync of malloc_mp.c.
pub(crate) fn tell_all<H: Hall>(
    hall: &mut H,
    plan: &Plan,
    syncs: &mut [u64; 16],
    generation: u64,
    round: u8,
    members: u16,
)
    requires serves { (H.state hall.old).serves 0 }
    requires spoken { HasFieldValues (Body.Sync generation round) }
    ensures counted { syncs.new ≡ syncs_after (is_told (H.state hall.old).count members) syncs.old 15 }
    ensures told { (frame : Frame) × (steps : List MailStep) × Did 0 steps (H.state hall.old) (H.state hall.new)
        × Says frame (Body.Sync generation round) × AreTold plan.now syncs.old frame (is_told (H.state hall.old).count members) 15 steps }
    ensures measure { (H.state hall.new).measure ≤ (H.state hall.old).measure + H.scale * 90 }
    ensures stays { Stays 0 (H.state hall.old) (H.state hall.new) }
    ensures goes_on { H.goes_on hall.old hall.new }
{
    let frame = framed(Body::Sync { generation, round });
    tell_each(hall, plan, syncs, frame, members);
}

/// The RESULT for an ask: whether memory was granted, or has gone back.
pub(crate) fn result_of(number: u64, what: u8, good: bool) -> Body
    ensures { result ≡ result_body number what good }
{
    Body::Answer {
        from: 0,
        number,
        what,
        code: u8::from(!good),
    }
}
