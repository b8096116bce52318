//! What a member does that follows a SYNC, once it has taken the segment value.
ghost use Rattle.std.specs.Prelude.{◌≡◌, ◌+◌, ◌*◌, ◌<◌, ◌≤◌, ◌++◌, ◌||◌, [], ◌∷◌, true, length};
ghost use Rattle.hp_base.specs.Mapping.{is_done};
ghost use Rattle.hp_base.specs.Plans.{action_of};
ghost use Rattle.hp_base.specs.declared.limits.TheConstants.{MAX_PARTICIPANTS};
ghost use Rattle.hp_base.specs.declared.plan_entry.MsgKind.{MsgKind};
ghost use Rattle.hp_core.specs.Following.{after_catching, reply_of};
ghost use Rattle.hp_frame.specs.Spelling.{HasFieldValues};
ghost use Rattle.hp_frame.specs.declared.frame.Frame.{Frame};
ghost use Rattle.hp_mail.specs.declared.posted.Posted.{Posted};
ghost use Rattle.hp_hall.specs.Mail.{Posts};
ghost use Rattle.hp_segs.specs.SegsView.{is_member};
ghost use Rattle.hp_serve.specs.Frames.{Says};
ghost use Rattle.hp_serve.specs.Party.{one_more};
ghost use Rattle.hp_serve.specs.Serving.{CatchesUp, gives_segments, is_reply, tells_after_catching, told_of};
ghost use Rattle.hp_serve.specs.InHall.{marked_in};
ghost use Rattle.hp_serve.specs.Tied.{IsTied};
ghost use Rattle.hp_hall.specs.HallState.{Did, Stays};
ghost use Rattle.hp_serve.specs.SegmentSlot.{FreesSegs, HasJustTaken, HasSegs, MayCatchUp, PutsBack};

use crate::calls::give_segments;
use crate::catching::take_in;
use crate::framing::framed;
use crate::sent::one_more;
use hp_base::{Caught, Mapper, MsgKind, Plan};
use hp_core::follow;
use hp_events::Watchers;
use hp_frame::Body;
use hp_hall::Hall;
use hp_maps::LocalMaps;
use hp_segs::Segs;

// Posts a reply to participant 0, as the plan has it for the next one, where so many were sent before.
fn post_reply<H: Hall>(hall: &mut H, me: u8, plan: &Plan, replies: u64, body: Body)
    requires serves { (H.state hall.old).serves me }
    requires some { 0 < (H.state hall.old).count }
    requires values { HasFieldValues body }
    requires reply { is_reply body ≡ true }
    ensures did { (frame : Frame) × (posted : Posted) × Says frame body
        × Did me (Posts 0 frame (action_of plan.now MsgKind.Reply me (one_more replies)) posted ∷ []) (H.state hall.old)
        (H.state hall.new) }
    ensures measure { (H.state hall.new).measure ≤ (H.state hall.old).measure + H.scale * 2 }
    ensures stays { Stays me (H.state hall.old) (H.state hall.new) }
    ensures goes_on { H.goes_on hall.old hall.new }
{
    let frame = framed(body);
    let action = plan.message(MsgKind::Reply, me, one_more(replies));
    let _posted = hall.post(me, 0, frame, action);
}

// Notes a mapping that failed and gives the segment value back. Returned is the reply.
fn give_noted<H: Hall>(hall: &mut H, me: u8, caught: &Caught, segs: Segs) -> Body
    requires has { HasSegs me segs (H.state hall.old) }
    requires member { is_member segs.roster me ≡ true }
    ensures reply { result ≡ reply_of me caught.now segs }
    ensures log { (H.state hall.new).seen me ≡ segs.log }
    ensures back { PutsBack me (after_catching me caught.now segs) (H.state hall.old) (H.state hall.new) }
    ensures goes_on { H.goes_on hall.old hall.new }
{
    let mut given = segs;
    let reply = follow(&mut given, me, caught);
    give_segments(hall, me, given);
    reply
}

/// A member that has taken the segment value does what a SYNC asks: it catches up with the log as it stands and tells its watchers,
/// acknowledges that or notes a mapping that failed, gives the value back and posts its reply, which is the next one after so many. `joined`
/// says whether it had a table before.
pub(crate) fn follow_and_reply<H: Hall, M: Mapper>(
    hall: &mut H,
    me: u8,
    joined: bool,
    maps: &mut LocalMaps<M>,
    watchers: &mut Watchers,
    plan: &Plan,
    replies: u64,
    segs: Segs,
) -> Caught
    requires taken { HasJustTaken me segs (H.state hall.old) }
    requires some { 0 < (H.state hall.old).count }
    requires few { me < MAX_PARTICIPANTS }
    requires member { is_member segs.roster me ≡ true }
    requires may { MayCatchUp segs (marked_in me (H.state hall.old)) ((H.state hall.old).own me) joined maps.old }
    requires room { length segs.log ≤ maps.old.number + watchers.old.spare }
    ensures caught { CatchesUp segs.log maps.old maps.new result }
    ensures heard { watchers.new.listeners ≡ told_of segs.log result maps.old watchers.old.listeners }
    ensures tied { IsTied ((H.state hall.new).seen me) ((H.state hall.new).own me) (marked_in me (H.state hall.new)) (joined || is_done result)
        maps.new }
    ensures did { (frame : Frame) × (posted : Posted) × Says frame (reply_of me result segs)
        × Did me (tells_after_catching result (length segs.log) ++ (gives_segments (after_catching me result segs)
        ∷ Posts 0 frame (action_of plan.now MsgKind.Reply me (one_more replies)) posted ∷ [])) (H.state hall.old) (H.state hall.new) }
    ensures measure { (H.state hall.new).measure ≤ (H.state hall.old).measure + H.scale * 2 }
    ensures back { FreesSegs me (H.state hall.old) (H.state hall.new) }
    ensures goes_on { H.goes_on hall.old hall.new }
{
    let caught = take_in(hall, me, joined, maps, watchers, &segs);
    let reply = give_noted(hall, me, &caught, segs);
    post_reply(hall, me, plan, replies, reply);
    caught
}
