//! What a participant posts to participant 0 of its own accord: asks for pages, and notices that pages were given up.
ghost use Rattle.std.specs.Prelude.{◌≡◌, ◌<◌, [], ◌∷◌};
ghost use Rattle.hp_base.specs.Plans.{action_of};
ghost use Rattle.hp_frame.specs.Spelling.{HasFieldValues};
ghost use Rattle.hp_frame.specs.declared.frame.Frame.{Frame};
ghost use Rattle.hp_hall.specs.Mail.{Posts};
ghost use Rattle.hp_mail.specs.declared.posted.Posted.{Posted};
ghost use Rattle.hp_serve.specs.Asking.{alloc_body, free_body};
ghost use Rattle.hp_serve.specs.Frames.{Says};
ghost use Rattle.hp_hall.specs.HallState.{Did, Stays};

use crate::framing::framed;
use hp_base::{MsgKind, Plan, Run};
use hp_frame::Body;
use hp_hall::Hall;
use hp_segs::Ask;

/// The message that asks for pages.
pub(crate) fn alloc_body(ask: &Ask) -> Body
    ensures { result ≡ alloc_body ask.now }
{
    Body::Alloc {
        from: ask.from,
        number: ask.number,
        heap: ask.heap,
        socket: ask.socket,
        page: ask.page,
        size: ask.request.size,
        align: ask.request.align,
        bound: ask.request.bound,
        flags: ask.request.flags,
    }
}

/// The message that says that a run of a heap was given up. It says no more bytes than have place in it.
pub(crate) fn free_body(me: u8, number: u64, heap: u32, run: &Run) -> Body
    ensures { result ≡ free_body me number heap run.now }
{
    Body::Free {
        from: me,
        number,
        heap,
        address: run.addr,
        length: (run.count as u64).saturating_mul(run.page),
    }
}

/// Posts a message to participant 0, as the plan has it for the participant's message of that kind and number.
pub(crate) fn post_own<H: Hall>(
    hall: &mut H,
    me: u8,
    plan: &Plan,
    kind: MsgKind,
    number: u64,
    body: Body,
)
    requires serves { (H.state hall.old).serves me }
    requires some { 0 < (H.state hall.old).count }
    requires values { HasFieldValues body }
    ensures did { (frame : Frame) × (posted : Posted) × Says frame body
        × Did me (Posts 0 frame (action_of plan.now kind me number) posted ∷ []) (H.state hall.old) (H.state hall.new) }
    ensures stays { Stays me (H.state hall.old) (H.state hall.new) }
    ensures goes_on { H.goes_on hall.old hall.new }
{
    let frame = framed(body);
    let action = plan.message(kind, me, number);
    let _posted = hall.post(me, 0, frame, action);
}
