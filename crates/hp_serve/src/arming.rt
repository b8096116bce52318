//! A participant is armed with an ask for pages before it sends it.
ghost use Rattle.std.specs.Prelude.{◌≡◌, ℕ, ◌<◌, [], ◌∷◌, Some, IfOk, IfSome, IsSome, OnErr, OnOk};
ghost use Rattle.hp_base.specs.declared.limits.TheConstants.{MAX_PARTICIPANTS};
ghost use Rattle.hp_segs.specs.Calls.{MayArm};
ghost use Rattle.hp_segs.specs.LaterSteps.{after_arm, armed_ask};
ghost use Rattle.hp_segs.specs.SegsView.{SegsView, closed_number};
ghost use Rattle.hp_segs.specs.SettledAsks.{IsSettled};
ghost use Rattle.hp_segs.specs.Sound.{IsSound};
ghost use Rattle.hp_segs.specs.declared.ask.Ask.{Ask};
ghost use Rattle.hp_serve.specs.Asking.{IsAwaiting, IsHeldAsBefore, IsNextAsk, HasSettledAsks, next_number};
ghost use Rattle.hp_serve.specs.Asking.{ask_of};
ghost use Rattle.hp_serve.specs.Serving.{gives_segments, takes_segments};
ghost use Rattle.hp_hall.specs.HallState.{Did, HasMapped};
ghost use Rattle.hp_serve.specs.AskSteps.{IsArmedAsBefore};
ghost use Rattle.hp_serve.specs.SegmentSlot.{GivesBack, HasSegs, MayHold, PutsBack, StaysButParts};

use crate::calls::{give_back, put_back, take_segments};
use crate::pages_asked::PagesAsked;
use hp_hall::Hall;
use hp_segs::{Ask, Segs};
use std::alloc::AllocError;

// The number of a participant's next ask, by the segment value and its last one. It is `None` where the numbers have come to an end.
fn next_number(segs: &Segs, me: u8, asked: u64) -> Option<u64>
    requires few { me < MAX_PARTICIPANTS }
    ensures { IfSome result (λ number. number ≡ next_number asked segs.now.asks me) }
{
    segs.closed(me).max(asked).checked_add(1)
}

// The ask of that number for pages.
fn ask_of(me: u8, number: u64, asked: &PagesAsked) -> Ask
    ensures { result ≡ ask_of me number asked.now }
{
    Ask {
        from: me,
        number,
        heap: asked.heap,
        socket: asked.socket,
        page: asked.page,
        request: asked.request,
    }
}

// Arms a participant, which has taken the segment value, with a new ask for a heap that it holds, where its earlier one is settled, and
// gives the value back: as it was, where memory ran out.
fn arm_taken<H: Hall>(hall: &mut H, me: u8, segs: Segs, ask: &Ask) -> Result<(), AllocError>
    requires has { HasSegs me segs (H.state hall.old) }
    requires sound { IsSound segs }
    requires own { ask.now.from ≡ me }
    requires may { MayArm ask.now segs }
    requires above { closed_number segs.asks me < ask.now.number }
    requires holds { IsSome ((H.state hall.old).part me ask.now.heap).holding }
    requires settled { (earlier : Ask) → armed_ask segs me ≡ Some earlier → IsSettled earlier.from earlier.number segs }
    ensures armed { OnOk result ((heap : ℕ) → ((H.state hall.new).part me heap).armed ≡ Some ask.now) }
    ensures held { (heap : ℕ) → IsHeldAsBefore ((H.state hall.old).part me heap) ((H.state hall.new).part me heap) }
    ensures ok { OnOk result (GivesBack me (after_arm ask.now segs) (H.state hall.old) (H.state hall.new)) }
    ensures err { OnErr result (PutsBack me segs (H.state hall.old) (H.state hall.new)) }
    ensures goes_on { H.goes_on hall.old hall.new }
{
    let mut armed = segs;
    match armed.arm(ask) {
        Ok(()) => {
            give_back(hall, me, armed);
            Ok(())
        }
        Err(AllocError) => {
            put_back(hall, me, armed);
            Err(AllocError)
        }
    }
}

/// Arms a participant with its next ask for pages, where its last one had that number. Without memory for the log places of the ask, or
/// where the numbers have come to an end, it is armed as before, and gives the segment value back as it was taken. Own.
pub fn arm<H: Hall>(
    hall: &mut H,
    me: u8,
    before: u64,
    asked: &PagesAsked,
) -> Result<Ask, AllocError>
    requires may { MayHold me (H.state hall.old) }
    requires few { me < MAX_PARTICIPANTS }
    requires settled { HasSettledAsks ((H.state hall.old).part me) ((H.state hall.old).heard me) }
    requires holds { IsSome ((H.state hall.old).part me asked.now.heap).holding }
    ensures asked { IfOk result (IsNextAsk me before asked.now ((H.state hall.new).heard me)) }
    ensures awaits { IfOk result (λ ask. IsAwaiting ask ((H.state hall.new).part me)) }
    ensures held { (heap : ℕ) → IsHeldAsBefore ((H.state hall.old).part me heap) ((H.state hall.new).part me heap) }
    ensures did { IfOk result (λ ask. (taken : SegsView) × (ask.number ≡ next_number before taken.asks me)
        × Did me (takes_segments taken ∷ gives_segments (after_arm ask taken) ∷ []) (H.state hall.old) (H.state hall.new)) }
    ensures err { OnErr result (IsArmedAsBefore me (H.state hall.old) (H.state hall.new)) }
    ensures mapped { HasMapped me (H.state hall.new) }
    ensures stays { StaysButParts me (H.state hall.old) (H.state hall.new) }
    ensures goes_on { H.goes_on hall.old hall.new }
{
    let segs = take_segments(hall, me);
    let Some(number) = next_number(&segs, me, before) else {
        put_back(hall, me, segs);
        return Err(AllocError);
    };
    let ask = ask_of(me, number, asked);
    arm_taken(hall, me, segs, &ask)?;
    Ok(ask)
}
