//! Participant 0 catches up with the log for its coordinator.
ghost use Rattle.std.specs.Prelude.{◌≡◌, ℕ, ◌+◌, ◌<◌, ◌≤◌, ◌++◌, ◌||◌, List, ◌∷◌, length};
ghost use Rattle.std.specs.Result.{result_ok};
ghost use Rattle.hp_base.specs.Mapping.{is_done};
ghost use Rattle.hp_base.specs.declared.caught.Caught.{Caught};
ghost use Rattle.hp_base.specs.declared.limits.TheConstants.{MAX_HEAPS};
ghost use Rattle.hp_core.specs.declared.event.CoreEvent.TheVariants.{SelfMapped};
ghost use Rattle.hp_hall.specs.Mail.{HasInHand, MailStep, Notes};
ghost use Rattle.hp_hall.specs.declared.note.Note.{Note};
ghost use Rattle.hp_segs.specs.Sound.{IsSound};
ghost use Rattle.hp_serve.specs.Coordinating.{IsHanded, IsMapped};
ghost use Rattle.hp_serve.specs.Denials.{nobody_denies};
ghost use Rattle.hp_serve.specs.Party.{Party, with_table};
ghost use Rattle.hp_serve.specs.Serving.{CatchesUp, tells_after_catching, told_of};
ghost use Rattle.hp_serve.specs.InHall.{marked_in};
ghost use Rattle.hp_serve.specs.Tied.{IsTied, IsTiedAs};
ghost use Rattle.hp_hall.specs.HallState.{Did, MayServe};
ghost use Rattle.hp_serve.specs.SegmentSlot.{FreesSegs, HasSegs, MayCatchUp, StaysButOwn};

use crate::calls::{put_back, take_segments};
use crate::catching::{has_table, stops_mapping, take_in};
use crate::step::hand;
use hp_base::{Judge, Mapper};
use hp_core::{Coordinator, CoreEvent, Out};
use hp_events::Watchers;
use hp_hall::Hall;
use hp_maps::LocalMaps;
use hp_segs::Segs;
use std::alloc::AllocError;

// Participant 0, which has taken the segment value, catches up with its log, and tells its coordinator what became of that.
fn catch_and_hand<H: Hall, M: Mapper, J: Judge>(
    hall: &mut H,
    core: &mut Coordinator,
    maps: &mut LocalMaps<M>,
    watchers: &mut Watchers,
    joined: &mut bool,
    segs: Segs,
    judge: &J,
) -> Result<Out, AllocError>
    requires may_ask { J.may_ask judge.now }
    requires has { HasSegs 0 segs (H.state hall.old) }
    requires hand { HasInHand MAX_HEAPS ((H.state hall.old).done 0) }
    requires declared { 0 < (H.state hall.old).count }
    requires sound { IsSound segs }
    requires log { segs.log ≡ (H.state hall.old).seen 0 }
    requires catches { MayCatchUp segs (marked_in 0 (H.state hall.old)) ((H.state hall.old).own 0) joined.old maps.old }
    requires room { length segs.log ≤ maps.old.number + watchers.old.spare }
    ensures handed { (caught : Caught) × (own now : ℕ) × (more : List MailStep)
        × Did 0 (tells_after_catching caught (length segs.log) ++ (Notes (Note.Loaded 0 own) ∷ Notes (Note.Read now) ∷ more))
        (H.state hall.old) (H.state hall.new) × CatchesUp segs.log maps.old maps.new caught
        × (joined.new ≡ (joined.old || is_done caught))
        × (watchers.new.listeners ≡ told_of segs.log caught maps.old watchers.old.listeners)
        × IsHanded nobody_denies (SelfMapped caught now) core.old core.new segs more (result_ok result) }
    ensures tied { IsTied ((H.state hall.new).seen 0) ((H.state hall.new).own 0) (marked_in 0 (H.state hall.new)) joined.new maps.new }
    ensures measure { (H.state hall.new).measure ≤ (H.state hall.old).measure }
    ensures back { FreesSegs 0 (H.state hall.old) (H.state hall.new) }
    ensures goes_on { H.goes_on hall.old hall.new }
{
    let caught = take_in(hall, 0, *joined, maps, watchers, &segs);
    let has = has_table(*joined, &caught);
    *joined = has;
    // Its own number is one of those that it knows of.
    let _number = hall.load_ack(0, 0);
    let now = hall.now(0);
    hand(
        hall,
        core,
        segs,
        CoreEvent::SelfMapped { caught, now },
        judge,
    )
}

/// Participant 0 takes the segment value, catches up with the log as it stands, and tells its watchers and its coordinator. Where its mapper
/// has made too many calls, or there is no room to tell its watchers, it gives the value back as it was. Own: DPDK's primary maps pages when
/// it adds them.
pub(crate) fn map_self<H: Hall, M: Mapper, J: Judge>(
    hall: &mut H,
    core: &mut Coordinator,
    maps: &mut LocalMaps<M>,
    watchers: &mut Watchers,
    joined: &mut bool,
    judge: &J,
) -> Result<Out, AllocError>
    requires may_ask { J.may_ask judge.now }
    requires may { MayServe 0 (H.state hall.old) }
    requires tied { IsTiedAs ((H.state hall.old).seen 0) ((H.state hall.old).own 0) (marked_in 0 (H.state hall.old))
        ((H.state hall.old).joined 0) joined.old maps.old }
    ensures mapped { (steps : List MailStep) × Did 0 steps (H.state hall.old) (H.state hall.new)
        × ((party : Party) → IsMapped (with_table core.old maps.old watchers.old.listeners joined.old party)
        (with_table core.new maps.new watchers.new.listeners joined.new party) steps (result_ok result)) }
    ensures tied { IsTiedAs ((H.state hall.new).seen 0) ((H.state hall.new).own 0) (marked_in 0 (H.state hall.new))
        ((H.state hall.new).joined 0) joined.new maps.new }
    ensures stays { StaysButOwn 0 (H.state hall.old) (H.state hall.new) }
    ensures goes_on { H.goes_on hall.old hall.new }
{
    let segs = take_segments(hall, 0);
    if stops_mapping(maps, watchers, &segs) {
        put_back(hall, 0, segs);
        return Err(AllocError);
    }
    catch_and_hand(hall, core, maps, watchers, joined, segs, judge)
}
