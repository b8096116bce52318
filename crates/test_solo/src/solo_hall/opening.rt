//! Halls of two participants, who are both there.
ghost use Rattle.std.specs.Prelude.{◌≡◌, ◌<◌, ℕ, [], IfOk, OnOk, length, true};
ghost use Rattle.hp_base.specs.declared.limits.TheConstants.{MAX_HEAPS};
ghost use Rattle.hp_plain.specs.HallView.{IsHome, joined_in, own_at, slot_at};
ghost use Rattle.hp_serve.specs.Tied.{nothing_yet};
ghost use Rattle.hp_solo.specs.Solo.{marked_at};
ghost use Rattle.hp_solo.specs.SoloAsks.{IsOpening, MayBeginToAsk};

use crate::tests::{member, no_limits, plain_hall};
use hp_base::{MemMapper, Plan};
use hp_serve::{Decision, JudgedServer};
use hp_solo::SoloHall;
use std::alloc::{AllocError, Global};

// The one of a number comes.
fn come<'p>(
    hall: &mut SoloHall<'p, MemMapper, Decision>,
    alloc: Global,
    plan: &'p Plan,
    me: u8,
) -> Result<(), AllocError>
    requires me { me < 2 }
    requires two { length hall.old.plain.owns ≡ 2 }
    requires nothing_yet { own_at hall.old.plain me ≡ nothing_yet }
    requires joined { joined_in hall.old.plain me ≡ true }
    requires unmarked { (heap : ℕ) → marked_at hall.old.plain me heap ≡ [] }
    ensures { OnOk result (hall.new.plain ≡ hall.old.plain) }
{
    let server = member(alloc, me, plan)?;
    let limits = no_limits(alloc);
    let judged = Box::new(alloc, JudgedServer { server, limits })?;
    hall.back(judged);
    Ok(())
}

// A hall that opens, in which both are there.
fn opened_hall<'p>(
    alloc: Global,
    plan: &'p Plan,
) -> Result<SoloHall<'p, MemMapper, Decision>, AllocError>
    ensures opening { IfOk result (λ hall. IsOpening hall.plain) }
{
    let plain = plain_hall(alloc)?;
    let mut hall = SoloHall::new(alloc, plain)?;
    come(&mut hall, alloc, plan, 0)?;
    come(&mut hall, alloc, plan, 1)?;
    Ok(hall)
}

/// A hall of the two, in which both are there, and nobody has asked.
pub fn hall_of_two<'p>(
    alloc: Global,
    plan: &'p Plan,
) -> Result<SoloHall<'p, MemMapper, Decision>, AllocError>
    ensures two { IfOk result (λ hall. length hall.plain.owns ≡ 2) }
    ensures home { IfOk result (λ hall. IsHome (slot_at hall.plain MAX_HEAPS)) }
    ensures begins { IfOk result (λ hall. (who : ℕ) → MayBeginToAsk hall.plain who) }
{
    opened_hall(alloc, plan)
}
