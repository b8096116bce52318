//! What the one that does a line does by hand, in any hall: a call of it each.
ghost use Rattle.std.specs.Prelude.{◌≡◌, ◌<◌, ◌≤◌, ℕ};
ghost use Rattle.hp_serve.specs.InHall.{CanServe};
ghost use Rattle.test_solo.specs.Asking.{MayBegin};

use crate::tests::shown::{End, SegsShown, shown_in};
use crate::tests::{BASE, PAGE, arm_first};
use hp_base::{Action, MemMapper, NoLimits};
use hp_frame::Body;
use hp_hall::{Hall, Posted, Waiting};
use hp_serve::{PagesAsked, Server, framed, put_back, take_segments};
use std::alloc::AllocError;

/// It takes heap 0, and is armed with its first ask, for pages for that heap.
pub fn arm<H: Hall>(
    hall: &mut H,
    party: &Server<'_, MemMapper>,
    asked: &PagesAsked,
) -> Result<(), AllocError>
    requires few { party.now.me < 2 }
    requires begins { MayBegin party.now (H.state hall.old) }
    requires first { asked.now.heap ≡ 0 }
    ensures can { CanServe party.now.me party.now (H.state hall.new) }
{
    arm_first(hall, party.number(), asked)
}

/// It posts its first ask to participant 0, as one of that number.
pub fn ask<H: Hall>(hall: &mut H, party: &Server<'_, MemMapper>, from: u8) -> Posted
    requires from { from < 2 }
    requires can { CanServe party.now.me party.now (H.state hall.old) }
    ensures can { CanServe party.now.me party.now (H.state hall.new) }
{
    let me = party.number();
    let frame = framed(Body::Alloc {
        from,
        number: 1,
        heap: 0,
        socket: 0,
        page: PAGE,
        size: 1000,
        align: 0,
        bound: 0,
        flags: 0,
    });
    hall.post(me, 0, frame, Action::Deliver)
}

/// It tells participant 0, as participant 1, that it gave the first page up, by a notice of number 2.
pub fn free<H: Hall>(hall: &mut H, party: &Server<'_, MemMapper>) -> Posted
    requires can { CanServe party.now.me party.now (H.state hall.old) }
    ensures can { CanServe party.now.me party.now (H.state hall.new) }
{
    let me = party.number();
    let frame = framed(Body::Free {
        from: 1,
        number: 2,
        heap: 0,
        address: BASE,
        length: PAGE,
    });
    hall.post(me, 0, frame, Action::Deliver)
}

/// A RESULT for its first ask comes into its mailbox by hand, before it has asked.
pub fn answer_early<H: Hall>(hall: &mut H, party: &Server<'_, MemMapper>) -> Posted
    requires begins { MayBegin party.now (H.state hall.old) }
    ensures begins { MayBegin party.now (H.state hall.new) }
{
    let me = party.number();
    let frame = framed(Body::Answer {
        from: 0,
        number: 1,
        what: 2,
        code: 0,
    });
    hall.post(me, me, frame, Action::Deliver)
}

/// Those below or above it serve.
pub fn others<H: Waiting>(
    hall: &mut H,
    party: &Server<'_, MemMapper>,
    above: bool,
) -> Result<bool, AllocError>
    requires can { CanServe party.now.me party.now (H.state hall.old) }
    ensures can { CanServe party.now.me party.now (H.state hall.new) }
{
    hall.others(party.number(), above)
}

/// It serves once itself.
pub fn serve<H: Hall>(hall: &mut H, party: &mut Server<'_, MemMapper>) -> Result<bool, AllocError>
    requires can { CanServe party.old.me party.old (H.state hall.old) }
    ensures can { CanServe party.new.me party.new (H.state hall.new) }
{
    party.serve(hall, &NoLimits)
}

/// A turn of its wait, but for the pause: who did something, of those below, itself and those above.
pub fn turn<H: Waiting>(
    hall: &mut H,
    party: &mut Server<'_, MemMapper>,
) -> Result<(bool, bool, bool), AllocError>
    requires can { CanServe party.old.me party.old (H.state hall.old) }
    ensures can { CanServe party.new.me party.new (H.state hall.new) }
{
    let below = others(hall, party, false)?;
    let itself = serve(hall, party)?;
    let above = others(hall, party, true)?;
    Ok((below, itself, above))
}

/// The reading of its clock.
pub fn read<H: Hall>(hall: &mut H, party: &Server<'_, MemMapper>) -> u64
    requires can { CanServe party.now.me party.now (H.state hall.old) }
    ensures can { CanServe party.now.me party.now (H.state hall.new) }
    ensures before { (until : ℕ) → result < until → H.pending (H.state hall.new).clock until ≡ H.scale }
{
    hall.now(party.number())
}

// A pause of a turn in which nothing moved, up to a deadline that is still to come.
fn pause_before<H: Waiting>(hall: &mut H, party: &Server<'_, MemMapper>, until: u64)
    requires can { CanServe party.now.me party.now (H.state hall.old) }
    ensures can { CanServe party.now.me party.now (H.state hall.new) }
{
    if read(hall, party) < until {
        hall.pause(party.number(), false, Some(until));
    }
}

// A turn of a wait until a deadline that is still to come.
fn turn_until<H: Waiting>(
    hall: &mut H,
    party: &mut Server<'_, MemMapper>,
    until: u64,
) -> Result<bool, AllocError>
    requires can { CanServe party.old.me party.old (H.state hall.old) }
    requires before { H.pending (H.state hall.old).clock until ≡ H.scale }
    ensures can { CanServe party.new.me party.new (H.state hall.new) }
{
    party.turn(hall, until, &NoLimits)
}

// A turn of a wait until a deadline. Where that is not to come, it counts as one in which something moved.
fn turn_before<H: Waiting>(
    hall: &mut H,
    party: &mut Server<'_, MemMapper>,
    until: u64,
) -> Result<bool, AllocError>
    requires can { CanServe party.old.me party.old (H.state hall.old) }
    ensures can { CanServe party.new.me party.new (H.state hall.new) }
{
    if read(hall, party) < until {
        turn_until(hall, party, until)
    } else {
        Ok(true)
    }
}

/// It takes a turn of a wait until a deadline that is still to come: whether something moved, and the reading of its clock afterwards.
pub fn take_turn<H: Waiting>(
    hall: &mut H,
    party: &mut Server<'_, MemMapper>,
    until: u64,
) -> Result<(bool, u64), AllocError>
    requires can { CanServe party.old.me party.old (H.state hall.old) }
    ensures can { CanServe party.new.me party.new (H.state hall.new) }
{
    let moved = turn_before(hall, party, until)?;
    Ok((moved, read(hall, party)))
}

/// It pauses where nothing moved, up to a deadline that is still to come: the reading of its clock afterwards.
pub fn pause<H: Waiting>(hall: &mut H, party: &Server<'_, MemMapper>, until: u64) -> u64
    requires can { CanServe party.now.me party.now (H.state hall.old) }
    ensures can { CanServe party.now.me party.now (H.state hall.new) }
{
    pause_before(hall, party, until);
    read(hall, party)
}

/// The kind of the first frame of its mailbox, and 0 where that is empty.
pub fn fetch<H: Hall>(hall: &mut H, party: &Server<'_, MemMapper>) -> u8
    requires can { CanServe party.now.me party.now (H.state hall.old) }
    ensures can { CanServe party.now.me party.now (H.state hall.new) }
{
    match hall.fetch(party.number()) {
        None => 0,
        Some(frame) => frame.bytes[0],
    }
}

// How many records one of those up to it has acknowledged.
fn load<H: Hall>(hall: &mut H, party: &Server<'_, MemMapper>, who: u8) -> u64
    requires who { who ≤ party.now.me }
    requires can { CanServe party.now.me party.now (H.state hall.old) }
    ensures can { CanServe party.now.me party.now (H.state hall.new) }
{
    hall.load_ack(party.number(), who)
}

/// How many records participant 0 has acknowledged, and how many it has itself.
pub fn acks<H: Hall>(hall: &mut H, party: &Server<'_, MemMapper>) -> (u64, u64)
    requires can { CanServe party.now.me party.now (H.state hall.old) }
    ensures can { CanServe party.now.me party.now (H.state hall.new) }
{
    let first = load(hall, party, 0);
    let own = load(hall, party, party.number());
    (first, own)
}

/// It takes the segment value, looks what that shows, and gives it back.
pub fn look<H: Hall>(hall: &mut H, party: &Server<'_, MemMapper>) -> SegsShown
    requires can { CanServe party.now.me party.now (H.state hall.old) }
    ensures can { CanServe party.now.me party.now (H.state hall.new) }
{
    let me = party.number();
    let segs = take_segments(hall, me);
    let shown = shown_in(&segs);
    put_back(hall, me, segs);
    shown
}

/// How the last ask ended, with the number of its participant and its own, and how many records there are.
pub fn outcome<H: Hall>(
    hall: &mut H,
    party: &Server<'_, MemMapper>,
) -> (Option<(u8, u64, End)>, usize)
    requires can { CanServe party.now.me party.now (H.state hall.old) }
    ensures can { CanServe party.now.me party.now (H.state hall.new) }
{
    let shown = look(hall, party);
    (shown.last, shown.records)
}
