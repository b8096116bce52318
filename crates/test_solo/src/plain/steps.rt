//! What the participants of a hall of two do, one step after another, with what has to come of each.
ghost use Rattle.std.specs.Prelude.{◌≡◌, ℕ, true, OnOk, length};
ghost use Rattle.hp_plain.specs.HallView.{joined_in, own_at, part_in, seen_in};
ghost use Rattle.hp_plain.specs.Opening.{AreHome};
ghost use Rattle.test_solo.specs.Untouched.{IsUntouched};

use super::ends::has_ended;
use super::hall_of_two;
use super::memory::claim_memory;
use super::messages::{fetched, say};
use super::notes::{note_each, read, rest};
use super::values::{
    call_across, call_first, entries_read, join_first, note_unmapped, numbers, take_and_leave,
    tell_done, try_roster,
};
use hp_base::Action;
use hp_hall::{Busy, Hall, Posted};
use hp_plain::PlainHall;
use std::alloc::{AllocError, Global};
use std::test::Fail;

/// What is done first, while nobody has called a heap or acknowledged a record, and 1 is in the roster.
#[derive(Clone, Copy)]
pub enum First {
    // Nothing.
    Nothing,
    // Participant 1 makes its notes: its own number, that of 0, and its reading of the clock.
    Notes((u64, u64, u64)),
    // Participant 1 calls heap 3, and then 0 does.
    Calls,
    // Participant 0 calls heap 3, and 1 leaves the roster while 0 holds the heap.
    CallAcross,
}

/// One step, with what has to come of it.
#[derive(Clone, Copy)]
pub enum Step {
    // One posts a frame with that first byte to another, as it is planned, and that becomes of it.
    Post(u8, u8, u8, Action, Posted),
    // One fetches all frames: how many, and the first bytes of the first and the last one.
    FetchAll(u8, (usize, u8, u8)),
    // Participant 0 ends a turn in which nothing moved, and the clock goes on to that deadline.
    Rest(u64),
    // Participant 1 leaves the roster, and comes into it with all records taken in.
    Leave,
    Join,
    // Participant 0 tries the segment value, and sees whether 1 is in the roster.
    IsMember(bool),
    // Participant 0 tells that it has lost what its records drop.
    Partial,
    // What participant 0 knows of the number of 1, and 1 of that of 0.
    Numbers((u64, u64)),
    // Participant 1 reads the clock so.
    Read(u64),
    // A participant tells that so many of its lines are done, and so many the other one then knows of, or none where more were told before.
    Done(u8, u32, Option<u32>),
    // A participant reads of so many entries of heap 3.
    Entries(u8, u64),
    // Participant 0 claims so many pages of external memory from an address on, fewer than 16, and releases them, while it has the names in
    // hand: their list, or none.
    Claim(u64, u64, Option<u32>),
    // So many participants there are, the clock stands so, and a mailbox was full so often.
    Shows(u8, u64, u64),
}

// The step at that place, counted from 0, came out otherwise.
#[derive(Debug, Drop)]
struct Otherwise {
    place: usize,
}

// Participant 1 calls heap 3, and then 0 does.
fn call_each(hall: &mut PlainHall) -> Result<(), AllocError>
    requires two { length hall.old.owns ≡ 2 }
    requires home { AreHome hall.old }
    requires first { (who heap : ℕ) → IsUntouched (part_in hall.old who heap) }
    ensures home { OnOk result (AreHome hall.new) }
    ensures two { length hall.new.owns ≡ 2 }
{
    call_first(hall, 1, 3)?;
    call_first(hall, 0, 3)
}

// Whether what is done first came out as it stands.
fn do_first(hall: &mut PlainHall, first: First) -> Result<bool, AllocError>
    requires two { length hall.old.owns ≡ 2 }
    requires home { AreHome hall.old }
    requires first { (who heap : ℕ) → IsUntouched (part_in hall.old who heap) }
    requires nothing_yet { (own_at hall.old 1).number ≡ 0 }
    requires records { length (seen_in hall.old) ≡ 2 }
    requires joined { joined_in hall.old 1 ≡ true }
    ensures home { OnOk result (AreHome hall.new) }
    ensures two { length hall.new.owns ≡ 2 }
{
    match first {
        First::Nothing => {}
        First::Notes(noted) => return Ok(note_each(hall) == noted),
        First::Calls => call_each(hall)?,
        First::CallAcross => call_across(hall, 0, 1, 3)?,
    }
    Ok(true)
}

// Whether one of two tells the other of its lines as it stands.
fn tells_done(hall: &mut PlainHall, me: u8, lines: u32, known: Option<u32>) -> bool
    requires two { length hall.old.owns ≡ 2 }
    requires home { AreHome hall.old }
    ensures two { length hall.new.owns ≡ 2 }
    ensures home { AreHome hall.new }
{
    me < 2 && tell_done(hall, me, 1 - me, lines) == known
}

// Whether one of two reads of so many entries of heap 3.
fn reads_entries(hall: &mut PlainHall, me: u8, entries: u64) -> bool
    requires two { length hall.old.owns ≡ 2 }
    requires home { AreHome hall.old }
    ensures two { length hall.new.owns ≡ 2 }
    ensures home { AreHome hall.new }
{
    me < 2 && entries_read(hall, me, 3) == entries
}

// Whether participant 0 gets that list for so many pages of external memory.
fn claims_memory(hall: &mut PlainHall, addr: u64, pages: u64, list: Option<u32>) -> bool
    requires two { length hall.old.owns ≡ 2 }
    requires home { AreHome hall.old }
    ensures two { length hall.new.owns ≡ 2 }
    ensures home { AreHome hall.new }
{
    pages < 16 && claim_memory(hall, 0, addr, pages) == list
}

// Whether a step came out as it stands.
fn do_step(hall: &mut PlainHall, step: Step) -> Result<bool, Busy>
    requires two { length hall.old.owns ≡ 2 }
    requires home { AreHome hall.old }
    ensures home { OnOk result (AreHome hall.new) }
    ensures two { length hall.new.owns ≡ 2 }
{
    match step {
        Step::Post(me, to, kind, action, posted) => Ok(
            say(hall, me, to, kind, action) == Some(posted),
        ),
        Step::FetchAll(me, seen) => Ok(fetched(hall, me) == Some(seen)),
        Step::Rest(deadline) => Ok(rest(hall, deadline)),
        Step::Leave => {
            take_and_leave(hall, 1);
            Ok(true)
        }
        Step::Join => Ok(join_first(hall)),
        Step::IsMember(is) => Ok(try_roster(hall, 0, 1)? == is),
        Step::Partial => {
            note_unmapped(hall, 0);
            Ok(true)
        }
        Step::Numbers(known) => Ok(numbers(hall) == known),
        Step::Read(now) => Ok(read(hall, 1) == now),
        Step::Done(me, lines, known) => Ok(tells_done(hall, me, lines, known)),
        Step::Entries(me, entries) => Ok(reads_entries(hall, me, entries)),
        Step::Claim(addr, pages, list) => Ok(claims_memory(hall, addr, pages, list)),
        Step::Shows(count, clock, full_mailboxes) => {
            Ok(
                (hall.participants(), hall.clock(), hall.full_mailboxes())
                    == (count, clock, full_mailboxes),
            )
        }
    }
}

// Each step comes out as it stands.
fn do_steps(hall: &mut PlainHall, steps: &[Step]) -> Result<(), Fail>
    requires two { length hall.old.owns ≡ 2 }
    requires home { AreHome hall.old }
    ensures home { OnOk result (AreHome hall.new) }
{
    for place in 0..steps.len() {
        let Ok(true) = do_step(hall, steps[place]) else {
            return Err(Otherwise { place }.into());
        };
    }
    Ok(())
}

// What is done first, and then each step.
fn go_on(hall: &mut PlainHall, first: First, steps: &[Step]) -> Result<(), Fail>
    requires two { length hall.old.owns ≡ 2 }
    requires home { AreHome hall.old }
    requires first { (who heap : ℕ) → IsUntouched (part_in hall.old who heap) }
    requires nothing_yet { (own_at hall.old 1).number ≡ 0 }
    requires records { length (seen_in hall.old) ≡ 2 }
    requires joined { joined_in hall.old 1 ≡ true }
    ensures home { OnOk result (AreHome hall.new) }
{
    if !do_first(hall, first)? {
        return Err("what is expected at first".into());
    }
    do_steps(hall, steps)
}

/// In a hall of two all comes out as it stands: what is done first, each step, and what the hall hands out at its end, where these
/// participants called heap 3, one after another, and those in the roster are these, as bits.
pub fn play(
    alloc: Global,
    first: First,
    steps: &[Step],
    callers: &[u8],
    roster: u16,
) -> Result<(), Fail> {
    let mut hall = hall_of_two(alloc)?;
    go_on(&mut hall, first, steps)?;
    let parts = hall.into_parts();
    if !has_ended(&parts, callers, roster) {
        return Err("the values that are expected".into());
    }
    Ok(())
}
