//! What is done to a segment value, one step after another, with what has to come of each.

use super::PAGE;
use super::calls::*;
use super::looks::{Look, is_so};
use super::seen::End;
use super::taking::Wants;
use hp_base::Run;
use hp_segs::{NotAll, PlanRefusal, RangeFault, Segs};
use std::alloc::{AllocError, Global};
use std::test::Fail;

/// One step, with what has to come of it. An ask is one of participant 0 for heap 3, and is named by its number.
#[derive(Clone, Copy)]
pub enum Step {
    // The participant is armed with its ask for 1,000 bytes, as all asks here are.
    Arm(u64),
    // The growth of an ask is opened, of that run.
    Open(u64, Run),
    // The participants 0 and 1 have acknowledged so many records: the open growth is granted, or one has not.
    Agree(u64, u64, Option<NotAll>),
    // It is cancelled for the failure that is noted, or else since participant 1 is late.
    Cancel,
    // The growth of an ask is granted, and the heap takes the run. Or it takes it, and gives it up.
    Take(u64, Run),
    GiveUp(u64, Run),
    // What was given up is dropped: there are so many records then.
    Drop(u64),
    // The ask that the participant is armed with is taken back: it was granted, or it ended so.
    TakeBack(u64, Option<End>),
    // An ask that is closed comes again. Or a notice comes.
    Stale(u64),
    Freed(u64),
    // Participant 1 notes that its mapping call of that number was refused the first page: it is the first failure, or not.
    Note(u64, bool),
    // A participant comes, or goes.
    Join(u8),
    Leave(u8),
    // An ask with these wants is refused. Or it is closed: by the cause of its refusal, or since a validator allows no byte.
    Refuse(u64, Wants, PlanRefusal),
    Close(u64, Wants),
    // External memory from an address on, of so many bytes and of a socket, gets a list of that number, or none. Or it gives it back.
    Claim(u64, u64, u32, Result<u32, RangeFault>),
    Release(u64, u64, u32),
    // What is seen of the value.
    See(Look),
}

// The step at that place, counted from 0, came out otherwise.
#[derive(Debug, Drop)]
struct Otherwise {
    place: usize,
}

/// Each step comes out as it stands, from that value on.
pub fn play(segs: Result<Segs, AllocError>, alloc: Global, steps: &[Step]) -> Result<(), Fail> {
    let mut segs = segs?;
    go_on(&mut segs, alloc, steps)
}

fn go_on(segs: &mut Segs, alloc: Global, steps: &[Step]) -> Result<(), Fail> {
    for place in 0..steps.len() {
        if !perform(segs, alloc, steps[place])? {
            return Err(Otherwise { place }.into());
        }
    }
    Ok(())
}

// Whether a step came out as it stands.
fn perform(segs: &mut Segs, alloc: Global, step: Step) -> Result<bool, Fail> {
    match step {
        Step::Arm(number) => arm(segs, number),
        Step::Open(number, run) => Ok(open_for(segs, number)? == run),
        Step::Agree(first, second, behind) => Ok(agree(segs, first, second)? == behind),
        Step::Cancel => cancel(segs),
        Step::Take(number, run) => Ok(take_for(segs, number)? == run),
        Step::GiveUp(number, run) => Ok(give_up_for(segs, number)? == run),
        Step::Drop(records) => Ok(drop_all(segs)? == records),
        Step::TakeBack(number, end) => Ok(take_back(segs, number)? == end),
        Step::Stale(number) => log_stale(segs, number),
        Step::Freed(number) => log_freed(segs, number),
        Step::Note(call, first) => Ok(note(segs, call)? == first),
        Step::Join(participant) => Ok(join(segs, participant)),
        Step::Leave(participant) => Ok(leave(segs, participant)),
        Step::Refuse(number, wants, refusal) => Ok(
            refusal_of(segs, number, wants)? == Some(refusal),
        ),
        Step::Close(number, wants) => close(segs, number, wants),
        Step::Claim(addr, len, socket, list) => Ok(
            segs.claim_range(addr, len, PAGE, socket) == list,
        ),
        Step::Release(addr, len, socket) => Ok(claim_and_release(segs, addr, len, socket)),
        Step::See(look) => is_so(segs, alloc, look),
    }
}
